//! What both sides of a link agree on by the private data of their hellos (RFC 5044 section 7.1). All of it is own.

ghost use Rattle.std.specs.Prelude.{◌≡◌, ◌≤◌};
ghost use Rattle.arrayvec.specs.ArrayVec.{array_vec_len};
ghost use Rattle.nr_wire.specs.Constants.{NUMBERED_TERMS_LEN};
ghost use Rattle.nr_link.specs.Agreement.{agreement, client_number, default_agreement, default_terms, initiator_private, responder_private, sized_terms, terms_with};

use crate::constants::SEND_UNIT;
use arrayvec::ArrayVec;
use nr_wire::constants::NUMBERED_TERMS_LEN;
use nr_wire::{read_terms, write_terms};

/// What a side of a link is opened with.
#[derive(Clone, Copy, PartialEq, Eq)]
pub struct SideTerms {
    /// The maximum length of a Send that it writes or takes, in units of 1,024 bytes. 0 counts as 1, and more than 16 as 16.
    pub units: u8,
    /// The number of its client, or 0 if it has none.
    pub number: u64,
    /// It makes or takes Sends with Invalidate (RFC 5040 section 4).
    pub invalidates: bool,
}

/// What both sides of a link agree on.
#[derive(Clone, Copy, PartialEq, Eq)]
pub struct Agreement {
    /// The maximum length of a Send from the initiator, in bytes.
    pub up: u32,
    /// The maximum length of a Send from the responder, in bytes.
    pub down: u32,
    /// A reply is a Send with Invalidate (RFC 5040 section 4).
    pub invalidates: bool,
}

impl SideTerms {
    /// These units, no number of a client, and Sends with Invalidate or none.
    pub fn unnumbered(units: u8, invalidates: bool) -> SideTerms
        ensures { result ≡ terms_with units invalidates }
    {
        SideTerms {
            units,
            number: 0,
            invalidates,
        }
    }

    /// These units, no number of a client, and no Sends with Invalidate.
    pub fn sized(units: u8) -> SideTerms
        ensures { result ≡ sized_terms units }
    {
        SideTerms::unnumbered(units, false)
    }

    /// What a side is opened with unless it is told otherwise: one unit, no number of a client, no Sends with Invalidate.
    pub fn default_terms() -> SideTerms
        ensures { result ≡ default_terms }
    {
        SideTerms::sized(1)
    }

    /// The private data of an initiator's hello: none if it has one unit, no number and makes no Sends with Invalidate.
    /// Takes no memory.
    #[tactic(auto, unfolding(crate::specs::Agreement::initiator_private))]
    pub fn initiator_private(self) -> ArrayVec<u8, NUMBERED_TERMS_LEN>
        ensures bytes { result.items ≡ initiator_private self }
        ensures len { array_vec_len result ≤ NUMBERED_TERMS_LEN }
    {
        if self.units <= 1 && self.number == 0 && !self.invalidates {
            return ArrayVec::new();
        }
        write_terms(self.units, self.number, self.invalidates)
    }

    /// The private data of a responder's hello, by that of the initiator's: none unless that is of this project. Takes no memory.
    #[tactic(auto, unfolding(crate::specs::Agreement::responder_private))]
    pub fn responder_private(self, initiator: &[u8]) -> ArrayVec<u8, NUMBERED_TERMS_LEN>
        ensures bytes { result.items ≡ responder_private self initiator.now }
        ensures len { array_vec_len result ≤ NUMBERED_TERMS_LEN }
    {
        match read_terms(initiator) {
            None => ArrayVec::new(),
            Some(_) => write_terms(self.units, 0, self.invalidates),
        }
    }
}

/// The number of a client by the private data of its hello, or 0 if it has none. Takes no memory.
#[tactic(auto, unfolding(crate::specs::Agreement::client_number))]
pub fn client_number(initiator: &[u8]) -> u64
    ensures { result ≡ client_number initiator.now }
{
    match read_terms(initiator) {
        None => 0,
        Some(terms) => terms.number,
    }
}

impl Agreement {
    /// What is agreed unless both sides say terms: one unit in each direction.
    pub fn default_agreement() -> Agreement
        ensures { result ≡ default_agreement }
    {
        Agreement {
            up: SEND_UNIT,
            down: SEND_UNIT,
            invalidates: false,
        }
    }

    /// What is agreed by the private data of both hellos. Takes no memory.
    #[tactic(auto, unfolding(crate::specs::Agreement::agreement))]
    pub fn new(initiator: &[u8], responder: &[u8]) -> Agreement
        ensures { result ≡ agreement initiator.now responder.now }
    {
        let (Some(initiator), Some(responder)) = (read_terms(initiator), read_terms(responder))
        else {
            return Agreement::default_agreement();
        };
        Agreement {
            up: SEND_UNIT * u32::from(initiator.sends.min(responder.receives)),
            down: SEND_UNIT * u32::from(responder.sends.min(initiator.receives)),
            invalidates: initiator.invalidates && responder.invalidates,
        }
    }
}
