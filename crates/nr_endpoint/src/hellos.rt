//! What the hello of a side says in its private data, and what is agreed by the hellos of both (RFC 5044 section 7.1; what they say is own).

ghost use Rattle.std.specs.Prelude.{◌≡◌, ◌≤◌};
ghost use Rattle.arrayvec.specs.ArrayVec.{array_vec_len};
ghost use Rattle.nr_wire.specs.Constants.{NUMBERED_TERMS_LEN};
ghost use Rattle.nr_endpoint.specs.Hellos.{own_private, first_private, side_agreement, has_same_sizes, received_max, first_client, client_heard, receive_length_for, takes_invalidate};

use crate::constants::SEND_UNIT;
use arrayvec::ArrayVec;
use nr_link::{Agreement, SideTerms, client_number};
use nr_wire::Side;
use nr_wire::constants::{NUMBERED_TERMS_LEN, UNITS_MAX};

/// The private data that a hello with terms has.
pub type Private = ArrayVec<u8, NUMBERED_TERMS_LEN>;

/// The private data of a side's hello, by that of its peer's, to which a responder answers.
pub fn own_private(terms: SideTerms, side: Side, peer_private: &[u8]) -> Private
    ensures bytes { result.items ≡ own_private terms side peer_private.now }
    ensures len { array_vec_len result ≤ NUMBERED_TERMS_LEN }
{
    match side {
        Side::Initiator => terms.initiator_private(),
        Side::Responder => terms.responder_private(peer_private),
    }
}

/// What a side has said as it is opened: a responder has said nothing.
pub fn first_private(terms: SideTerms, side: Side) -> Private
    ensures bytes { result.items ≡ first_private terms side }
    ensures len { array_vec_len result ≤ NUMBERED_TERMS_LEN }
{
    match side {
        Side::Initiator => own_private(terms, side, &[]),
        Side::Responder => ArrayVec::new(),
    }
}

/// What is agreed, by a side's private data and by its peer's.
pub fn side_agreement(side: Side, own: &[u8], peer_private: &[u8]) -> Agreement
    ensures { result ≡ side_agreement side own.now peer_private.now }
{
    match side {
        Side::Initiator => Agreement::new(own, peer_private),
        Side::Responder => Agreement::new(peer_private, own),
    }
}

/// Whether two hellos to a side, on an earlier link and on this one, agree on the same lengths of Sends.
pub fn has_same_sizes(earlier: Option<Agreement>, agreed: Agreement) -> bool
    ensures { result ≡ has_same_sizes earlier agreed }
{
    match earlier {
        None => true,
        Some(earlier) => earlier.up == agreed.up && earlier.down == agreed.down,
    }
}

/// The maximum length of a message that a side receives, in bytes.
pub fn received_max(side: Side, agreed: Agreement) -> u32
    ensures { result ≡ received_max side agreed }
{
    match side {
        Side::Initiator => agreed.down,
        Side::Responder => agreed.up,
    }
}

/// The number of the link's client as a side is opened: an initiator's own. A responder hasn't heard of one, which is 0.
pub fn first_client(terms: SideTerms, side: Side) -> u64
    ensures { result ≡ first_client terms side }
{
    match side {
        Side::Initiator => terms.number,
        Side::Responder => 0,
    }
}

/// The number of the link's client by the peer's private data: an initiator's own, or what the initiator says.
pub fn client_heard(terms: SideTerms, side: Side, peer_private: &[u8]) -> u64
    ensures { result ≡ client_heard terms side peer_private.now }
{
    match side {
        Side::Initiator => terms.number,
        Side::Responder => client_number(peer_private),
    }
}

/// Whether a side takes a Send with Invalidate: an initiator if that is agreed, a responder never.
pub fn takes_invalidate(side: Side, agreed: Agreement) -> bool
    ensures { result ≡ takes_invalidate side agreed }
{
    match side {
        Side::Initiator => agreed.invalidates,
        Side::Responder => false,
    }
}

/// The length of each receive of a side with these terms, in bytes.
pub fn receive_length(terms: SideTerms) -> usize
    ensures { result ≡ receive_length_for terms }
{
    SEND_UNIT * usize::from(terms.units.max(1).min(UNITS_MAX))
}
