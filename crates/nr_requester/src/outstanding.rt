//! A call that is outstanding.

ghost use Rattle.std.specs.Prelude.{◌≡◌};
ghost use Rattle.nr_requester.specs.RequesterState.{stag_of, stags_of};
ghost use Rattle.nr_requester.specs.Views.{stag_if, given_stags, is_given};

use crate::offered::OfferedLists;
use nr_endpoint::Claims;
use nr_reduce::{Call, PayloadBuffer};
use nr_regions::Registration;

/// The STags that a call was given: of the regions for its arguments, for the item of its reply, and for a long reply.
#[derive(Clone, Copy)]
pub struct GivenStags {
    /// That of the region for its arguments.
    pub read: Option<u32>,
    /// That of the region for the item of its reply.
    pub write: Option<u32>,
    /// That of the region for a long reply.
    pub reply: Option<u32>,
}

/// The STag of a region, if there is one.
fn stag_in(claim: &Option<Registration>) -> Option<u32>
    ensures { stag_if result ≡ stag_of claim.now }
{
    match claim {
        None => None,
        Some(claim) => Some(claim.stag()),
    }
}

/// The STags of the regions of a call.
pub fn given_by(claims: &Claims) -> GivenStags
    ensures { given_stags result ≡ stags_of claims.now }
{
    GivenStags {
        read: stag_in(&claims.read),
        write: stag_in(&claims.write),
        reply: stag_in(&claims.reply),
    }
}

/// Whether this is an STag.
fn is_stag(given: Option<u32>, stag: u32) -> bool
    ensures { result ≡ is_given (stag_if given) stag }
{
    match given {
        None => false,
        Some(given) => given == stag,
    }
}

/// Whether a call was given an STag.
pub fn is_given(given: GivenStags, stag: u32) -> bool
    ensures { result ≡ is_given (given_stags given) stag }
{
    is_stag(given.read, stag) || is_stag(given.write, stag) || is_stag(given.reply, stag)
}

/// A call that is outstanding: accepted, and no message of its xid was received. The number of its Send on the link; the call, until its
/// memory is revoked; whether its owner gave up the answer; the position of its read chunk; the lists that its reply has to repeat; the STags
/// that it was given; its regions; the room in which its reply is put together.
#[derive(Drop)]
pub struct OutstandingCall {
    /// Its transaction ID (XID).
    pub xid: u32,
    /// The number of its Send on the link, from 0 on in the order in which Sends are queued.
    pub send: u64,
    /// The call, until its memory is revoked.
    pub call: Option<Call>,
    /// Whether its owner gave up the answer.
    pub is_forgotten: bool,
    /// The position of its read chunk, if it has one (RFC 8166 section 3.4.4).
    pub read_at: Option<u32>,
    /// The chunk lists of its message, which the reply has to repeat (RFC 8166 section 3.4.6).
    pub offered: OfferedLists,
    /// The STags that it was given, also after its regions are released: its reply may name one of them (RFC 5040 section 4.7).
    pub given: GivenStags,
    /// Its regions.
    pub claims: Claims,
    /// The room in which its reply is put together.
    pub room: PayloadBuffer,
}
