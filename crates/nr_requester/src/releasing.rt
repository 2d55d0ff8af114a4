//! The regions of a call are released.

ghost use Rattle.std.specs.Prelude.{◌≡◌, ◌≤◌, IfSome};
ghost use Rattle.nr_regions.specs.RegisteredMemory.{IsHeld, AreHeldFrom};
ghost use Rattle.nr_reduce.specs.KeptClient.{released_all};
ghost use Rattle.nr_requester.specs.RequesterState.{stag_of, stags_of};
ghost use Rattle.nr_requester.specs.HeldClaims.{call_claims};
ghost use Rattle.nr_requester.specs.HeldBytes.{NothingOutside};
ghost use Rattle.nr_requester.specs.Buffers.{with_memory};
ghost use Rattle.nr_requester.specs.AfterCalls.{live_count};
ghost use Rattle.nr_requester.specs.AfterPiece.{buffer_under, buffers_under};
ghost use Rattle.nr_requester.specs.CountedMarks.{with_releases};

use crate::answer::Buffers;
use nr_endpoint::{Claims, Endpoint};
use nr_regions::Registration;
use nr_xdr::Octets;

/// How many regions of one the peer reaches: none if there is none.
fn live_one(endpoint: &Endpoint, claim: &Option<Registration>) -> u64
    ensures count { result ≡ live_count endpoint.now.link.state.memory (stag_of claim.now) }
    ensures most { result ≤ 1 }
{
    match claim {
        None => 0,
        Some(claim) => { if endpoint.is_live(claim.stag()) { 1 } else { 0 } }
    }
}

/// How many of the regions of a call the peer reaches. Takes no memory.
pub fn live_claims(endpoint: &Endpoint, claims: &Claims) -> u64
    ensures count { result ≡ live_count endpoint.now.link.state.memory (stags_of claims.now) }
    ensures most { result ≤ 3 }
{
    live_one(endpoint, &claims.read)
        + (live_one(endpoint, &claims.write) + live_one(endpoint, &claims.reply))
}

/// A count of released regions, with some more: it stands still at 2^64 - 1.
pub fn with_releases(more: u64, releases: u64) -> u64
    ensures { result ≡ with_releases more releases }
{
    if more == 0 {
        return releases;
    }
    if releases <= u64::MAX - more {
        return releases + more;
    }
    u64::MAX
}

/// Releases a region, if there is one.
#[tactic(auto, unfolding(nr_endpoint::specs::Calls::after_call))]
fn release_some(endpoint: &mut Endpoint, claim: Option<Registration>) -> Option<Octets>
    requires { IfSome claim (IsHeld endpoint.old.link.state.memory) }
    ensures buffer { result ≡ buffer_under endpoint.old.link.state.memory claim }
    ensures link { endpoint.new.link ≡ with_memory (released_all endpoint.old.link.state.memory (stag_of claim)) endpoint.old.link }
    ensures staging { endpoint.new.staging ≡ endpoint.old.staging }
    ensures outside { NothingOutside endpoint.old → NothingOutside endpoint.new }
{
    match claim {
        None => None,
        Some(claim) => Some(endpoint.release(claim)),
    }
}

/// Releases the regions of a call; answers their buffers. Takes no memory.
pub fn release_claims(endpoint: &mut Endpoint, claims: Claims) -> Buffers
    requires { AreHeldFrom endpoint.old.link.state.memory 0 (call_claims claims) }
    ensures buffers { result ≡ buffers_under endpoint.old.link.state.memory claims }
    ensures link { endpoint.new.link ≡ with_memory (released_all endpoint.old.link.state.memory (stags_of claims)) endpoint.old.link }
    ensures staging { endpoint.new.staging ≡ endpoint.old.staging }
    ensures outside { NothingOutside endpoint.old → NothingOutside endpoint.new }
{
    let Claims { read, write, reply } = claims;
    let read = release_some(endpoint, read);
    let write = release_some(endpoint, write);
    let reply = release_some(endpoint, reply);
    Buffers { read, write, reply }
}
