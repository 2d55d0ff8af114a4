//! The names of a directory.

ghost use Rattle.std.specs.Prelude.{◌≡◌, ◌≤◌, ◌++◌, map, length, IfErr, OnOk};
ghost use Rattle.nr_nfs_res.specs.declared.readdir.Entry.{Entry};
ghost use Rattle.nr_client.specs.Following.{FollowsOver};
ghost use Rattle.nr_client.specs.Listing.{entries_max, eof_offset, last_cookie, list_next, listed_after, listed_with, readdir_call};
ghost use Rattle.nr_client.specs.Requests.{CountsFaultsOver, AsksOver};
ghost use Rattle.nr_client.specs.Results.{Gives, KeepsCounts};
ghost use Rattle.nr_client.specs.private.Becomes.{becomes};

use crate::answer::outcome_of;
use crate::client_end::ClientEnd;
use crate::limits::ENTRIES_MAX;
use crate::link_calls::Calls;
use crate::names::Names;
use crate::reasons::NO_PROGRESS;
use crate::requests::readdir_call;
use crate::results::nfs_results;
use nr_nfs_base::{Attributes, Handle, Name, Verifier};
use nr_nfs_res::{Entry, ReaddirOk};
use nr_reduce::Outcome;
use nr_xdr::Memory;
use std::alloc::Global;

/// What is listed of a directory so far.
#[derive(Drop)]
pub(crate) struct Listed {
    /// The names.
    pub(crate) names: Names,
    /// From which the listing goes on.
    pub(crate) cookie: u64,
    /// The verifier of the cookie.
    pub(crate) verifier: Verifier,
    /// No entry follows.
    pub(crate) eof: bool,
}

/// The offset of the eof word of a reply: it is the last.
fn eof_offset(outcome: &Outcome) -> usize
    ensures { result ≡ eof_offset outcome.now }
{
    match outcome {
        Outcome::Reply(payload) => payload.as_slice().len().saturating_sub(4),
        Outcome::Chunk => 0,
        Outcome::Version { .. } => 0,
    }
}

/// Adds the names of some entries. The cookie is that of the last.
fn add_entries(alloc: Global, listed: &mut Listed, entries: &[Entry]) -> Result<(), Memory>
    ensures names { OnOk result (listed.new.names ≡ listed.old.names ++ map (λ (entry : Entry). entry.name) entries.now) }
    ensures cookie { OnOk result (listed.new.cookie ≡ last_cookie listed.old.cookie entries.now) }
{
    for entry in entries {
        let name = Name::from_slice(alloc, entry.name.as_slice())?;
        listed.names.push(name)?;
        listed.cookie = entry.cookie;
    }
    Ok(())
}

/// Adds a part of the directory, from a reply whose eof word has this offset.
fn add_listing(
    alloc: Global,
    listed: &mut Listed,
    listing: &ReaddirOk,
    at: usize,
) -> Result<(), ClientEnd>
    requires { length listed.old.names ≤ entries_max }
    ensures gives { Gives (becomes listed.new result) (listed_with listed.old listing.now at) }
    ensures keeps { IfErr result KeepsCounts }
{
    let entries = listing.entries.as_slice();
    if entries.len() > ENTRIES_MAX - listed.names.as_slice().len() {
        return Err(ClientEnd::Budget {
            count: ENTRIES_MAX as u64,
        });
    }
    if entries.is_empty() && !listing.eof {
        return Err(ClientEnd::BadReply {
            at,
            reason: NO_PROGRESS,
        });
    }
    let Ok(()) = add_entries(alloc, listed, entries) else {
        return Err(ClientEnd::Memory);
    };
    listed.verifier = listing.verifier;
    listed.eof = listing.eof;
    Ok(())
}

/// Adds what the outcome of a READDIR has.
fn add_outcome(alloc: Global, listed: &mut Listed, outcome: &Outcome) -> Result<(), ClientEnd>
    requires { length listed.old.names ≤ entries_max }
    ensures gives { Gives (becomes listed.new result) (listed_after listed.old outcome.now) }
    ensures keeps { IfErr result KeepsCounts }
{
    match nfs_results::<ReaddirOk, Option<Attributes>>(alloc, outcome) {
        Ok(listing) => add_listing(alloc, listed, &listing, eof_offset(outcome)),
        Err(end) => Err(end),
    }
}

/// Makes one more call of a listing.
fn list_more<L: Calls>(
    alloc: Global,
    link: &mut L,
    uid: u32,
    gid: u32,
    dir: &Handle,
    listed: &mut Listed,
) -> Result<(), ClientEnd>
    requires { length listed.old.names ≤ entries_max }
    ensures asks { AsksOver L.relations (listed_after listed.old) (readdir_call uid gid dir.now listed.old.cookie listed.old.verifier)
        (L.at link.old) (L.at link.new) (becomes listed.new result) }
    ensures faults { CountsFaultsOver L.relations result (L.at link.old) (L.at link.new) }
{
    let call = readdir_call(alloc, uid, gid, dir, listed.cookie, listed.verifier);
    match outcome_of(link, call) {
        Ok(outcome) => add_outcome(alloc, listed, &outcome),
        Err(end) => Err(end),
    }
}

/// The names of a directory.
pub(crate) fn list_over<L: Calls>(
    alloc: Global,
    link: &mut L,
    uid: u32,
    gid: u32,
    dir: &Handle,
) -> Result<Names, ClientEnd>
    ensures follows { FollowsOver L.relations (list_next uid gid dir.now) (L.at link.old) (L.at link.new) result }
    ensures faults { CountsFaultsOver L.relations result (L.at link.old) (L.at link.new) }
{
    let mut listed = Listed {
        names: Names::new(alloc),
        cookie: 0,
        verifier: Verifier { number: 0 },
        eof: false,
    };
    while !listed.eof {
        match list_more(alloc, link, uid, gid, dir, &mut listed) {
            Ok(()) => {}
            Err(end) => return Err(end),
        }
    }
    Ok(listed.names)
}
