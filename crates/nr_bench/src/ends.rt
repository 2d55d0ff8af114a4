//! A benchmark, run by hand: NULL calls, or WRITEs or READs in form Auto, one after the other, through both ends of a link and the plain
//! server. It prints how many calls, or how many bytes, the replies confirm. The arguments are `null`, `write` or `read`, or `copy` for
//! copies alone, or `sends` for two Sends, as long as those of a NULL call and of its reply, through two endpoints alone; their number; the
//! credits of both ends; and how many bytes a WRITE, a READ or a copy moves, a multiple of 4 up to 1,048,576.

use crate::ends_link::Link;
use crate::links_work::{Work, data};
use crate::sends::sends;
use crate::words::number;
use nr_nfs_base::{NFS_PROGRAM, NFS_VERSION, Verifier};
use nr_plain::Server;
use nr_reduce::{Call, Outcome};
use nr_rpc::Cred;
use nr_tree::Tree;
use nr_xdr::{Memory, Octets};
use std::alloc::Global;
use std::env::Args;

/// The offset of the data in the reply to a READ.
const DATA_AT: usize = 128;

/// A server of the drill's tree.
fn plain(alloc: Global) -> Result<Server, Memory> {
    let export = Octets::from_slice(alloc, b"/")?;
    let tree = Tree::drill(alloc)?;
    Ok(Server::open(tree, 1 << 62, Verifier { number: 1 }, export))
}

/// Calls with these arguments, and gives them back with the reply.
fn call(
    alloc: Global,
    link: &mut Link,
    plain: &mut Server,
    work: Work,
    args: Octets,
) -> Option<(Octets, Octets)> {
    let call = Call {
        prog: NFS_PROGRAM,
        vers: NFS_VERSION,
        proc: work.procedure(),
        cred: Cred::None,
        args,
    };
    let (call, outcome) = link.call(alloc, plain, call)?;
    match outcome {
        Outcome::Reply(reply) => Some((call.args, reply)),
        Outcome::Chunk => None,
        Outcome::Version { .. } => None,
    }
}

/// Calls `rounds` times, and gives how many calls or bytes are confirmed.
fn call_all(
    alloc: Global,
    link: &mut Link,
    plain: &mut Server,
    work: Work,
    rounds: u32,
) -> Option<u64> {
    let mut total: u64 = 0;
    let mut args = work.args(alloc).ok()?;
    for _ in 0..rounds {
        let Some((back, reply)) = call(alloc, link, plain, work, args) else {
            return None;
        };
        args = back;
        total = total.saturating_add(work.confirmed(reply.as_slice())?);
    }
    Some(total)
}

/// Whether a READ gives what a WRITE of this size wrote.
fn reads(alloc: Global, link: &mut Link, plain: &mut Server, size: u32) -> Option<bool> {
    let work = Work::Read { size };
    let args = work.args(alloc).ok()?;
    let (_, reply) = call(alloc, link, plain, work, args)?;
    let found = reply.as_slice().get(DATA_AT..)?;
    Some(found == data(alloc, size).ok()?.as_slice())
}

/// Writes once, then works, and reads what was written.
fn worked(
    alloc: Global,
    link: &mut Link,
    plain: &mut Server,
    work: Work,
    rounds: u32,
    size: u32,
) -> Option<u64> {
    call_all(alloc, link, plain, Work::Write { size }, 1)?;
    let total = call_all(alloc, link, plain, work, rounds)?;
    match reads(alloc, link, plain, size) {
        Some(true) => Some(total),
        _ => None,
    }
}

/// Works over a link with this number of credits.
fn linked(alloc: Global, work: Work, rounds: u32, credits: u32, size: u32) -> Option<u64> {
    let mut plain = plain(alloc).ok()?;
    let Some(mut link) = Link::open(alloc, credits) else {
        drop(plain);
        return None;
    };
    worked(alloc, &mut link, &mut plain, work, rounds, size)
}

/// Copies this number of times, other bytes each time, and gives how many bytes.
fn copied(rounds: u32, source: &mut Vec<u8>, target: &mut Vec<u8>) -> Option<u64> {
    let mut total: u64 = 0;
    for i in 0..rounds {
        if let Some(first) = source.first_mut() {
            *first = (i % 256) as u8;
        }
        target.clear();
        target.extend_from_slice(source.as_slice()).ok()?;
        total = total.saturating_add(target.len() as u64);
    }
    Some(total)
}

fn total(alloc: Global, what: &str, rounds: u32, credits: u32, size: u32) -> Option<u64> {
    if what == "sends" {
        return sends(alloc, rounds, credits);
    }
    if what == "copy" {
        let mut source = data(alloc, size).ok()?;
        let mut target = data(alloc, size).ok()?;
        return copied(rounds, &mut source, &mut target);
    }
    linked(alloc, Work::of(what, size)?, rounds, credits, size)
}

/// Takes the words, and gives how many calls or bytes the replies confirm.
pub fn measure(alloc: Global, words: &mut Args) -> Option<u64> {
    let what = words.next()?;
    let rounds = number(words)?;
    let credits = number(words)?;
    let size = number(words)?;
    total(alloc, what.as_str(), rounds, credits, size)
}
