//! A directory whose 10,000 entries are made, and removed in three orders, with READDIR from each cookie in between (RFC 1813 section
//! 3.3.16). What it has to answer is worked out from a list of the names and the cookies that are there.

use crate::calls::{answered, called, put, put_number};
use crate::compare::same;
use crate::links_max::name;
use nr_nfs_base::{Time, Verifier};
use nr_plain::Server;
use nr_tree::Tree;
use nr_xdr::Octets;
use std::alloc::Global;
use std::process::Abort;

/// When the root is made.
const MADE: Time = Time {
    seconds: 7,
    nanoseconds: 9,
};

/// How many entries are made first.
const SIZE: u32 = 10_000;

/// How many are removed: one in five of the first `SIZE` is made again at once.
const ROUNDS: u32 = 12_000;

/// The offset in a reply to READDIR of what comes after the attributes of the directory and the verifier.
const ENTRIES: usize = 124;

/// The name of an entry, and its cookie; the number of its file is one more.
type Entry = (u32, u32);

/// Which entry is removed next.
#[derive(Clone, Copy)]
enum Order {
    Oldest,
    Newest,
    /// Of three that follow each other the third, round and round.
    Third,
}

/// The place of the entry that is removed after the one at a place.
fn next_place(order: Order, place: usize, len: usize) -> usize {
    match order {
        Order::Oldest => 0,
        Order::Newest => len.saturating_sub(1),
        Order::Third => place.wrapping_add(2).checked_rem(len).unwrap_or(0),
    }
}

/// A server whose tree is a root alone, with the export `/`.
fn opened(rt: &impl Abort, alloc: Global) -> Server {
    let tree = Tree::root_only(alloc, MADE).expect(rt, "memory");
    let export = Octets::from_slice(alloc, b"/").expect(rt, "memory");
    Server::open(tree, 1 << 40, Verifier { number: 1 }, export)
}

/// Makes a call about a name in the root, and gives the reply.
fn call_named(
    rt: &impl Abort,
    alloc: Global,
    server: &mut Server,
    before: &str,
    name: u32,
    after: &str,
) -> Vec<u8> {
    let mut payload = called(rt, alloc, 0, before);
    put_number(rt, &mut payload, name);
    put(rt, &mut payload, after);
    match answered(alloc, server, 0, payload.as_slice()) {
        Ok((_, reply)) => reply,
        Err(_) => Vec::new(alloc),
    }
}

fn make(rt: &impl Abort, alloc: Global, server: &mut Server, kept: &mut Vec<Entry>, entry: Entry) {
    drop(call_named(rt, alloc, server, "0 CREATE 8 0 1 4", entry.0, "0*7"));
    kept.push(entry).expect(rt, "memory");
}

/// Removes the entry at a place, and gives its name.
fn remove(
    rt: &impl Abort,
    alloc: Global,
    server: &mut Server,
    kept: &mut Vec<Entry>,
    place: usize,
) -> u32 {
    if place >= kept.len() {
        return 0;
    }
    let (name, _) = kept.remove(place);
    drop(call_named(rt, alloc, server, "0 REMOVE 8 0 1 4", name, ""));
    name
}

fn put_entry(rt: &impl Abort, bytes: &mut Vec<u8>, entry: Option<&Entry>) {
    if let Some((name, cookie)) = entry {
        for word in [1, 0, cookie.wrapping_add(1), 4, *name, 0, *cookie] {
            put_number(rt, bytes, word);
        }
    }
}

/// What READDIR has to answer with room for two entries, if the first one is at this place.
fn wanted(rt: &impl Abort, alloc: Global, kept: &[Entry], place: usize) -> Vec<u8> {
    let mut bytes = Vec::new(alloc);
    let after = place.wrapping_add(1);
    put_entry(rt, &mut bytes, kept.get(place));
    put_entry(rt, &mut bytes, kept.get(after));
    put_number(rt, &mut bytes, 0);
    put_number(
        rt,
        &mut bytes,
        u32::from(after.wrapping_add(1) >= kept.len()),
    );
    bytes
}

/// Whether READDIR after a cookie answers this.
fn is_listed(
    rt: &impl Abort,
    alloc: Global,
    server: &mut Server,
    cookie: u32,
    want: &[u8],
) -> bool {
    let reply = call_named(rt, alloc, server, "0 READDIR 8 0 1 0", cookie, "0 0 a0");
    match reply.get(ENTRIES..) {
        Some(got) => got == want,
        None => false,
    }
}

/// READDIR from each cookie that was given.
fn list_all(rt: &impl Abort, alloc: Global, server: &mut Server, kept: &[Entry], made: u32) {
    let mut place = 0usize;
    for cookie in 0..=made {
        if let Some((_, next)) = kept.get(place) {
            if *next <= cookie {
                place = place.wrapping_add(1);
            }
        }
        let want = wanted(rt, alloc, kept, place);
        let is = is_listed(rt, alloc, server, cookie, want.as_slice());
        same(rt, cookie as usize, is, true);
    }
}

/// Makes all entries.
fn make_all(rt: &impl Abort, alloc: Global, server: &mut Server, kept: &mut Vec<Entry>) {
    for index in 0..SIZE {
        make(rt, alloc, server, kept, (name(index), index + 1));
    }
}

/// Removes all entries, and lists them after each 2,000.
fn remove_all(
    rt: &impl Abort,
    alloc: Global,
    server: &mut Server,
    kept: &mut Vec<Entry>,
    order: Order,
) {
    let mut made = SIZE;
    let mut place = 0usize;
    for round in 0..ROUNDS {
        if round % 2_000 == 0 {
            list_all(rt, alloc, server, kept.as_slice(), made);
        }
        place = next_place(order, place, kept.len());
        let name = remove(rt, alloc, server, kept, place);
        if round < SIZE && round % 5 == 0 {
            made = made.wrapping_add(1);
            make(rt, alloc, server, kept, (name, made));
        }
    }
    list_all(rt, alloc, server, kept.as_slice(), made);
}

fn made_and_removed(rt: &impl Abort, alloc: Global, order: Order) {
    let mut server = opened(rt, alloc);
    let mut kept = Vec::new(alloc);
    make_all(rt, alloc, &mut server, &mut kept);
    same(rt, 0, kept.len(), 10_000);
    remove_all(rt, alloc, &mut server, &mut kept, order);
    same(rt, 0, (kept.len(), server.journal_len()), (0, 24_000));
}

#[test]
fn oldest_first(rt: HostRuntime) {
    made_and_removed(&rt, rt.alloc(), Order::Oldest);
}

#[test]
fn newest_first(rt: HostRuntime) {
    made_and_removed(&rt, rt.alloc(), Order::Newest);
}

#[test]
fn every_third(rt: HostRuntime) {
    made_and_removed(&rt, rt.alloc(), Order::Third);
}
