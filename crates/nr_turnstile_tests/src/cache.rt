//! Tests of nr_cache.

ghost use Rattle.std.specs.Prelude.{◌≡◌, ◌≢◌, true};
ghost use Rattle.nr_cache.specs.Entries.Finding.{NewCall};
ghost use Rattle.nr_cache.specs.Caches.{found_by};

use crate::compare::same;
use nr_cache::{Cache, Found};
use nr_xdr::Octets;
use std::alloc::Global;
use std::process::Abort;

/// What is known of a call: the place of its entry and the length of its reply, the largest xid of its client, or nothing.
#[derive(Clone, Copy, Debug, PartialEq, Drop)]
enum Known {
    Kept(u64, usize),
    Old(u32),
    New,
}

use Known::{Kept, New, Old};

/// The client, the xid, what is known of the call, and the place of the entry that is then kept of it, if any. The reply of
/// an entry has as many bytes as its place says.
static ROWS: [(u64, u32, Known, Option<u64>); 35] = [
    (5, 1, New, Some(0)),
    (5, 1, Kept(0, 0), None),
    (5, 65, New, Some(1)),
    (5, 0, Old(65), None),
    (5, 1, Old(65), None),
    (5, 2, New, None),
    (5, 64, New, None),
    (5, 65, Kept(1, 1), None),
    (5, 66, New, None),
    (9, 65, New, None),
    (9, 1, New, Some(2)),
    (9, 63, New, Some(3)),
    (9, 64, New, Some(4)),
    (9, 0, Old(64), None),
    (9, 1, Kept(2, 2), None),
    (9, 65, New, Some(5)),
    (9, 1, Old(65), None),
    (9, 2, New, Some(6)),
    (9, 2, Kept(6, 6), None),
    (9, 63, Kept(3, 3), None),
    (9, 64, Kept(4, 4), None),
    (9, 65, Kept(5, 5), None),
    (9, 128, New, Some(7)),
    (9, 64, Old(128), None),
    (9, 65, Kept(5, 5), None),
    (9, 127, New, None),
    (5, 63, New, None),
    (5, 65, Kept(1, 1), None),
    (0xffff_ffff_ffff_ffff, 0xffff_ffff, New, Some(8)),
    (0xffff_ffff_ffff_ffff, 0xffff_ffff, Kept(8, 8), None),
    (0xffff_ffff_ffff_ffff, 0xffff_ffbf, Old(0xffff_ffff), None),
    (0xffff_ffff_ffff_ffff, 0xffff_ffc0, New, Some(9)),
    (0xffff_ffff_ffff_ffff, 0xffff_ffc0, Kept(9, 9), None),
    (0xffff_ffff_ffff_ffff, 0, Old(0xffff_ffff), None),
    (1, 0, New, None),
];

/// What the cache has of a call.
fn look_up(cache: &Cache, client: u64, xid: u32) -> Known
    requires { client ≢ 0 }
{
    match cache.find(client, xid) {
        Found::Kept { place, reply } => Kept(place, reply.len()),
        Found::Old { top } => Old(top),
        Found::New => New,
    }
}

fn is_new(cache: &Cache, client: u64, xid: u32) -> bool
    requires { client ≢ 0 }
    ensures { result ≡ true → found_by cache.now client xid ≡ NewCall }
{
    match cache.find(client, xid) {
        Found::Kept { .. } => false,
        Found::Old { .. } => false,
        Found::New => true,
    }
}

/// Keeps a reply of a new call, with as many bytes as its place says.
fn keep(rt: &impl Abort, alloc: Global, cache: &mut Cache, client: u64, xid: u32, place: u64)
    requires { client ≢ 0 }
{
    let len = (place % 10) as usize;
    let reply = Octets::from_slice(alloc, &[0; 10][..len]).expect(rt, "memory");
    cache.ready(client).expect(rt, "memory");
    if !is_new(cache, client, xid) {
        panic!(rt; "xid {xid} of client {client} is not new");
    }
    cache.keep(client, xid, place, reply);
}

#[test]
fn replies_are_found_until_they_are_old(rt: HostRuntime) {
    let mut cache = Cache::new(rt.alloc());
    for (row, (client, xid, want, place)) in ROWS.iter().enumerate() {
        if *client == 0 {
            panic!(rt; "row {row} has no client");
        }
        same(&rt, row, look_up(&cache, *client, *xid), *want);
        if let Some(place) = *place {
            keep(&rt, rt.alloc(), &mut cache, *client, *xid, place);
        }
    }
}
