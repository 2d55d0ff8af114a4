//! Calls of a server behind a turnstile, by two passes.

ghost use Rattle.std.specs.Prelude.{◌^◌};
ghost use Rattle.nr_tree.specs.Steps.{IsBelow};
ghost use Rattle.nr_turnstile.specs.Passes.{Rests};

use crate::compare::same;
use nr_nfs_base::Verifier;
use nr_outside::Moment;
use nr_plain::{Server, execute_for, share};
use nr_tree::Tree;
use nr_turnstile::{Machine, Pass, Turnstile};
use nr_xdr::Octets;
use std::alloc::Global;
use std::process::Abort;
use std::sync::Wait;

/// WRITE of HELLO to file 2 at offset 0, FILE_SYNC (RFC 1813 section 3.3.7).
static WRITE: [u32; 20] = [
    1, 0, 2, 100003, 3, 7, 0, 0, 0, 0, 8, 0, 2, 0, 0, 5, 2, 5, 0x48454c4c, 0x4f000000,
];

/// READ of five bytes of file 2 at offset 0 (RFC 1813 section 3.3.6).
static READ: [u32; 16] = [2, 0, 2, 100003, 3, 6, 0, 0, 0, 0, 8, 0, 2, 0, 0, 5];

/// How its reply ends: count, eof, and the data.
static ENDING: [u32; 5] = [5, 1, 5, 0x48454c4c, 0x4f000000];

/// The same before the WRITE.
static BEFORE: [u32; 5] = [5, 1, 5, 0x68656c6c, 0x6f000000];

const NOW: Moment = Moment {
    seconds: 1,
    nanos: 0,
};

/// The bytes of words (RFC 4506 section 4.1).
pub(crate) fn bytes(rt: &impl Abort, alloc: Global, words: &[u32]) -> Vec<u8> {
    let mut bytes = Vec::new(alloc);
    for word in words {
        bytes
            .extend_from_slice(&word.to_be_bytes())
            .expect(rt, "memory");
    }
    bytes
}

/// The tree of a drill.
fn drill_tree(rt: &impl Abort, alloc: Global) -> Tree
    ensures { IsBelow (2 ^ 62) result }
{
    Tree::drill(alloc).expect(rt, "memory")
}

/// A server of the tree of a drill, behind a turnstile.
pub(crate) fn drill(rt: &impl Abort, alloc: Global) -> (Turnstile<Server>, Pass<Server>)
    ensures { Rests result.0 result.1 }
{
    let tree = drill_tree(rt, alloc);
    let export = Octets::from_slice(alloc, b"/").expect(rt, "memory");
    let server = Server::open(tree, 1 << 40, Verifier { number: 1 }, export);
    share(alloc, server).expect(rt, "memory")
}

/// Answers a call of a client, whose number may be 0, by a pass, and compares its place and how its reply ends.
fn same_reply<R: Abort + Wait>(
    rt: &R,
    alloc: Global,
    row: usize,
    shared: &Turnstile<Server>,
    pass: &mut Pass<Server>,
    client: u64,
    call: &[u32],
    place: u64,
    ending: &[u32],
)
    requires { Rests shared.now pass.old }
    ensures { Rests shared.now pass.new }
{
    let payload = bytes(rt, alloc, call);
    let ending = bytes(rt, alloc, ending);
    let Ok(reply) = execute_for(rt, alloc, shared, pass, client, NOW, payload.as_slice()) else {
        panic!(rt; "row {row}: not executed")
    };
    same(rt, row, reply.place, place);
    same(
        rt,
        row,
        reply.payload.as_slice().ends_with(ending.as_slice()),
        true,
    );
}

/// One pass writes; another one, which was split from it before, reads after that.
#[test]
fn one_pass_writes_and_another_reads(rt: HostRuntime) {
    let alloc = rt.alloc();
    let (shared, mut first) = drill(&rt, alloc);
    let mut second = shared.split(&mut first);
    same_reply(&rt, alloc, 0, &shared, &mut first, 0, &READ, 0, &BEFORE);
    same_reply(&rt, alloc, 1, &shared, &mut first, 0, &WRITE, 0, &[]);
    same_reply(&rt, alloc, 2, &shared, &mut second, 0, &READ, 1, &ENDING);
    shared.join(&mut second, first);
    same_reply(&rt, alloc, 3, &shared, &mut second, 0, &READ, 1, &ENDING);
}

/// The call of a client with a number, sent again to another pass, has the place of its entry. Without a number it is
/// executed again.
#[test]
fn a_change_is_kept_for_each_pass(rt: HostRuntime) {
    let alloc = rt.alloc();
    let (shared, mut first) = drill(&rt, alloc);
    let mut second = shared.split(&mut first);
    same_reply(&rt, alloc, 0, &shared, &mut first, 5, &WRITE, 0, &[]);
    same_reply(&rt, alloc, 1, &shared, &mut second, 5, &WRITE, 0, &[]);
    same_reply(&rt, alloc, 2, &shared, &mut second, 0, &WRITE, 1, &[]);
    same_reply(&rt, alloc, 3, &shared, &mut first, 5, &WRITE, 0, &[]);
}

#[test]
fn busy_while_a_turn_is_out(rt: HostRuntime) {
    let (shared, mut first) = drill(&rt, rt.alloc());
    let mut second = shared.split(&mut first);
    let turn = shared.take_turn(&rt, &mut first);
    match second.try_turn(&shared) {
        Ok(other) => {
            other.put_back();
            panic!(rt; "not busy")
        }
        Err(_) => (),
    }
    turn.put_back();
    match second.try_turn(&shared) {
        Ok(other) => other.put_back(),
        Err(_) => panic!(rt; "busy"),
    }
}
