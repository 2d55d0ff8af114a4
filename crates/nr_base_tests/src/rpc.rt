//! Tests of nr_rpc's heads of calls. Rows are words, worked out by hand from RFC 5531 (sections 8.2 and 9, appendix A).

ghost use Rattle.nr_rpc.specs.Call.{CanWriteCall};
ghost use Rattle.nr_rpc.specs.Credential.{CanWriteCred};

use crate::compare::{bytes_of, put_words, same};
use nr_rpc::*;
use nr_xdr::Octets;
use std::alloc::Global;
use std::process::Abort;

/// What is read of a credential: its flavor and whether it is AUTH_SYS; then the stamp, the user, the group, the number of
/// further groups and the first of them; and the length of the machine's name.
fn cred_words(cred: &Cred) -> ([u32; 7], usize) {
    match cred {
        Cred::None => ([0; 7], 0),
        Cred::Sys {
            stamp,
            machine,
            uid,
            gid,
            gids,
        } => {
            let first = gids.as_slice().first().copied().unwrap_or(0);
            let groups = gids.len() as u32;
            ([1, 1, *stamp, *uid, *gid, groups, first], machine.len())
        }
        Cred::Other { flavor } => ([*flavor, 0, 0, 0, 0, 0, 0], 0),
    }
}

/// What is read of a call: RPC's version, the xid, the program, its version and the procedure; the offset of the arguments;
/// and the credential.
type CallWords = ([u32; 5], usize, ([u32; 7], usize));

fn call_words(head: &CallHead) -> CallWords {
    match head {
        CallHead::Version2 {
            xid,
            prog,
            vers,
            proc,
            cred,
            args_at,
        } => ([2, *xid, *prog, *vers, *proc], *args_at, cred_words(cred)),
        CallHead::Other { xid, rpcvers } => ([*rpcvers, *xid, 0, 0, 0], 0, ([0; 7], 0)),
    }
}

/// The words of the call head at the front, or the offset of the first item that fails.
fn call_answer(alloc: Global, bytes: &[u8]) -> Result<CallWords, usize> {
    match read_call(alloc, bytes) {
        Ok(head) => Ok(call_words(&head)),
        Err(HeadFault::NotCall { at }) => Err(at),
        Err(HeadFault::NotReply { .. } | HeadFault::Memory) => Err(usize::MAX),
    }
}

const NONE: ([u32; 7], usize) = ([0; 7], 0);

static CALLS: [(&[u32], Result<CallWords, usize>); 26] = [
    (
        &[1, 0, 2, 100_003, 3, 0, 0, 0, 0, 0],
        Ok(([2, 1, 100_003, 3, 0], 40, NONE)),
    ),
    // AUTH_SYS: stamp 5, machine `nfsrdma`, user 7, group 8, further group 9; a pad byte that isn't 0; arguments follow.
    (
        &[
            0x0102_0304,
            0,
            2,
            100_005,
            3,
            1,
            1,
            32,
            5,
            7,
            0x6e66_7372,
            0x646d_6100,
            7,
            8,
            1,
            9,
            0,
            0,
            0x6869_0000,
        ],
        Ok((
            [2, 0x0102_0304, 100_005, 3, 1],
            72,
            ([1, 1, 5, 7, 8, 1, 9], 7),
        )),
    ),
    (
        &[
            1,
            0,
            2,
            7,
            6,
            5,
            1,
            36,
            5,
            7,
            0x6e66_7372,
            0x646d_61ff,
            70,
            80,
            2,
            90,
            91,
            0,
            0,
        ],
        Ok(([2, 1, 7, 6, 5], 76, ([1, 1, 5, 70, 80, 2, 90], 7))),
    ),
    // AUTH_NONE with a body; other flavors of the credential and of the verifier.
    (
        &[1, 0, 2, 100_003, 3, 0, 0, 4, 7, 0, 0],
        Ok(([2, 1, 100_003, 3, 0], 44, NONE)),
    ),
    (
        &[1, 0, 2, 100_003, 3, 0, 5, 4, 7, 6, 4, 9],
        Ok(([2, 1, 100_003, 3, 0], 48, ([5, 0, 0, 0, 0, 0, 0], 0))),
    ),
    (
        &[1, 0, 2, 100_003, 3, 0, 0, 0, 1, 8, 9, 9],
        Ok(([2, 1, 100_003, 3, 0], 48, NONE)),
    ),
    // Flavor 1 whose body is empty, has bytes after AUTH_SYS, or has 17 further groups.
    (
        &[1, 0, 2, 100_003, 3, 0, 1, 0, 0, 0],
        Ok(([2, 1, 100_003, 3, 0], 40, ([1, 0, 0, 0, 0, 0, 0], 0))),
    ),
    (
        &[1, 0, 2, 100_003, 3, 0, 1, 24, 0, 0, 0, 0, 0, 7, 0, 0],
        Ok(([2, 1, 100_003, 3, 0], 64, ([1, 0, 0, 0, 0, 0, 0], 0))),
    ),
    (
        &[1, 0, 2, 100_003, 3, 0, 1, 20, 0, 0, 0, 0, 17, 0, 0],
        Ok(([2, 1, 100_003, 3, 0], 60, ([1, 0, 0, 0, 0, 0, 0], 0))),
    ),
    // Other versions of RPC.
    (&[1, 0, 3], Ok(([3, 1, 0, 0, 0], 0, NONE))),
    (&[9, 0, 0, 4, 5], Ok(([0, 9, 0, 0, 0], 0, NONE))),
    (&[9, 0, 1], Ok(([1, 9, 0, 0, 0], 0, NONE))),
    (
        &[0xffff_ffff, 0, 0xffff_ffff],
        Ok(([0xffff_ffff, 0xffff_ffff, 0, 0, 0], 0, NONE)),
    ),
    // No call heads.
    (&[], Err(0)),
    (&[1], Err(4)),
    (&[1, 0], Err(8)),
    (&[1, 0, 2], Err(12)),
    (&[1, 1, 2, 100_003, 3, 0, 0, 0, 0, 0], Err(4)),
    (&[1, 1, 3], Err(4)),
    (&[1, 2, 2], Err(4)),
    (&[1, 0, 2, 100_003, 3], Err(20)),
    (&[1, 0, 2, 100_003, 3, 0, 0, 401], Err(28)),
    (&[1, 0, 2, 100_003, 3, 0, 0, 400], Err(28)),
    (&[1, 0, 2, 100_003, 3, 0, 0, 0, 0, 401], Err(36)),
    (&[1, 0, 2, 100_003, 3, 0, 0, 0, 0], Err(36)),
    (&[1, 0, 2, 100_003, 3, 0, 0, 0, 0, 5, 7], Err(36)),
];

#[test]
fn calls(rt: HostRuntime) {
    call_round_trip();
    one_call_head();
    for (row, (words, want)) in CALLS.iter().enumerate() {
        let bytes = bytes_of(&rt, rt.alloc(), words);
        same(&rt, row, call_answer(rt.alloc(), &bytes), *want);
    }
}

#[test]
fn targets(rt: HostRuntime) {
    let words = &[7, 0, 2, 100_005, 3, 1, 5, 4, 9, 6, 0, 8];
    let bytes = bytes_of(&rt, rt.alloc(), words);
    let target = CallTarget {
        xid: 7,
        prog: 100_005,
        vers: 3,
        proc: 1,
        args_at: 44,
    };
    same(
        &rt,
        0,
        (call_target(&bytes), call_xid(&bytes)),
        (Some(target), Some(7)),
    );
}

fn put_zeros(rt: &impl Abort, bytes: &mut Vec<u8>, count: u32) {
    for _ in 0..count {
        bytes.push(0).expect(rt, "memory");
    }
}

/// These words, the count of a body, and 103 words of zeros: room for a body of up to 404 bytes.
pub(crate) fn counted(rt: &impl Abort, alloc: Global, before: &[u32], count: u32) -> Vec<u8> {
    let mut bytes = bytes_of(rt, alloc, before);
    put_words(rt, &mut bytes, &[count]);
    put_zeros(rt, &mut bytes, 412);
    bytes
}

/// The offset of the arguments of the call at the front, or of the first item that fails.
fn args_at(alloc: Global, bytes: &[u8]) -> Result<usize, usize> {
    call_answer(alloc, bytes).map(|words| words.1)
}

// Bodies whose bytes are all there: 400 are read, 401 are refused at their count.
static CALL_BODIES: [(&[u32], u32, Result<usize, usize>); 4] = [
    (&[1, 0, 2, 100_003, 3, 0, 5], 400, Ok(440)),
    (&[1, 0, 2, 100_003, 3, 0, 5], 401, Err(28)),
    (&[1, 0, 2, 100_003, 3, 0, 0, 0, 6], 400, Ok(440)),
    (&[1, 0, 2, 100_003, 3, 0, 0, 0, 6], 401, Err(36)),
];

#[test]
fn longest_bodies_of_calls(rt: HostRuntime) {
    for (row, (before, count, want)) in CALL_BODIES.iter().enumerate() {
        let bytes = counted(&rt, rt.alloc(), before, *count);
        same(&rt, row, args_at(rt.alloc(), &bytes), *want);
    }
}

/// A call of AUTH_SYS: `body` is the length of the credential's body, `machine` that of the machine's name, which takes 64
/// words, and `groups` the number of further groups.
fn sys_call(rt: &impl Abort, alloc: Global, body: u32, machine: u32, groups: u32) -> Vec<u8> {
    let head = [1, 0, 2, 100_003, 3, 0, 1, body, 0, machine];
    let mut bytes = bytes_of(rt, alloc, &head);
    put_zeros(rt, &mut bytes, 256);
    put_words(rt, &mut bytes, &[7, 8, groups]);
    for _ in 0..groups {
        put_words(rt, &mut bytes, &[9]);
    }
    put_zeros(rt, &mut bytes, 8);
    bytes
}

/// The lengths of a body and of a machine's name, the number of further groups, and the credential that is read.
static SYS_LIMITS: [(u32, u32, u32, ([u32; 7], usize)); 3] = [
    (340, 255, 16, ([1, 1, 0, 7, 8, 16, 9], 255)),
    (340, 256, 16, ([1, 0, 0, 0, 0, 0, 0], 0)),
    (344, 255, 17, ([1, 0, 0, 0, 0, 0, 0], 0)),
];

#[test]
fn sys_limits(rt: HostRuntime) {
    for (row, (body, machine, groups, want)) in SYS_LIMITS.iter().enumerate() {
        let bytes = sys_call(&rt, rt.alloc(), *body, *machine, *groups);
        let cred = call_answer(rt.alloc(), &bytes).map(|words| words.2);
        same(&rt, row, cred, Ok(*want));
    }
}

/// A call of procedure 0 of NFS with this credential.
fn call_head(cred: Cred) -> CallHead
    requires { CanWriteCred cred }
    ensures { CanWriteCall result }
{
    CallHead::Version2 {
        xid: 1,
        prog: 100_003,
        vers: 3,
        proc: 0,
        cred,
        args_at: 0,
    }
}

/// AUTH_SYS: stamp 5, machine `nfsrdma`, user 7, group 8, further groups 9 and 10.
fn sys_cred(rt: &impl Abort, alloc: Global) -> Cred
    ensures { CanWriteCred result }
{
    let mut gids = Gids::new();
    gids.push(9);
    gids.push(10);
    Cred::Sys {
        stamp: 5,
        machine: Octets::from_slice(alloc, b"nfsrdma").expect(rt, "memory"),
        uid: 7,
        gid: 8,
        gids,
    }
}

/// Ends the test if a call with these arguments is not written as these words.
fn written_as(
    rt: &impl Abort,
    alloc: Global,
    row: usize,
    head: &CallHead,
    args: &[u8],
    words: &[u32],
)
    requires { CanWriteCall head.now }
{
    let written = write_call(alloc, head, args)
        .expect(rt, "memory")
        .into_vec();
    same(rt, row, written, bytes_of(rt, alloc, words));
}

#[test]
fn sys_call_written(rt: HostRuntime) {
    let words = &[
        1,
        0,
        2,
        100_003,
        3,
        0,
        1,
        36,
        5,
        7,
        0x6e66_7372,
        0x646d_6100,
        7,
        8,
        2,
        9,
        10,
        0,
        0,
        0x6869_686f,
    ];
    let head = call_head(sys_cred(&rt, rt.alloc()));
    written_as(&rt, rt.alloc(), 0, &head, b"hiho", words);
    same(&rt, 1, Gids::new().is_empty(), true);
}

#[test]
fn other_calls_written(rt: HostRuntime) {
    let none = call_head(Cred::None);
    let words = &[1, 0, 2, 100_003, 3, 0, 0, 0, 0, 0];
    written_as(&rt, rt.alloc(), 0, &none, &[], words);
    let other = call_head(Cred::Other { flavor: 6 });
    let words = &[1, 0, 2, 100_003, 3, 0, 6, 0, 0, 0];
    written_as(&rt, rt.alloc(), 1, &other, &[], words);
}

#[test]
fn other_version_written(rt: HostRuntime) {
    let version = CallHead::Other { xid: 1, rpcvers: 3 };
    written_as(&rt, rt.alloc(), 0, &version, &[], &[1, 0, 3]);
}
