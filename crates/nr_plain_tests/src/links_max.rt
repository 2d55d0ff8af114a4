//! MLINK: a node has at most 65,535 links (RFC 1813 sections 3.3.9, 3.3.14, 3.3.15).

use crate::calls::{Row, all_answered, answered, called, opened, put, put_number};
use crate::compare::same;
use nr_plain::Server;
use std::alloc::Global;
use std::process::Abort;

/// A capacity for all these calls.
const AMPLE: u64 = 1_000_000_000;

/// What stands before and after the name of a call that is made again and again.
type Around = (&'static str, &'static str);

/// LINK of `hello` in `many`.
static LINKS: Around = ("0 LINK 8 0 2 8 0 4 4", "");

/// MKDIR in `many`.
static DIRECTORIES: Around = ("0 MKDIR 8 0 4 4", "0*6");

/// A link more of `hello`.
static FILE: [Row; 1] = [(
    "0 LINK 8 0 2 8 0 1 1 61000000",
    "NFS3ERR_MLINK 1 1 1b6 ffff 0*3 5 0 5 0*3 1 0 2 0*4 100 5 1 0*6 1 2 1ff 3 0*9 1 0 1 0*6",
)];

/// A directory beside `many`.
static BESIDE: [Row; 1] = [(
    "0 MKDIR 8 0 1 1 64000000 0*6",
    "NFS3_OK 1 8 0 69 1 2 1ed 2 0*9 1 0 69 100 5 100 5 100 5 1 0*6 1 2 1ff 4 0*9 1 0 1 0 0 100 5 100 5",
)];

/// A directory more in `many`.
static DIRECTORY: [Row; 3] = [
    (
        "0 MKDIR 8 0 4 1 61000000 0*6",
        "NFS3ERR_MLINK 1 0 0 100 5 100 5 1 2 1ff ffff 0*9 1 0 4 0 0 100 5 100 5",
    ),
    (
        "0 RENAME 8 0 1 1 64000000 8 0 4 1 61000000",
        "NFS3ERR_MLINK 1 0 0 100 5 100 5 1 2 1ff 4 0*9 1 0 1 0 0 100 5 100 5 1 0 0 100 5 100 5 1 2 1ff ffff \
         0*9 1 0 4 0 0 100 5 100 5",
    ),
    // a file is no link of its directory
    (
        "0 RENAME 8 0 1 5 68656c6c 6f000000 8 0 4 1 61000000",
        "NFS3_OK 1 0 0 100 5 100 5 1 2 1ff 4 0*9 1 0 1 0 0 102 5 102 5 1 0 0 100 5 100 5 1 2 1ff ffff 0*9 1 0 \
         4 0 0 102 5 102 5",
    ),
];

/// A name of four bytes from 40 to 7f, another one for each number below 2^18.
pub fn name(number: u32) -> u32 {
    0x4040_4040 | (number & 0x3f) | ((number << 2) & 0x3f00) | ((number << 4) & 0x3f_0000)
}

/// Makes a call with this name.
fn call_named(rt: &impl Abort, alloc: Global, server: &mut Server, around: Around, number: u32) {
    let (before, behind) = around;
    let mut payload = called(rt, alloc, number, before);
    put_number(rt, &mut payload, name(number));
    put(rt, &mut payload, behind);
    drop(answered(alloc, server, 0, payload.as_slice()));
}

/// Makes a call with `count` names, each of which is an entry of the journal.
fn call_often(rt: &impl Abort, alloc: Global, server: &mut Server, around: Around, count: u32) {
    for number in 0..count {
        call_named(rt, alloc, server, around, number);
    }
}

#[test]
fn file_links_max(rt: HostRuntime) {
    let mut server = opened(&rt, rt.alloc(), AMPLE);
    call_often(&rt, rt.alloc(), &mut server, LINKS, 65_534);
    same(&rt, 0, server.journal_len(), 65_534);
    all_answered(&rt, rt.alloc(), &mut server, &FILE);
}

#[test]
fn directory_links_max(rt: HostRuntime) {
    let mut server = opened(&rt, rt.alloc(), AMPLE);
    all_answered(&rt, rt.alloc(), &mut server, &BESIDE);
    call_often(&rt, rt.alloc(), &mut server, DIRECTORIES, 65_533);
    same(&rt, 0, server.journal_len(), 65_534);
    all_answered(&rt, rt.alloc(), &mut server, &DIRECTORY);
}
