//! Replies that name an STag of their call (RFC 5040 section 4.7): when they do, and what the client makes of them.

use crate::calling::form;
use crate::compare::same;
use crate::link::TestLink;
use crate::script::{rows, run, run_lines};
use crate::words::{bytes_of, call};
use nr_link::End;
use nr_requester::{Buffers, Remains, Take};
use std::alloc::Global;
use std::process::Abort;

/// Two ends of which neither, one or both say it, and a call.
static RELEASES: &str = "\
open-invalidating 1 0 0\n\
invalidates = (false, false)\n\
up\n\
down\n\
invalidates = (false, false)\n\
$0$\n\
releases = $1$\n\
open-invalidating 1 1 0\n\
invalidates = (false, false)\n\
up\n\
down\n\
invalidates = (false, false)\n\
$0$\n\
releases = $1$\n\
open-invalidating 1 0 1\n\
invalidates = (false, false)\n\
up\n\
down\n\
invalidates = (false, false)\n\
$0$\n\
releases = $1$\n\
open-invalidating 1 1 1\n\
invalidates = (false, false)\n\
up\n\
down\n\
invalidates = (true, true)\n\
$0$\n\
releases = $2$\n\
";

/// A call; how many regions are released that the server could reach, one for each chunk; and how many if the reply names one of them. ERR_CHUNK
/// names none.
static CALLS: &str = "\
exchange auto 0 : ; = Inline | 0 | 0\n\
exchange inline 1 : 8 0 2 ; 46 = Inline | 0 | 0\n\
# The data goes by a write chunk.\n\
exchange chunk 6 : 8 0 2 0 0 5 ; 0 0 5 1 5 68656c6c 6f000000 = Inline | 1 | 0\n\
# A write chunk that is one byte too short.\n\
exchange 72/-/4/- 6 : 8 0 2 0 0 5 ; 0 0 5 1 5 68656c6c 6f000000 = Chunk | 1 | 1\n\
exchange 72/-/3,2/- 6 : 8 0 2 0 0 5 ; 0 0 5 1 5 68656c6c 6f000000 = Inline | 1 | 0\n\
# The data goes by a read chunk, of one segment and of nine.\n\
exchange chunk 7 : 8 0 2 0 0 9 2 9 61626364 65666768 69000000 ; 46 = Inline | 1 | 0\n\
exchange 72/1,1,1,1,1,1,1,1,1/-/- 7 : 8 0 2 0 0 9 2 9 61626364 65666768 69000000 ; 46 = Inline | 1 | 0\n\
# All of the call goes by a read chunk at position 0.\n\
exchange long 1 : 8 0 2 ; 46 = Inline | 2 | 1\n\
exchange 72/-/-/4,4,4,4,4,4,4,4,4,4,4,4,4,4,4,4 1 : 8 0 2 ; 46 = Inline | 1 | 0\n\
# A reply chunk of 16 segments, and two that hold the reply, or all but one byte of it.\n\
exchange 72/-/-/77,77,77,77,77,77,77,77,77,77,77,77,77,77,77,77 1 : 8 0 2 ; 7*300 = Long | 1 | 0\n\
exchange 72/-/-/1224 1 : 8 0 2 ; 7*300 = Long | 1 | 0\n\
exchange 72/-/-/1223 1 : 8 0 2 ; 7*300 = Chunk | 1 | 1\n\
";

#[test]
fn replies_name_a_region(rt: HostRuntime) {
    rows(&rt, rt.alloc(), &[1, 65536], RELEASES, CALLS);
}

/// A reply of 12,024 bytes, which goes in several frames, names the STag of a reply chunk that isn't used.
static IN_FRAMES: &str = "\
open-invalidating 16 1 1\n\
invalidates = (false, false)\n\
up\n\
down\n\
invalidates = (true, true)\n\
exchange 72/-/-/4 1 : 8 0 2 ; 7*3000 = Inline\n\
releases = 0\n\
";

static GIVEN_UP: &str = "\
# The reply to a READ that was forgotten names its region, which the server can't reach any more when it is released.\n\
open-invalidating 1 1 1\n\
invalidates = (false, false)\n\
up\n\
down\n\
invalidates = (true, true)\n\
forget chunk 6 : 8 0 2 0 0 5\n\
answer : 1 1 0*4 0 0 5 1 5 68656c6c 6f000000 = (64, Inline)\n\
down\n\
ends = (None, None)\n\
counts = [0, 16, 0, 0, 0, 2]\n\
releases = 0\n\
# The region of a call that is revoked is released while the server could reach it. The reply names its STag, which is not held any more: it\n\
# changes nothing else.\n\
open-invalidating 1 1 1\n\
invalidates = (false, false)\n\
up\n\
down\n\
invalidates = (true, true)\n\
revoke 72/-/-/1224 1 1 1 : 8 0 2\n\
releases = 1\n\
answer : 1 1 0*4 46 = (52, Inline)\n\
down\n\
ends = (None, None)\n\
counts = [0, 16, 0, 0, 0, 2]\n\
releases = 1\n\
";

#[test]
fn late_replies_name_a_region(rt: HostRuntime) {
    run(&rt, rt.alloc(), &[7, 65536], IN_FRAMES);
    run(&rt, rt.alloc(), &[1, 65536], GIVEN_UP);
}

/// The reply to a NULL call names an STag that the call wasn't given.
static FOREIGN: &str = "\
open-invalidating 1 $0$\n\
invalidates = (false, false)\n\
up\n\
down\n\
submit auto 0 :\n\
up\n\
feed-down : 464144 $1$ 0 1 0 1 1 10 0*4 1 1 0*5 = $2$\n\
ends = (Some($2$), None)\n\
";

/// What both ends say, the STag, and the end of the client.
static NAMED: &str = "\
# The opcode isn't agreed (RFC 5040 section 4.8). A server's hello has terms only if the client's has.\n\
0 0 | 7 | Bad { at: 20, reason: 8 }\n\
0 1 | 7 | Bad { at: 20, reason: 8 }\n\
1 0 | 7 | Bad { at: 28, reason: 8 }\n\
# The STag isn't of its call; 0 is of none.\n\
1 1 | 7 | Bad { at: 28, reason: 29 }\n\
1 1 | 0 | Bad { at: 28, reason: 29 }\n\
";

#[test]
fn other_names_are_refused(rt: HostRuntime) {
    rows(&rt, rt.alloc(), &[1, 65536], FOREIGN, NAMED);
}

/// Both ends after a NULL call and the first of two READs of five bytes, with xids 2 and 3 and the regions 1 and 2.
static TWO_READS: &str = "\
open-invalidating 1 1 1\n\
invalidates = (false, false)\n\
up\n\
down\n\
invalidates = (true, true)\n\
exchange auto 0 : ; = Inline\n\
submit chunk 6 : 8 0 2 0 0 5\n\
";

/// The server writes both, and then a reply to one that names the region of the other, which ends the client. The second goes back with its
/// buffer as it was written.
fn other_named(rt: &impl Abort, alloc: Global, size: usize, row: usize, fed: &str) -> TestLink {
    let mut link = TestLink::open(rt, alloc, 16);
    run_lines(rt, alloc, &mut link, size, TWO_READS);
    let args = bytes_of(rt, alloc, "8 0 2 0 0 5");
    let asked = call(rt, alloc, 6, args.as_slice());
    let ticket = link.submit(rt, asked, form(rt, alloc, "chunk"));
    let _sent = link.up(rt, alloc, size);
    let fed = bytes_of(rt, alloc, fed);
    let end = End::Bad {
        at: 160,
        reason: 29,
    };
    let got = link.pieces_down(rt, fed.as_slice(), size);
    same(rt, row, got, Err(end));
    is_failed(rt, row, &link.take(ticket), end, b"fghij");
    same(rt, row, link.releases(), 1);
    link
}

/// The bytes of the buffer for a write chunk.
fn write_of(buffers: &Buffers) -> Option<&[u8]> {
    match &buffers.write {
        Some(buffer) => Some(buffer.as_slice()),
        None => None,
    }
}

/// Ends the test if a call didn't fail for this end, with these bytes in its write chunk.
fn is_failed(rt: &impl Abort, row: usize, take: &Take, end: End, written: &[u8]) {
    match take {
        Take::Failed {
            buffers,
            end: why,
            ..
        } => {
            same(rt, row, *why, end);
            same(rt, row, write_of(buffers) == Some(written), true);
        }
        _ => panic!(rt; "row {row}: the call didn't fail"),
    }
}

/// Ends the test if the next call that goes back has other bytes in its write chunk.
fn goes_back(rt: &impl Abort, row: usize, remains: &mut Remains, written: &[u8]) {
    match remains.next() {
        Some((_call, buffers)) => same(rt, row, write_of(&buffers) == Some(written), true),
        None => panic!(rt; "row {row}: no call goes back"),
    }
}

/// The RDMA Writes of five bytes into each of the regions 1 and 2, and the reply to the READ with xid 2 or 3 as a Send with Invalidate that names
/// the region of the other.
static OTHERS: [&str; 2] = [
    "13c140 1 0 0 61626364 65000000 0 13c140 2 0 0 66676869 6a000000 0 464144 2 0 2 0 2 1 10 0*4 2 1 0*5",
    "13c140 1 0 0 61626364 65000000 0 13c140 2 0 0 66676869 6a000000 0 464144 1 0 2 0 3 1 10 0*4 3 1 0*5",
];

/// The first READ goes back with its buffer, too.
#[test]
fn other_calls_stay_as_written(rt: HostRuntime) {
    for size in [1, 65536] {
        for (row, fed) in OTHERS.iter().enumerate() {
            let link = other_named(&rt, rt.alloc(), size, row, fed);
            let mut remains = link.into_client().dismantle();
            goes_back(&rt, row, &mut remains, b"abcde");
        }
    }
}
