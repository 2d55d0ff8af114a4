//! Items of calls and replies, what is cut and put together again, and how long replies may be.

use crate::compare::same;
use crate::given::{MOUNT, NFS, call_of, payload_named, put_text, put_words};
use nr_reduce::{
    Item, Mismatch, Of, PayloadBuffer, PayloadFault, call_item, cut, largest_reply, rebuild,
    rebuild_into, rebuild_undoes_cut, reducible_item,
};
use std::alloc::Global;
use std::process::Abort;

const READ: u32 = 6;

const READLINK: u32 = 5;

/// The words of a reply before its data: the head with this accept status, the status, attributes (RFC 1813 section 2.5),
/// and for READ a count of 5 and the end.
const ATTRIBUTES: [u32; 22] = [
    1, 1, 438, 1, 0, 0, 0, 5, 0, 5, 0, 0, 0, 1, 0, 2, 0, 0, 0, 0, 0, 0,
];

fn reply_of(
    rt: &impl Abort,
    alloc: Global,
    accepted: u32,
    status: u32,
    results: &[u32],
) -> Vec<u8> {
    let mut out = Vec::new(alloc);
    put_words(rt, &mut out, &[9, 1, 0, 0, 0, accepted, status]);
    put_words(rt, &mut out, &ATTRIBUTES);
    put_words(rt, &mut out, results);
    put_text(rt, &mut out, 5);
    out
}

/// The item of a call, and the item if it can be cut.
fn item_of_call(rt: &impl Abort, alloc: Global, payload: &str) -> (Option<Item>, Option<Item>) {
    let bytes = payload_named(rt, alloc, payload);
    let bytes = bytes.as_slice();
    (call_item(bytes), reducible_item(&Of::Call, bytes))
}

const ITEM: Option<Item> = Some(Item { pos: 72, len: 5 });

const PATH: Option<Item> = Some(Item { pos: 88, len: 6 });

/// Calls, their items, and the items of those that can be cut.
static CALLS: [(&str, Option<Item>, Option<Item>); 7] = [
    ("write 5", ITEM, ITEM),
    ("write-front 5", ITEM, None),
    ("symlink 6", PATH, PATH),
    ("read 5", None, None),
    ("readlink 0", None, None),
    ("mnt 5", None, None),
    ("zeros 80", None, None),
];

#[test]
fn items_of_calls(rt: HostRuntime) {
    for (row, (payload, item, reducible)) in CALLS.iter().enumerate() {
        let got = item_of_call(&rt, rt.alloc(), payload);
        same(&rt, row, got, (*item, *reducible));
    }
}

/// A program, a version and a procedure, the accept status, the status and the words after the attributes of a reply, and
/// its item: 24 bytes of head, a status, attributes of 88 bytes, those words, a length word.
static REPLIES: [([u32; 3], u32, u32, &[u32], Option<Item>); 8] = [
    (
        [NFS, 3, READ],
        0,
        0,
        &[5, 1],
        Some(Item { pos: 128, len: 5 }),
    ),
    (
        [NFS, 3, READLINK],
        0,
        0,
        &[],
        Some(Item { pos: 120, len: 5 }),
    ),
    ([NFS, 3, READLINK], 0, 0, &[5, 1], None),
    ([NFS, 3, 7], 0, 0, &[5, 1], None),
    ([NFS, 2, READ], 0, 0, &[5, 1], None),
    ([MOUNT, 3, READ], 0, 0, &[5, 1], None),
    ([NFS, 3, READ], 1, 0, &[5, 1], None),
    ([NFS, 3, READ], 0, 13, &[5, 1], None),
];

/// The item of a reply to a procedure of a version of a program.
fn item_of_reply(call: [u32; 3], bytes: &[u8]) -> Option<Item> {
    let [prog, vers, proc] = call;
    reducible_item(&Of::Reply { prog, vers, proc }, bytes)
}

#[test]
fn items_of_replies(rt: HostRuntime) {
    for (row, (call, accepted, status, results, want)) in REPLIES.iter().enumerate() {
        let bytes = reply_of(&rt, rt.alloc(), *accepted, *status, results);
        same(&rt, row, item_of_reply(*call, &bytes), *want);
    }
}

/// WRITE of HELLO to file 2 at offset 0, before its data.
const HELLO: [u32; 8] = [8, 0, 2, 0, 0, 5, 2, 5];

/// That call with these bytes as its data.
fn hello(rt: &impl Abort, alloc: Global, text: &[u8]) -> Vec<u8> {
    let mut whole = call_of(rt, alloc, NFS, 7, &HELLO);
    whole.extend_from_slice(text).expect(rt, "memory");
    whole
}

/// Whether the payload that is put together has HELLO and a zero pad.
fn is_hello(
    rt: &impl Abort,
    alloc: Global,
    stream: &[u8],
    pos: u32,
    moved: &[u8],
) -> Result<bool, PayloadFault> {
    let whole = hello(rt, alloc, b"HELLO\0\0\0");
    match rebuild(alloc, &Of::Call, stream, pos, moved) {
        Ok(payload) => Ok(payload.as_slice() == whole.as_slice()),
        Err(fault) => Err(fault),
    }
}

const LENGTH: PayloadFault = PayloadFault::BadChunks {
    why: Mismatch::Length,
};

const POSITION: PayloadFault = PayloadFault::BadChunks {
    why: Mismatch::Position,
};

const NO_ITEM: PayloadFault = PayloadFault::BadChunks {
    why: Mismatch::NoItem,
};

/// The position of a read chunk and its bytes.
static CHUNKS: [(u32, &[u8], Result<bool, PayloadFault>); 5] = [
    (72, b"HELLO", Ok(true)),
    (72, b"HELLO\0\0\x07", Ok(true)),
    (72, b"HELLO\0", Err(LENGTH)),
    (2, b"HELLO", Err(POSITION)),
    (2, b"HELLO\0", Err(POSITION)),
];

#[test]
fn streams_are_rebuilt(rt: HostRuntime) {
    rebuild_undoes_cut();
    let stream = hello(&rt, rt.alloc(), b"");
    for (row, (pos, moved, want)) in CHUNKS.iter().enumerate() {
        let got = is_hello(&rt, rt.alloc(), &stream, *pos, moved);
        same(&rt, row, got, *want);
    }
    same(&rt, 5, Mismatch::Length as u8, 3);
}

/// The same of the payload that is put into a room, and into its first bytes alone.
fn is_hello_in_room(
    rt: &impl Abort,
    alloc: Global,
    stream: &[u8],
    pos: u32,
    moved: &[u8],
) -> Result<bool, PayloadFault> {
    let whole = hello(rt, alloc, b"HELLO\0\0\0");
    let mut room = PayloadBuffer::new(alloc, 100).expect(rt, "memory");
    if stream.len() > 80 || moved.len() > 10 {
        return Ok(false);
    }
    match rebuild_into(&mut room, &Of::Call, stream, pos, moved) {
        Ok(len) => Ok(room.into_first(len).as_slice() == whole.as_slice()),
        Err(why) => Err(PayloadFault::BadChunks { why }),
    }
}

#[test]
fn streams_are_rebuilt_in_room(rt: HostRuntime) {
    let stream = hello(&rt, rt.alloc(), b"");
    for (row, (pos, moved, want)) in CHUNKS.iter().enumerate() {
        let got = is_hello_in_room(&rt, rt.alloc(), &stream, *pos, moved);
        same(&rt, row, got, *want);
    }
}

#[test]
fn no_item_in_getattr(rt: HostRuntime) {
    let getattr = payload_named(&rt, rt.alloc(), "getattr 0");
    let got = is_hello(&rt, rt.alloc(), &getattr, 52, b"HELLO");
    same(&rt, 0, got, Err(NO_ITEM));
}

/// The item of what is cut, and the lengths of its stream and its content.
fn cut_of(rt: &impl Abort, alloc: Global, text: &[u8]) -> Option<(Item, usize, usize)> {
    let payload = hello(rt, alloc, text);
    match cut(alloc, &payload, &Of::Call) {
        Ok(Some(cut)) => Some((cut.item, cut.stream.len(), cut.moved.len())),
        _ => None,
    }
}

/// The pad, a pad that isn't zero, a byte too few and one too many.
static TEXTS: [(&[u8], Option<(Item, usize, usize)>); 4] = [
    (b"HELLO\0\0\0", Some((Item { pos: 72, len: 5 }, 72, 5))),
    (b"HELLO\0\0\x07", None),
    (b"HELLO\0\0", None),
    (b"HELLO\0\0\0\0", None),
];

#[test]
fn whole_items_are_cut(rt: HostRuntime) {
    for (row, (text, want)) in TEXTS.iter().enumerate() {
        same(&rt, row, cut_of(&rt, rt.alloc(), text), *want);
    }
}

/// The most bytes of a reply, by the procedure of NFS (RFC 1813 section 3.3).
static SIZES: [(u32, u32); 20] = [
    (0, 32),
    (1, 112),
    (2, 144),
    (3, 272),
    (4, 120),
    (5, 1144),
    (7, 160),
    (8, 304),
    (9, 304),
    (10, 304),
    (11, 304),
    (12, 144),
    (13, 144),
    (14, 260),
    (15, 232),
    (18, 168),
    (19, 164),
    (20, 140),
    (21, 152),
    (22, 32),
];

fn limit_of(rt: &impl Abort, alloc: Global, prog: u32, proc: u32, arguments: &[u32]) -> u32 {
    largest_reply(&call_of(rt, alloc, prog, proc, arguments))
}

#[test]
fn replies_have_limits(rt: HostRuntime) {
    for (row, (proc, want)) in SIZES.iter().enumerate() {
        let got = limit_of(&rt, rt.alloc(), NFS, *proc, &[8, 0, 2]);
        same(&rt, row, got, *want);
    }
    same(&rt, 22, limit_of(&rt, rt.alloc(), MOUNT, 1, &[]), 108);
    same(&rt, 23, largest_reply(&[]), 32);
}

/// READ by its count, up to 1048576; READDIR by its count and READDIRPLUS by the second of its counts.
static COUNTS: [(u32, &[u32], u32); 13] = [
    (6, &[8, 0, 2, 0, 0, 0], 128),
    (6, &[8, 0, 2, 0, 0, 5], 136),
    (6, &[8, 0, 2, 0, 0, 32769], 32900),
    (6, &[8, 0, 2, 0, 0, 1048576], 1048704),
    (6, &[8, 0, 2, 0, 0, 1048577], 1048704),
    (6, &[8, 0, 2, 0, 0], 32),
    (16, &[8, 0, 4, 0, 0, 0, 0, 88], 116),
    (16, &[8, 0, 4, 0, 0, 0, 0, 89], 117),
    (16, &[8, 0, 4, 0, 0, 0, 0, 40000], 32796),
    (16, &[8, 0, 4, 0, 0, 0, 0], 32),
    (17, &[8, 0, 4, 0, 0, 0, 0, 7, 4096], 4124),
    (17, &[8, 0, 4, 0, 0, 0, 0, 4096], 32),
    (17, &[8, 0, 4, 0, 0, 0, 0, 7, 40000], 32796),
];

#[test]
fn replies_have_limits_by_counts(rt: HostRuntime) {
    for (row, (proc, arguments, want)) in COUNTS.iter().enumerate() {
        let got = limit_of(&rt, rt.alloc(), NFS, *proc, arguments);
        same(&rt, row, got, *want);
    }
}
