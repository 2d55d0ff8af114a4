//! Tests of nr_header. Rows are words, worked out by hand from RFC 8166 (sections 3.4 and 4), and the limits of this project.

ghost use Rattle.std.specs.Prelude.{IfOk};
ghost use Rattle.nr_header.specs.Header.{CanWriteHeader};
ghost use Rattle.nr_header.specs.WithinLimits.{IsMessage};

use crate::compare::{bytes_of, joined, put_words, same};
use nr_header::*;
use nr_xdr::Octets;
use std::alloc::Global;
use std::process::Abort;

/// What is read: a header, or a fault and its version, its kind or the offset of its first bad item.
type Read = (u8, usize);

const HEADER: Read = (0, 0);

const SHORT: Read = (1, 0);

const VERSION: u8 = 2;

const KIND: u8 = 3;

const BAD_CHUNKS: u8 = 4;

fn read_as(bytes: &[u8]) -> Read {
    match read_header(bytes).err() {
        None => HEADER,
        Some(HeaderFault::Short) => SHORT,
        Some(HeaderFault::Version { version }) => (VERSION, version as usize),
        Some(HeaderFault::Kind { kind }) => (KIND, kind as usize),
        Some(HeaderFault::BadChunks { at }) => (BAD_CHUNKS, at),
    }
}

const MOST: u32 = 0xffff_ffff;

static MESSAGES: [(&[u32], Read); 46] = [
    (&[], SHORT),
    (&[1, 1, 16], SHORT),
    (&[1, 1, 16, 0, 0, 0, 0], HEADER),
    // Versions.
    (&[1, 0, 16, 0, 0, 0, 0], (VERSION, 0)),
    (&[1, 2, 16, 0], (VERSION, 2)),
    (&[1, 2, 16, 0, 0, 0, 0], (VERSION, 2)),
    (&[1, MOST, 16, 3], (VERSION, MOST as usize)),
    // Complete error messages of any version, and others: another code, or other bytes than those of the code.
    (&[1, 2, 16, 4, 1, 1, 3], HEADER),
    (&[1, 1, 16, 4, 2], HEADER),
    (&[1, 7, 16, 4, 2], HEADER),
    (&[1, 1, 16, 4], (KIND, 4)),
    (&[1, 1, 16, 4, 1], (KIND, 4)),
    (&[1, 1, 16, 4, 1, 1], (KIND, 4)),
    (&[1, 1, 16, 4, 1, 1, 1, 7], (KIND, 4)),
    (&[1, 2, 16, 4, 1, 1, 1, 7], (VERSION, 2)),
    (&[1, 1, 16, 4, 2, 0], (KIND, 4)),
    (&[1, 1, 16, 4, 2, 0, 0], (KIND, 4)),
    (&[1, 1, 16, 4, 3], (KIND, 4)),
    (&[1, 2, 16, 4, 3], (VERSION, 2)),
    // Other kinds.
    (&[1, 1, 16, 2, 0, 0, 0], (KIND, 2)),
    (&[1, 1, 16, 3, 0, 0, 0], (KIND, 3)),
    (&[1, 1, 16, 5], (KIND, 5)),
    (&[1, 1, 16, MOST, 0, 0, 0], (KIND, MOST as usize)),
    // Lists that run past the message, and a list word that is neither 0 nor 1.
    (&[1, 1, 16, 0, 0, 0], (BAD_CHUNKS, 24)),
    (&[1, 1, 16, 0, 1, 4, 1, 1, 0], (BAD_CHUNKS, 32)),
    (&[1, 1, 16, 0, 2, 0, 0], (BAD_CHUNKS, 16)),
    (&[1, 1, 16, 0, 0, 0, 2], (BAD_CHUNKS, 24)),
    // Positions.
    (&[1, 1, 16, 0, 1, 0, 1, 1, 0, 0, 0, 0, 0], (BAD_CHUNKS, 16)),
    (&[1, 1, 16, 1, 1, 0, 1, 1, 0, 0, 0, 0, 0], HEADER),
    (
        &[1, 1, 16, 0, 1, 4, 1, 1, 0, 0, 1, 8, 1, 1, 0, 0, 0, 0, 0],
        (BAD_CHUNKS, 40),
    ),
    (
        &[
            1, 1, 16, 1, 1, 4, 1, 1, 0, 0, 1, 0, 1, 1, 0, 0, 1, 8, 1, 1, 0, 0, 0, 0, 0,
        ],
        (BAD_CHUNKS, 64),
    ),
    // Segments that end at 2^64, and past it.
    (&[1, 1, 16, 0, 1, 4, 1, 1, MOST, MOST, 0, 0, 0], HEADER),
    (
        &[1, 1, 16, 0, 1, 4, 1, 2, MOST, MOST, 0, 0, 0],
        (BAD_CHUNKS, 16),
    ),
    (&[1, 1, 16, 0, 0, 1, 1, 9, 1, MOST, MOST, 0, 0], HEADER),
    (
        &[1, 1, 16, 0, 0, 1, 1, 9, 2, MOST, MOST, 0, 0],
        (BAD_CHUNKS, 28),
    ),
    (
        &[1, 1, 16, 0, 0, 0, 1, 1, 9, 2, MOST, MOST],
        (BAD_CHUNKS, 32),
    ),
    // Counts.
    (&[1, 1, 16, 0, 0, 1, 17], (BAD_CHUNKS, 24)),
    (&[1, 1, 16, 0, 0, 0, 1, 17], (BAD_CHUNKS, 28)),
    (&[1, 1, 16, 0, 0, 1, 0, 1, 0, 1, 0, 1, 0, 0, 0], HEADER),
    (
        &[1, 1, 16, 0, 0, 1, 0, 1, 0, 1, 0, 1, 0, 1, 0, 0, 0],
        (BAD_CHUNKS, 52),
    ),
    // Bytes after the lists, and the lengths of the read list.
    (&[1, 1, 16, 1, 0, 0, 0, 7], (BAD_CHUNKS, 28)),
    (
        &[1, 1, 16, 0, 1, 4, 1, 1056765, 0, 0, 0, 0, 0, 7],
        (BAD_CHUNKS, 52),
    ),
    (&[1, 1, 16, 0, 1, 4, 1, 1056764, 0, 0, 0, 0, 0, 7], HEADER),
    (
        &[1, 1, 16, 1, 1, 0, 1, 1056769, 0, 0, 0, 0, 0],
        (BAD_CHUNKS, 52),
    ),
    (&[1, 1, 16, 1, 1, 0, 1, 1056768, 0, 0, 0, 0, 0], HEADER),
    (
        &[1, 1, 16, 1, 1, 4, 1, MOST, 0, 0, 0, 0, 0],
        (BAD_CHUNKS, 52),
    ),
];

#[test]
fn messages(rt: HostRuntime) {
    header_round_trip();
    bad_messages();
    kinds_of_messages();
    for (row, (words, want)) in MESSAGES.iter().enumerate() {
        let bytes = bytes_of(&rt, rt.alloc(), words);
        same(&rt, row, read_as(&bytes), *want);
    }
    same(&rt, 46, read_as(&[0; 15]), SHORT);
}

fn put_times(rt: &impl Abort, bytes: &mut Vec<u8>, words: &[u32], times: u32) {
    for _ in 0..times {
        put_words(rt, bytes, words);
    }
}

/// A list of `count` segments after a word that says that it is there.
fn put_chunk(rt: &impl Abort, bytes: &mut Vec<u8>, count: u32) {
    put_words(rt, bytes, &[1, count]);
    put_times(rt, bytes, &[1, 1, 0, 0], count);
}

/// RDMA_MSG by five counts: of read entries, of segments in the first write chunk, in the second, and in the reply chunk, and
/// of words of a stream.
fn message(rt: &impl Abort, alloc: Global, counts: [u32; 5]) -> Vec<u8> {
    let [entries, first, second, reply, stream] = counts;
    let mut bytes = bytes_of(rt, alloc, &[1, 1, 16, 0]);
    put_times(rt, &mut bytes, &[1, 4, 1, 1, 0, 0], entries);
    put_words(rt, &mut bytes, &[0]);
    put_chunk(rt, &mut bytes, first);
    put_chunk(rt, &mut bytes, second);
    put_words(rt, &mut bytes, &[0]);
    put_chunk(rt, &mut bytes, reply);
    put_times(rt, &mut bytes, &[7], stream);
    bytes
}

/// The counts of `message`.
static LIMITS: [([u32; 5], Read); 9] = [
    ([16, 0, 0, 16, 0], HEADER),
    ([17, 0, 0, 0, 0], (BAD_CHUNKS, 400)),
    ([0, 0, 0, 17, 0], (BAD_CHUNKS, 44)),
    ([0, 16, 0, 0, 0], HEADER),
    ([0, 17, 0, 0, 0], (BAD_CHUNKS, 24)),
    ([0, 8, 8, 0, 0], HEADER),
    ([0, 8, 9, 0, 0], (BAD_CHUNKS, 320)),
    ([0, 0, 0, 0, 264192], HEADER),
    ([0, 0, 0, 0, 264193], (BAD_CHUNKS, 48)),
];

#[test]
fn limits(rt: HostRuntime) {
    for (row, (counts, want)) in LIMITS.iter().enumerate() {
        let bytes = message(&rt, rt.alloc(), *counts);
        same(&rt, row, read_as(&bytes), *want);
    }
}

fn entry(position: u32, handle: u32) -> ReadSegment {
    ReadSegment {
        position,
        handle,
        length: 12,
        offset: 0x0000_000d_0000_000e,
    }
}

/// A write list of two chunks and a reply chunk.
const WRITE_AND_REPLY: [u32; 23] = [
    1, 2, 21, 22, 23, 24, 25, 26, MOST, 28, 1, 1, 25, 26, MOST, 28, 0, 1, 1, 21, 22, 23, 24,
];

const MSG_WORDS: [&[u32]; 4] = [
    &[0x0102_0304, 1, 32, 0],
    &[1, 8, 11, 12, 13, 14, 1, 8, 31, 12, 13, 14, 0],
    &WRITE_AND_REPLY,
    &[0x6869_686f],
];

const NOMSG_WORDS: [&[u32]; 3] = [
    &[0x0102_0304, 1, 32, 1],
    &[1, 0, 11, 12, 13, 14, 1, 0, 31, 12, 13, 14, 0],
    &WRITE_AND_REPLY,
];

/// The handle and the length of the second segment of the first write chunk, and the handle of the reply chunk's one.
fn chunk_numbers(lists: &ChunkLists) -> [u32; 3] {
    let ([first, _], Some(reply)) = (lists.write.as_slice(), &lists.reply) else {
        return [0; 3];
    };
    match (first.as_slice(), reply.as_slice()) {
        ([_, second], [only]) => [second.handle, second.length, only.handle],
        _ => [0; 3],
    }
}

/// The kind; of lists the numbers of their chunks, of ERR_VERS the version word, the lowest and the highest version, of
/// ERR_CHUNK the version word; and the offset of the stream.
fn body_numbers(body: &Body) -> ([u32; 4], usize) {
    match body {
        Body::Msg { lists, stream_at } => {
            let [handle, length, reply] = chunk_numbers(lists);
            ([0, handle, length, reply], *stream_at)
        }
        Body::Nomsg { lists } => {
            let [handle, length, reply] = chunk_numbers(lists);
            ([1, handle, length, reply], 0)
        }
        Body::ErrVers { version, low, high } => ([2, *version, *low, *high], 0),
        Body::ErrChunk { version } => ([3, *version, 0, 0], 0),
    }
}

/// The xid and the credits of a header, and its body's numbers.
fn header_numbers(header: &Header) -> ([u32; 2], ([u32; 4], usize)) {
    ([header.xid, header.credit], body_numbers(&header.body))
}

fn written(rt: &impl Abort, alloc: Global, header: &Header) -> Octets
    requires { CanWriteHeader header.now }
{
    write_header(alloc, header).expect(rt, "memory")
}

/// Ends the test if the header doesn't have these numbers, or isn't written as the front of the bytes.
fn same_header(
    rt: &impl Abort,
    alloc: Global,
    row: usize,
    header: &Header,
    bytes: &[u8],
    want: ([u32; 4], usize),
)
    requires { CanWriteHeader header.now }
{
    let fixed = [0x0102_0304, 32];
    same(rt, row, header_numbers(header), (fixed, want));
    let again = written(rt, alloc, header);
    let front = bytes.get(..again.len());
    same(rt, row, Some(again.as_slice()), front);
}

/// The same of what is read of the bytes.
fn same_read(
    rt: &impl Abort,
    alloc: Global,
    row: usize,
    read: &Result<Header, HeaderFault>,
    bytes: &[u8],
    want: ([u32; 4], usize),
)
    requires { IfOk read.now (λ header. IsMessage header bytes.now) }
{
    match read {
        Ok(header) => same_header(rt, alloc, row, header, bytes, want),
        Err(_) => panic!(rt; "a header"),
    }
}

/// Reads the header of the bytes, and compares it.
fn header_again(rt: &impl Abort, alloc: Global, row: usize, bytes: &[u8], want: ([u32; 4], usize)) {
    let read = read_header(bytes);
    same_read(rt, alloc, row, &read, bytes, want);
    drop(read);
}

static HEADERS: [(&[&[u32]], ([u32; 4], usize)); 4] = [
    (&MSG_WORDS, ([0, 25, 26, 21], 160)),
    (&NOMSG_WORDS, ([1, 25, 26, 21], 0)),
    (&[&[0x0102_0304, 7, 32, 4, 1, 2, 5]], ([2, 7, 2, 5], 0)),
    (&[&[0x0102_0304, 3, 32, 4, 2]], ([3, 3, 0, 0], 0)),
];

#[test]
fn headers_read(rt: HostRuntime) {
    for (row, (parts, want)) in HEADERS.iter().enumerate() {
        let bytes = joined(&rt, rt.alloc(), parts);
        header_again(&rt, rt.alloc(), row, &bytes, *want);
    }
}

/// A read list of 17 entries.
fn long_list(rt: &impl Abort, alloc: Global) -> ReadList {
    InlineVec::from_vec(vec![in alloc; entry(4, 9); 17].expect(rt, "memory"))
}

/// RDMA_MSG with this read list.
fn header_of(read: ReadList) -> Header
    ensures { CanWriteHeader result }
{
    let lists = ChunkLists {
        read,
        write: InlineVec::new(),
        reply: None,
    };
    Header {
        xid: 0x0102_0304,
        credit: 32,
        body: Body::Msg {
            lists,
            stream_at: 0,
        },
    }
}

fn long_header_written(rt: &impl Abort, alloc: Global) -> Octets {
    let header = header_of(long_list(rt, alloc));
    let octets = written(rt, alloc, &header);
    drop(header);
    octets
}

/// The words of that header.
fn long_header_words(rt: &impl Abort, alloc: Global) -> Vec<u8> {
    let mut bytes = bytes_of(rt, alloc, &[0x0102_0304, 1, 32, 0]);
    put_times(rt, &mut bytes, &[1, 4, 9, 12, 13, 14], 17);
    put_words(rt, &mut bytes, &[0, 0, 0]);
    bytes
}

/// A read list of 17 entries is written completely, and refused at its last one when it is read.
#[test]
fn written_above_the_limit(rt: HostRuntime) {
    let written = long_header_written(&rt, rt.alloc()).into_vec();
    same(&rt, 0, read_as(&written), (BAD_CHUNKS, 400));
    same(&rt, 1, written, long_header_words(&rt, rt.alloc()));
}

#[test]
fn fields_of_messages(rt: HostRuntime) {
    let message = [9, 8, 7, 6, 0, 0, 0, 1, 0, 0, 1, 2, 0, 0, 0, 0];
    let fields = (xid_of(&message), credit_of(&message));
    same(&rt, 0, fields, (0x0908_0706, 0x0102));
}
