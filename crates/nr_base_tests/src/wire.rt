//! Tests of nr_wire. Rows are worked out by hand from the layouts of RFC 5044 (MPA), RFC 5041 (DDP) and RFC 5040 (RDMAP).

use crate::compare::same;
use nr_wire::*;
use nr_xdr::{Memory, Octets};
use std::alloc::Global;
use std::process::Abort;

/// What an answer is: 0 for a complete frame, `MORE`, or the reason for which it is refused.
const MORE: u32 = 100;

fn segment_answer(next: &NextSegment<'_>) -> u32 {
    match next {
        NextSegment::Whole { .. } => 0,
        NextSegment::More => MORE,
        NextSegment::Bad { reason } => *reason,
    }
}

/// The form (1 for tagged), the last bit and the opcode; the STag and the offset, or the word, the queue, the message's
/// number and the offset; the length of the payload.
fn numbers_of(segment: &Segment<'_>) -> [u64; 8] {
    match *segment {
        Segment::Tagged {
            last,
            opcode,
            stag,
            to,
            payload,
        } => [
            1,
            u64::from(last),
            u64::from(opcode),
            u64::from(stag),
            to,
            0,
            0,
            payload.len() as u64,
        ],
        Segment::Untagged {
            last,
            opcode,
            word,
            queue,
            msn,
            offset,
            payload,
        } => [
            0,
            u64::from(last),
            u64::from(opcode),
            u64::from(word),
            u64::from(queue),
            u64::from(msn),
            u64::from(offset),
            payload.len() as u64,
        ],
    }
}

static SEGMENTS: [(&[u8], [u64; 8]); 16] = [
    // A NULL call and its reply, and ERR_CHUNK, each in one Send.
    (
        b"\x00\x56\x41\x43\0\0\0\0\0\0\0\0\0\0\0\x01\0\0\0\0\
\0\0\0\x01\0\0\0\x01\0\0\0\x10\0\0\0\0\0\0\0\0\0\0\0\0\0\0\0\0\
\0\0\0\x01\0\0\0\0\0\0\0\x02\0\x01\x86\xa3\0\0\0\x03\0\0\0\0\0\0\0\0\0\0\0\0\0\0\0\0\0\0\0\0\0\0\0\0",
        [0, 1, 3, 0, 0, 1, 0, 68],
    ),
    (
        b"\x00\x46\x41\x43\0\0\0\0\0\0\0\0\0\0\0\x01\0\0\0\0\
\0\0\0\x01\0\0\0\x01\0\0\0\x10\0\0\0\0\0\0\0\0\0\0\0\0\0\0\0\0\
\0\0\0\x01\0\0\0\x01\0\0\0\0\0\0\0\0\0\0\0\0\0\0\0\0\0\0\0\0",
        [0, 1, 3, 0, 0, 1, 0, 52],
    ),
    (
        b"\x00\x26\x41\x43\0\0\0\0\0\0\0\0\0\0\0\x01\0\0\0\0\
\0\0\0\x01\0\0\0\x01\0\0\0\x10\0\0\0\x04\0\0\0\x02\0\0\0\0",
        [0, 1, 3, 0, 0, 1, 0, 20],
    ),
    // A Write of five bytes, and the shortest tagged ULPDU.
    (
        b"\x00\x13\xc1\x40\0\0\0\x01\0\0\0\0\0\0\0\0hello\0\0\0\0\0\0\0",
        [1, 1, 0, 1, 0, 0, 0, 5],
    ),
    (
        b"\x00\x0e\xc1\x40\0\0\0\x01\0\0\0\0\0\0\0\0\0\0\0\0",
        [1, 1, 0, 1, 0, 0, 0, 0],
    ),
    // A Read Request, its response, a Terminate.
    (
        b"\x00\x2e\x41\x41\0\0\0\0\0\0\0\x01\0\0\0\x01\0\0\0\0\
\0\0\0\x01\0\0\0\0\0\0\0\0\0\0\0\x05\0\0\0\x01\0\0\0\0\0\0\0\0\0\0\0\0",
        [0, 1, 1, 0, 1, 1, 0, 28],
    ),
    (
        b"\x00\x13\xc1\x42\0\0\0\x01\0\0\0\0\0\0\0\0HELLO\0\0\0\0\0\0\0",
        [1, 1, 2, 1, 0, 0, 0, 5],
    ),
    (
        b"\x00\x16\x41\x47\0\0\0\0\0\0\0\x02\0\0\0\x01\0\0\0\0\0\0\0\x05\0\0\0\0",
        [0, 1, 7, 0, 2, 1, 0, 4],
    ),
    // Two segments of a Send with Invalidate (RFC 5040 section 4.7): the last one has the STag.
    (
        b"\x00\x13\x01\x44\0\0\0\0\0\0\0\0\0\0\0\x01\0\0\0\0A\0\0\0\0\0\0\0",
        [0, 0, 4, 0, 0, 1, 0, 1],
    ),
    (
        b"\x00\x12\x41\x44\0\0\0\x07\0\0\0\0\0\0\0\x01\0\0\0\x01\0\0\0\0",
        [0, 1, 4, 7, 0, 1, 1, 0],
    ),
    // Not the last of its message: byte 4096 of message 7; bytes of a region from 0x0102030405060708 on.
    (
        b"\x00\x13\x01\x43\0\0\0\0\0\0\0\0\0\0\0\x07\0\0\x10\0A\0\0\0\0\0\0\0",
        [0, 0, 3, 0, 0, 7, 4096, 1],
    ),
    (
        b"\x00\x10\x81\x40\x01\x02\x03\x04\x01\x02\x03\x04\x05\x06\x07\x08ab\0\0\0\0\0\0",
        [1, 0, 0, 0x0102_0304, 0x0102_0304_0506_0708, 0, 0, 2],
    ),
    (
        b"\x00\x11\x81\x42\xff\xff\xff\xff\xff\xff\xff\xff\xff\xff\xff\xfcabc\0\0\0\0\0",
        [1, 0, 2, 0xffff_ffff, 0xffff_ffff_ffff_fffc, 0, 0, 3],
    ),
    // The word, the number and the offset of a message at their largest.
    (
        b"\x00\x12\x41\x43\xff\xff\xff\xff\0\0\0\0\xff\xff\xff\xff\xff\xff\xff\xff\0\0\0\0",
        [0, 1, 3, 0xffff_ffff, 0, 0xffff_ffff, 0xffff_ffff, 0],
    ),
    (
        b"\x00\x12\x01\x41\xde\xad\xbe\xef\0\0\0\x01\x12\x34\x56\x78\0\0\x01\x02\0\0\0\0",
        [0, 0, 1, 0xdead_beef, 1, 0x1234_5678, 0x0102, 0],
    ),
    (
        b"\x00\x14\x01\x47\0\0\x01\0\0\0\0\x02\0\0\0\x02\0\x01\0\0yz\0\0\0\0\0\0",
        [0, 0, 7, 256, 2, 2, 65536, 2],
    ),
];

/// The length of the segment that the bytes begin with, and its numbers.
fn segment_read(bytes: &[u8]) -> Option<(usize, [u64; 8])> {
    match next_segment(bytes) {
        NextSegment::Whole { segment, len } => Some((len, numbers_of(&segment))),
        NextSegment::More | NextSegment::Bad { .. } => None,
    }
}

/// The bytes of the segment that these begin with as they are written.
fn segment_written(rt: &impl Abort, alloc: Global, bytes: &[u8]) -> Octets {
    match next_segment(bytes) {
        NextSegment::Whole { segment, .. } => write_segment(alloc, &segment).expect(rt, "memory"),
        NextSegment::More | NextSegment::Bad { .. } => Octets::new(alloc),
    }
}

/// Ends the test if the segment that the bytes begin with doesn't have this length and these numbers, or is written as other
/// bytes.
fn segment_again(
    rt: &impl Abort,
    alloc: Global,
    row: usize,
    bytes: &[u8],
    want: (usize, [u64; 8]),
    plain: &[u8],
) {
    same(rt, row, segment_read(bytes), Some(want));
    let written = segment_written(rt, alloc, bytes);
    same(rt, row, written.as_slice(), plain);
}

#[test]
fn segments_both_ways(rt: HostRuntime) {
    for (row, (bytes, numbers)) in SEGMENTS.iter().enumerate() {
        let want = (bytes.len(), *numbers);
        segment_again(&rt, rt.alloc(), row, bytes, want, bytes);
    }
}

/// Each row without its last byte is less than a frame, which needs one byte more.
#[test]
fn partial_segments(rt: HostRuntime) {
    round_trip();
    judged_alone();
    one_segment();
    one_split();
    longest_fpdu();
    however_cut::<u64>();
    for (row, (bytes, _)) in SEGMENTS.iter().enumerate() {
        same(
            &rt,
            row,
            whole_frame(Awaited::Fpdu, bytes),
            Some(bytes.len()),
        );
        if let Some((_, front)) = bytes.split_last() {
            let needed = bytes_needed(Awaited::Fpdu, front);
            same(
                &rt,
                row,
                (segment_answer(&next_segment(front)), needed),
                (MORE, 1),
            );
        }
    }
}

/// The longest FPDU has an ULPDU of 65535 bytes.
#[test]
fn longest_segment(rt: HostRuntime) {
    let mut frame = [0; 65544];
    frame[..4].copy_from_slice(b"\xff\xff\x41\x43");
    frame[15] = 1;
    let want = (65544, [0, 1, 3, 0, 0, 1, 0, 65517]);
    segment_again(&rt, rt.alloc(), 0, &frame, want, &frame);
}

/// Every reserved bit, the pad and the CRC are set: they are ignored, and written as zeros.
#[test]
fn ignored_bits(rt: HostRuntime) {
    let full = b"\x00\x0f\xfd\x70\0\0\0\x01\0\0\0\0\0\0\0\0A\xff\xff\xff\xff\xff\xff\xff";
    let plain: &[u8] = b"\x00\x0f\xc1\x40\0\0\0\x01\0\0\0\0\0\0\0\0A\0\0\0\0\0\0\0";
    let want = (24, [1, 1, 0, 1, 0, 0, 0, 1]);
    segment_again(&rt, rt.alloc(), 0, full, want, plain);
}

/// The length of the ULPDU, the two control bytes, the queue, and the reason.
static REFUSED: [(u8, u8, u8, u8, u32); 55] = [
    (0, 0x41, 0x43, 0, 5),
    (1, 0x41, 0x43, 0, 5),
    (17, 0x41, 0x43, 0, 5),
    (13, 0xc1, 0x40, 0, 5),
    // An untagged segment needs 18 bytes, also with an opcode of the tagged ones.
    (14, 0x41, 0x40, 0, 5),
    (15, 0x41, 0x40, 0, 5),
    (16, 0x41, 0x42, 0, 5),
    (17, 0x41, 0x40, 0, 5),
    (18, 0x41, 0x40, 0, 9),
    // A tagged one needs 14, also with an opcode of the untagged ones.
    (13, 0xc1, 0x43, 0, 5),
    (14, 0xc1, 0x43, 0, 9),
    (17, 0xc1, 0x47, 2, 9),
    // The length comes before each other reason, and these come in order.
    (17, 0x40, 0x43, 0, 5),
    (17, 0x41, 0x83, 0, 5),
    (17, 0x41, 0x44, 0, 5),
    (13, 0xc1, 0x41, 0, 5),
    (17, 0x41, 0x43, 1, 5),
    (17, 0x42, 0x84, 7, 5),
    (18, 0x42, 0x84, 7, 6),
    (18, 0x41, 0x84, 7, 7),
    (18, 0x41, 0x45, 7, 8),
    (18, 0xc2, 0x83, 0, 6),
    (18, 0xc1, 0x83, 0, 7),
    (18, 0xc1, 0x45, 0, 8),
    (18, 0xc1, 0x43, 7, 9),
    (18, 0x41, 0x42, 7, 9),
    // Versions of DDP and of RDMAP.
    (18, 0x40, 0x43, 0, 6),
    (18, 0x42, 0x43, 0, 6),
    (18, 0x43, 0x43, 0, 6),
    (18, 0x41, 0x03, 0, 7),
    (18, 0x41, 0x83, 0, 7),
    (18, 0x41, 0xc3, 0, 7),
    // Opcodes.
    (18, 0x41, 0x45, 0, 8),
    (18, 0x41, 0x46, 0, 8),
    (18, 0x41, 0x48, 0, 8),
    (18, 0x41, 0x49, 0, 8),
    (18, 0x41, 0x4a, 0, 8),
    (18, 0x41, 0x4b, 0, 8),
    (18, 0x41, 0x4c, 0, 8),
    (18, 0x41, 0x4d, 0, 8),
    (18, 0x41, 0x4e, 0, 8),
    (18, 0x41, 0x4f, 0, 8),
    (18, 0xc1, 0x48, 0, 8),
    (18, 0xc1, 0x4f, 0, 8),
    // Forms and queues.
    (18, 0xc1, 0x41, 1, 9),
    (18, 0xc1, 0x47, 2, 9),
    (18, 0xc1, 0x44, 0, 9),
    (18, 0x41, 0x43, 1, 10),
    (18, 0x41, 0x43, 3, 10),
    (18, 0x41, 0x44, 1, 10),
    (18, 0x41, 0x41, 0, 10),
    (18, 0x41, 0x41, 2, 10),
    (18, 0x41, 0x47, 0, 10),
    (18, 0x41, 0x47, 1, 10),
    (18, 0x41, 0x47, 3, 10),
];

#[test]
fn refused_segments(rt: HostRuntime) {
    for (row, (len, first, second, queue, reason)) in REFUSED.iter().enumerate() {
        let frame = [
            0, *len, *first, *second, 0, 0, 0, 0, 0, 0, 0, *queue, 0, 0, 0, 1, 0, 0, 0, 0, 0, 0, 0,
            0,
        ];
        same(&rt, row, segment_answer(&next_segment(&frame)), *reason);
    }
}

use Side::{Initiator, Responder};

/// The side, a byte of the key, the flags, the revision, the length of the private data, and what comes of it: the length of
/// the hello, or a reason.
static HELLOS: [(Side, u8, u8, u8, u16, Result<usize, u32>); 20] = [
    (Initiator, b'q', 0x00, 1, 0, Ok(20)),
    (Initiator, b'p', 0x00, 1, 0, Err(1)),
    (Responder, b'p', 0x00, 1, 0, Ok(20)),
    (Responder, b'q', 0x80, 1, 0, Err(1)),
    (Initiator, b'q', 0x80, 0, 0, Err(2)),
    (Initiator, b'q', 0x40, 1, 0, Err(2)),
    (Initiator, b'q', 0x3f, 1, 0, Ok(20)),
    (Responder, b'p', 0x80, 1, 0, Err(2)),
    (Responder, b'p', 0x40, 1, 0, Err(2)),
    (Responder, b'p', 0x20, 1, 0, Err(2)),
    (Responder, b'p', 0x1f, 1, 0, Ok(20)),
    (Initiator, b'q', 0x00, 0, 513, Err(3)),
    (Initiator, b'q', 0x00, 2, 0, Err(3)),
    (Initiator, b'q', 0x00, 1, 513, Err(4)),
    (Initiator, b'q', 0x00, 1, 65535, Err(4)),
    // Private data of one byte, of eight, and of the most.
    (Initiator, b'q', 0x00, 1, 1, Ok(21)),
    (Responder, b'p', 0x00, 1, 8, Ok(28)),
    (Initiator, b'q', 0x00, 1, 256, Ok(276)),
    (Responder, b'p', 0x00, 1, 511, Ok(531)),
    (Initiator, b'q', 0x00, 1, 512, Ok(532)),
];

fn hello_answer(next: &NextHello<'_>) -> Result<usize, u32> {
    match next {
        NextHello::Whole { len, .. } => Ok(*len),
        NextHello::More => Err(MORE),
        NextHello::Bad { reason } => Err(*reason),
    }
}

/// The bytes of the hello that these begin with as they are written, if it isn't refused.
fn hello_again(alloc: Global, side: Side, bytes: &[u8]) -> Result<Octets, Memory> {
    match read_hello(side, bytes) {
        NextHello::Whole { hello, .. } => write_hello(alloc, &hello),
        NextHello::More | NextHello::Bad { .. } => Ok(Octets::new(alloc)),
    }
}

/// The bytes of a hello with these fields.
fn hello_bytes(key: u8, flags: u8, revision: u8, private: u16) -> [u8; 532] {
    let mut bytes = [0x5a; 532];
    bytes[..16].copy_from_slice(b"MPA ID Re_ Frame");
    bytes[9] = key;
    bytes[16] = flags;
    bytes[17] = revision;
    bytes[18..20].copy_from_slice(&u16::to_be_bytes(private));
    bytes
}

/// Ends the test if one of these numbers of bytes more is not what the hello needs: of 19 bytes, and of 20.
fn needs(rt: &impl Abort, row: usize, side: Side, bytes: &[u8; 532], rest: usize) {
    let awaited = Awaited::Hello(side);
    same(rt, row, bytes_needed(awaited, &bytes[..19]), 1);
    same(rt, row, bytes_needed(awaited, &bytes[..20]), rest);
}

/// Ends the test if the hello of these bytes is not answered so, and its first 19 as a part of one.
fn answers(rt: &impl Abort, row: usize, side: Side, bytes: &[u8; 532], want: Result<usize, u32>) {
    same(
        rt,
        row,
        hello_answer(&read_hello(side, &bytes[..19])),
        Err(MORE),
    );
    same(rt, row, hello_answer(&read_hello(side, bytes)), want);
}

#[test]
fn hellos(rt: HostRuntime) {
    for (row, (side, key, flags, revision, private, want)) in HELLOS.iter().enumerate() {
        let bytes = hello_bytes(*key, *flags, *revision, *private);
        answers(&rt, row, *side, &bytes, *want);
        let rest = if want.is_ok() {
            usize::from(*private)
        } else {
            0
        };
        needs(&rt, row, *side, &bytes, rest);
    }
}

#[test]
fn hello_fields(rt: HostRuntime) {
    let mut bytes = hello_bytes(b'p', 0x1f, 1, 2);
    bytes[20] = 1;
    bytes[21] = 2;
    match read_hello(Responder, &bytes) {
        NextHello::Whole { hello, .. } => {
            same(
                &rt,
                0,
                (hello.flags, hello.private),
                (0x1f, [1, 2].as_slice()),
            );
        }
        NextHello::More | NextHello::Bad { .. } => panic!(rt; "a hello stands there"),
    }
}

/// Ends the test if the hello of these bytes is written as others.
fn hello_written(rt: &impl Abort, alloc: Global, row: usize, side: Side, bytes: &[u8], len: usize) {
    let written = hello_again(alloc, side, bytes).expect(rt, "memory");
    same(rt, row, Some(written.as_slice()), bytes.get(..len));
}

#[test]
fn hellos_written(rt: HostRuntime) {
    for (row, (side, key, flags, revision, private, want)) in HELLOS.iter().enumerate() {
        let bytes = hello_bytes(*key, *flags, *revision, *private);
        let len = want.unwrap_or(0);
        hello_written(&rt, rt.alloc(), row, *side, &bytes, len);
    }
}
