//! What the rows of the tables give: payloads and offers.

use crate::line::parted;
use nr_header::{Chunk, ChunkLists, InlineVec, RdmaSegment, WriteList};
use std::alloc::Global;
use std::process::Abort;

pub const NFS: u32 = 100003;

pub const MOUNT: u32 = 100005;

pub fn put_words(rt: &impl Abort, out: &mut Vec<u8>, words: &[u32]) {
    for word in words {
        out.extend_from_slice(&word.to_be_bytes())
            .expect(rt, "memory");
    }
}

/// The head of a call with AUTH_NONE (RFC 5531 section 9), and words of its arguments: 40 bytes before those.
pub fn call_of(rt: &impl Abort, alloc: Global, prog: u32, proc: u32, arguments: &[u32]) -> Vec<u8> {
    let mut out = Vec::new(alloc);
    put_words(rt, &mut out, &[9, 0, 2, prog, 3, proc, 0, 0, 0, 0]);
    put_words(rt, &mut out, arguments);
    out
}

/// Puts `count` bytes of one value at the end.
fn put_bytes(rt: &impl Abort, out: &mut Vec<u8>, byte: u8, count: u32) {
    for _ in 0..count {
        out.push(byte).expect(rt, "memory");
    }
}

/// Puts opaque data of `len` bytes `a` at the end (RFC 4506 section 4.10).
pub fn put_text(rt: &impl Abort, out: &mut Vec<u8>, len: u32) {
    put_words(rt, out, &[len]);
    put_bytes(rt, out, b'a', len);
    put_bytes(rt, out, 0, (4 - len % 4) % 4);
}

/// The same, and such data after the words.
fn text_call(
    rt: &impl Abort,
    alloc: Global,
    prog: u32,
    proc: u32,
    arguments: &[u32],
    len: u32,
) -> Vec<u8> {
    let mut out = call_of(rt, alloc, prog, proc, arguments);
    put_text(rt, &mut out, len);
    out
}

/// A payload by its name: a call of NFS or MOUNT with `len` bytes of data or of a path (RFC 1813 sections 3.3.1, 3.3.5 to 3.3.7, 3.3.10 and 5.2.1),
/// a WRITE that ends before its data, or so many zeros, which are no call.
fn payload_of(rt: &impl Abort, alloc: Global, name: &str, len: u32) -> Vec<u8> {
    match name {
        "getattr" => call_of(rt, alloc, NFS, 1, &[8, 0, 2]),
        "readlink" => call_of(rt, alloc, NFS, 5, &[8, 0, 3]),
        "read" => call_of(rt, alloc, NFS, 6, &[8, 0, 2, 0, 0, len]),
        "write" => write_call(rt, alloc, len),
        "write-front" => call_of(rt, alloc, NFS, 7, &[8, 0, 2, 0, 0, len, 2, len]),
        "symlink" => symlink_call(rt, alloc, len),
        "mnt" => text_call(rt, alloc, MOUNT, 1, &[], len),
        "zeros" => zeros(rt, alloc, len),
        _ => panic!(rt; "no payload {name}"),
    }
}

/// A payload by its name and its number, with a space between them.
pub fn payload_named(rt: &impl Abort, alloc: Global, text: &str) -> Vec<u8> {
    let (name, len) = parted(text, ' ');
    payload_of(rt, alloc, name, len.parse::<u32>().expect(rt, "a length"))
}

fn zeros(rt: &impl Abort, alloc: Global, len: u32) -> Vec<u8> {
    let mut out = Vec::new(alloc);
    put_bytes(rt, &mut out, 0, len);
    out
}

fn write_call(rt: &impl Abort, alloc: Global, len: u32) -> Vec<u8> {
    text_call(rt, alloc, NFS, 7, &[8, 0, 2, 0, 0, len, 2], len)
}

fn symlink_call(rt: &impl Abort, alloc: Global, len: u32) -> Vec<u8> {
    let link = [8, 0, 1, 1, 0x6c00_0000, 0, 0, 0, 0, 0, 0];
    text_call(rt, alloc, NFS, 10, &link, len)
}

fn put_segments(rt: &impl Abort, segments: &mut Vec<RdmaSegment>, lengths: &[u32]) {
    for length in lengths {
        let segment = RdmaSegment {
            handle: 1,
            length: *length,
            offset: 0,
        };
        segments.push(segment).expect(rt, "memory");
    }
}

/// A chunk with segments of these lengths.
fn chunk_of(rt: &impl Abort, alloc: Global, lengths: &[u32]) -> Chunk {
    let mut segments = Vec::new(alloc);
    put_segments(rt, &mut segments, lengths);
    InlineVec::from_vec(segments)
}

fn put_chunks(rt: &impl Abort, alloc: Global, chunks: &mut Vec<Chunk>, write: &[&[u32]]) {
    for lengths in write {
        chunks
            .push(chunk_of(rt, alloc, lengths))
            .expect(rt, "memory");
    }
}

fn write_list_of(rt: &impl Abort, alloc: Global, write: &[&[u32]]) -> WriteList {
    let mut chunks = Vec::new(alloc);
    put_chunks(rt, alloc, &mut chunks, write);
    InlineVec::from_vec(chunks)
}

fn reply_of(rt: &impl Abort, alloc: Global, reply: Option<&[u32]>) -> Option<Chunk> {
    match reply {
        Some(lengths) => Some(chunk_of(rt, alloc, lengths)),
        None => None,
    }
}

/// An offer of these write chunks and this reply chunk.
pub fn lists_of(
    rt: &impl Abort,
    alloc: Global,
    write: &[&[u32]],
    reply: Option<&[u32]>,
) -> ChunkLists {
    ChunkLists {
        read: InlineVec::from_vec(Vec::new(alloc)),
        write: write_list_of(rt, alloc, write),
        reply: reply_of(rt, alloc, reply),
    }
}
