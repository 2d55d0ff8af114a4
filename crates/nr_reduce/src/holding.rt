//! How a reply is sent back (RFC 8166 section 3.5), or that its offer doesn't hold it.

ghost use Rattle.std.specs.Prelude.{◌≡◌, ◌↔◌, ◌+◌, ◌≤◌, nat_le, length, option_map, IsTrue};
ghost use Rattle.nr_header.specs.Slices.{lists_of_slices};
ghost use Rattle.nr_reduce.specs.Items.{stream_of, moved_of};
ghost use Rattle.nr_reduce.specs.Chunks.{chunk_total};
ghost use Rattle.nr_reduce.specs.Holds.{answer_size, fits_reply, answer_for, Holds};
ghost use Rattle.nr_reduce.specs.CodeViews.{first_total, parts_of, parts_view, answer_view};

use crate::cutting::reducible_item;
use crate::item::{Item, Of};
use nr_header::{Chunk, ChunkLists, HEADER_LEN_MIN, ListSlices, RdmaSegment, write_chunk_len};

/// What goes as the stream of a reply, and what moves into its first write chunk.
#[derive(Clone, Copy)]
struct Parts<'a> {
    stream: &'a [u8],
    moved: &'a [u8],
}

/// How a reply is sent back: its stream, which goes in the reply chunk if `long`, else after the header; and what moves
/// into the first write chunk.
#[derive(Clone, Copy)]
pub struct Answer<'a> {
    /// The stream goes in the reply chunk: RDMA_NOMSG.
    pub long: bool,
    /// The payload without what moves.
    pub stream: &'a [u8],
    /// The bytes that are written into the first write chunk; empty if the reply has no item to move.
    pub moved: &'a [u8],
}

/// How many bytes a chunk has.
#[tactic(auto, unfolding(crate::specs::Chunks::chunk_total))]
pub(crate) fn chunk_total(chunk: &[RdmaSegment]) -> u128
    ensures { result ≡ chunk_total chunk.now }
{
    let mut total: u128 = 0;
    for segment in chunk {
        total += u128::from(segment.length);
    }
    total
}

/// How many bytes the first chunk has, if it has a segment.
fn first_total(chunks: &[Chunk]) -> Option<u128>
    ensures { result ≡ first_total chunks.now }
{
    match chunks {
        [] => None,
        [first, ..] => if first.is_empty() {
            None
        } else {
            Some(chunk_total(first.as_slice()))
        },
    }
}

/// Whether a message that repeats these chunks, without a reply chunk, and has a stream of `len` bytes is no longer than
/// `down` bytes.
fn fits_message(chunks: &[Chunk], len: usize, down: u32) -> bool
    ensures { result ≡ nat_le (answer_size chunks.now + len) down }
{
    let mut need = HEADER_LEN_MIN as u128 + len as u128;
    for chunk in chunks {
        if need > u128::from(down) {
            return false;
        }
        need += write_chunk_len(chunk.len());
    }
    need <= u128::from(down)
}

/// Whether a reply chunk is there and has room for `len` bytes.
fn fits_reply(chunk: Option<&[RdmaSegment]>, len: usize) -> bool
    ensures { result ≡ fits_reply (option_map (λ segments. segments.now) chunk.entry) len }
{
    match chunk {
        Some(chunk) => len as u128 <= chunk_total(chunk),
        None => false,
    }
}

/// A reply whose item moves.
fn reduced<'a>(item: Item, reply: &'a [u8]) -> Parts<'a>
    requires { item.pos + item.len ≤ length reply.now }
    ensures { parts_view result ≡ record { stream = stream_of reply.now item; moved = moved_of reply.now item } }
{
    let (stream, behind) = reply.split_at(item.pos);
    let (moved, _) = behind.split_at(item.len as usize);
    Parts { stream, moved }
}

/// The parts of a reply, if this number of bytes may move.
#[tactic(auto, unfolding(crate::specs::CodeViews::parts_of))]
fn parted<'a>(of: &Of, room: Option<u128>, reply: &'a [u8]) -> Option<Parts<'a>>
    ensures { option_map parts_view result ≡ parts_of of.now room reply.now }
{
    let whole = Parts {
        stream: reply,
        moved: &[],
    };
    let Some(room) = room else {
        return Some(whole);
    };
    let Some(item) = reducible_item(of, reply) else {
        return Some(whole);
    };
    if u128::from(item.len) <= room {
        Some(reduced(item, reply))
    } else {
        None
    }
}

/// How a reply to a call of this program, version and procedure is sent back, if `offer` is what the call offered and a
/// message has at most `down` bytes. If the first write chunk has a segment and the reply an item, that moves, and must not
/// be longer than the chunk. The rest goes after a header that repeats the write list, if both are within `down`; else in
/// the reply chunk, if that is long enough. `None` if neither is so. Takes no memory.
#[tactic(auto, using(crate::proofs::ChunkSums::parts_by_total), unfolding(crate::specs::Holds::answer_for))]
pub fn answer_for<'a>(
    offer: ListSlices<'_>,
    prog: u32,
    vers: u32,
    proc: u32,
    reply: &'a [u8],
    down: u32,
) -> Option<Answer<'a>>
    ensures { option_map answer_view result ≡ answer_for (lists_of_slices offer.entry) down prog vers proc reply.now }
{
    let of = Of::Reply { prog, vers, proc };
    let Some(parts) = parted(&of, first_total(offer.write), reply) else {
        return None;
    };
    let long = !fits_message(offer.write, parts.stream.len(), down);
    if long && !fits_reply(offer.reply, parts.stream.len()) {
        return None;
    }
    Some(Answer {
        long,
        stream: parts.stream,
        moved: parts.moved,
    })
}

/// Whether an offer holds a reply: [`answer_for`] says how it is sent back. Takes no memory.
pub fn holds(offer: &ChunkLists, prog: u32, vers: u32, proc: u32, reply: &[u8], down: u32) -> bool
    ensures { IsTrue result ↔ Holds offer.now down prog vers proc reply.now }
{
    answer_for(offer.as_slices(), prog, vers, proc, reply, down).is_some()
}
