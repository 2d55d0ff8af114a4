//! The message of an answer: the lists say what was written (RFC 8166 sections 3.4.6, 3.5).

ghost use Rattle.std.specs.Prelude.{◌≡◌, ◌<◌, ◌++◌, length, min, IfOk, option_map};
ghost use Rattle.nr_reduce.specs.Chunks.{filled_chunk};
ghost use Rattle.nr_reduce.specs.Holds.{empty_chunks, written_chunks, answer_lists, answer_body, answer_message};
ghost use Rattle.nr_reduce.specs.CodeViews.{answer_view, reply_of_answer};
ghost use Rattle.nr_header.specs.Header.{header_encoding};
ghost use Rattle.nr_header.specs.Slices.{lists_of_slices};
ghost use Rattle.nr_header.specs.WithinLimits.{ListsWithin};

use crate::holding::Answer;
use nr_header::{
    Chunk, ChunkLists, ListSlices, RdmaSegment, ReadList, WriteList, write_with_slices,
};
use nr_xdr::{Memory, Octets};
use std::alloc::Global;

/// The first `left` of the bytes of a segment of this length.
fn shorter(length: u32, left: usize) -> u32
    ensures { result ≡ min length left }
{
    if left < length as usize {
        left as u32
    } else {
        length
    }
}

fn push_filled(
    segments: &mut Vec<RdmaSegment>,
    chunk: &[RdmaSegment],
    len: usize,
) -> Result<(), Memory>
    ensures { IfOk result (λ _. segments.new.items ≡ segments.old.items ++ filled_chunk chunk.now len) }
{
    let mut left = len;
    for segment in chunk {
        let length = shorter(segment.length, left);
        segments.push(RdmaSegment {
            handle: segment.handle,
            length,
            offset: segment.offset,
        })?;
        left -= length as usize;
    }
    Ok(())
}

/// A chunk as it comes back after `len` bytes were written into it.
fn filled_chunk(alloc: Global, chunk: &[RdmaSegment], len: usize) -> Result<Chunk, Memory>
    ensures { IfOk result (λ c. c ≡ filled_chunk chunk.now len) }
{
    let mut segments = Vec::new(alloc);
    push_filled(&mut segments, chunk, len)?;
    Ok(Chunk::from_vec(segments))
}

fn push_empty(alloc: Global, chunks: &mut Vec<Chunk>, offered: &[Chunk]) -> Result<(), Memory>
    ensures { IfOk result (λ _. chunks.new.items ≡ chunks.old.items ++ empty_chunks offered.now) }
{
    for chunk in offered {
        chunks.push(filled_chunk(alloc, chunk.as_slice(), 0)?)?;
    }
    Ok(())
}

/// Puts the chunks of a write list as they come back after `len` bytes were written into the first.
fn push_written(
    alloc: Global,
    chunks: &mut Vec<Chunk>,
    offered: &[Chunk],
    len: usize,
) -> Result<(), Memory>
    ensures { IfOk result (λ _. chunks.new.items ≡ chunks.old.items ++ written_chunks offered.now len) }
{
    if offered.is_empty() {
        return Ok(());
    }
    chunks.push(filled_chunk(alloc, offered[0].as_slice(), len)?)?;
    push_empty(alloc, chunks, &offered[1..])
}

fn written_list(alloc: Global, offered: &[Chunk], len: usize) -> Result<WriteList, Memory>
    ensures { IfOk result (λ l. l ≡ written_chunks offered.now len) }
{
    let mut chunks = Vec::new(alloc);
    push_written(alloc, &mut chunks, offered, len)?;
    Ok(WriteList::from_vec(chunks))
}

/// The reply chunk of an answer: it is there if the stream goes in it.
fn reply_chunk(
    alloc: Global,
    offered: Option<&[RdmaSegment]>,
    answer: Answer<'_>,
) -> Result<Option<Chunk>, Memory>
    ensures { IfOk result (λ c. c ≡ reply_of_answer (option_map (λ segments. segments.now) offered.entry) (answer_view answer.entry)) }
{
    if !answer.long {
        return Ok(None);
    }
    let chunk = match offered {
        Some(chunk) => chunk,
        None => &[],
    };
    Ok(Some(filled_chunk(alloc, chunk, answer.stream.len())?))
}

/// The lists of an answer: those of the offer, each segment with the number of bytes that were written into it. The bytes
/// that move are written into the first write chunk, and a long stream into the reply chunk.
pub fn answer_lists(
    alloc: Global,
    offer: ListSlices<'_>,
    answer: Answer<'_>,
) -> Result<ChunkLists, Memory>
    ensures { IfOk result (λ l. l ≡ answer_lists (lists_of_slices offer.entry) (answer_view answer.entry)) }
{
    let write = written_list(alloc, offer.write, answer.moved.len())?;
    let reply = reply_chunk(alloc, offer.reply, answer)?;
    Ok(ChunkLists {
        read: ReadList::new(),
        write,
        reply,
    })
}

/// The header of the message of an answer, with these lists.
fn header_with(
    alloc: Global,
    xid: u32,
    credit: u32,
    offer: ListSlices<'_>,
    answer: Answer<'_>,
    lists: ListSlices<'_>,
) -> Result<Octets, Memory>
    requires within { ListsWithin (lists_of_slices offer) }
    requires lists { lists_of_slices lists ≡ answer_lists (lists_of_slices offer) (answer_view answer) }
    ensures { IfOk result (λ o. o ≡ header_encoding (record { xid = xid; credit = credit; body = answer_body (lists_of_slices offer.entry) (answer_view answer.entry) })) }
{
    let _offer = offer;
    write_with_slices(alloc, xid, credit, answer.long, lists)
}

/// The header of the message of an answer to a call whose offer was read.
pub fn answer_header(
    alloc: Global,
    xid: u32,
    credit: u32,
    offer: ListSlices<'_>,
    answer: Answer<'_>,
) -> Result<Octets, Memory>
    requires { ListsWithin (lists_of_slices offer) }
    ensures { IfOk result (λ o. o ≡ header_encoding (record { xid = xid; credit = credit; body = answer_body (lists_of_slices offer.entry) (answer_view answer.entry) })) }
{
    let mut chunks = Vec::new(alloc);
    push_written(alloc, &mut chunks, offer.write, answer.moved.len())?;
    let reply = reply_chunk(alloc, offer.reply, answer)?;
    let lists = ListSlices::new(&[], chunks.as_slice(), &reply);
    header_with(alloc, xid, credit, offer, answer, lists)
}

/// The message of an answer to a call whose offer was read: its header, and its stream if that isn't in the reply chunk.
#[tactic(auto, unfolding(crate::specs::Holds::answer_message))]
pub fn answer_message(
    alloc: Global,
    xid: u32,
    credit: u32,
    offer: ListSlices<'_>,
    answer: Answer<'_>,
) -> Result<Octets, Memory>
    requires { ListsWithin (lists_of_slices offer) }
    ensures { IfOk result (λ o. o ≡ answer_message xid credit (lists_of_slices offer.entry) (answer_view answer.entry)) }
{
    let mut message = answer_header(alloc, xid, credit, offer, answer)?;
    if !answer.long {
        message.extend_from_slice(answer.stream)?;
    }
    Ok(message)
}
