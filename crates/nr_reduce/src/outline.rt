//! How a call is sent: which of its bytes go in a chunk, and what it offers for the reply.

ghost use Rattle.std.specs.Prelude.{◌≡◌, ◌+◌, ◌*◌, ◌^◌, ◌<◌, ◌++◌, Option, None, Some, length, take, option_map, slice_index, IfOk};
ghost use Rattle.nr_reduce.specs.Plans.{segments_for, chunk_for, moved_offer, argument_offer, write_size, reply_size, given_region};
ghost use Rattle.nr_reduce.specs.PlanSizes.{ItemFits, KindFits, send_size, auto_offer_sizes, auto_kind, auto_sizes, item_kind, sizes_by, read_outline, kind_outline, own_outline};
ghost use Rattle.nr_reduce.specs.CallOutlines.{lengths_of, outline_plan};
ghost use Rattle.nr_reduce.specs.declared.outline.ChunkLengths.TheVariants.{Own};

use crate::call::Lengths;
use crate::item::{Item, is_nfs};
use crate::largest::number_after;
use crate::limits::{CHUNK_SEGMENT_MAX, READ, READLINK};
use crate::parts::PayloadFacts;
use crate::two_slices::{from_offset, up_to, with_zeros};
use nr_header::{HEADER_LEN_MIN, read_list_len, reply_chunk_len, write_chunk_len};
use nr_nfs_base::{LINK_TARGET_MAX, TRANSFER_MAX, skip_to_read_count};
use nr_xdr::{Memory, Octets, Reader};
use std::alloc::Global;

/// How a call is sent (RFC 8166 section 3.5): the stream that goes inline; the position of the read chunk, the lengths of
/// its segments and the bytes of its region; the lengths of the segments of a write chunk and of a reply chunk.
#[derive(Drop)]
pub struct Plan {
    /// The stream that goes inline, after the header.
    pub inline: Octets,
    /// The position of the read chunk, if there is one.
    pub read_at: Option<u32>,
    /// The lengths of the segments of the read chunk in bytes.
    pub read: Lengths,
    /// The bytes of the read chunk's region.
    pub region: Octets,
    /// The lengths of the segments of the write chunk in bytes, if one is offered.
    pub write: Option<Lengths>,
    /// The lengths of the segments of the reply chunk in bytes, if one is offered.
    pub reply: Option<Lengths>,
}

/// The lengths, in bytes, of the segments of a chunk (RFC 8166 section 3.4). Contracts see the list.
#[derive(Clone, Copy)]
pub enum ChunkLengths<'a> {
    /// Those of a chunk of this many bytes: segments of 66,048 bytes, and the last with the rest; one, if there are no bytes.
    Own(u32),
    /// Those that an offer gives.
    Given(&'a [u32]),
}

impl<'a> ChunkLengths<'a> {
    /// How many segments there are.
    pub fn count(&self) -> usize
        ensures { result ≡ length (lengths_of self.now) }
    {
        match self {
            ChunkLengths::Own(len) => segment_count(*len as usize),
            ChunkLengths::Given(lengths) => lengths.len(),
        }
    }

    /// The length of the segment after the first `index`.
    pub fn length(&self, index: usize) -> u32
        requires { index < length (lengths_of self.now) }
        ensures { result ≡ slice_index (lengths_of self.now) index }
    {
        match self {
            ChunkLengths::Own(len) => own_length(*len, index),
            ChunkLengths::Given(lengths) => given_length(lengths, index),
        }
    }
}

/// The read chunk of a call.
#[derive(Clone, Copy)]
pub struct ReadOutline<'a> {
    /// Its position in the payload in bytes.
    pub position: u32,
    /// The lengths of its segments in bytes.
    pub lengths: ChunkLengths<'a>,
    /// The number of bytes of its region: those of the payload from the position on, and zeros after them.
    pub len: u32,
}

/// A [`Plan`] that owns no bytes (RFC 8166 section 3.5): what a call offers.
#[derive(Clone, Copy)]
pub struct Outline<'a> {
    /// The read chunk. The bytes before its position go inline, without one all.
    pub read: Option<ReadOutline<'a>>,
    /// The lengths of the segments of the write chunk in bytes.
    pub write: Option<ChunkLengths<'a>>,
    /// The lengths of the segments of the reply chunk in bytes.
    pub reply: Option<ChunkLengths<'a>>,
}

/// The kind of a message: none of the payload's bytes goes in a read chunk, or its item, or all of them (RFC 8166 section
/// 3.5).
#[derive(Clone, Copy)]
pub(crate) enum MessageKind {
    Short,
    Chunked(Item),
    Long,
}

/// The kind of a plan's message, and how many bytes the write chunk and the reply chunk have, if they are offered.
#[derive(Clone, Copy)]
pub(crate) struct PlanSizes {
    pub(crate) kind: MessageKind,
    pub(crate) write: Option<u32>,
    pub(crate) reply: Option<u32>,
}

/// How many segments a chunk of `len` bytes has.
#[tactic(auto, using(crate::proofs::Segments::count_is))]
fn segment_count(len: usize) -> usize
    ensures { result ≡ length (segments_for len) }
{
    len.saturating_sub(1) / CHUNK_SEGMENT_MAX as usize + 1
}

/// The length of the segment after the first `index` of a chunk of `len` bytes.
#[tactic(auto, using(crate::proofs::Segments::length_at, crate::proofs::Segments::begins_within))]
fn own_length(len: u32, index: usize) -> u32
    requires { index < length (segments_for len) }
    ensures { result ≡ slice_index (segments_for len) index }
{
    let before = index as u32 * CHUNK_SEGMENT_MAX;
    (len - before).min(CHUNK_SEGMENT_MAX)
}

fn given_length(lengths: &[u32], index: usize) -> u32
    requires { index < length lengths.now }
    ensures { result ≡ slice_index lengths.now index }
{
    lengths[index]
}

/// The size of a write chunk in a header.
fn write_size(len: Option<u32>) -> u128
    ensures is { result ≡ write_size (chunk_for len) }
    ensures small { result < 2 ^ 100 }
{
    match len {
        Some(len) => write_chunk_len(segment_count(len as usize)),
        None => 0,
    }
}

/// The size of a reply chunk in a header, beside that of its absence.
fn reply_size(len: Option<u32>) -> u128
    ensures is { result ≡ reply_size (chunk_for len) }
    ensures small { result < 2 ^ 100 }
{
    match len {
        Some(len) => reply_chunk_len(segment_count(len as usize)),
        None => 0,
    }
}

/// The size of the Send of a plan of these sizes, for a payload of `len` bytes.
pub(crate) fn send_size(len: usize, sizes: PlanSizes) -> u128
    ensures { result ≡ send_size len sizes }
{
    let (entries, inline) = match sizes.kind {
        MessageKind::Short => (0, len),
        MessageKind::Chunked(item) => (segment_count(item.len as usize), item.pos),
        MessageKind::Long => (segment_count(len), 0),
    };
    let lists = read_list_len(entries) + write_size(sizes.write) + reply_size(sizes.reply);
    HEADER_LEN_MIN as u128 + lists + inline as u128
}

/// How many bytes of its results a READ of this count may have in a write chunk.
fn moved_offer(count: Option<u32>) -> Option<u32>
    ensures { result ≡ moved_offer count }
{
    match count {
        Some(count) => Some(count.min(TRANSFER_MAX)),
        None => None,
    }
}

/// How many bytes the write chunk has that a call with these arguments may offer.
#[tactic(auto, using(crate::proofs::Places::count_in_read))]
pub(crate) fn argument_offer(prog: u32, vers: u32, proc: u32, arguments: Reader<'_>) -> Option<u32>
    ensures { result ≡ argument_offer prog vers proc arguments.entry }
{
    if !is_nfs(prog, vers) {
        return None;
    }
    match proc {
        READ => moved_offer(number_after(skip_to_read_count(arguments))),
        READLINK => Some(LINK_TARGET_MAX),
        _ => None,
    }
}

/// What a call offers if its form is left open: nothing if each reply to it fits a message of `down` bytes, else a write
/// chunk if it may, else a reply chunk.
fn auto_offer(facts: PayloadFacts, down: u32) -> (Option<u32>, Option<u32>)
    ensures { result ≡ auto_offer_sizes facts down }
{
    if HEADER_LEN_MIN as u64 + u64::from(facts.largest) <= u64::from(down) {
        return (None, None);
    }
    match facts.offer {
        Some(len) => (Some(len), None),
        None => (None, Some(facts.largest)),
    }
}

fn sizes_by(kind: MessageKind, write: Option<u32>, reply: Option<u32>) -> PlanSizes
    ensures { result ≡ sizes_by kind write reply }
{
    PlanSizes { kind, write, reply }
}

/// The first kind of message of which the Send has at most `up` bytes: inline, with the item in a chunk, all in a chunk.
fn auto_kind(facts: PayloadFacts, write: Option<u32>, reply: Option<u32>, up: u32) -> MessageKind
    requires { ItemFits facts.len facts.item }
    ensures kind { result ≡ auto_kind facts write reply up }
    ensures fits { KindFits facts.len result }
{
    let inline_size = send_size(facts.len, sizes_by(MessageKind::Short, write, reply));
    if inline_size <= u128::from(up) {
        return MessageKind::Short;
    }
    let Some(item) = facts.item else {
        return MessageKind::Long;
    };
    let reduced_size = send_size(
        facts.len,
        sizes_by(MessageKind::Chunked(item), write, reply),
    );
    if reduced_size <= u128::from(up) {
        MessageKind::Chunked(item)
    } else {
        MessageKind::Long
    }
}

/// The form that is left open.
pub(crate) fn auto_sizes(facts: PayloadFacts, up: u32, down: u32) -> PlanSizes
    requires { ItemFits facts.len facts.item }
    ensures sizes { result ≡ auto_sizes facts up down }
    ensures fits { KindFits facts.len result.kind }
{
    let (write, reply) = auto_offer(facts, down);
    sizes_by(auto_kind(facts, write, reply, up), write, reply)
}

/// Nothing in chunks.
pub(crate) fn inline_sizes() -> PlanSizes
    ensures { result ≡ sizes_by MessageKind.Short None None }
{
    sizes_by(MessageKind::Short, None, None)
}

/// The item in a chunk, and a write chunk for that of the reply, if there are such.
pub(crate) fn chunk_sizes(facts: PayloadFacts) -> PlanSizes
    requires { ItemFits facts.len facts.item }
    ensures sizes { result ≡ sizes_by (item_kind facts.item) facts.offer None }
    ensures fits { KindFits facts.len result.kind }
{
    let kind = match facts.item {
        Some(item) => MessageKind::Chunked(item),
        None => MessageKind::Short,
    };
    sizes_by(kind, facts.offer, None)
}

/// All in chunks.
pub(crate) fn long_sizes(facts: PayloadFacts) -> PlanSizes
    ensures { result ≡ sizes_by MessageKind.Long None (Some facts.largest) }
{
    sizes_by(MessageKind::Long, None, Some(facts.largest))
}

// ---- The outline of these sizes

fn own_chunk<'a>(len: Option<u32>) -> Option<ChunkLengths<'a>>
    ensures { result ≡ option_map Own len }
{
    match len {
        Some(len) => Some(ChunkLengths::Own(len)),
        None => None,
    }
}

fn read_outline<'a>(position: u32, len: u32) -> ReadOutline<'a>
    ensures { result ≡ read_outline position len }
{
    ReadOutline {
        position,
        lengths: ChunkLengths::Own(len),
        len,
    }
}

fn kind_outline<'a>(len: usize, kind: MessageKind) -> Option<ReadOutline<'a>>
    requires fits { KindFits len kind }
    requires small { len < 2 ^ 32 }
    ensures { result ≡ kind_outline len kind }
{
    match kind {
        MessageKind::Short => None,
        MessageKind::Chunked(item) => Some(read_outline(item.pos as u32, item.len)),
        MessageKind::Long => Some(read_outline(0, len as u32)),
    }
}

/// The outline of these sizes, for a payload of `len` bytes.
pub(crate) fn own_outline<'a>(len: usize, sizes: PlanSizes) -> Outline<'a>
    requires fits { KindFits len sizes.kind }
    requires small { len < 2 ^ 32 }
    ensures { result ≡ own_outline len sizes }
{
    Outline {
        read: kind_outline(len, sizes.kind),
        write: own_chunk(sizes.write),
        reply: own_chunk(sizes.reply),
    }
}

// ---- The bytes of an outline

/// The bytes of a read chunk's region, for a payload in two pieces.
pub(crate) fn region_of(
    alloc: Global,
    head: &[u8],
    args: &[u8],
    chunk: ReadOutline<'_>,
) -> Result<Octets, Memory>
    ensures { IfOk result (λ o. o ≡ given_region (head.now ++ args.now) chunk.entry.position chunk.entry.len) }
{
    let len = chunk.len as usize;
    let (first, second) = from_offset(head, args, chunk.position as usize);
    let (first, second) = up_to(first, second, len);
    with_zeros(alloc, first, second, len)
}

/// The bytes before the position of a read chunk, for a payload in two pieces.
fn before_chunk<'a>(head: &'a [u8], args: &'a [u8], chunk: ReadOutline<'_>) -> (&'a [u8], &'a [u8])
    ensures { result.0.now ++ result.1.now ≡ take chunk.entry.position (head.now ++ args.now) }
{
    up_to(head, args, chunk.position as usize)
}

impl<'a> Outline<'a> {
    /// The bytes that go inline, for a payload that stands in two pieces, one after the other: what goes of each. Takes no memory.
    pub fn inline<'b>(&self, head: &'b [u8], args: &'b [u8]) -> (&'b [u8], &'b [u8])
        ensures { result.0.now ++ result.1.now ≡ (outline_plan (head.now ++ args.now) self.now).inline }
    {
        match self.read {
            Some(chunk) => before_chunk(head, args, chunk),
            None => (head, args),
        }
    }

    /// The bytes of the read chunk's region, for a payload that stands in two pieces, copied once; none without a read chunk.
    pub fn region(&self, alloc: Global, head: &[u8], args: &[u8]) -> Result<Octets, Memory>
        ensures { IfOk result (λ o. o ≡ (outline_plan (head.now ++ args.now) self.now).region) }
    {
        match self.read {
            Some(chunk) => region_of(alloc, head, args, chunk),
            None => Ok(Octets::new(alloc)),
        }
    }
}
