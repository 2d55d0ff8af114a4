//! What a call offers.

ghost use Rattle.std.specs.Prelude.{◌≡◌, ◌+◌, ◌^◌, ◌≤◌, length, option_map};
ghost use Rattle.std.specs.List.{sum_by};
ghost use Rattle.nr_requester.specs.HeldBytes.{offer_held, offered_segments_max, reply_segments, segments_offered};
ghost use Rattle.nr_header.specs.Slices.{lists_of_slices};

use nr_header::{Chunk, ListSlices, RdmaSegment, ReadSegment};
use std::marker::Model;
use std::mem::size_of;

/// The sizes of a segment of a read list, of a write chunk, and of a segment of that or of a reply chunk.
const READ_SEGMENT_SIZE: u128 = 24;

const _: () = prove!(size_of::<ReadSegment>() == 24);

const CHUNK_SIZE: u128 = 280;

const _: () = prove!(size_of::<Chunk>() == 280);

const SEGMENT_SIZE: u128 = 16;

const _: () = prove!(size_of::<RdmaSegment>() == 16);

/// The chunk lists of a call's message (RFC 8166 section 3.4). A list without an element takes no memory. Contracts see the lists.
#[derive(Drop)]
pub struct OfferedLists {
    read: Vec<ReadSegment>,
    write: Vec<Chunk>,
    reply: Option<Vec<RdmaSegment>>,
}

impl Model for OfferedLists {
    ghost use Rattle.std.specs.Prelude.{option_map};
    ghost use Rattle.nr_header.specs.declared.header.ChunkLists.{ChunkLists};

    ghost Value = { ChunkLists };

    ghost view = { λ l. record { read = l.read.items; write = l.write.items; reply = option_map (λ v. v.items) l.reply } };
}

/// The segments of a reply chunk, if there is one.
fn segments_of(reply: &Option<Vec<RdmaSegment>>) -> Option<&[RdmaSegment]>
    ensures { option_map (λ segments. segments.now) result ≡ option_map (λ v. v.items) reply.now }
{
    match reply {
        Some(segments) => Some(segments.as_slice()),
        None => None,
    }
}

/// How many segments some chunks have.
fn segments_len(chunks: &[Chunk]) -> u128
    ensures { result ≡ sum_by (λ chunk. length chunk) chunks.now }
{
    let mut sum: u128 = 0;
    for chunk in chunks {
        sum += chunk.len() as u128;
    }
    sum
}

/// How many segments a reply chunk has, if there is one.
fn reply_len(reply: &Option<Vec<RdmaSegment>>) -> u128
    ensures { result ≡ reply_segments (option_map (λ v. v.items) reply.now) }
{
    match reply {
        Some(segments) => segments.len() as u128,
        None => 0,
    }
}

impl OfferedLists {
    /// How many bytes the lists have.
    pub fn held(&self) -> u128
        requires { segments_offered self.now ≤ offered_segments_max }
        ensures is { result ≡ offer_held self.now }
        ensures small { result ≤ 2 ^ 72 }
    {
        let segments = segments_len(self.write.as_slice()) + reply_len(&self.reply);
        READ_SEGMENT_SIZE * self.read.len() as u128
            + (CHUNK_SIZE * self.write.len() as u128 + SEGMENT_SIZE * segments)
    }

    /// These lists. Takes no memory.
    pub fn new(
        read: Vec<ReadSegment>,
        write: Vec<Chunk>,
        reply: Option<Vec<RdmaSegment>>,
    ) -> OfferedLists
        ensures { result ≡ record { read = read.items; write = write.items; reply = option_map (λ v. v.items) reply } }
    {
        OfferedLists { read, write, reply }
    }

    /// The lists, borrowed.
    pub fn as_slices(&self) -> ListSlices<'_>
        ensures { lists_of_slices result ≡ self.now }
    {
        ListSlices {
            read: self.read.as_slice(),
            write: self.write.as_slice(),
            reply: segments_of(&self.reply),
        }
    }
}
