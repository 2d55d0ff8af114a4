//! The lists of chunks, read (RFC 8166 section 4.3).

ghost use Rattle.std.specs.Prelude.{◌≡◌, ◌<◌, ◌≤◌, [], length};
ghost use Rattle.nr_xdr.specs.Matching.{MatchesRead};
ghost use Rattle.nr_header.specs.Reading.{optional_at, lists_after, is_allowed, other_position, entry_at, read_list_at, segments_at, chunk_at, write_list_at, reply_chunk_at, lists_at};
ghost use Rattle.nr_header.specs.Storage.{lists_of};
ghost use Rattle.nr_header.specs.private.ListsRead.{nothing_read};
ghost use Rattle.nr_header.specs.Header.{no_lists};

use crate::constants::{
    CHUNK_ROOM, CHUNK_SEGMENTS_MAX, READ_SEGMENTS_MAX, REPLY_SEGMENTS_MAX, WRITE_CHUNKS_MAX,
};
use crate::header::{Chunk, ChunkLists, ListSlices, RdmaSegment, ReadSegment};
use crate::inline_vec::InlineVec;
use crate::item::{end, more, segment};
use crate::short_list::ShortList;
use nr_xdr::{DecodeError, Reader, number};
use std::marker::Model;

/// Whether an entry may have this position, if `seen` is the position other than 0 among the entries before it.
fn is_allowed(zero_allowed: bool, seen: u32, position: u32) -> bool
    ensures { result ≡ is_allowed zero_allowed seen position }
{
    if position == 0 {
        zero_allowed
    } else {
        seen == 0 || seen == position
    }
}

/// The position other than 0 among the entries up to one with this position.
fn other_position(seen: u32, position: u32) -> u32
    ensures { result ≡ other_position seen position }
{
    if position == 0 { seen } else { position }
}

/// Reads an entry of a read list, after its word 1 at `place`.
#[tactic(auto, unfolding(crate::specs::Reading::entry_at))]
fn entry(
    reader: &mut Reader<'_>,
    place: usize,
    zero_allowed: bool,
    seen: u32,
) -> Result<ReadSegment, DecodeError>
    ensures { MatchesRead (λ e. e) result reader.new (entry_at place zero_allowed seen reader.old) }
{
    let position = number(reader)?;
    if !is_allowed(zero_allowed, seen, position) {
        return Err(DecodeError { at: place });
    }
    let target = segment(reader, place)?;
    Ok(ReadSegment {
        position,
        handle: target.handle,
        length: target.length,
        offset: target.offset,
    })
}

/// Reads an entry of a read list after its word 1, or the word 0 that ends the list.
fn next_entry(
    reader: &mut Reader<'_>,
    zero_allowed: bool,
    seen: u32,
) -> Result<Option<ReadSegment>, DecodeError>
    ensures { MatchesRead (λ e. e) result reader.new (optional_at (entry_at reader.old.place zero_allowed seen) reader.old) }
{
    let place = reader.at();
    if more(reader)? {
        Ok(Some(entry(reader, place, zero_allowed, seen)?))
    } else {
        Ok(None)
    }
}

fn read_list(
    reader: &mut Reader<'_>,
    zero_allowed: bool,
    entries: &mut ShortList<ReadSegment, READ_SEGMENTS_MAX>,
) -> Result<(), DecodeError>
    requires { entries.old ≡ [] }
    ensures { MatchesRead (λ _. entries.new) result reader.new (read_list_at READ_SEGMENTS_MAX zero_allowed 0 reader.old) }
{
    let mut seen = 0;
    for _ in 0..READ_SEGMENTS_MAX {
        let Some(entry) = next_entry(reader, zero_allowed, seen)? else {
            return Ok(());
        };
        seen = other_position(seen, entry.position);
        entries.push(entry);
    }
    end(reader)
}

fn segments(
    reader: &mut Reader<'_>,
    count: u32,
    items: &mut ShortList<RdmaSegment, CHUNK_ROOM>,
) -> Result<(), DecodeError>
    requires count { count ≤ CHUNK_ROOM }
    requires empty { items.old ≡ [] }
    ensures { MatchesRead (λ _. items.new) result reader.new (segments_at count reader.old) }
{
    for _ in 0..count {
        let place = reader.at();
        items.push(segment(reader, place)?);
    }
    Ok(())
}

/// Reads a chunk of at most `max` segments.
#[tactic(auto, unfolding(crate::specs::Reading::chunk_at))]
fn chunk(reader: &mut Reader<'_>, max: usize) -> Result<Chunk, DecodeError>
    requires { max ≤ CHUNK_ROOM }
    ensures { MatchesRead (λ c. c) result reader.new (chunk_at max reader.old) }
{
    let at = reader.at();
    let count = number(reader)?;
    if count as usize > max {
        return Err(DecodeError { at });
    }
    let mut items = ShortList::new();
    segments(reader, count, &mut items)?;
    Ok(InlineVec::from_list(items))
}

/// Reads a chunk of at most `max` segments after the word 1, or the word 0 instead.
fn optional_chunk(reader: &mut Reader<'_>, max: usize) -> Result<Option<Chunk>, DecodeError>
    requires { max ≤ CHUNK_ROOM }
    ensures { MatchesRead (λ c. c) result reader.new (optional_at (chunk_at max) reader.old) }
{
    if more(reader)? {
        Ok(Some(chunk(reader, max)?))
    } else {
        Ok(None)
    }
}

fn write_list(
    reader: &mut Reader<'_>,
    chunks: &mut ShortList<Chunk, WRITE_CHUNKS_MAX>,
) -> Result<(), DecodeError>
    requires { chunks.old ≡ [] }
    ensures { MatchesRead (λ _. chunks.new) result reader.new (write_list_at WRITE_CHUNKS_MAX reader.old) }
{
    for _ in 0..WRITE_CHUNKS_MAX {
        let Some(chunk) = optional_chunk(reader, CHUNK_SEGMENTS_MAX)? else {
            return Ok(());
        };
        chunks.push(chunk);
    }
    end(reader)
}

#[tactic(auto, unfolding(crate::specs::Reading::reply_chunk_at))]
fn reply_chunk(reader: &mut Reader<'_>) -> Result<Option<Chunk>, DecodeError>
    ensures { MatchesRead (λ c. c) result reader.new (reply_chunk_at reader.old) }
{
    optional_chunk(reader, REPLY_SEGMENTS_MAX)
}

/// The room into which lists are read, so that they are not moved meanwhile.
#[derive(Drop)]
pub(crate) struct ListsRead {
    pub(crate) read: ShortList<ReadSegment, READ_SEGMENTS_MAX>,
    pub(crate) write: ShortList<Chunk, WRITE_CHUNKS_MAX>,
    pub(crate) reply: Option<Chunk>,
}

impl ListsRead {
    /// Room in which nothing was read.
    pub(crate) fn new() -> ListsRead
        ensures { result ≡ nothing_read }
    {
        ListsRead {
            read: ShortList::new(),
            write: ShortList::new(),
            reply: None,
        }
    }

    /// The lists that were read.
    pub(crate) fn into_lists(self) -> ChunkLists
        ensures { result ≡ lists_of self }
    {
        ChunkLists {
            read: InlineVec::from_list(self.read),
            write: InlineVec::from_list(self.write),
            reply: self.reply,
        }
    }
}

/// Room for the lists of a header, which are read into it and are not moved. It takes no memory. Contracts see the lists that are in it.
#[derive(Drop)]
pub struct ListsRoom {
    pub(crate) held: ListsRead,
}

impl Model for ListsRoom {
    ghost use Rattle.nr_header.specs.declared.header.ChunkLists.{ChunkLists};

    ghost Value = { ChunkLists };

    ghost use Rattle.nr_header.specs.Storage.{lists_of};

    ghost view = { λ r. lists_of r.held };
}

impl ListsRoom {
    ghost use Rattle.nr_header.specs.Slices.{lists_of_slices};

    /// Room without a list in it.
    pub fn new() -> ListsRoom
        ensures { result ≡ no_lists }
    {
        ListsRoom {
            held: ListsRead::new(),
        }
    }

    /// The lists, borrowed.
    pub fn as_slices(&self) -> ListSlices<'_>
        ensures { lists_of_slices result ≡ self.now }
    {
        ListSlices::new(
            self.held.read.as_slice(),
            self.held.write.as_slice(),
            &self.held.reply,
        )
    }
}

/// Reads the lists that follow the read list.
fn lists_after(reader: &mut Reader<'_>, room: &mut ListsRead) -> Result<(), DecodeError>
    requires { room.old.write ≡ [] }
    ensures { MatchesRead (λ _. lists_of room.new) result reader.new (lists_after room.old.read reader.old) }
{
    write_list(reader, &mut room.write)?;
    room.reply = reply_chunk(reader)?;
    Ok(())
}

/// Reads the lists. An entry of the read list may have position 0 only if `zero_allowed`.
#[tactic(auto, unfolding(crate::specs::Reading::lists_at))]
pub(crate) fn lists(
    reader: &mut Reader<'_>,
    zero_allowed: bool,
    room: &mut ListsRead,
) -> Result<(), DecodeError>
    requires { room.old ≡ nothing_read }
    ensures { MatchesRead (λ _. lists_of room.new) result reader.new (lists_at zero_allowed reader.old) }
{
    read_list(reader, zero_allowed, &mut room.read)?;
    lists_after(reader, room)
}
