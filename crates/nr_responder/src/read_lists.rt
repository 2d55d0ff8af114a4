//! The sinks and the reads that a read list needs (RFC 8166 section 3.4.5).

ghost use Rattle.std.specs.Prelude.{◌≡◌, ℕ, ◌+◌, ◌^◌, ◌<◌, ◌≤◌, ◌++◌, [], length, map, take, get_or, replicate, IfOk, OnOk, ◌==◌};
ghost use Rattle.std.specs.List.{list_any};
ghost use Rattle.nr_header.specs.declared.header.ReadSegment.{ReadSegment};
ghost use Rattle.nr_header.specs.declared.header.ChunkLists.{ChunkLists};
ghost use Rattle.nr_header.specs.Constants.{PAYLOAD_MAX};
ghost use Rattle.nr_header.specs.WithinLimits.{read_total};
ghost use Rattle.nr_reduce.specs.Chunks.{total_at};
ghost use Rattle.nr_reduce.specs.ServerReads.{regions_from, reads_from, sink_of};
ghost use Rattle.nr_responder.specs.private.CallsRead.{AddsRead, chunk_here, chunk_positions, sink_buffer};
ghost use Rattle.nr_responder.specs.Views.{read_view};

use crate::call::ReadEntry;
use nr_header::ReadSegment;
use nr_reduce::total_at;
use nr_xdr::{Memory, Octets};
use std::alloc::Global;

/// Whether some entry has this position.
fn has_position_at(read: &[ReadSegment], position: u32) -> bool
    ensures { result ≡ list_any (λ r. r.position == position) read.now }
{
    read.iter().any(|r| r.position == position)
}

/// Puts the position of an entry into a list, if its chunk has bytes and it is the first of its chunk.
fn push_chunk(chunks: &mut Vec<u32>, read: &[ReadSegment], at: usize) -> Result<(), Memory>
    requires { at < length read.now }
    ensures { OnOk result ((d : ReadSegment) → chunks.new.items ≡ chunks.old.items ++ chunk_here (take at read.now) (get_or read.now at d) read.now) }
{
    let (before, _) = read.split_at(at);
    let position = read[at].position;
    if has_position_at(before, position) {
        return Ok(());
    }
    if total_at(position, read) == 0 {
        return Ok(());
    }
    chunks.push(position)?;
    Ok(())
}

/// The positions of the chunks of a read list that have bytes, in the order of their first entries.
pub(crate) fn chunk_positions(alloc: Global, read: &[ReadSegment]) -> Result<Vec<u32>, Memory>
    ensures { IfOk result (λ chunks. chunks.items ≡ chunk_positions read.now) }
{
    let mut chunks = Vec::new(alloc);
    'entries: for i in 0..read.len() {
        push_chunk(&mut chunks, read, i)?;
    }
    Ok(chunks)
}

/// The STag of the sink of a chunk, if these chunks get the STags from `next` on.
fn sink_stag(next: u64, chunks: &[u32], position: u32) -> u32
    requires { next + length chunks.now ≤ 2 ^ 32 }
    ensures { (number : ℕ) (lists : ChunkLists) → result ≡ sink_of (regions_from number 0 next lists chunks.now) number position }
{
    'chunks: for i in 0..chunks.len() {
        if chunks[i] == position {
            return (next + i as u64) as u32;
        }
    }
    0
}

/// Puts the read of an entry into a list, if it has bytes.
fn push_read(
    entries: &mut Vec<ReadEntry>,
    number: u64,
    next: u64,
    chunks: &[u32],
    read: &[ReadSegment],
    at: usize,
) -> Result<(), Memory>
    requires at { at < length read.now }
    requires stags { next + length chunks.now ≤ 2 ^ 32 }
    requires total { read_total read.now ≤ PAYLOAD_MAX }
    ensures ok { OnOk result ((d : ReadSegment) (lists : ChunkLists) → AddsRead (regions_from number 0 next lists chunks.now) number (take at read.now) (get_or read.now at d) entries.old.items entries.new.items) }
    ensures front { take (length entries.old.items) entries.new.items ≡ entries.old.items }
    ensures more { length entries.old.items ≤ length entries.new.items }
{
    let entry = read[at];
    if entry.length == 0 {
        return Ok(());
    }
    let (before, _) = read.split_at(at);
    entries.push(ReadEntry {
        number,
        position: entry.position,
        sink: sink_stag(next, chunks, entry.position),
        at: total_at(entry.position, before) as u32,
        size: entry.length,
        stag: entry.handle,
        to: entry.offset,
    })?;
    Ok(())
}

/// Puts the reads of a read list into a list. An `Err` may have put some.
pub(crate) fn push_reads(
    entries: &mut Vec<ReadEntry>,
    number: u64,
    next: u64,
    chunks: &[u32],
    read: &[ReadSegment],
) -> Result<(), Memory>
    requires stags { next + length chunks.now ≤ 2 ^ 32 }
    requires total { read_total read.now ≤ PAYLOAD_MAX }
    ensures ok { OnOk result ((lists : ChunkLists) → map read_view entries.new.items ≡ map read_view entries.old.items ++ reads_from (regions_from number 0 next lists chunks.now) number [] read.now) }
    ensures front { take (length entries.old.items) entries.new.items ≡ entries.old.items }
{
    'entries: for i in 0..read.len() {
        push_read(entries, number, next, chunks, read, i)?;
    }
    Ok(())
}

/// A sink of this many zeros.
pub(crate) fn sink_of_zeros(alloc: Global, len: usize) -> Result<Octets, Memory>
    ensures { IfOk result (λ o. o ≡ replicate len 0) }
{
    let mut zeros = Vec::with_capacity(alloc, len)?;
    zeros.resize(len, 0)?;
    Ok(Octets::from_vec(zeros))
}

/// The sinks of these chunks, each with as many bytes as its entries have.
pub(crate) fn sink_buffers(
    alloc: Global,
    chunks: &[u32],
    read: &[ReadSegment],
) -> Result<Vec<Octets>, Memory>
    requires { read_total read.now ≤ PAYLOAD_MAX }
    ensures { IfOk result (λ buffers. buffers.items ≡ map (sink_buffer read.now) chunks.now) }
{
    let mut buffers = Vec::new(alloc);
    'chunks: for i in 0..chunks.len() {
        let len = total_at(chunks[i], read) as usize;
        buffers.push(sink_of_zeros(alloc, len)?)?;
    }
    Ok(buffers)
}
