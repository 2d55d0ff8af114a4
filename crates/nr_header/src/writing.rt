//! Writing of a header: each function puts its part at the end of a writer.

ghost use Rattle.std.specs.Prelude.{◌≡◌, ◌^◌, ◌<◌, [], ◌∷◌, ◌++◌, length, All, true, false, option_map, OnOk, IfOk, IfSome};
ghost use Rattle.nr_xdr.specs.Item.Item.{Unsigned, Boolean};
ghost use Rattle.nr_xdr.specs.Items.{encodings};
ghost use Rattle.nr_header.specs.Header.{segment_items, entry_items, fixed_items, read_items, segments_items, chunk_items, write_items, reply_items, lists_items, body_items, lists_body, no_lists, error_body, ChunksFit, CanWriteHeader, header_encoding};
ghost use Rattle.nr_header.specs.Slices.{lists_of_slices};

use crate::constants::{
    ERR_CHUNK, ERR_VERS, ERROR, HEADER_LEN_MIN, MSG, NOMSG, READ_SEGMENT_LEN, SEGMENT_LEN, VERSION,
};
use crate::header::{
    Body, Chunk, ChunkLists, Header, ListSlices, RdmaSegment, ReadSegment, TransportError,
};
use nr_xdr::{Memory, Octets, Writer};
use std::alloc::Global;

/// The room that is taken at first for a header: that of one with a segment in each of its lists. More is taken for a longer one.
const WRITTEN_ROOM: usize = HEADER_LEN_MIN
    + READ_SEGMENT_LEN
    + (8 + SEGMENT_LEN)
    + (4 + SEGMENT_LEN);

fn put_segment(writer: &mut Writer, segment: &RdmaSegment) -> Result<(), Memory>
    ensures { OnOk result (writer.new ≡ writer.old ++ encodings (segment_items segment.now [])) }
{
    writer.u32(segment.handle)?;
    writer.u32(segment.length)?;
    writer.u64(segment.offset)
}

/// Puts an entry of a read list.
fn put_entry(writer: &mut Writer, entry: &ReadSegment) -> Result<(), Memory>
    ensures { OnOk result (writer.new ≡ writer.old ++ encodings (entry_items entry.now [])) }
{
    writer.boolean(true)?;
    writer.u32(entry.position)?;
    writer.u32(entry.handle)?;
    writer.u32(entry.length)?;
    writer.u64(entry.offset)
}

fn put_read_list(writer: &mut Writer, read: &[ReadSegment]) -> Result<(), Memory>
    ensures { OnOk result (writer.new ≡ writer.old ++ encodings (read_items read.now [])) }
{
    for entry in read {
        put_entry(writer, entry)?;
    }
    writer.boolean(false)
}

fn put_segments(writer: &mut Writer, segments: &[RdmaSegment]) -> Result<(), Memory>
    ensures { OnOk result (writer.new ≡ writer.old ++ encodings (segments_items segments.now [])) }
{
    for segment in segments {
        put_segment(writer, segment)?;
    }
    Ok(())
}

/// Puts the word 1 and a chunk.
fn put_chunk(writer: &mut Writer, chunk: &[RdmaSegment]) -> Result<(), Memory>
    requires { length chunk.now < 2 ^ 32 }
    ensures { OnOk result (writer.new ≡ writer.old ++ encodings (Boolean true ∷ chunk_items chunk.now [])) }
{
    writer.boolean(true)?;
    writer.u32(chunk.len() as u32)?;
    put_segments(writer, chunk)
}

fn put_write_list(writer: &mut Writer, write: &[Chunk]) -> Result<(), Memory>
    requires { All (λ chunk. length chunk < 2 ^ 32) write.now }
    ensures { OnOk result (writer.new ≡ writer.old ++ encodings (write_items write.now [])) }
{
    for chunk in write {
        put_chunk(writer, chunk.as_slice())?;
    }
    writer.boolean(false)
}

fn put_reply_chunk(writer: &mut Writer, reply: Option<&[RdmaSegment]>) -> Result<(), Memory>
    requires { IfSome reply (λ chunk. length chunk.now < 2 ^ 32) }
    ensures { OnOk result (writer.new ≡ writer.old ++ encodings (reply_items (option_map (λ chunk. chunk.now) reply.entry) [])) }
{
    match reply {
        Some(chunk) => put_chunk(writer, chunk),
        None => writer.boolean(false),
    }
}

fn put_lists(writer: &mut Writer, lists: ListSlices<'_>) -> Result<(), Memory>
    requires { ChunksFit (lists_of_slices lists) }
    ensures { OnOk result (writer.new ≡ writer.old ++ encodings (lists_items (lists_of_slices lists.entry))) }
{
    put_read_list(writer, lists.read)?;
    put_write_list(writer, lists.write)?;
    put_reply_chunk(writer, lists.reply)?;
    Ok(())
}

/// Puts the fixed words.
fn put_fixed(
    writer: &mut Writer,
    xid: u32,
    version: u32,
    credit: u32,
    kind: u32,
) -> Result<(), Memory>
    ensures { OnOk result (writer.new ≡ writer.old ++ encodings (fixed_items xid version credit kind [])) }
{
    writer.u32(xid)?;
    writer.u32(version)?;
    writer.u32(credit)?;
    writer.u32(kind)
}

/// Puts the fixed words of version 1 and the lists.
fn put_with_lists(
    writer: &mut Writer,
    xid: u32,
    credit: u32,
    kind: u32,
    lists: ListSlices<'_>,
) -> Result<(), Memory>
    requires { ChunksFit (lists_of_slices lists) }
    ensures { OnOk result (writer.new ≡ writer.old ++ encodings (fixed_items xid VERSION credit kind (lists_items (lists_of_slices lists.entry)))) }
{
    put_fixed(writer, xid, VERSION, credit, kind)?;
    put_lists(writer, lists)
}

/// Puts the words of ERR_VERS.
fn put_versions(writer: &mut Writer, low: u32, high: u32) -> Result<(), Memory>
    ensures { OnOk result (writer.new ≡ writer.old ++ encodings (Unsigned ERR_VERS ∷ (Unsigned low ∷ (Unsigned high ∷ [])))) }
{
    writer.u32(ERR_VERS)?;
    writer.u32(low)?;
    writer.u32(high)
}

/// Puts an error message.
fn put_error(
    writer: &mut Writer,
    xid: u32,
    version: u32,
    credit: u32,
    error: TransportError,
) -> Result<(), Memory>
    ensures { OnOk result (writer.new ≡ writer.old ++ encodings (body_items xid credit (error_body version error))) }
{
    put_fixed(writer, xid, version, credit, ERROR)?;
    match error {
        TransportError::Vers { low, high } => put_versions(writer, low, high),
        TransportError::Chunk => writer.u32(ERR_CHUNK),
    }
}

/// Puts the words of lists without chunks.
fn put_no_lists(writer: &mut Writer) -> Result<(), Memory>
    ensures { OnOk result (writer.new ≡ writer.old ++ encodings (lists_items no_lists)) }
{
    writer.boolean(false)?;
    writer.boolean(false)?;
    writer.boolean(false)
}

fn put_header(writer: &mut Writer, header: &Header) -> Result<(), Memory>
    requires { CanWriteHeader header.now }
    ensures { OnOk result (writer.new ≡ writer.old ++ header_encoding header.now) }
{
    let (xid, credit) = (header.xid, header.credit);
    match &header.body {
        Body::Msg { lists, .. } => put_with_lists(writer, xid, credit, MSG, lists.as_slices()),
        Body::Nomsg { lists } => put_with_lists(writer, xid, credit, NOMSG, lists.as_slices()),
        Body::ErrVers { version, low, high } => {
            let error = TransportError::Vers {
                low: *low,
                high: *high,
            };
            put_error(writer, xid, *version, credit, error)
        }
        Body::ErrChunk { version } => {
            put_error(writer, xid, *version, credit, TransportError::Chunk)
        }
    }
}

/// The encoding of a header, whether its lists are within the limits or not. `stream_at` is ignored.
pub fn write_header(alloc: Global, header: &Header) -> Result<Octets, Memory>
    requires { CanWriteHeader header.now }
    ensures { IfOk result (λ o. o ≡ header_encoding header.now) }
{
    let mut writer = Writer::new(alloc);
    put_header(&mut writer, header)?;
    Ok(writer.finish())
}

/// The encoding of RDMA_MSG without chunks, which its stream follows.
pub fn write_plain(alloc: Global, xid: u32, credit: u32) -> Result<Octets, Memory>
    ensures { IfOk result (λ o. o ≡ header_encoding (record { xid = xid; credit = credit; body = lists_body false no_lists })) }
{
    let mut writer = Writer::new(alloc);
    put_fixed(&mut writer, xid, VERSION, credit, MSG)?;
    put_no_lists(&mut writer)?;
    Ok(writer.finish())
}

/// The encoding of a message of a kind that has lists, up to its stream.
fn octets_with_lists(
    alloc: Global,
    xid: u32,
    credit: u32,
    kind: u32,
    lists: ListSlices<'_>,
) -> Result<Octets, Memory>
    requires { ChunksFit (lists_of_slices lists) }
    ensures { IfOk result (λ o. o ≡ encodings (fixed_items xid VERSION credit kind (lists_items (lists_of_slices lists.entry)))) }
{
    let mut writer = Writer::with_capacity(alloc, WRITTEN_ROOM)?;
    put_with_lists(&mut writer, xid, credit, kind, lists)?;
    Ok(writer.finish())
}

/// The encoding of a message with borrowed lists, up to its stream: RDMA_NOMSG if `long`, its stream being in a chunk, else
/// RDMA_MSG. The lists may be within the limits or not.
pub fn write_with_slices(
    alloc: Global,
    xid: u32,
    credit: u32,
    long: bool,
    lists: ListSlices<'_>,
) -> Result<Octets, Memory>
    requires { ChunksFit (lists_of_slices lists) }
    ensures { IfOk result (λ o. o ≡ header_encoding (record { xid = xid; credit = credit; body = lists_body long (lists_of_slices lists.entry) })) }
{
    if long {
        octets_with_lists(alloc, xid, credit, NOMSG, lists)
    } else {
        octets_with_lists(alloc, xid, credit, MSG, lists)
    }
}

/// As [`write_with_slices`], of lists that are one value.
pub fn write_with_lists(
    alloc: Global,
    xid: u32,
    credit: u32,
    long: bool,
    lists: &ChunkLists,
) -> Result<Octets, Memory>
    requires { ChunksFit lists.now }
    ensures { IfOk result (λ o. o ≡ header_encoding (record { xid = xid; credit = credit; body = lists_body long lists.now })) }
{
    write_with_slices(alloc, xid, credit, long, lists.as_slices())
}

/// The encoding of an error message with this version word.
pub fn write_error(
    alloc: Global,
    xid: u32,
    version: u32,
    credit: u32,
    error: TransportError,
) -> Result<Octets, Memory>
    ensures { IfOk result (λ o. o ≡ header_encoding (record { xid = xid; credit = credit; body = error_body version error })) }
{
    let mut writer = Writer::new(alloc);
    put_error(&mut writer, xid, version, credit, error)?;
    Ok(writer.finish())
}
