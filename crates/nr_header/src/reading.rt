//! Reading of a header.

ghost use Rattle.std.specs.Prelude.{◌≡◌, ◌+◌, ◌<◌, ◌≤◌, nat_lt, sum_by, length, drop, true, false, Ok, Err, option_map, IfOk, MatchResult};
ghost use Rattle.nr_header.specs.declared.header.Header.{Header};
ghost use Rattle.nr_header.specs.WithinLimits.{read_total, CanRead, IsMessage, StreamWithin, stream_after};
ghost use Rattle.nr_xdr.specs.Fields.{word_at};
ghost use Rattle.nr_xdr.specs.Matching.{MatchesValue};
ghost use Rattle.nr_header.specs.Reading.{sums_pass, msg_body, nomsg_body, msg_at, nomsg_at, error_of, error_by, version1_of, body_by, header_of};
ghost use Rattle.nr_header.specs.Header.{error_body};
ghost use Rattle.nr_header.specs.Storage.{lists_of};
ghost use Rattle.nr_header.specs.private.ListsRead.{nothing_read, HasOwnLists, IsListed, MatchesBody};
ghost use Rattle.nr_header.specs.Header.{no_lists};
ghost use Rattle.nr_header.specs.ReadInto.{body_with, with_lists, lists_in};

use crate::constants::{
    ERR_CHUNK, ERR_VERS, ERROR, FIXED_LEN, MSG, NOMSG, PAYLOAD_MAX, VERSION, WRITE_SEGMENTS_MAX,
};
use crate::fault::HeaderFault;
use crate::header::{Body, Chunk, Header, HeaderFields, MessageKind, ReadSegment, TransportError};
use crate::lists::{ListsRead, ListsRoom, lists};
use nr_xdr::{DecodeError, Reader, word_at};

/// Whether the chunks together have more segments than the limit.
fn passes_segments(write: &[Chunk]) -> bool
    ensures { result ≡ nat_lt WRITE_SEGMENTS_MAX (sum_by (λ chunk. length chunk) write.now) }
{
    let mut room = WRITE_SEGMENTS_MAX;
    for chunk in write {
        if chunk.len() > room {
            return true;
        }
        room -= chunk.len();
    }
    false
}

/// Whether this many bytes of a stream and those of the read list are together more than the limit.
fn passes_payload(read: &[ReadSegment], stream: usize) -> bool
    ensures { result ≡ nat_lt PAYLOAD_MAX (stream + read_total read.now) }
{
    if stream > PAYLOAD_MAX {
        return true;
    }
    let mut room = PAYLOAD_MAX - stream;
    for entry in read {
        let length = entry.length as usize;
        if length > room {
            return true;
        }
        room -= length;
    }
    false
}

/// Whether a sum passes its limit, with this many bytes of a stream after the lists.
fn sums_pass(room: &ListsRead, stream: usize) -> bool
    ensures { result ≡ sums_pass (lists_of room.now) stream }
{
    passes_segments(room.write.as_slice()) || passes_payload(room.read.as_slice(), stream)
}

/// A complete error message: its code is one of two, and it has exactly the bytes of that code.
fn whole_error(bytes: &[u8]) -> Option<TransportError>
    ensures { option_map (error_body (word_at 4 bytes.now)) result ≡ error_of bytes.now }
{
    match bytes.len() {
        28 if word_at(bytes, 16) == ERR_VERS => Some(TransportError::Vers {
            low: word_at(bytes, 20),
            high: word_at(bytes, 24),
        }),
        20 if word_at(bytes, 16) == ERR_CHUNK => Some(TransportError::Chunk),
        _ => None,
    }
}

/// RDMA_MSG with these lists, which end at `at` with `left` bytes after them.
fn msg_found(room: &ListsRead, at: usize, left: usize) -> Result<MessageKind, DecodeError>
    ensures is { MatchesValue (λ f. body_with f (lists_of room.now)) result (msg_body (lists_of room.now) at left) }
    ensures listed { IfOk result IsListed }
{
    if sums_pass(room, left) {
        return Err(DecodeError { at });
    }
    Ok(MessageKind::Msg { stream_at: at })
}

/// Reads what follows the fixed words of RDMA_MSG.
#[tactic(auto, unfolding(crate::specs::Reading::msg_at))]
fn msg(reader: &mut Reader<'_>, room: &mut ListsRead) -> Result<MessageKind, DecodeError>
    requires { room.old ≡ nothing_read }
    ensures is { MatchesValue (λ f. body_with f (lists_of room.new)) result (msg_at reader.old) }
    ensures listed { IfOk result IsListed }
{
    lists(reader, false, room)?;
    msg_found(room, reader.at(), reader.rest().len())
}

/// RDMA_NOMSG with these lists, which end at `at` with `left` bytes after them.
fn nomsg_found(room: &ListsRead, at: usize, left: usize) -> Result<MessageKind, DecodeError>
    ensures is { MatchesValue (λ f. body_with f (lists_of room.now)) result (nomsg_body (lists_of room.now) at left) }
    ensures listed { IfOk result IsListed }
{
    if sums_pass(room, 0) || left > 0 {
        return Err(DecodeError { at });
    }
    Ok(MessageKind::Nomsg)
}

/// Reads what follows the fixed words of RDMA_NOMSG.
#[tactic(auto, unfolding(crate::specs::Reading::nomsg_at))]
fn nomsg(reader: &mut Reader<'_>, room: &mut ListsRead) -> Result<MessageKind, DecodeError>
    requires { room.old ≡ nothing_read }
    ensures is { MatchesValue (λ f. body_with f (lists_of room.new)) result (nomsg_at reader.old) }
    ensures listed { IfOk result IsListed }
{
    lists(reader, true, room)?;
    nomsg_found(room, reader.at(), reader.rest().len())
}

/// What was found; lists that fail are bad chunks.
fn or_bad_chunks(found: Result<MessageKind, DecodeError>) -> Result<MessageKind, HeaderFault>
    ensures is { MatchResult found (λ read. result ≡ Ok read) (λ error. result ≡ Err (HeaderFault.BadChunks error.at)) }
    ensures listed { IfOk found IsListed → IfOk result IsListed }
{
    match found {
        Ok(read) => Ok(read),
        Err(error) => Err(HeaderFault::BadChunks { at: error.at }),
    }
}

/// Reads what follows the fixed words of a message of version 1 that is no complete error message.
#[tactic(auto, unfolding(crate::specs::Reading::version1_of))]
fn version1(
    reader: &mut Reader<'_>,
    kind: u32,
    bytes: &[u8],
    room: &mut ListsRead,
) -> Result<MessageKind, HeaderFault>
    requires after { reader.old ≡ record { place = FIXED_LEN; rest = drop FIXED_LEN bytes.now } }
    requires room { room.old ≡ nothing_read }
    ensures is { MatchesBody (lists_of room.new) result (version1_of kind bytes.now) }
    ensures listed { IfOk result IsListed }
{
    match kind {
        MSG => or_bad_chunks(msg(reader, room)),
        NOMSG => or_bad_chunks(nomsg(reader, room)),
        _ => Err(HeaderFault::Kind { kind }),
    }
}

/// Reads what follows the fixed words.
#[tactic(auto, unfolding(crate::specs::Reading::body_by))]
fn body(
    reader: &mut Reader<'_>,
    bytes: &[u8],
    room: &mut ListsRead,
) -> Result<MessageKind, HeaderFault>
    requires fixed { FIXED_LEN ≤ length bytes.now }
    requires after { reader.old ≡ record { place = FIXED_LEN; rest = drop FIXED_LEN bytes.now } }
    requires room { room.old ≡ nothing_read }
    ensures is { MatchesBody (lists_of room.new) result (body_by (error_by (word_at 12 bytes.now) bytes.now) (word_at 4 bytes.now) (word_at 12 bytes.now) bytes.now) }
    ensures own { IfOk result (λ kind. HasOwnLists kind (lists_of room.new)) }
{
    let (version, kind) = (word_at(bytes, 4), word_at(bytes, 12));
    if kind == ERROR {
        if let Some(error) = whole_error(bytes) {
            return Ok(MessageKind::Error { version, error });
        }
    }
    if version != VERSION {
        return Err(HeaderFault::Version { version });
    }
    version1(reader, kind, bytes, room)
}

/// The body of what was found, with the lists that were read.
fn body_of(kind: MessageKind, room: ListsRead) -> Body
    ensures { result ≡ body_with kind (lists_of room) }
{
    match kind {
        MessageKind::Msg { stream_at } => Body::Msg {
            lists: room.into_lists(),
            stream_at,
        },
        MessageKind::Nomsg => Body::Nomsg {
            lists: room.into_lists(),
        },
        MessageKind::Error { version, error } => error_body(version, error),
    }
}

/// The body of an error message.
fn error_body(version: u32, error: TransportError) -> Body
    ensures { result ≡ error_body version error }
{
    match error {
        TransportError::Vers { low, high } => Body::ErrVers { version, low, high },
        TransportError::Chunk => Body::ErrChunk { version },
    }
}

/// Reads a message's header, but for its lists, which are put into a room.
#[tactic(auto, unfolding(crate::specs::Reading::header_of, nr_xdr::specs::Reading::fixed_at, nr_xdr::specs::Reading::cursor_past, nr_xdr::specs::Item::pad_len))]
fn fields(bytes: &[u8], room: &mut ListsRead) -> Result<HeaderFields, HeaderFault>
    requires room { room.old ≡ nothing_read }
    ensures is { with_lists (lists_of room.new) result ≡ header_of bytes.now }
    ensures words { IfOk result (λ fields. (fields.xid ≡ word_at 0 bytes.now) × (fields.credit ≡ word_at 8 bytes.now)) }
    ensures own { IfOk result (λ fields. HasOwnLists fields.kind (lists_of room.new)) }
{
    let mut reader = Reader::new(bytes);
    if reader.fixed(FIXED_LEN).is_err() {
        return Err(HeaderFault::Short);
    }
    match body(&mut reader, bytes, room) {
        Ok(kind) => Ok(HeaderFields {
            xid: word_at(bytes, 0),
            credit: word_at(bytes, 8),
            kind,
        }),
        Err(fault) => Err(fault),
    }
}

/// The same, with what the layers above need to know of it.
fn fields_within(bytes: &[u8], room: &mut ListsRead) -> Result<HeaderFields, HeaderFault>
    requires room { room.old ≡ nothing_read }
    ensures is { with_lists (lists_of room.new) result ≡ header_of bytes.now }
    ensures words { IfOk result (λ fields. (fields.xid ≡ word_at 0 bytes.now) × (fields.credit ≡ word_at 8 bytes.now)) }
    ensures lists { IfOk result (λ _. lists_of room.new ≡ lists_in bytes.now) }
    ensures stream { IfOk result (λ fields. StreamWithin (body_with fields.kind (lists_of room.new)) (length bytes.now)) }
    ensures limits { IfOk result (λ fields. CanRead (body_with fields.kind (lists_of room.new)) (stream_after (body_with fields.kind (lists_of room.new)) bytes.now)) }
{
    fields(bytes, room)
}

/// Reads a message's header as [`read_header`] does, and puts its lists into a room, in which they are not moved. After an
/// `Err` the room may have some of the lists.
pub fn read_header_into(bytes: &[u8], room: &mut ListsRoom) -> Result<HeaderFields, HeaderFault>
    requires room { room.old ≡ no_lists }
    ensures exact { with_lists room.new result ≡ header_of bytes.now }
    // The lists in the room are those of the message: none, if it is an error message.
    ensures lists { IfOk result (λ _. room.new ≡ lists_in bytes.now) }
    // Its numbers are words of the message.
    ensures words { IfOk result (λ fields. (fields.xid ≡ word_at 0 bytes.now) × (fields.credit ≡ word_at 8 bytes.now)) }
    // Its stream lies within the message.
    ensures stream { IfOk result (λ fields. StreamWithin (body_with fields.kind room.new) (length bytes.now)) }
    // Its lists and its stream are within the limits; each segment ends at 2^64 or before.
    ensures limits { IfOk result (λ fields. CanRead (body_with fields.kind room.new) (stream_after (body_with fields.kind room.new) bytes.now)) }
{
    fields_within(bytes, &mut room.held)
}

fn read_header_inner(bytes: &[u8]) -> Result<Header, HeaderFault>
    ensures is { result ≡ header_of bytes.now }
    ensures words { IfOk result (λ header. (header.xid ≡ word_at 0 bytes.now) × (header.credit ≡ word_at 8 bytes.now)) }
{
    let mut room = ListsRead::new();
    match fields(bytes, &mut room) {
        Ok(fields) => Ok(Header {
            xid: fields.xid,
            credit: fields.credit,
            body: body_of(fields.kind, room),
        }),
        Err(fault) => Err(fault),
    }
}

/// Reads a message's header and checks it against the limits. Takes no memory. Only in RDMA_MSG may bytes follow the header.
/// `Short`: the message has fewer than 16 bytes. `Version`: its version word isn't 1, and it is no complete error message (28
/// bytes with ERR_VERS, 20 bytes with ERR_CHUNK). `Kind`: its version is 1, and it is neither RDMA_MSG, nor RDMA_NOMSG, nor a
/// complete error message. `BadChunks`: the lists don't parse or pass a limit; the first fault in the order of the bytes.
pub fn read_header(bytes: &[u8]) -> Result<Header, HeaderFault>
    // What is read is encoded so, within the limits.
    ensures found { IfOk result (λ header. IsMessage header bytes.now) }
    // What is encoded so is read.
    ensures only { (header : Header) → IsMessage header bytes.now → result ≡ Ok header }
    // Which fault it is, and at which offset.
    ensures exact { result ≡ header_of bytes.now }
    // Its numbers are words of the message.
    ensures words { IfOk result (λ header. (header.xid ≡ word_at 0 bytes.now) × (header.credit ≡ word_at 8 bytes.now)) }
    // Its stream lies within the message.
    ensures stream { IfOk result (λ header. StreamWithin header.body (length bytes.now)) }
    // Its lists and its stream are within the limits; each segment ends at 2^64 or before.
    ensures limits { IfOk result (λ header. CanRead header.body (stream_after header.body bytes.now)) }
{
    read_header_inner(bytes)
}

/// The transaction ID (XID), the first word of a message (RFC 8166 section 4.2.1).
pub fn xid_of(bytes: &[u8]) -> u32
    requires { FIXED_LEN ≤ length bytes.now }
    ensures { result ≡ word_at 0 bytes.now }
{
    word_at(bytes, 0)
}

/// The number of credits, the third word of a message (RFC 8166 section 4.2.3).
pub fn credit_of(bytes: &[u8]) -> u32
    requires { FIXED_LEN ≤ length bytes.now }
    ensures { result ≡ word_at 8 bytes.now }
{
    word_at(bytes, 8)
}
