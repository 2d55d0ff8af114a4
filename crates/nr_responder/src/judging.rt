//! What a responder makes of a message (RFC 8166 sections 4.2 to 4.5).

ghost use Rattle.std.specs.Prelude.{◌≡◌, ◌≤◌, ◌^◌, length, map};
ghost use Rattle.nr_header.specs.Constants.{FIXED_LEN};
ghost use Rattle.nr_header.specs.Header.{no_lists};
ghost use Rattle.nr_header.specs.ReadInto.{body_with};
ghost use Rattle.nr_header.specs.Slices.{lists_of_slices};
ghost use Rattle.nr_header.specs.WithinLimits.{StreamWithin};
ghost use Rattle.nr_reduce.specs.ServerState.{ServerState, next_stag};
ghost use Rattle.nr_reduce.specs.ServerMessages.{has_position};
ghost use Rattle.nr_responder.specs.Views.{brings_stream, call_view, reads_if, HasHead, HasStream, Judges, JudgesBody, PutsLists};

use crate::call::{Pending, has_xid};
use crate::heads::{StreamHead, read_head};
use nr_header::{
    DONE, ERROR, FIXED_LEN, ListSlices, ListsRoom, MessageKind, ReadSegment, VERSION,
    read_header_into,
};
use nr_reduce::{is_read_chunk_of, is_read_chunk_of_item, total_at};
use nr_xdr::word_at;

/// What a responder makes of a message: it ends the link, by its kind or by its xid; ERR_VERS; ERR_CHUNK; a call without a read list,
/// with the place of its stream; or a call with a read list, whose stream is `inline` from a place of its message on, or read.
#[derive(Clone, Copy)]
pub enum Judged {
    /// The message is of a kind that no client sends: the link ends.
    Kind,
    /// A call with this xid is open: the link ends.
    Open,
    /// A version other than 1: ERR_VERS is due (RFC 8166 section 4.5.1).
    OtherVersion,
    /// A header or a read list that is refused: ERR_CHUNK is due (RFC 8166 sections 4.5.2, 4.5.3).
    BadChunks,
    /// A call without a read list: its stream stands in the message from `stream_at` on.
    Call {
        stream_at: usize,
    },
    /// A call with a read list: its stream stands in the message from `stream_at` on, if it is `inline`, and its head was read; else it
    /// is read.
    Reads {
        stream_at: usize,
        inline: bool,
        head: Option<StreamHead>,
    },
}

/// Whether some entry of a read list has position 0.
fn has_position(read: &[ReadSegment]) -> bool
    ensures { result ≡ has_position read.now }
{
    read.iter().any(|r| r.position == 0)
}

/// Whether a read list can bring the stream of a call by RDMA_NOMSG (RFC 8166 section 3.5.3): it has an entry at position 0, and if those
/// have no bytes, no other.
fn brings_stream(read: &[ReadSegment]) -> bool
    ensures { result ≡ brings_stream read.now }
{
    if !has_position(read) {
        return false;
    }
    if total_at(0, read) != 0 {
        return true;
    }
    is_read_chunk_of_item(&[], read)
}

/// A call with a read list, or ERR_CHUNK.
fn reads_if(fits: bool, stream_at: usize, inline: bool, head: Option<StreamHead>) -> Judged
    ensures { result ≡ reads_if fits stream_at inline head }
{
    if fits {
        return Judged::Reads {
            stream_at,
            inline,
            head,
        };
    }
    Judged::BadChunks
}

/// Judges a message of this kind with these lists.
fn judge_kind(message: &[u8], kind: MessageKind, lists: ListSlices<'_>) -> Judged
    requires { StreamWithin (body_with kind (lists_of_slices lists)) (length message.now) }
    ensures body { JudgesBody message.now (body_with kind (lists_of_slices lists.entry)) (lists_of_slices lists.entry) result }
    ensures head { HasHead message.now result }
{
    match kind {
        MessageKind::Msg { stream_at } => {
            if lists.read.is_empty() {
                return Judged::Call { stream_at };
            }
            let (_, stream) = message.split_at(stream_at);
            let head = read_head(stream);
            let fits = is_read_chunk_of(head.item, lists.read);
            reads_if(fits, stream_at, true, Some(head))
        }
        MessageKind::Nomsg => {
            let fits = brings_stream(lists.read);
            // A stream without bytes isn't read.
            let inline = total_at(0, lists.read) == 0;
            reads_if(fits, message.len(), inline, None)
        }
        MessageKind::Error { .. } => Judged::BadChunks,
    }
}

/// Judges a message, when these calls are pending. The lists of a call are put into a room.
pub(crate) fn judge(message: &[u8], calls: &[Pending], room: &mut ListsRoom) -> Judged
    requires fixed { FIXED_LEN ≤ length message.now }
    requires room { room.old ≡ no_lists }
    ensures judged { (k : ServerState) → k.calls ≡ map call_view calls.now → next_stag k ≤ 2 ^ 32 → Judges k message.now result }
    ensures stream { HasStream message.now result }
    ensures lists { PutsLists message.now room.new result }
    ensures head { HasHead message.now result }
{
    if word_at(message, 4) != VERSION {
        return Judged::OtherVersion;
    }
    let kind = word_at(message, 12);
    if kind == DONE {
        return Judged::Kind;
    }
    if kind == ERROR {
        return Judged::Kind;
    }
    if has_xid(calls, word_at(message, 0)) {
        return Judged::Open;
    }
    match read_header_into(message, room) {
        Ok(fields) => judge_kind(message, fields.kind, room.as_slices()),
        Err(_) => Judged::BadChunks,
    }
}
