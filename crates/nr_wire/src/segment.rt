//! DDP segments (RFC 5041 section 4) in their FPDUs (RFC 5044 section 4).

ghost use Rattle.nr_wire.specs.Constants.{FPDU_MAX};
ghost use Rattle.nr_wire.specs.Stream.{IsPartial, is_whole};
ghost use Rattle.nr_wire.specs.Next.Next.{Whole, More, Bad};
ghost use Rattle.std.specs.Prelude.{◌≡◌, ◌+◌, ◌-◌, ◌<◌, ◌≤◌, length, IfNone, ℕ, ◌↔◌, List, ◌++◌, take, IsTrue};
ghost use Rattle.nr_xdr.specs.Item.{pad_len};
ghost use Rattle.nr_wire.specs.Segment.{fpdu_size, fpdu_len, tail_len, ulpdu_len, ddp_header_len, is_tagged, is_tagged_opcode, is_supported, queue_for, is_of_other_form, frame_reason, segment_of, segment_by_form, Segment as PlainSegment, IsSupported, Reads};
ghost use Rattle.nr_wire.specs.Next.{segment_in, IfWhole};
ghost use Rattle.nr_wire.specs.View.{segment as plain, next_segment, result_view};

use crate::constants::{
    BIT_LAST, BIT_TAGGED, CRC_LEN, DDP_VERSION, LENGTH_LEN, OPCODE_READ_REQUEST,
    OPCODE_READ_RESPONSE, OPCODE_SEND, OPCODE_SEND_INVALIDATE, OPCODE_TERMINATE, OPCODE_WRITE,
    QUEUE_READ_REQUEST, QUEUE_SEND, QUEUE_TERMINATE, RDMAP_VERSION, REASON_DDP_VERSION,
    REASON_LENGTH, REASON_OPCODE, REASON_QUEUE, REASON_RDMAP_VERSION, REASON_TAGGED, TAGGED_LEN,
    UNTAGGED_LEN,
};
use crate::stream::{Awaited, whole_frame};
use crate::words::{half_word_at, has_bit, hyper_at};
use nr_xdr::word_at;

/// A DDP segment. `last` says that it ends its message; `opcode` is the kind of message (RFC 5040 section 4). The payload of
/// a tagged segment goes to the memory that `stag` names at the receiver, from byte `to` on. An untagged segment belongs to
/// message `msn` of its queue, and its payload begins at byte `offset` of that message; `word` is the RsvdULP field (RFC 5041
/// section 4.3): the STag in the last segment of a Send with Invalidate (RFC 5040 section 4.7), else ignored.
#[derive(Clone, Copy)]
pub enum Segment<'a> {
    /// A segment of the tagged buffer model (RFC 5041 section 4.2).
    Tagged {
        last: bool,
        opcode: u8,
        stag: u32,
        to: u64,
        payload: &'a [u8],
    },
    /// A segment of the untagged buffer model (RFC 5041 section 4.3).
    Untagged {
        last: bool,
        opcode: u8,
        word: u32,
        queue: u32,
        msn: u32,
        offset: u32,
        payload: &'a [u8],
    },
}

/// What the bytes begin with, if an FPDU is awaited.
#[derive(Clone, Copy)]
pub enum NextSegment<'a> {
    /// A segment, in the first `len` bytes.
    Whole { segment: Segment<'a>, len: usize },
    /// Less than a complete FPDU.
    More,
    /// An FPDU that is refused: the first of the reasons 5 to 10 that applies.
    Bad { reason: u32 },
}

/// How many bytes of an FPDU follow an ULPDU of `len` bytes: the pad and the CRC.
#[tactic(auto, unfolding(nr_xdr::specs::Item::pad_len))]
pub fn tail_len(len: u16) -> usize
    ensures is { result ≡ tail_len len }
    ensures bound { result < 8 }
    ensures filled { LENGTH_LEN + len + result ≤ FPDU_MAX }
{
    (4 - (LENGTH_LEN + usize::from(len)) % 4) % 4 + CRC_LEN
}

/// The length of an FPDU whose ULPDU has `len` bytes.
#[tactic(auto, unfolding(crate::specs::Segment::fpdu_size))]
pub fn fpdu_size(len: u16) -> usize
    ensures is { result ≡ fpdu_size len }
    ensures bound { result ≤ FPDU_MAX }
{
    LENGTH_LEN + usize::from(len) + tail_len(len)
}

/// The length of the FPDU that these bytes begin.
#[tactic(auto, unfolding(crate::specs::Segment::fpdu_len))]
pub fn fpdu_len(bytes: &[u8]) -> usize
    requires { LENGTH_LEN ≤ length bytes.now }
    ensures is { result ≡ fpdu_len bytes.now }
    ensures bound { result ≤ FPDU_MAX }
{
    fpdu_size(half_word_at(bytes, 0))
}

fn is_tagged_opcode(opcode: u8) -> bool
    ensures { result ≡ is_tagged_opcode opcode }
{
    opcode == OPCODE_WRITE || opcode == OPCODE_READ_RESPONSE
}

fn is_supported(opcode: u8) -> bool
    ensures { result ≡ is_supported opcode }
{
    is_tagged_opcode(opcode)
        || opcode == OPCODE_READ_REQUEST
        || opcode == OPCODE_SEND
        || opcode == OPCODE_SEND_INVALIDATE
        || opcode == OPCODE_TERMINATE
}

fn queue_for(opcode: u8) -> u32
    ensures { result ≡ queue_for opcode }
{
    match opcode {
        OPCODE_READ_REQUEST => QUEUE_READ_REQUEST,
        OPCODE_TERMINATE => QUEUE_TERMINATE,
        _ => QUEUE_SEND,
    }
}

fn is_of_other_form(tagged: bool, opcode: u8) -> bool
    ensures { result ≡ is_of_other_form tagged opcode }
{
    if tagged {
        !is_tagged_opcode(opcode)
    } else {
        is_tagged_opcode(opcode)
    }
}

fn ddp_header_len(tagged: bool) -> usize
    ensures { result ≡ ddp_header_len tagged }
{
    if tagged { TAGGED_LEN } else { UNTAGGED_LEN }
}

/// Why a complete FPDU is refused.
#[tactic(auto, unfolding(crate::specs::Segment::frame_reason))]
fn flaw(frame: &[u8]) -> Option<u32>
    requires control { 4 ≤ length frame.now }
    requires whole { LENGTH_LEN + ulpdu_len frame.now ≤ length frame.now }
    ensures exact { result ≡ frame_reason frame.now }
    ensures header { IfNone result (ddp_header_len (is_tagged frame.now) ≤ ulpdu_len frame.now) }
{
    let tagged = has_bit(BIT_TAGGED, frame[2]);
    let opcode = frame[3] % 16;
    if usize::from(half_word_at(frame, 0)) < ddp_header_len(tagged) {
        return Some(REASON_LENGTH);
    }
    if frame[2] % 4 != DDP_VERSION {
        return Some(REASON_DDP_VERSION);
    }
    if frame[3] / 64 != RDMAP_VERSION {
        return Some(REASON_RDMAP_VERSION);
    }
    if !is_supported(opcode) {
        return Some(REASON_OPCODE);
    }
    if is_of_other_form(tagged, opcode) {
        return Some(REASON_TAGGED);
    }
    if !tagged && word_at(frame, 8) != queue_for(opcode) {
        return Some(REASON_QUEUE);
    }
    None
}

/// The segment that a frame holds, read in the tagged or in the untagged form.
fn segment_by_form(tagged: bool, frame: &[u8]) -> Segment<'_>
    requires control { 4 ≤ length frame.now }
    requires header { ddp_header_len tagged ≤ ulpdu_len frame.now }
    requires whole { LENGTH_LEN + ulpdu_len frame.now ≤ length frame.now }
    ensures { plain result ≡ segment_by_form tagged frame.now }
{
    let len = usize::from(half_word_at(frame, 0)) - ddp_header_len(tagged);
    let (_, after) = frame.split_at(LENGTH_LEN + ddp_header_len(tagged));
    let (payload, _) = after.split_at(len);
    let last = has_bit(BIT_LAST, frame[2]);
    let opcode = frame[3] % 16;
    if tagged {
        Segment::Tagged {
            last,
            opcode,
            stag: word_at(frame, 4),
            to: hyper_at(frame, 8),
            payload,
        }
    } else {
        Segment::Untagged {
            last,
            opcode,
            word: word_at(frame, 4),
            queue: word_at(frame, 8),
            msn: word_at(frame, 12),
            offset: word_at(frame, 16),
            payload,
        }
    }
}

/// The segment that a complete FPDU holds, or the reason for which it is refused.
#[tactic(auto, unfolding(crate::specs::Segment::segment_of))]
fn segment_of(frame: &[u8]) -> Result<Segment<'_>, u32>
    requires control { 4 ≤ length frame.now }
    requires whole { LENGTH_LEN + ulpdu_len frame.now ≤ length frame.now }
    ensures { result_view plain result ≡ segment_of frame.now }
{
    match flaw(frame) {
        None => Ok(segment_by_form(has_bit(BIT_TAGGED, frame[2]), frame)),
        Some(reason) => Err(reason),
    }
}

/// Reads the FPDU at the front of some bytes (RFC 5044 section 4). `More`: if and only if fewer than two bytes are there, or
/// fewer than the FPDU that the length field announces, pad and CRC included. `Bad`: a complete FPDU is there that is refused;
/// the first of the reasons 5 to 10 that applies. The payload is a part of the bytes.
pub fn next_segment(bytes: &[u8]) -> NextSegment<'_>
    // What is read is encoded so, up to its reserved bits, pad and CRC.
    ensures found { IfWhole (next_segment result) (λ segment len. IsSupported segment
        × Reads segment (take len bytes.now) × (len ≤ length bytes.now)) }
    // What is encoded so is read, whatever follows.
    ensures only { (segment : PlainSegment) (frame more : List ℕ) → IsSupported segment → Reads segment frame →
        bytes.now ≡ frame ++ more → next_segment result ≡ Whole segment (length frame) }
    ensures more { (next_segment result ≡ More) ↔ IsPartial Awaited.Fpdu bytes.now }
    // Which reason it is.
    ensures bad { (reason : ℕ) → (next_segment result ≡ Bad reason)
        ↔ (IsTrue (is_whole Awaited.Fpdu bytes.now) × (frame_reason (take (fpdu_len bytes.now) bytes.now) ≡ Some reason)) }
    ensures exact { next_segment result ≡ segment_in bytes.now }
{
    next_segment_inner(bytes)
}

#[tactic(auto, unfolding(crate::specs::Next::segment_in))]
fn next_segment_inner(bytes: &[u8]) -> NextSegment<'_>
    ensures { next_segment result ≡ segment_in bytes.now }
{
    let Some(len) = whole_frame(Awaited::Fpdu, bytes) else {
        return NextSegment::More;
    };
    let (frame, _) = bytes.split_at(len);
    match segment_of(frame) {
        Ok(segment) => NextSegment::Whole { segment, len },
        Err(reason) => NextSegment::Bad { reason },
    }
}
