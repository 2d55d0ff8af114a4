//! Writing of hellos and segments.

ghost use Rattle.std.specs.Prelude.{◌≡◌, ℕ, ◌+◌, ◌<◌, ◌≤◌, true, false, List, ◌++◌, length, IfOk, OnOk};
ghost use Rattle.nr_xdr.specs.Item.{word, hyper};
ghost use Rattle.nr_wire.specs.Hello.{hello_encoding};
ghost use Rattle.arrayvec.specs.ArrayVec.{array_vec_len};
ghost use Rattle.nr_wire.specs.Fields.{half_word};
ghost use Rattle.nr_wire.specs.Segment.Segment.{Tagged, Untagged};
ghost use Rattle.nr_wire.specs.Segment.{IsWritable, control, payload_in, encoding, segment_header, segment_tail, ulpdu_size};
ghost use Rattle.nr_wire.specs.View.{hello as plain_hello, segment as plain};

use crate::constants::{
    BIT_LAST, BIT_TAGGED, DDP_VERSION, HEADER_MAX, HELLO_LEN, HELLO_REVISION, PRIVATE_MAX,
    RDMAP_VERSION, TAGGED_LEN, TAIL_MAX, ULPDU_MAX, UNTAGGED_LEN,
};
use crate::hello::{Hello, key};
use crate::segment::{Segment, fpdu_size, tail_len};
use crate::words::append;
use arrayvec::ArrayVec;
use nr_xdr::{Memory, Octets};
use std::alloc::Global;

#[tactic(auto, unfolding(crate::specs::Hello::hello_encoding, crate::specs::Fields::half_word))]
fn push_hello(out: &mut Vec<u8>, hello: &Hello) -> Result<(), Memory>
    requires { length hello.now.private.now ≤ PRIVATE_MAX }
    ensures { OnOk result (out.new.items ≡ out.old.items ++ hello_encoding (plain_hello hello.now)) }
{
    let private_len = hello.private.len() as u16;
    out.extend_from_slice(key(hello.side))?;
    out.extend_from_slice(&[hello.flags, HELLO_REVISION])?;
    out.extend_from_slice(&private_len.to_be_bytes())?;
    out.extend_from_slice(hello.private)?;
    Ok(())
}

/// The bytes of a hello. Its private data has at most 512 bytes.
pub fn write_hello(alloc: Global, hello: &Hello) -> Result<Octets, Memory>
    requires { length hello.now.private.now ≤ PRIVATE_MAX }
    ensures { IfOk result (λ bytes. bytes ≡ hello_encoding (plain_hello hello.now)) }
{
    let mut bytes = Vec::with_capacity(alloc, HELLO_LEN + hello.private.len())?;
    push_hello(&mut bytes, hello)?;
    Ok(Octets::from_vec(bytes))
}

/// The length field of an FPDU, and the two bytes that open its ULPDU.
#[tactic(auto, unfolding(crate::specs::Fields::half_word))]
fn opening(len: u16, tagged: bool, last: bool, opcode: u8) -> ArrayVec<u8, HEADER_MAX>
    requires { opcode < 16 }
    ensures bytes { result.items ≡ half_word len ++ control 0 0 tagged last opcode }
    ensures len { array_vec_len result ≡ 4 }
{
    let first = BIT_TAGGED * u8::from(tagged) + BIT_LAST * u8::from(last) + DDP_VERSION;
    let second = 64 * RDMAP_VERSION + opcode;
    let mut out = ArrayVec::new();
    append(&mut out, &len.to_be_bytes());
    append(&mut out, &[first, second]);
    out
}

/// Puts two numbers at the end.
#[tactic(auto, unfolding(nr_xdr::specs::Item::word))]
fn append_words(out: &mut ArrayVec<u8, HEADER_MAX>, first: u32, second: u32)
    requires { array_vec_len out.old + 8 ≤ HEADER_MAX }
    ensures bytes { out.new.items ≡ out.old.items ++ (word first ++ word second) }
    ensures len { array_vec_len out.new ≡ array_vec_len out.old + 8 }
{
    append(out, &first.to_be_bytes());
    append(out, &second.to_be_bytes());
}

/// Puts a number of four bytes and one of eight at the end.
#[tactic(auto, unfolding(nr_xdr::specs::Item::word, nr_xdr::specs::Item::hyper))]
fn append_word_hyper(out: &mut ArrayVec<u8, HEADER_MAX>, first: u32, second: u64)
    requires { array_vec_len out.old + 12 ≤ HEADER_MAX }
    ensures bytes { out.new.items ≡ out.old.items ++ (word first ++ hyper second) }
    ensures len { array_vec_len out.new ≡ array_vec_len out.old + 12 }
{
    append(out, &first.to_be_bytes());
    append(out, &second.to_be_bytes());
}

/// What an FPDU has before the `len` bytes of payload of a tagged segment (RFC 5044 section 4; RFC 5041 section 4.2), as
/// [`segment_header`]. Takes no memory.
#[tactic(auto, unfolding(crate::specs::Segment::header))]
pub fn tagged_header(
    last: bool,
    opcode: u8,
    stag: u32,
    to: u64,
    len: usize,
) -> ArrayVec<u8, HEADER_MAX>
    requires opcode { opcode < 16 }
    requires size { TAGGED_LEN + len ≤ ULPDU_MAX }
    ensures len { array_vec_len result ≤ HEADER_MAX }
    ensures bytes { (payload : List ℕ) → length payload ≡ len → result.items ≡ segment_header (Tagged last opcode stag to payload) }
{
    let mut out = opening((TAGGED_LEN + len) as u16, true, last, opcode);
    append_word_hyper(&mut out, stag, to);
    out
}

/// What an FPDU has before the `len` bytes of payload of an untagged segment (RFC 5044 section 4; RFC 5041 section 4.3), as
/// [`segment_header`]. `words` are the RsvdULP field and the queue; `place` is the message's number and the offset in it. Takes no
/// memory.
#[tactic(auto, unfolding(crate::specs::Segment::header))]
pub fn untagged_header(
    last: bool,
    opcode: u8,
    words: (u32, u32),
    place: (u32, u32),
    len: usize,
) -> ArrayVec<u8, HEADER_MAX>
    requires opcode { opcode < 16 }
    requires size { UNTAGGED_LEN + len ≤ ULPDU_MAX }
    ensures len { array_vec_len result ≤ HEADER_MAX }
    ensures bytes { (payload : List ℕ) → length payload ≡ len → result.items ≡ segment_header (Untagged last opcode words.0 words.1 place.0 place.1 payload) }
{
    let mut out = opening((UNTAGGED_LEN + len) as u16, false, last, opcode);
    append_words(&mut out, words.0, words.1);
    append_words(&mut out, place.0, place.1);
    out
}

/// What an FPDU has before the payload of its segment: the length field and the segment's header, with zeros for its reserved
/// bits. Takes no memory.
pub fn segment_header(segment: &Segment) -> ArrayVec<u8, HEADER_MAX>
    requires { IsWritable (plain segment.now) }
    ensures bytes { result.items ≡ segment_header (plain segment.now) }
    ensures len { array_vec_len result ≤ HEADER_MAX }
{
    match *segment {
        Segment::Tagged {
            last,
            opcode,
            stag,
            to,
            payload,
        } => tagged_header(last, opcode, stag, to, payload.len()),
        Segment::Untagged {
            last,
            opcode,
            word,
            queue,
            msn,
            offset,
            payload,
        } => untagged_header(last, opcode, (word, queue), (msn, offset), payload.len()),
    }
}

/// How many bytes the ULPDU of a segment has: its header and its payload.
pub fn ulpdu_size(segment: &Segment) -> u16
    requires { ulpdu_size (plain segment.now) ≤ ULPDU_MAX }
    ensures { result ≡ ulpdu_size (plain segment.now) }
{
    match *segment {
        Segment::Tagged { payload, .. } => (TAGGED_LEN + payload.len()) as u16,
        Segment::Untagged { payload, .. } => (UNTAGGED_LEN + payload.len()) as u16,
    }
}

/// The payload of a segment.
pub fn payload_in<'a>(segment: &Segment<'a>) -> &'a [u8]
    ensures { result.now ≡ payload_in (plain segment.now) }
{
    match *segment {
        Segment::Tagged { payload, .. } => payload,
        Segment::Untagged { payload, .. } => payload,
    }
}

/// What an FPDU has after an ULPDU of `len` bytes (RFC 5044 section 4): the pad and the CRC, all zeros. Takes no memory.
pub fn segment_tail(len: u16) -> &'static [u8]
    ensures bytes { result.now ≡ segment_tail len }
    ensures len { length result.now ≤ TAIL_MAX }
{
    static ZEROS: [u8; TAIL_MAX] = [0; TAIL_MAX];
    &ZEROS[..tail_len(len)]
}

/// Puts a segment at the end.
#[tactic(auto, unfolding(crate::specs::Segment::encoding))]
fn push_segment(out: &mut Vec<u8>, segment: &Segment) -> Result<(), Memory>
    requires { IsWritable (plain segment.now) }
    ensures { OnOk result (out.new.items ≡ out.old.items ++ encoding (plain segment.now)) }
{
    out.extend_from_slice(segment_header(segment).as_slice())?;
    out.extend_from_slice(payload_in(segment))?;
    out.extend_from_slice(segment_tail(ulpdu_size(segment)))?;
    Ok(())
}

/// The bytes of a segment, with zeros for its reserved bits, pad and CRC. Its opcode is below 16, and its header and payload
/// have at most [`ULPDU_MAX`](crate::ULPDU_MAX) bytes together.
pub fn write_segment(alloc: Global, segment: &Segment) -> Result<Octets, Memory>
    requires { IsWritable (plain segment.now) }
    ensures { IfOk result (λ bytes. bytes ≡ encoding (plain segment.now)) }
{
    let mut bytes = Vec::with_capacity(alloc, fpdu_size(ulpdu_size(segment)))?;
    push_segment(&mut bytes, segment)?;
    Ok(Octets::from_vec(bytes))
}
