//! The hello that each side sends first.

ghost use Rattle.nr_wire.specs.Constants.{FPDU_MAX};
ghost use Rattle.nr_wire.specs.Stream.{IsPartial};
ghost use Rattle.nr_wire.specs.Next.Next.{Whole, More, Bad};
ghost use Rattle.std.specs.Prelude.{◌≡◌, ℕ, ◌+◌, ◌<◌, ◌≤◌, length, take, ◌↔◌, List, ◌++◌, IfNone};
ghost use Rattle.nr_wire.specs.Hello.{peer, key, is_refused_by, hello_reason, hello_of, hello_len, Hello as PlainHello, IsAccepted, hello_encoding, private_len};
ghost use Rattle.nr_wire.specs.Next.{hello_in, IfWhole};
ghost use Rattle.nr_wire.specs.View.{hello as plain, next_hello, result_view};

use crate::constants::{
    FLAG_CRC, FLAG_MARKERS, FLAG_REJECT, HELLO_LEN, HELLO_REVISION, PRIVATE_MAX, REASON_FLAGS,
    REASON_KEY, REASON_PRIVATE, REASON_REVISION,
};
use crate::stream::{Awaited, whole_frame};
use crate::words::{half_word_at, has_bit};

/// An end of a connection: the initiator opened it, the responder accepted it.
#[derive(Clone, Copy, Debug, PartialEq, Eq)]
pub enum Side {
    /// It opened the connection, and sends the MPA Request.
    Initiator,
    /// It accepted the connection, and sends the MPA Reply.
    Responder,
}

impl Side {
    /// The other side of the link.
    pub fn peer(self) -> Side
        ensures { result ≡ peer self }
    {
        match self {
            Side::Initiator => Side::Responder,
            Side::Responder => Side::Initiator,
        }
    }
}

/// The first frame that a side sends (RFC 5044 section 7.1): an initiator's request, a responder's reply. `flags` is the
/// byte unchanged, `private` the private data for the layer above, at most 512 bytes.
#[derive(Clone, Copy)]
pub struct Hello<'a> {
    /// The side that sends it.
    pub side: Side,
    /// The byte of flags, unchanged.
    pub flags: u8,
    /// The private data, at most 512 bytes.
    pub private: &'a [u8],
}

/// What the bytes begin with, if a hello is awaited.
#[derive(Clone, Copy)]
pub enum NextHello<'a> {
    /// A hello, in the first `len` bytes.
    Whole { hello: Hello<'a>, len: usize },
    /// Less than a complete hello.
    More,
    /// A hello that is refused: the first of the reasons 1 to 4 that applies.
    Bad { reason: u32 },
}

/// The 16 bytes that open a hello of this side.
#[tactic(auto, unfolding(crate::specs::Hello::key))]
pub fn key(side: Side) -> &'static [u8]
    ensures { result.now ≡ key side }
{
    match side {
        Side::Initiator => b"MPA ID Req Frame",
        Side::Responder => b"MPA ID Rep Frame",
    }
}

fn is_refused_by(side: Side, flags: u8) -> bool
    ensures { result ≡ is_refused_by side flags }
{
    let asks = has_bit(FLAG_MARKERS, flags) || has_bit(FLAG_CRC, flags);
    match side {
        Side::Initiator => asks,
        Side::Responder => asks || has_bit(FLAG_REJECT, flags),
    }
}

/// Why a hello with these first 20 bytes is refused.
#[tactic(auto, unfolding(crate::specs::Hello::hello_reason))]
fn flaw(side: Side, head: &[u8]) -> Option<u32>
    requires { length head.now ≡ HELLO_LEN }
    ensures exact { result ≡ hello_reason side head.now }
    ensures private { IfNone result (private_len head.now ≤ PRIVATE_MAX) }
{
    if !head.starts_with(key(side)) {
        return Some(REASON_KEY);
    }
    if is_refused_by(side, head[16]) {
        return Some(REASON_FLAGS);
    }
    if head[17] != HELLO_REVISION {
        return Some(REASON_REVISION);
    }
    if half_word_at(head, 18) > PRIVATE_MAX {
        return Some(REASON_PRIVATE);
    }
    None
}

/// The length of the hello that these bytes begin: 20 if it is refused.
#[tactic(auto, unfolding(crate::specs::Hello::hello_len))]
pub fn hello_len(side: Side, bytes: &[u8]) -> usize
    requires { HELLO_LEN ≤ length bytes.now }
    ensures is { result ≡ hello_len side bytes.now }
    ensures bound { result ≤ FPDU_MAX }
{
    let (head, _) = bytes.split_at(HELLO_LEN);
    match flaw(side, head) {
        None => HELLO_LEN + usize::from(half_word_at(bytes, 18)),
        Some(_) => HELLO_LEN,
    }
}

/// The hello that a complete frame holds, or the reason for which it is refused.
#[tactic(auto, unfolding(crate::specs::Hello::hello_of))]
fn hello_of(side: Side, frame: &[u8]) -> Result<Hello<'_>, u32>
    requires { HELLO_LEN ≤ length frame.now }
    ensures { result_view plain result ≡ hello_of side frame.now }
{
    let (head, private) = frame.split_at(HELLO_LEN);
    match flaw(side, head) {
        None => Ok(Hello {
            side,
            flags: frame[16],
            private,
        }),
        Some(reason) => Err(reason),
    }
}

/// Reads the hello of `side` at the front of some bytes (RFC 5044 section 7.1). `Bad`: 20 bytes or more are there, and the
/// first 20 give one of the reasons 1 to 4; the first that applies. `More`: if and only if fewer than 20 bytes are there, or
/// the first 20 give no reason and fewer bytes follow than the private length says.
pub fn read_hello(side: Side, bytes: &[u8]) -> NextHello<'_>
    // What is read is encoded so.
    ensures found { IfWhole (next_hello result) (λ hello len. (hello.side ≡ side) × IsAccepted hello
        × (take len bytes.now ≡ hello_encoding hello) × (len ≤ length bytes.now)) }
    // What is encoded so is read, whatever follows.
    ensures only { (hello : PlainHello) (more : List ℕ) → hello.side ≡ side → IsAccepted hello →
        bytes.now ≡ hello_encoding hello ++ more → next_hello result ≡ Whole hello (length (hello_encoding hello)) }
    ensures more { (next_hello result ≡ More) ↔ IsPartial (Awaited.Hello side) bytes.now }
    // Which reason it is.
    ensures bad { (reason : ℕ) → (next_hello result ≡ Bad reason)
        ↔ ((HELLO_LEN ≤ length bytes.now) × (hello_reason side (take HELLO_LEN bytes.now) ≡ Some reason)) }
    ensures exact { next_hello result ≡ hello_in side bytes.now }
{
    read_hello_inner(side, bytes)
}

#[tactic(auto, unfolding(crate::specs::Next::hello_in))]
fn read_hello_inner(side: Side, bytes: &[u8]) -> NextHello<'_>
    ensures { next_hello result ≡ hello_in side bytes.now }
{
    let Some(len) = whole_frame(Awaited::Hello(side), bytes) else {
        return NextHello::More;
    };
    let (frame, _) = bytes.split_at(len);
    match hello_of(side, frame) {
        Ok(hello) => NextHello::Whole { hello, len },
        Err(reason) => NextHello::Bad { reason },
    }
}
