//! The stream: a hello, and then FPDUs.

ghost use Rattle.std.specs.Prelude.{◌≡◌, ◌<◌, ◌≤◌, ◌↔◌, length, take, if◌then◌else◌, IfSome, IsNone, ℕ, ◌+◌, List, ◌++◌};
ghost use Rattle.nr_wire.specs.Constants.{FPDU_MAX};
ghost use Rattle.nr_wire.specs.Stream.{fields_len, frame_len, is_whole, bytes_needed, IsFrame, IsPartial};

use crate::constants::{HELLO_LEN, LENGTH_LEN};
use crate::hello::{Side, hello_len};
use crate::segment::fpdu_len;

/// What comes next in a stream: the hello of a side, and after it FPDUs.
#[derive(Clone, Copy)]
pub enum Awaited {
    /// The hello of this side.
    Hello(Side),
    /// An FPDU (RFC 5044 section 4).
    Fpdu,
}

fn fields_len(awaited: Awaited) -> usize
    ensures { result ≡ fields_len awaited }
{
    match awaited {
        Awaited::Hello(_) => HELLO_LEN,
        Awaited::Fpdu => LENGTH_LEN,
    }
}

fn frame_len(awaited: Awaited, bytes: &[u8]) -> usize
    requires { fields_len awaited ≤ length bytes.now }
    ensures is { result ≡ frame_len awaited bytes.now }
    ensures bound { result ≤ FPDU_MAX }
{
    match awaited {
        Awaited::Hello(side) => hello_len(side, bytes),
        Awaited::Fpdu => fpdu_len(bytes),
    }
}

/// The length of the awaited frame at the front of the bytes. `None` if and only if they are less than a complete frame.
pub fn whole_frame(awaited: Awaited, bytes: &[u8]) -> Option<usize>
    ensures frame { IfSome result (λ len. IsFrame awaited (take len bytes.now) × (len ≤ length bytes.now)) }
    ensures partial { IsNone result ↔ IsPartial awaited bytes.now }
    ensures bound { IfSome result (λ len. len ≤ FPDU_MAX) }
    ensures exact { result ≡ (if is_whole awaited bytes.now then Some (frame_len awaited bytes.now) else None) }
{
    whole_frame_inner(awaited, bytes)
}

#[tactic(auto, unfolding(crate::specs::Stream::is_whole))]
fn whole_frame_inner(awaited: Awaited, bytes: &[u8]) -> Option<usize>
    ensures exact { result ≡ (if is_whole awaited bytes.now then Some (frame_len awaited bytes.now) else None) }
    ensures bound { IfSome result (λ len. len ≤ FPDU_MAX) }
{
    if bytes.len() < fields_len(awaited) {
        return None;
    }
    let len = frame_len(awaited, bytes);
    if bytes.len() < len {
        return None;
    }
    Some(len)
}

/// How many more bytes the awaited frame needs, of which these have come: first those that give its length, then those of
/// the complete frame. 0 if and only if the frame is complete.
pub fn bytes_needed(awaited: Awaited, rest: &[u8]) -> usize
    // Bytes are needed if and only if the frame isn't complete.
    ensures some { IsPartial awaited rest.now ↔ (0 < result) }
    // Fewer don't complete it.
    ensures less { (more : List ℕ) → length more < result → IsPartial awaited (rest.now ++ more) }
    // That many complete its fields, and once these are there, the frame.
    ensures fields { length rest.now < fields_len awaited → length rest.now + result ≡ fields_len awaited }
    ensures just { fields_len awaited ≤ length rest.now → IsPartial awaited rest.now →
        (more : List ℕ) → length more ≡ result → IsFrame awaited (rest.now ++ more) }
    // With them no frame is longer than the longest FPDU.
    ensures room { IsPartial awaited rest.now → length rest.now + result ≤ FPDU_MAX }
    ensures exact { result ≡ bytes_needed awaited rest.now }
{
    bytes_needed_inner(awaited, rest)
}

#[tactic(auto, unfolding(crate::specs::Stream::bytes_needed))]
fn bytes_needed_inner(awaited: Awaited, rest: &[u8]) -> usize
    ensures exact { result ≡ bytes_needed awaited rest.now }
    ensures fields { length rest.now < fields_len awaited → length rest.now + result ≡ fields_len awaited }
    ensures room { (0 < result) → length rest.now + result ≤ FPDU_MAX }
{
    let fields = fields_len(awaited);
    if rest.len() < fields {
        return fields - rest.len();
    }
    frame_len(awaited, rest).saturating_sub(rest.len())
}
