//! Complete frames of the peer.

ghost use Rattle.std.specs.Prelude.{◌≡◌, ◌+◌, ◌^◌, ◌<◌, ◌≤◌, length, IfOk};
ghost use Rattle.nr_wire.specs.Hello.{hello_of};
ghost use Rattle.nr_wire.specs.Segment.{IsSupported, payload_in, segment_of};
ghost use Rattle.nr_wire.specs.Stream.{IsFrame};
ghost use Rattle.nr_link.specs.Ending.{is_not_taken, opcode_is_judged, segment_taken};
ghost use Rattle.nr_wire.specs.View.{hello as plain_hello, segment as plain, result_view};

use nr_wire::constants::{OPCODE_SEND_INVALIDATE, REASON_OPCODE};
use nr_wire::{Awaited, Hello, NextHello, NextSegment, Segment, Side, next_segment, read_hello};

/// The hello of this side that a frame holds, or the reason for which it is refused (RFC 5044 section 7.1).
pub fn hello_in_frame(side: Side, frame: &[u8]) -> Result<Hello<'_>, u32>
    requires { IsFrame (Awaited.Hello side) frame.now }
    ensures { result_view plain_hello result ≡ hello_of side frame.now }
{
    match read_hello(side, frame) {
        NextHello::Whole { hello, .. } => Ok(hello),
        NextHello::Bad { reason } => Err(reason),
        NextHello::More => unreachable!(),
    }
}

/// The segment that an FPDU holds, or the reason for which it is refused by its own bytes.
fn whole_segment(frame: &[u8]) -> Result<Segment<'_>, u32>
    requires { IsFrame Awaited.Fpdu frame.now }
    ensures exact { result_view plain result ≡ segment_of frame.now }
    ensures supported { IfOk result (λ s. IsSupported (plain s)) }
    ensures payload { IfOk result (λ s. length (payload_in (plain s)) < 2 ^ 16) }
    ensures size { IfOk result (λ s. length (payload_in (plain s)) + 1 ≤ length frame.now) }
{
    match next_segment(frame) {
        NextSegment::Whole { segment, .. } => Ok(segment),
        NextSegment::Bad { reason } => Err(reason),
        NextSegment::More => unreachable!(),
    }
}

/// Whether the opcode of an FPDU that is read so is judged: whether no reason below that of an opcode applies.
fn opcode_is_judged(read: &Result<Segment<'_>, u32>) -> bool
    ensures { result ≡ opcode_is_judged (result_view plain read.now) }
{
    match read {
        Ok(_) => true,
        Err(reason) => *reason >= REASON_OPCODE,
    }
}

/// Whether an FPDU that is read so is refused as a Send with Invalidate, by a side that takes none.
#[tactic(auto, using(crate::proofs::WholeFrames::control_there))]
fn is_not_taken(invalidates: bool, frame: &[u8], read: &Result<Segment<'_>, u32>) -> bool
    requires { IsFrame Awaited.Fpdu frame.now }
    ensures { result ≡ is_not_taken invalidates frame.now (result_view plain read.now) }
{
    !invalidates && frame[3] % 16 == OPCODE_SEND_INVALIDATE && opcode_is_judged(read)
}

/// The segment that an FPDU holds, or the reason for which it is refused: also if it is of a Send with Invalidate, and the side takes none.
pub fn segment_in_frame(invalidates: bool, frame: &[u8]) -> Result<Segment<'_>, u32>
    requires { IsFrame Awaited.Fpdu frame.now }
    ensures exact { result_view plain result ≡ segment_taken invalidates frame.now }
    ensures supported { IfOk result (λ s. IsSupported (plain s)) }
    ensures payload { IfOk result (λ s. length (payload_in (plain s)) < 2 ^ 16) }
    ensures size { IfOk result (λ s. length (payload_in (plain s)) + 1 ≤ length frame.now) }
{
    let read = whole_segment(frame);
    if is_not_taken(invalidates, frame, &read) {
        return Err(REASON_OPCODE);
    }
    read
}
