//! Laws of streams.

ghost use Rattle.std.specs.Prelude.{◌≡◌, ℕ, ◌<◌, ◌≤◌, ◌↔◌, Bool, true, List, [], ◌++◌, length, drop};
ghost use Rattle.nr_wire.specs.Constants.{ULPDU_MAX, FPDU_MAX as LONGEST};
ghost use Rattle.nr_wire.specs.Feeding.{Feeding, feeding_after, feeding_after_step, bytes_taken};
ghost use Rattle.nr_xdr.specs.Item.{IsBytes};
ghost use Rattle.nr_wire.specs.Hello.{Hello, IsAccepted, hello_encoding, hello_of};
ghost use Rattle.nr_wire.specs.Segment.{Segment, Fits, IsSupported, Reads, segment_of, encoding, payload_in, segment_header, segment_tail, ulpdu_size, fpdu_size};
ghost use Rattle.nr_wire.specs.Next.{hello_in, segment_in, frame_answer};
ghost use Rattle.nr_wire.specs.Next.Next.{Whole};
ghost use Rattle.nr_wire.specs.Terms.{TermsAreRead};
ghost use Rattle.nr_wire.specs.Stream.{Splits, split, frames_then, awaited_after, IsFrame, IsPartial};

use crate::constants::FPDU_MAX;
use crate::hello::Side;
use crate::stream::Awaited;

/// What is encoded is read again, whatever follows: a hello that isn't refused, and a segment whose opcode is supported.
pub fn round_trip()
    ensures hello { (hello : Hello) (more : List ℕ) → IsAccepted hello →
        hello_in hello.side (hello_encoding hello ++ more) ≡ Whole hello (length (hello_encoding hello)) }
    ensures segment { (segment : Segment) (more : List ℕ) → IsSupported segment → Fits segment → ulpdu_size segment ≤ ULPDU_MAX →
        segment_in (encoding segment ++ more) ≡ Whole segment (length (encoding segment)) }
{}

/// What a side with 1 to 16 units says in the private data of its hello is read so, whatever follows.
pub fn terms_are_read()
    ensures { TermsAreRead }
{}

/// The encoding of a segment is what comes before its payload, the payload, and what follows it.
pub fn frame_in_parts()
    ensures { (segment : Segment) → encoding segment ≡ segment_header segment ++ (payload_in segment ++ segment_tail (ulpdu_size segment)) }
{}

/// The answer for the frame at the front of some bytes depends on that frame alone.
pub fn judged_alone()
    ensures hello { (side : Side) (frame more : List ℕ) → IsFrame (Awaited.Hello side) frame →
        hello_in side (frame ++ more) ≡ frame_answer (hello_of side frame) (length frame) }
    ensures segment { (frame more : List ℕ) → IsFrame Awaited.Fpdu frame →
        segment_in (frame ++ more) ≡ frame_answer (segment_of frame) (length frame) }
{}

/// A complete FPDU is read as a segment if and only if it encodes that segment and the opcode is supported.
pub fn one_segment()
    ensures { (frame : List ℕ) (segment : Segment) → IsBytes frame → IsFrame Awaited.Fpdu frame →
        (segment_of frame ≡ Ok segment) ↔ (IsSupported segment × Reads segment frame) }
{}

/// A stream splits into frames in exactly one way. As more of it comes, its frames stay and its rest grows.
pub fn one_split()
    ensures exists { (a : Awaited) (stream : List ℕ) → Splits a stream (split a stream).frames (split a stream).rest }
    ensures only { (a : Awaited) (stream : List ℕ) (frames others : List (List ℕ)) (rest left : List ℕ) →
        Splits a stream frames rest → Splits a stream others left → (frames ≡ others) × (rest ≡ left) }
    ensures goes_on { (a : Awaited) (x y : List ℕ) → split a (x ++ y) ≡
        frames_then (split a x).frames (split (awaited_after a (split a x).frames) ((split a x).rest ++ y)) }
{}

/// Feeding is the same however a stream is split: into pieces, or step by step. What is kept is less than a frame, and an
/// end stays.
pub fn however_cut<S>()
    ensures pieces { (ended : S → Bool) (advanced : S → Awaited → List ℕ → S) (f : Feeding S) (x y : List ℕ) →
        feeding_after ended advanced (feeding_after ended advanced f x) y ≡ feeding_after ended advanced f (x ++ y) }
    ensures steps { (ended : S → Bool) (advanced : S → Awaited → List ℕ → S) (f : Feeding S) (piece : List ℕ) →
        IsPartial f.awaited f.rest →
        feeding_after ended advanced (feeding_after_step ended advanced f piece) (drop (bytes_taken f.awaited f.rest piece) piece)
        ≡ feeding_after ended advanced f piece }
    ensures partial { (ended : S → Bool) (advanced : S → Awaited → List ℕ → S) (f : Feeding S) (x : List ℕ) →
        IsPartial (feeding_after ended advanced f x).awaited (feeding_after ended advanced f x).rest }
    ensures end_stays { (ended : S → Bool) (advanced : S → Awaited → List ℕ → S) (f : Feeding S) (x : List ℕ) →
        ended f.state ≡ true → f.rest ≡ [] → (feeding_after ended advanced f x ≡ f) × (feeding_after_step ended advanced f x ≡ f) }
{}

/// The longest FPDU is that of the longest ULPDU, and has 65544 bytes.
pub fn longest_fpdu()
    ensures longest { FPDU_MAX ≡ fpdu_size ULPDU_MAX }
    ensures bytes { FPDU_MAX ≡ 65544 }
    ensures definition { LONGEST ≡ FPDU_MAX }
{}
