//! The staging buffer: the bytes of a frame that a piece cuts.

ghost use Rattle.std.specs.Prelude.{◌≡◌, ◌+◌, ◌≤◌, ◌++◌, length, take, drop, min, ◌==◌, ◌&&◌, if◌then◌else◌, Some, None};
ghost use Rattle.nr_wire.specs.Constants.{FPDU_MAX};
ghost use Rattle.nr_wire.specs.Feeding.{bytes_taken};
ghost use Rattle.nr_wire.specs.Stream.{IsPartial, bytes_needed, is_whole, frame_len};

use nr_wire::{Awaited, bytes_needed, whole_frame};

/// The length of the awaited frame, if none of it is staged and it lies completely at the front of a piece.
pub fn whole_in_piece(staged: usize, awaited: Awaited, piece: &[u8]) -> Option<usize>
    ensures { result ≡ (if staged == 0 && is_whole awaited piece.now then Some (frame_len awaited piece.now) else None) }
{
    if staged != 0 {
        return None;
    }
    whole_frame(awaited, piece)
}

/// Stages the next bytes of a piece that the awaited frame needs, of which `staged` bytes are there: those of its length fields, or
/// the rest. Answers how many.
fn stage(staging: &mut Vec<u8>, staged: usize, awaited: Awaited, piece: &[u8]) -> usize
    requires len { length staging.old.items ≡ FPDU_MAX }
    requires within { staged ≤ FPDU_MAX }
    ensures count { result ≡ min (bytes_needed awaited (take staged staging.old.items)) (length piece.now) }
    ensures bytes { staging.new.items ≡ take staged staging.old.items ++ (take result piece.now ++ drop (staged + result) staging.old.items) }
    ensures room { staged + result ≤ FPDU_MAX }
{
    let (front, _) = staging.as_slice().split_at(staged);
    let count = bytes_needed(awaited, front).min(piece.len());
    let (bytes, _) = piece.split_at(count);
    staging.as_mut_slice()[staged..staged + count].copy_from_slice(bytes);
    count
}

/// Stages the next bytes of a piece up to the end of the awaited frame, or all of it. Answers how many.
pub fn stage_frame(staging: &mut Vec<u8>, staged: usize, awaited: Awaited, piece: &[u8]) -> usize
    requires len { length staging.old.items ≡ FPDU_MAX }
    requires within { staged ≤ FPDU_MAX }
    requires partial { IsPartial awaited (take staged staging.old.items) }
    ensures taken { result ≡ bytes_taken awaited (take staged staging.old.items) piece.now }
    ensures bytes { staging.new.items ≡ take staged staging.old.items ++ (take result piece.now ++ drop (staged + result) staging.old.items) }
    ensures room { staged + result ≤ FPDU_MAX }
{
    let fields = stage(staging, staged, awaited, piece);
    let (_, left) = piece.split_at(fields);
    let rest = stage(staging, staged + fields, awaited, left);
    fields + rest
}
