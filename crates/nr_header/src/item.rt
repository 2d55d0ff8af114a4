//! The items of a header: each is read, or refused with its offset.

ghost use Rattle.std.specs.Prelude.{◌≡◌, ◌+◌, ◌^◌, ◌<◌, nat_lt, length};
ghost use Rattle.nr_xdr.specs.Matching.{MatchesRead, MatchesStep};
ghost use Rattle.nr_header.specs.Reading.{more_at, segment_at, end_at};

use crate::header::RdmaSegment;
use nr_xdr::{DecodeError, Reader, number};

/// Reads whether an entry follows.
pub(crate) fn more(reader: &mut Reader<'_>) -> Result<bool, DecodeError>
    ensures { MatchesRead (λ b. b) result reader.new (more_at reader.old) }
{
    Ok(reader.boolean()?)
}

/// Reads the end of a list; an entry instead of it fails at its word.
#[tactic(auto, unfolding(crate::specs::Reading::end_at))]
pub(crate) fn end(reader: &mut Reader<'_>) -> Result<(), DecodeError>
    ensures { MatchesStep result reader.new (end_at reader.old) }
{
    let at = reader.at();
    if more(reader)? {
        return Err(DecodeError { at });
    }
    Ok(())
}

/// Whether a segment ends past 2^64.
fn passes_end(length: u32, offset: u64) -> bool
    ensures { result ≡ nat_lt (2 ^ 64) (offset + length) }
{
    let length = u64::from(length);
    length > 0 && length - 1 > u64::MAX - offset
}

/// Reads a segment; one that ends past 2^64 fails at `place`.
#[tactic(auto, unfolding(crate::specs::Reading::segment_at))]
pub(crate) fn segment(reader: &mut Reader<'_>, place: usize) -> Result<RdmaSegment, DecodeError>
    ensures { MatchesRead (λ s. s) result reader.new (segment_at place reader.old) }
{
    let handle = number(reader)?;
    let length = number(reader)?;
    let offset = reader.u64()?;
    if passes_end(length, offset) {
        return Err(DecodeError { at: place });
    }
    Ok(RdmaSegment {
        handle,
        length,
        offset,
    })
}
