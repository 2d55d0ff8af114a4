//! What a side writes last, by its end.

ghost use Rattle.std.specs.Prelude.{◌≡◌, [], if◌then◌else◌};
ghost use Rattle.std.specs.Bool.{OnTrue};
ghost use Rattle.nr_link.specs.Output.{refusing_hello};
ghost use Rattle.nr_link.specs.Ending.{final_output, rejection};
ghost use Rattle.nr_endpoint.specs.SendQueue.{terminate_by};

use nr_link::End;
use nr_link::constants::{WORD_BOUNDS, WORD_NO_BUFFER, WORD_NO_STAG, WORD_RIGHT};
use nr_regions::Denied;
use nr_wire::Side;
use nr_wire::constants::{REASON_FLAGS, REASON_PRIVATE};

/// The word of the Terminate that a side writes last, if it writes one (RFC 5040 section 4.8; the words are own).
#[tactic(auto, unfolding(nr_link::specs::Ending::final_output))]
pub fn terminate_word(end: End) -> Option<u32>
    ensures { final_output end ≡ terminate_by result }
{
    match end {
        End::Bad { at: _, reason } => {
            if reason <= REASON_PRIVATE {
                None
            } else {
                Some(reason)
            }
        }
        End::Denied { why, .. } => Some(match why {
            Denied::NoStag => WORD_NO_STAG,
            Denied::Bounds => WORD_BOUNDS,
            Denied::Right => WORD_RIGHT,
        }),
        End::NoBuffer { msn: _ } => Some(WORD_NO_BUFFER),
        End::Terminated { reason: _ } => None,
        End::Memory => None,
    }
}

/// Whether a side answers this end by a hello that rejects the connection (RFC 5044 section 7.1).
/// Such an end has no Terminate.
#[tactic(auto, unfolding(nr_link::specs::Ending::final_output))]
pub fn is_rejection(side: Side, end: End) -> bool
    ensures is { rejection side end ≡ (if result then refusing_hello else []) }
    ensures alone { OnTrue result (final_output end ≡ []) }
{
    match (side, end) {
        (Side::Responder, End::Bad { at: _, reason }) => reason == REASON_FLAGS,
        _ => false,
    }
}
