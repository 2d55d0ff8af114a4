//! The head of a call's stream and its item, and how they are kept with a call.

ghost use Rattle.std.specs.Prelude.{◌≡◌, drop, take, true};
ghost use Rattle.nr_responder.specs.Sound.{InBuffer};
ghost use Rattle.nr_responder.specs.Views.{IsHeadOf};

use crate::call::Pending;
use nr_reduce::{Item, call_item_of, call_parts};
use nr_rpc::CallTarget;

/// What is read of a call's stream: what its head asks for, `None` if it has no head of RPC version 2; and its item, if it has one.
#[derive(Clone, Copy)]
pub struct StreamHead {
    /// What the head asks for.
    pub target: Option<CallTarget>,
    /// The item of the stream (RFC 8267 section 2).
    pub item: Option<Item>,
}

/// Reads the head of a stream.
pub(crate) fn read_head(stream: &[u8]) -> StreamHead
    ensures { IsHeadOf result stream.now }
{
    match call_parts(stream) {
        Some(parts) => StreamHead {
            target: Some(parts.target),
            item: call_item_of(parts),
        },
        None => StreamHead {
            target: None,
            item: None,
        },
    }
}

/// The head of a call's stream, which is read if it was not.
pub(crate) fn head_of(call: &Pending, stream: &[u8]) -> StreamHead
    requires call { InBuffer call.now }
    requires stream { call.now.inline ≡ true → stream.now ≡ drop call.now.stream_at (take call.now.len call.now.buf) }
    ensures { IsHeadOf result stream.now }
{
    match (call.target, call.item) {
        (Some(target), Some(item)) => StreamHead { target, item },
        _ => read_head(stream),
    }
}
