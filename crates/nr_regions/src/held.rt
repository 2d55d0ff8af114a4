//! What is kept under an STag.

ghost use Rattle.std.specs.Prelude.{◌≡◌, ◌+◌, ◌≤◌, length, false, IfNone};
ghost use Rattle.nr_regions.specs.RegisteredMemory.{denial_in};
ghost use Rattle.nr_regions.specs.Table.{live_offer};

use crate::denied::Denied;
use crate::right::Right;
use crate::window::Window;

/// A registered buffer: its part that is offered, and for what.
#[derive(Drop)]
pub struct HeldBuffer {
    /// For which accesses it is offered.
    pub right: Right,
    /// The buffer and its part that is offered.
    pub window: Window,
    /// Whether a Send with Invalidate of the peer named its STag (RFC 5040 section 4.7): then the peer reaches it no more.
    pub is_dead: bool,
}

impl HeldBuffer {
    /// Why an access of `len` bytes from `to` on is denied, if it is: the first reason that applies.
    pub fn denial(&self, right: Right, to: u64, len: u64) -> Option<Denied>
        ensures exact { result ≡ denial_in (live_offer self.now) (record { right = right; stag = 0; to = to; len = len }) }
        ensures live { IfNone result (self.now.is_dead ≡ false) }
        ensures within { IfNone result (to + len ≤ length self.now.window.bytes) }
    {
        if self.is_dead {
            return Some(Denied::NoStag);
        }
        let size = self.window.len() as u64;
        if to > size || len > size - to {
            return Some(Denied::Bounds);
        }
        if self.right != right {
            return Some(Denied::Right);
        }
        None
    }
}
