//! What an owner holds of a call that it submitted.

ghost use Rattle.std.specs.Prelude.{◌≡◌};

use std::marker::Model;

/// A call that a requester accepted, until its owner takes the answer or gives it up. It goes back to the requester that gave it, and
/// can't be copied, so each call is answered at most once. Contracts see it as the xid under which the call goes out.
#[derive(Drop)]
pub struct Ticket {
    xid: u32,
}

impl Model for Ticket {
    ghost use Rattle.std.specs.Prelude.{ℕ};
    ghost use Rattle.std.specs.Coded.{coded_ℕ};

    ghost Value = { ℕ };

    ghost coded = { coded_ℕ };

    ghost view = { λ t. t.xid };
}

impl Ticket {
    pub(crate) fn new(xid: u32) -> Ticket
        ensures { result ≡ xid }
    {
        Ticket { xid }
    }

    /// The xid under which the call goes out.
    pub fn xid(&self) -> u32
        ensures { result ≡ self.now }
    {
        self.xid
    }
}
