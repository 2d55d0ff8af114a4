//! Why a call gets no reply.

ghost use Rattle.std.specs.Prelude.{◌≡◌};
ghost use Rattle.nr_plain.specs.declared.fault.Fault.TheVariants as faults;

use nr_xdr::Memory;

/// Why a call gets no reply. Nothing of it is executed.
#[derive(Clone, Copy, Debug, PartialEq, Eq)]
pub enum Fault {
    /// The payload begins with no call head. `at` is the offset of the first item that fails, in bytes from the front.
    NotCall { at: usize },
    /// Memory ran out.
    Memory,
    /// The client has a number, and the call's xid is 64 or more below the largest one of the client's changes, which is
    /// `top`: nothing is known of the call any more. [`Server::execute_for`](crate::Server::execute_for) alone gives it.
    Old { top: u32 },
}

impl From<Memory> for Fault {
    ghost from_gives = { λ _ e. e ≡ faults.Memory };

    fn from(_e: Memory) -> Fault {
        Fault::Memory
    }
}
