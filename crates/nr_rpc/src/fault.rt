//! Why bytes begin no head, or a head could not be written.

ghost use Rattle.std.specs.Prelude.{◌≡◌};
ghost use Rattle.nr_rpc.specs.declared.fault.HeadFault.TheVariants as faults;

use nr_xdr::Memory;

/// Why a head could not be read or written. `at` is the offset of the first item that fails, in bytes from the front.
#[derive(Clone, Copy, Debug, PartialEq, Eq)]
pub enum HeadFault {
    /// The bytes begin no call head.
    NotCall { at: usize },
    /// The bytes begin no reply head.
    NotReply { at: usize },
    /// Memory ran out.
    Memory,
}

impl From<Memory> for HeadFault {
    ghost from_gives = { λ _ e. e ≡ faults.Memory };

    fn from(_e: Memory) -> HeadFault {
        HeadFault::Memory
    }
}
