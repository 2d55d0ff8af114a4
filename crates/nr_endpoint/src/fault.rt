//! Why a call of an endpoint is refused.

ghost use Rattle.std.specs.Prelude.{◌≡◌};
ghost use Rattle.nr_endpoint.specs.declared.fault.DrainFault.TheVariants as drains;
ghost use Rattle.nr_endpoint.specs.declared.fault.ReadRefused.TheVariants as reads;

use nr_outside::Failed;
use nr_xdr::Memory;
use thiserror::Error;

/// Why not all output was handed on.
#[derive(Clone, Copy, Debug, PartialEq, Eq, Error)]
pub enum DrainFault {
    /// A write of the sink failed.
    #[error("a write failed")]
    LinkWrite,
    /// Memory ran out.
    #[error("out of memory")]
    Memory,
}

impl From<Failed> for DrainFault {
    ghost from_gives = { λ _ e. e ≡ drains.LinkWrite };

    fn from(_e: Failed) -> DrainFault {
        DrainFault::LinkWrite
    }
}

/// Why a Read Request is not queued. The endpoint is as before.
#[derive(Clone, Copy, Debug, PartialEq, Eq)]
pub enum ReadRefused {
    /// The maximum number of Read Requests is open.
    Full { reads: u32 },
    /// Memory ran out.
    Memory,
}

impl From<Memory> for ReadRefused {
    ghost from_gives = { λ _ e. e ≡ reads.Memory };

    fn from(_e: Memory) -> ReadRefused {
        ReadRefused::Memory
    }
}
