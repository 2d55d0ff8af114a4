//! Why a payload was not planned, cut or put together.

ghost use Rattle.std.specs.Prelude.{◌≡◌};
ghost use Rattle.nr_reduce.specs.declared.fault.PayloadFault.TheVariants as faults;

use nr_xdr::Memory;
use thiserror::Error;

/// In which way a stream and a chunk of its own don't belong together (RFC 8166 section 3.4.1).
#[derive(Clone, Copy, Debug, PartialEq, Eq, Error)]
pub enum Mismatch {
    /// The stream has no item.
    #[error("no item")]
    NoItem = 1,
    /// The item begins at another position.
    #[error("another position")]
    Position = 2,
    /// The item has another length.
    #[error("another length")]
    Length = 3,
}

/// Why a payload was not planned, cut or put together.
#[derive(Clone, Copy, Debug, PartialEq, Eq, Error)]
pub enum PayloadFault {
    /// It needs this many bytes, more than the limit `room`.
    #[error("{need} bytes where there is room for {room}")]
    TooLarge { need: u128, room: u32 },
    /// The stream and the chunk don't belong together.
    #[error("the stream and its chunk do not belong together: {why}")]
    BadChunks { why: Mismatch },
    /// Memory ran out.
    #[error("out of memory")]
    Memory,
}

/// A call needs more bytes than there is room for.
#[derive(Clone, Copy)]
pub struct TooLarge {
    /// How many bytes it needs.
    pub need: u128,
    /// How many bytes there is room for.
    pub room: u32,
}

impl From<Memory> for PayloadFault {
    ghost from_gives = { λ _ e. e ≡ faults.Memory };

    fn from(_e: Memory) -> PayloadFault {
        PayloadFault::Memory
    }
}
