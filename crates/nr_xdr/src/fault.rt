//! Why an item could not be read or written.

ghost use Rattle.std.specs.Prelude.{◌≡◌};

use std::alloc::{AllocError, AllocFailed};
use thiserror::Error;

/// Memory ran out. Writing has no other fault.
#[derive(Clone, Copy, Debug, PartialEq, Eq, Error)]
#[error("out of memory")]
pub struct Memory;

impl From<AllocError> for Memory {
    fn from(_e: AllocError) -> Memory {
        Memory
    }
}

impl<T: Drop> From<AllocFailed<T>> for Memory {
    fn from(_e: AllocFailed<T>) -> Memory {
        Memory
    }
}

/// Why the bytes at a reader's offset begin no item of the type asked for. `at` is that offset: the number of bytes
/// before it.
#[derive(Clone, Copy, Debug, PartialEq, Eq)]
pub enum ItemFault {
    /// Fewer bytes are left than the item takes.
    Short { at: usize },
    /// The count of opaque data is above the maximum of its type.
    Long { at: usize, len: u32, max: u32 },
    /// A boolean is neither 0 nor 1.
    BadBool { at: usize },
}

impl ItemFault {
    ghost use Rattle.std.specs.Prelude.{◌≡◌};
    ghost use Rattle.nr_xdr.specs.Reading.{place_of};

    /// The offset of the item that fails: the number of bytes before it.
    pub fn at(self) -> usize
        ensures { result ≡ place_of self }
    {
        match self {
            ItemFault::Short { at } | ItemFault::Long { at, .. } | ItemFault::BadBool { at } => at,
        }
    }
}
