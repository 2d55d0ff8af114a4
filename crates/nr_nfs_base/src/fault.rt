//! Why a value could not be read.

ghost use Rattle.std.specs.Prelude.{◌≡◌};
ghost use Rattle.nr_nfs_base.specs.declared.fault.ValueFault.TheVariants.{Bad, Memory as memory};
ghost use Rattle.nr_xdr.specs.Reading.{place_of};

use nr_xdr::{ItemFault, Memory};
use std::alloc::{AllocError, AllocFailed};
use thiserror::Error;

/// Why some bytes were not read as a value.
#[derive(Clone, Copy, Debug, PartialEq, Eq, Error)]
pub enum ValueFault {
    /// The bytes are not read as a value of the type. `at` is the offset of the first item that fails, in bytes from
    /// the first, or that of the first byte left over.
    #[error("the item at byte {at} fails")]
    Bad { at: usize },
    /// Memory ran out.
    #[error("out of memory")]
    Memory,
}

impl From<ItemFault> for ValueFault {
    ghost from_gives = { λ fault e. e ≡ Bad (place_of fault) };

    fn from(fault: ItemFault) -> ValueFault {
        match fault {
            ItemFault::Short { at } => ValueFault::Bad { at },
            ItemFault::Long { at, .. } => ValueFault::Bad { at },
            ItemFault::BadBool { at } => ValueFault::Bad { at },
        }
    }
}

impl From<Memory> for ValueFault {
    ghost from_gives = { λ _ e. e ≡ memory };

    fn from(_e: Memory) -> ValueFault {
        ValueFault::Memory
    }
}

impl From<AllocError> for ValueFault {
    ghost from_gives = { λ _ e. e ≡ memory };

    fn from(_e: AllocError) -> ValueFault {
        ValueFault::Memory
    }
}

impl<T: Drop> From<AllocFailed<T>> for ValueFault {
    ghost from_gives = { λ _ e. e ≡ memory };

    fn from(_e: AllocFailed<T>) -> ValueFault {
        ValueFault::Memory
    }
}
