//! Why a case can't be tried.

use std::alloc::{AllocError, AllocFailed};

/// Why a case can't be tried.
#[derive(Clone, Copy, Debug)]
pub enum CaseFault {
    /// A line has another format.
    Format,
    /// Memory ran out.
    Memory,
}

impl From<AllocError> for CaseFault {
    fn from(_error: AllocError) -> CaseFault {
        CaseFault::Memory
    }
}

impl<T: Drop> From<AllocFailed<T>> for CaseFault {
    fn from(_refused: AllocFailed<T>) -> CaseFault {
        CaseFault::Memory
    }
}
