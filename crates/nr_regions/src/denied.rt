//! Why an access or a registration is refused.

use thiserror::Error;

/// Why a peer's access is denied: the first reason that applies.
#[derive(Clone, Copy, Debug, PartialEq, Eq, Error)]
pub enum Denied {
    /// No live region has the STag.
    #[error("no live region has this STag")]
    NoStag,
    /// The range passes the end of the region. The sum of offset and length doesn't wrap.
    #[error("the range passes the end of the region")]
    Bounds,
    /// The region has another right than the access needs.
    #[error("the region has another right")]
    Right,
}

/// Why a buffer can't be registered.
#[derive(Clone, Copy, Debug, PartialEq, Eq, Error)]
pub enum Why {
    /// The last STag, 2^32 - 1, was given, so none is left.
    #[error("no STag is left")]
    Spent,
    /// Memory ran out.
    #[error("out of memory")]
    Memory,
}
