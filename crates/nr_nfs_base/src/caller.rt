//! The caller of a procedure.

use crate::array::Array;

/// The caller of a procedure, as the credential says (RFC 5531 appendix A, `authsys_parms`).
#[derive(Drop)]
pub struct Caller {
    /// The effective user ID.
    pub uid: u32,
    /// The effective group ID.
    pub gid: u32,
    /// The other groups of the caller.
    pub gids: Array<u32>,
}
