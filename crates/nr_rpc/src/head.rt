//! Call and reply heads.

use crate::cred::Cred;

/// The head of a call (RFC 5531 section 9). `args_at` is ignored when a head is written.
#[derive(Drop)]
pub enum CallHead {
    /// A call of RPC version 2, without its verifier. `args_at` is the offset of the first byte of the arguments, in
    /// bytes from the front.
    Version2 {
        xid: u32,
        prog: u32,
        vers: u32,
        proc: u32,
        cred: Cred,
        args_at: usize,
    },
    /// A call of another version of RPC, whose head ends after that version.
    Other {
        xid: u32,
        rpcvers: u32,
    },
}

/// What a call of RPC version 2 asks for, without its credential. `args_at` is as in [`CallHead`].
#[derive(Clone, Copy, Debug, PartialEq, Eq)]
pub struct CallTarget {
    /// The transaction ID.
    pub xid: u32,
    /// The program number.
    pub prog: u32,
    /// The version number of the program.
    pub vers: u32,
    /// The procedure number.
    pub proc: u32,
    /// The offset of the first byte of the arguments, in bytes from the front.
    pub args_at: usize,
}

/// The head of a reply (RFC 5531 section 9), without its verifier. `results_at` is ignored when a head is written.
#[derive(Clone, Copy, Debug, PartialEq, Eq)]
pub enum ReplyHead {
    /// The call was accepted with this status, other than 2. `results_at` is the offset of the first byte of the results,
    /// in bytes from the front.
    Accepted {
        xid: u32,
        stat: u32,
        results_at: usize,
    },
    /// The call was accepted, and its program has only the versions from `low` to `high` (accept status 2).
    ProgMismatch {
        xid: u32,
        low: u32,
        high: u32,
    },
    /// The call was denied: only the versions of RPC from `low` to `high` are supported.
    RpcMismatch {
        xid: u32,
        low: u32,
        high: u32,
    },
    /// The call was denied: its credential was refused, with this status.
    AuthError {
        xid: u32,
        stat: u32,
    },
}
