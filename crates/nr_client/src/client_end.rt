//! Why a request of a session has no result.

use nr_nfs_base::{MountStatus, Status};
use nr_shared::CallEnd;

/// How a server refused a call (RFC 5531 section 9).
#[derive(Clone, Copy)]
pub enum RpcKind {
    /// The call was accepted and not executed: the code is its accept status.
    Accept,
    /// The call was denied: the code is its reject status.
    Reject,
}

/// Why a request of a session has no result.
#[derive(Clone, Copy)]
pub enum ClientEnd {
    /// The dialer failed: its fault count rose.
    DialFault,
    /// The call has no answer.
    Link(CallEnd),
    /// The server refused the call.
    Rpc { kind: RpcKind, code: u32 },
    /// MOUNT failed with this status.
    Mount { status: MountStatus },
    /// The procedure failed with this status.
    Nfs { status: Status },
    /// The server answered ERR_CHUNK.
    Chunk,
    /// The server answered ERR_VERS: it supports the versions from `low` to `high`.
    Version { low: u32, high: u32 },
    /// The reply has no results. Reason 24: it can't be read, and `at` is the offset of the first item that fails, or of the first byte left
    /// over. Reason 25: its results give nothing and no end, or more than was asked for, or no handle; `at` is the offset of the item that says so.
    BadReply { at: usize, reason: u32 },
    /// A path can't be walked: a component that begins at this offset has more than 255 bytes, or the path, which ends there, has none.
    BadPath { at: usize },
    /// A read of the user's input failed: its fault count rose.
    InputFault,
    /// A write of the user's output failed: its fault count rose.
    OutputFault,
    /// More than this many came: bytes of an input, or entries of a directory.
    Budget { count: u64 },
    /// Memory ran out.
    Memory,
}
