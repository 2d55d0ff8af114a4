//! Calls, how they are sent, and what becomes of them: plain data.

use crate::sequence::Sequence;
use nr_link::End;
use nr_rpc::Cred;
use nr_xdr::Octets;

/// A call of a program (RFC 5531 section 9), with its arguments as they are encoded.
#[derive(Drop)]
pub struct Call {
    /// The program number.
    pub prog: u32,
    /// The version number of the program.
    pub vers: u32,
    /// The procedure number.
    pub proc: u32,
    /// The credential.
    pub cred: Cred,
    /// The encoded arguments.
    pub args: Octets,
}

/// How a call is to be sent (RFC 8166 section 3.5): as fits it best, completely inline, with its item in a chunk,
/// completely in a chunk, or with an offer that is given, right or wrong.
#[derive(Drop)]
pub enum Form {
    /// The form that fits the call best.
    Auto,
    /// Completely inline: RDMA_MSG without a chunk.
    Inline,
    /// With the item of the call in a read chunk, and a write chunk for that of the reply, if they exist.
    Chunk,
    /// Completely in a chunk at position 0, and a reply chunk is offered.
    Long,
    /// With an offer that is given, right or wrong.
    Given(Offer),
}

/// The lengths, in bytes, of the segments of an offer. A list that is absent isn't offered.
#[derive(Drop)]
pub struct Offer {
    /// The position of the read chunk.
    pub read_at: u32,
    /// The segments of the read chunk.
    pub read: Option<Lengths>,
    /// The segments of the write chunk.
    pub write: Option<Lengths>,
    /// The segments of the reply chunk.
    pub reply: Option<Lengths>,
}

/// A list of lengths in bytes.
pub type Lengths = Sequence<u32>;

/// What a call was answered by: the reply's payload, an ERR_CHUNK or an ERR_VERS message (RFC 8166 section 4.5).
#[derive(Drop)]
pub enum Outcome {
    /// The payload of the reply.
    Reply(Octets),
    /// ERR_CHUNK.
    Chunk,
    /// ERR_VERS: the server supports the versions from `low` to `high`.
    Version { low: u32, high: u32 },
}

/// Why a call was not sent.
#[derive(Clone, Copy)]
pub enum Refused {
    /// The link has ended.
    Ended(End),
    /// It needs this many bytes, more than the limit `room`.
    TooLarge { need: u128, room: u32 },
    /// No credit is left: `out` calls are outstanding, and the peer grants `grant`.
    NoCredit { out: u32, grant: u32 },
    /// The client has a number, and the next xid is 64 or more above the least one of a call that is outstanding. A next xid of 2^32 is
    /// none.
    Window { oldest: u32, next: u64 },
    /// Fewer xids or STags are left than it needs.
    Spent { left: u64, need: u64 },
    /// Memory ran out.
    Memory,
}

/// What is answered to a call: it goes out under this xid, or it is refused.
#[derive(Clone, Copy)]
pub enum Submission {
    /// The call is sent under this xid.
    Accepted { xid: u32 },
    /// The call is refused.
    Refused(Refused),
    /// The link was dropped: the call is refused as one on a link that has ended, and there is no [`End`] to report.
    Dropped,
}
