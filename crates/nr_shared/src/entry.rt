//! What the history of a shared requester has. No value of these types is made: only proofs know a history.

use nr_reduce::{Call, Form, Outcome};
use nr_requester::Requester;
use std::collections::LinkedList;

/// Why no more bytes are fed over the link at hand.
#[derive(Clone, Copy, PartialEq, Eq)]
pub enum Stop {
    /// A read failed.
    LinkRead,
    /// The source is at its end.
    Closed,
    /// The maximum of bytes was read.
    Budget,
    /// Memory ran out for a frame: the requester ended so.
    Memory,
    /// A dial failed: there is no link any more.
    DialFault,
    /// The link was lost, and fewer STags are left than the calls need that would be sent again.
    Spent { left: u64, need: u64 },
    /// The link was lost, and memory ran out for the next one.
    NotReopened,
}

/// The sink of a link when its bytes began to move here.
pub struct InitialSink {
    /// The number of its link.
    pub link: u64,
    /// Its fault count.
    pub faults: u64,
    /// The bytes that it had taken, if they are known.
    pub taken: Option<LinkedList<u8>>,
}

/// A requester and its sink when they were shared, and how often a lost link may be dialled again: never, if that isn't told.
pub struct InitialState {
    /// The requester.
    pub requester: Requester,
    /// The sink.
    pub sink: InitialSink,
    /// How often.
    pub tries: Option<u32>,
}

/// An entry. `submit` is the place of the call's Submit, which the entry closes. `previous` is the place of the entry that fed
/// before, which the entry closes: the first one closes `Initial`.
pub enum Entry {
    /// The requester was shared, in this state.
    Initial(InitialState),
    /// A lost link was left, and the requester reopened. `sink` is that of the next link; there is none if its dial failed.
    Rejoin {
        sink: Option<InitialSink>,
        previous: u64,
    },
    /// A call was accepted.
    Submit {
        call: Call,
        form: Form,
        xid: u32,
    },
    /// The sink took bytes.
    Wrote {
        bytes: LinkedList<u8>,
    },
    /// Bytes were fed. Then the calls were sent again that could be.
    Fed {
        bytes: LinkedList<u8>,
        previous: u64,
    },
    /// The outcome of a call was delivered.
    Done {
        xid: u32,
        outcome: Outcome,
        submit: u64,
    },
    /// A call was lost.
    Lost {
        xid: u32,
        submit: u64,
    },
    /// A call was forgotten.
    Forget {
        xid: u32,
        submit: u64,
    },
    /// The memory of a call was revoked.
    Revoke {
        xid: u32,
        bytes: LinkedList<u8>,
        submit: u64,
    },
    /// A write failed.
    WriteFailed,
    /// No bytes are fed any more, for a cause other than out of memory.
    Stopped {
        cause: Stop,
        previous: u64,
    },
    /// Memory ran out for a frame of this piece. Its first bytes, up to that frame, were fed.
    OutOfMemory {
        piece: LinkedList<u8>,
        previous: u64,
    },
}
