//! What a drill reports.

use nr_link::End;
use nr_marks::MarkList;
use nr_reduce::{Entry, Outcome, Refused, Sequence};
use nr_wire::Side;
use nr_xdr::Octets;

/// The entries of the journal in order.
pub type Journal = Sequence<Entry>;

/// What became of a call.
#[derive(Drop)]
pub enum CallState {
    /// It was accepted, and nothing came of it yet.
    Open {
        /// The xid under which it was accepted.
        xid: u32,
    },
    /// Its outcome was handed over.
    Done {
        /// The number of journal entries before it when it was executed. Of a reply that only bytes of the script made it is the
        /// journal's length at that time. `None` of an ERR_VERS, and of an ERR_CHUNK to a call that wasn't executed.
        place: Option<u64>,
        /// The reply's payload, or which error message came (RFC 8166 section 4.5).
        outcome: Outcome,
    },
    /// Its link was dropped before that, or its client ended.
    Lost,
    /// Its caller gave up the answer before that.
    Forgotten,
    /// Its caller took back the call's memory before that, which held these bytes.
    Revoked(Octets),
    /// It wasn't sent.
    Refused(Refused),
    /// It wasn't sent, since its link had been dropped.
    Dropped,
}

/// A call line of a script and what became of its call.
#[derive(Drop)]
pub struct CallReport {
    /// The number of the client, from 1.
    pub client: u32,
    /// The number of the line among the call lines of the client, from 1.
    pub number: u32,
    /// What became of the call.
    pub state: CallState,
}

/// The call lines in the order of the script.
pub type CallReports = Sequence<CallReport>;

/// How a link, or a side of it, ended.
#[derive(Clone, Copy, PartialEq, Eq)]
pub enum LinkState {
    /// The link was dropped.
    Dropped,
    /// A side of it takes no more input.
    Ended {
        /// The side.
        side: Side,
        /// Why.
        end: End,
    },
}

/// A link that was dropped, or a side of which ended.
#[derive(Clone, Copy, PartialEq, Eq)]
pub struct LinkReport {
    /// The number of the link's client, from 1.
    pub client: u32,
    /// How it ended.
    pub state: LinkState,
}

/// The links that were dropped or that ended, in order. For each link the client's side comes first.
pub type LinkReports = Sequence<LinkReport>;

/// The bytes that crossed a link each way. What a side was fed is what the other wrote, if nothing waits and no line of the
/// script put bytes into the link's pipes.
#[derive(Drop)]
pub struct LinkLog {
    /// What the client wrote.
    pub client_wrote: Octets,
    /// What the server wrote.
    pub server_wrote: Octets,
    /// What the client was fed.
    pub client_was_fed: Octets,
    /// What the server was fed.
    pub server_was_fed: Octets,
}

/// The report of a drill.
#[derive(Drop)]
pub struct Report {
    /// What happened, mark by mark. What crossed a link is the log of the link's marks (`link_log`).
    pub marks: MarkList,
    /// What the executed calls of all links added, in order.
    pub journal: Journal,
    /// What became of each call.
    pub calls: CallReports,
    /// The links that were dropped, and the sides that ended.
    pub links: LinkReports,
}

/// What a link came to: why each of its sides takes no more input, if it has ended, and whether the link was dropped.
#[derive(Clone, Copy)]
pub struct LinkEnds {
    /// Why the client ended, if it did.
    pub client: Option<End>,
    /// Why the server ended, if it did.
    pub server: Option<End>,
    /// Whether the link was dropped.
    pub dropped: bool,
}
