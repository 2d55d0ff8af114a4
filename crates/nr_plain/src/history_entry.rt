use crate::server::Server;
use nr_reduce::TaggedEntry;
use std::snapshot::Snapshot;

/// An entry of the history of a server in a turnstile.
pub enum HistoryEntry {
    /// The first one: the server as it was opened.
    Opened { server: Snapshot<Server> },
    /// An entry of the journal.
    Added { entry: TaggedEntry },
}
