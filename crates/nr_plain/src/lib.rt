//! The plain server: a serial RPC server of NFS version 3 and MOUNT version 3 (RFC 1813) over a tree in memory.
//!
//! [`Server::execute`] takes the payload of a call and gives the payload of its reply. What it answers is defined in
//! `specs/`: the procedures in `Programs.antt`, the journal in `Journal.antt`, the order of refusals and the replies in
//! `Replies.antt`. The journal has an entry for each change that succeeded, and the tree is what the entries make of
//! the first one. The server doesn't keep the journal: `Stands.antt` says for which journals it stands, and each call
//! says for every such journal what it answers and for which journal it stands then. `Added.antt` has the entry of a
//! call by its reply alone, and `journal_laws.rt` the laws of a journal.
//!
//! A procedure of NFS is a trait of its arguments (`procedure.rt`), implemented for each in `reading.rt` and
//! `changing.rt`, which make the replies too. `mount.rt` has those of MOUNT, `dispatch.rt` and `server.rt` the way to
//! them. A procedure that changes the tree first takes the room of its reply (`encoding.rt`), so that out of memory
//! leaves the server as before. The laws say whose a reply is ([`replies_begin_with_the_xid`]), how long it may be
//! ([`replies_are_within_their_limit`]), and that it can be sent ([`changes_fit_every_offer`],
//! [`auto_offers_hold_their_replies`]).
//!
//! Below stand the procedures (`nr_ops_file`, `nr_ops_dir`, `nr_ops_list`), the heads (`nr_rpc`) and the entries of a
//! journal (`nr_reduce`). Above, the server's connections and the drill hand calls in and send replies.
#![tactic(auto)]

mod call;
mod caller;
mod changing;
mod dispatch;
mod encoding;
mod entry;
mod fault;
mod history_entry;
mod journal_laws;
mod laws;
mod machine;
mod mount;
mod numbered;
mod procedure;
mod reading;
mod server;
mod turns;

pub use entry::entry_of_call;
pub use fault::Fault;
pub use history_entry::HistoryEntry;
pub use journal_laws::{
    calls_add_one_entry_at_most, failures_leave_the_tree, replies_are_those_of_answers,
    replies_stay, replies_tell_entries, trees_stay_sane,
    unchanging_replies_do_not_depend_on_the_moment,
};
pub use laws::{
    auto_offers_hold_their_replies, changes_fit_every_offer, replies_are_within_their_limit,
    replies_begin_with_the_xid, server_fits_changes, server_is_plain, server_keeps_calls,
};
pub use numbered::{
    answers_are_those_of_runs, changes_once, finding_is_standing, first_replies_are_kept,
};
pub use server::{Reply, Server};
pub use turns::{execute, execute_for, journal_len, share};
