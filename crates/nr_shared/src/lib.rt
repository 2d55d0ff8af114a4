//! A requester that several callers share.
//!
//! A [`SharedRequester`] has a requester with its sink in one turnstile, and the source of the link, with the one pass that feeds what it gives,
//! in another. Each caller has a [`Pass`]. [`SharedRequester::call`] waits for its own answer, and moves the bytes of all callers meanwhile;
//! the calls that begin with `try_` don't wait.
//!
//! What callers did stands in one history, which only proofs know: its entries are the marks of the requester, and why bytes don't move any
//! more. A pass knows a beginning of it, and which entries are its own.
#![tactic(auto)]

mod appending;
mod call_end;
mod call_rule;
mod caller_turns;
mod calling;
mod entry;
mod laws;
mod no_dialer;
mod opening;
mod receiving;
mod redialing;
mod requester_with_sink;
mod shared;
mod source_reader;
mod turns;

pub use appending::Appended;
pub use call_end::CallEnd;
pub use call_rule::{AnyCall, CallRule};
pub use entry::{Entry, InitialSink, InitialState, Stop};
pub use laws::opened_requesters_fit;
pub use no_dialer::NoDialer;
pub use opening::{InitialHistory, NotShared};
pub use requester_with_sink::RequesterWithSink;
pub use shared::{Pass, SharedRequester, TryRevoke, TrySubmit, TryTake};
pub use source_reader::{InitialSource, SourceReader};
