//! The marks of a run in little memory: most bytes that crossed a link are kept once.
//!
//! It stands on `nr_reduce`, whose `Mark` says what happened at an end of a link. A drill pushes each mark into a [`MarkLog`]; at its end
//! [`MarkLog::finish`] gives a [`MarkList`], of which `nr_drill` makes the report.
//!
//! A byte that one end wrote is mostly fed to the other, so a fed piece is kept as a place in what was written. Contracts see the list of
//! the marks alone: what is read ([`MarkView`]) is what was pushed, in order, whichever bytes are kept twice.
#![tactic(auto)]

mod keeping;
mod kept;
mod log;
mod stores;

pub use kept::MarkView;
pub use log::{MarkList, MarkLog};
