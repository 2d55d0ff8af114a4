//! What a link of the iWARP profile asks of each segment, and how it ends (RFC 5040, RFC 5041): the words that the endpoint
//! and the definitions of a run share.
//!
//! It stands on `nr_wire`, which frames a stream, and on `nr_regions`, which says what an access lacks. [`End`] says why a side takes
//! no more input, and [`constants`] has the numbers of the reasons. The rest are definitions: the frames of a stream with their
//! offsets, what a side writes for a message or an access, its output as a list of items, and the faults for which a segment ends a
//! link, in the order in which they are checked.
#![tactic(auto)]

mod agreement;
pub mod constants;
mod end;
mod laws;

pub use agreement::{Agreement, SideTerms, client_number};
pub use end::End;
pub use laws::{agreements_bounded, begun_sends_judged_alike, stop_reasons_numbered};
