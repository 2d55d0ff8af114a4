//! The run of a drill: every line of a script, done on both ends of each link and on one plain server.
//!
//! It stands on `nr_script`, whose script it follows, on `nr_requester` and `nr_responder`, the two ends of a link, on `nr_plain`, which
//! answers, and on `nr_drill`, which says what a drill is and makes the report.
//!
//! A [`DrillLink`] is one link: its two ends, the bytes in transit each way, and the calls of its client that are awaited. Each of its
//! functions does what the function of the same name does to a drill in the definitions of `nr_drill`, and notes the marks of it.
//!
//! A line does one step of one link: a call is submitted, bytes arrive, a call is executed, is given up, or the link is dropped. After it
//! both ends write what is due. A `drain` repeats such steps, client by client, until nothing moves. [`run_world`] gives the report of
//! all marks, or runs out of memory.
//!
//! The marks are those that the script makes by the definitions of `nr_drill`, so the run is that of a drill, with its complete guarantee.
#![tactic(auto)]

mod awaited;
mod calls;
mod copying;
mod draining;
mod laws;
mod lines;
mod link;
mod moving;
mod opening;
mod outcomes;
mod resending;
mod running;
mod server;
mod steps;
mod transit;
mod working;
mod world;
mod writing;

pub use laws::other_links_stand;
pub use link::DrillLink;
pub use running::run_world;
pub use server::{DrillServer, Execution};
