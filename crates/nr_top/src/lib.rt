//! The program above its streams: words and an input come in, bytes go out, and a status says how it ended.
//!
//! The crate stands on nr_outside, through which all bytes pass, on nr_world, which runs drills, on nr_serve and nr_gateway, which serve as a
//! configuration asks for, and on nr_commands, which runs the commands of a client. The program itself only opens the streams of
//! its process, and calls [`run`], or [`refuse`] if it can't have its words.
#![tactic(auto)]

mod client;
mod drill;
mod gating;
mod report;
mod running;
mod serving;
pub mod status;

pub use report::refuse;
pub use running::run;
pub use serving::run_server;
