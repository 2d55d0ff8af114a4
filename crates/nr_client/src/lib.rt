//! Calls of a client over a link, and sessions.
#![tactic(auto)]

mod answer;
mod asking;
mod calling;
mod client_end;
mod fetching;
mod file_calls;
mod file_results;
mod file_to_read;
mod input_window;
mod jobs;
mod limits;
mod link;
mod link_calls;
mod listing;
mod names;
mod path;
mod read_data;
mod read_file;
mod reading_ahead;
mod reasons;
mod requests;
mod results;
mod session;
mod shared_calls;
mod shared_link;
mod transfer;
mod unnumbered;
mod walking;
mod write_file;
mod written_pieces;

pub use client_end::{ClientEnd, RpcKind};
pub use link::Link;
pub use link_calls::Calls;
pub use names::Names;
pub use nr_shared::CallEnd;
pub use path::components;
pub use session::Session;
pub use shared_link::SharedLink;
