//! The loop of a connection over record-marked TCP (RFC 5531 section 11), whatever answers its calls.
//!
//! [`serve_calls`] reads the client's stream, lets an [`Answers`] answer the call of each record, and writes its reply as a
//! record before the next call is answered.
#![tactic(auto)]

mod answering;
mod loop_end;
mod reading;
mod serving;

pub use answering::{Answers, NoReply};
pub use loop_end::LoopEnd;
pub use serving::serve_calls;
