//! Captures: the text of what happened on the links of a drill, mark by mark, read and written.
//!
//! It stands on `nr_texts`, which reads the words of such a text, and on `nr_reduce`, which has calls, forms and outcomes.
//! What a capture leaves out of a mark (the payload, the place and the reply of an execution, the bytes of a revoked call)
//! follows from the marks before it. Calls that are sent again over a new connection and kept replies
//! have no lines yet.
#![tactic(auto)]

mod capture;
mod laws;
mod marks;
mod printing;
mod reading;
mod runs;

pub use capture::{Capture, CaptureFault, CapturedMark};
pub use laws::text_is_read_back;
pub use printing::write_capture;
pub use reading::read_capture;
pub use runs::write_run;
