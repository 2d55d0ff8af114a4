//! That the capture of a drill's run can be written, and is read back.
//!
//! It stands on the definitions of a drill (`nr_drill`) and of captures (`nr_capture`). Nothing of it runs: its public function has laws as
//! its contract.
#![tactic(auto)]

mod laws;

pub use laws::runs_are_read_back;
