//! The commands of a client: each opens a session, makes its requests one after another, closes the session, and prints their
//! result.
//!
//! [`run_command`] runs a command, [`run_numbered`] one of a client with a number, [`get_by_jobs`] a `get` by several jobs, and [`end_text`] is the
//! text for a reason that one was not done.
#![tactic(auto)]

mod by_jobs;
mod ending;
mod files;
mod finding;
mod lent_dialer;
mod numbered;
mod printing;
mod run;
mod texts;

pub use by_jobs::get_by_jobs;
pub use ending::end_text;
pub use numbered::run_numbered;
pub use run::run_command;
