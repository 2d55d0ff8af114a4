//! Links that an acceptor takes, each with a job.
//!
//! [`LinkJobs`] makes the job of a link, and runs the jobs that a spawner hands back. [`take_links`] accepts links, and has the job
//! of each started, or served here if it is handed back.
#![tactic(auto)]

mod fault;
mod link_jobs;
mod taking;

pub use fault::ServeFault;
pub use link_jobs::LinkJobs;
pub use taking::take_links;
