//! What a drill is: the marks that a script makes on both ends of each link and on a plain server, what they promise, and what is
//! reported and printed of them.
//!
//! It stands on `nr_script`, which reads scripts, on `nr_reduce` and `nr_laws`, which define a run and its laws, and on `nr_plain`, whose
//! server answers. The ends themselves stand above, in `nr_world`.
//!
//! The definitions say which marks each line of a script makes, whatever runs it. [`drill_is_run`] is the guarantee, in one record: marks
//! that a script makes are the run of a drill, whose calls are answered as by the plain server, in order. [`runs`] and [`drains_end`] say
//! that a script without bytes of a hostile peer has such a run. [`report_of`] makes a [`Report`] of the marks, and [`shown`] and
//! [`summary`] its text; [`reports_tell_runs`] says that the report, and so what is printed, follows from the marks alone.
//!
//! A report keeps the marks, a line for each call, and a line for each link that was dropped and each side that ended.
#![tactic(auto)]

mod call_table;
mod draft;
mod laws;
mod printing;
mod report;
mod reporting;

pub use laws::{drains_end, drill_is_run, reports_tell_runs, runs};
pub use printing::{shown, summary};
pub use report::{
    CallReport, CallReports, CallState, Journal, LinkEnds, LinkLog, LinkReport, LinkReports,
    LinkState, Report,
};
pub use reporting::{link_log, report_of};
