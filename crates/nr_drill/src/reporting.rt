//! The report of a run, by its marks, by the clients of its links, and by what their last links came to.

ghost use Rattle.std.specs.Prelude.{◌≡◌, ◌+◌, ◌-◌, ◌≤◌, ◌++◌, length, map, IfOk, OnOk, slice_get};
ghost use Rattle.nr_reduce.specs.declared.mark.Mark.TheVariants as marks;
ghost use Rattle.nr_marks.specs.Views.{mark_seen};
ghost use Rattle.nr_texts.specs.Limits.{clients_max};
ghost use Rattle.nr_drill.specs.Headline.{log_of};
ghost use Rattle.nr_drill.specs.LinkEnds.{ReportsRuns};
ghost use Rattle.nr_drill.specs.Reports.{side_report};
ghost use Rattle.nr_drill.specs.private.Drafts.{AddsToLog, TellsCalls, at_last_by, gone_by, is_open, link_report_by, link_reports_from};

use crate::call_table::index;
use crate::draft::{Draft, draft_of};
use crate::report::{CallReport, CallState, LinkEnds, LinkLog, LinkReport, LinkState, Report};
use nr_link::End;
use nr_marks::{MarkList, MarkLog, MarkView};
use nr_reduce::{Entry, Mark, Sequence};
use nr_wire::Side;
use nr_xdr::{Memory, Octets};
use std::alloc::Global;

/// A side of a client's link that ended.
fn push_side(
    reports: &mut Vec<LinkReport>,
    client: u32,
    side: Side,
    end: Option<End>,
) -> Result<(), Memory>
    ensures { OnOk result (reports.new.items ≡ reports.old.items ++ side_report client side end) }
{
    match end {
        None => Ok(()),
        Some(end) => {
            reports.push(LinkReport {
                client,
                state: LinkState::Ended { side, end },
            })?;
            Ok(())
        }
    }
}

/// What is reported of the last link of a client.
fn push_link(reports: &mut Vec<LinkReport>, client: u32, ends: LinkEnds) -> Result<(), Memory>
    ensures { OnOk result (reports.new.items ≡ reports.old.items ++ link_report_by client ends) }
{
    if ends.dropped {
        reports.push(LinkReport {
            client,
            state: LinkState::Dropped,
        })?;
        return Ok(());
    }
    push_side(reports, client, Side::Initiator, ends.client)?;
    push_side(reports, client, Side::Responder, ends.server)
}

/// What is reported of the last links of clients, the first of which is that of client 1.
fn link_reports(alloc: Global, ends: &[LinkEnds]) -> Result<Vec<LinkReport>, Memory>
    requires { length ends.now ≤ clients_max }
    ensures { IfOk result (λ reports. reports.items ≡ link_reports_from 1 ends.now) }
{
    let mut reports = Vec::new(alloc);
    for (i, ends) in ends.iter().enumerate() {
        push_link(&mut reports, i as u32 + 1, *ends)?;
    }
    Ok(reports)
}

/// Whether the last link of a client was dropped, or the client ended there.
fn is_gone(ends: &[LinkEnds], client: u32) -> bool
    ensures { result ≡ gone_by (slice_get ends.now (client - 1)) }
{
    match ends.get(index(client)) {
        Some(ends) => ends.dropped || ends.client.is_some(),
        None => false,
    }
}

/// Whether a call is open.
fn is_open(state: &CallState) -> bool
    ensures { result ≡ is_open state.now }
{
    match state {
        CallState::Open { .. } => true,
        _ => false,
    }
}

/// Reports a call as lost that is open, and whose client's last link was dropped, or whose client ended there.
fn settle_one(report: &mut CallReport, ends: &[LinkEnds])
    ensures { report.new ≡ at_last_by ends.now report.old }
{
    if is_gone(ends, report.client) && is_open(&report.state) {
        report.state = CallState::Lost;
    }
}

/// Reports all calls as lost that are.
fn settle(calls: &mut [CallReport], ends: &[LinkEnds])
    ensures { calls.new ≡ map (at_last_by ends.now) calls.old }
{
    for report in calls.iter_mut() {
        settle_one(report, ends);
    }
}

/// Adds bytes that a side of a link wrote to the log of a link.
fn add_wrote(log: &mut LinkLog, link: u32, own: u32, side: Side, bytes: &[u8]) -> Result<(), Memory>
    ensures { OnOk result (AddsToLog link (marks.Wrote own side bytes.now) log.old log.new) }
{
    if own != link {
        return Ok(());
    }
    match side {
        Side::Initiator => log.client_wrote.extend_from_slice(bytes),
        Side::Responder => log.server_wrote.extend_from_slice(bytes),
    }
}

/// Adds bytes that a side of a link was fed to the log of a link.
fn add_fed(log: &mut LinkLog, link: u32, own: u32, side: Side, bytes: &[u8]) -> Result<(), Memory>
    ensures { OnOk result (AddsToLog link (marks.Fed own side bytes.now) log.old log.new) }
{
    if own != link {
        return Ok(());
    }
    match side {
        Side::Initiator => log.client_was_fed.extend_from_slice(bytes),
        Side::Responder => log.server_was_fed.extend_from_slice(bytes),
    }
}

/// Adds a mark's bytes to the log of a link.
fn add_mark(log: &mut LinkLog, link: u32, mark: &Mark) -> Result<(), Memory>
    ensures { OnOk result (AddsToLog link mark.now log.old log.new) }
{
    match mark {
        Mark::Wrote {
            link: own,
            side,
            bytes,
        } => add_wrote(log, link, *own, *side, bytes.as_slice()),
        Mark::Fed {
            link: own,
            side,
            bytes,
        } => add_fed(log, link, *own, *side, bytes.as_slice()),
        _ => Ok(()),
    }
}

/// Adds the bytes of a mark that is read to the log of a link.
fn add_to_log(log: &mut LinkLog, link: u32, mark: MarkView<'_>) -> Result<(), Memory>
    ensures { OnOk result (AddsToLog link (mark_seen mark.entry) log.old log.new) }
{
    match mark {
        MarkView::Wrote {
            link: own,
            side,
            bytes,
        } => add_wrote(log, link, own, side, bytes),
        MarkView::Fed {
            link: own,
            side,
            bytes,
        } => add_fed(log, link, own, side, bytes),
        MarkView::Other(mark) => add_mark(log, link, mark),
        _ => Ok(()),
    }
}

/// The log of a link: the bytes that crossed it each way, by the marks of a run.
///
/// # Errors
///
/// [`Memory`] if memory ran out.
pub fn link_log(alloc: Global, marks: &MarkList, link: u32) -> Result<LinkLog, Memory>
    ensures { IfOk result (λ log. log ≡ log_of marks.now link) }
{
    let mut log = LinkLog {
        client_wrote: Octets::new(alloc),
        server_wrote: Octets::new(alloc),
        client_was_fed: Octets::new(alloc),
        server_was_fed: Octets::new(alloc),
    };
    for at in 0..marks.len() {
        add_to_log(&mut log, link, marks.mark(at))?;
    }
    Ok(log)
}

/// What a report says beside its marks.
#[derive(Drop)]
struct ReportParts {
    journal: Vec<Entry>,
    calls: Vec<CallReport>,
    links: Vec<LinkReport>,
}

/// The call lines, and the entries of the journal.
fn calls_of(
    alloc: Global,
    marks: &MarkList,
    clients: &[u32],
    ends: &[LinkEnds],
) -> Result<(Vec<CallReport>, Vec<Entry>), Memory>
    requires { length ends.now ≤ clients_max }
    ensures { IfOk result (λ told. TellsCalls clients.now marks.now ends.now told.0.items told.1.items) }
{
    let Draft {
        mut calls,
        journal,
        ..
    } = draft_of(alloc, clients, ends.len() as u32, marks)?;
    settle(calls.as_mut_slice(), ends);
    Ok((calls, journal))
}

/// What a report says beside its marks.
fn report_parts(
    alloc: Global,
    marks: &MarkList,
    clients: &[u32],
    ends: &[LinkEnds],
) -> Result<ReportParts, Memory>
    requires { length ends.now ≤ clients_max }
    ensures calls { IfOk result (λ told. TellsCalls clients.now marks.now ends.now told.calls.items told.journal.items) }
    ensures links { IfOk result (λ told. told.links.items ≡ link_reports_from 1 ends.now) }
{
    let (calls, journal) = calls_of(alloc, marks, clients, ends)?;
    let links = link_reports(alloc, ends)?;
    Ok(ReportParts {
        journal,
        calls,
        links,
    })
}

/// The report of a run, by its marks, by the client of each link, in the order of the links' numbers, and by what the last link of each client came
/// to, in the order of the clients' numbers.
///
/// # Errors
///
/// [`Memory`] if memory ran out.
pub fn report_of(
    alloc: Global,
    marks: MarkLog,
    clients: &[u32],
    ends: &[LinkEnds],
) -> Result<Report, Memory>
    requires { length ends.now ≤ clients_max }
    ensures marks { IfOk result (λ report. report.marks ≡ marks) }
    // Of the run of a drill whose links have these clients, and whose last links came to that, it says what its marks say.
    ensures reports { IfOk result (λ report. ReportsRuns marks clients.now ends.now report) }
{
    let marks = match marks.finish() {
        Ok(marks) => marks,
        Err(memory) => return Err(memory),
    };
    match report_parts(alloc, &marks, clients, ends) {
        Ok(
            ReportParts {
                journal,
                calls,
                links,
            },
        ) => Ok(Report {
            marks,
            journal: Sequence::from_vec(journal),
            calls: Sequence::from_vec(calls),
            links: Sequence::from_vec(links),
        }),
        Err(e) => {
            drop(marks);
            Err(e)
        }
    }
}
