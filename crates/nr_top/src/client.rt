//! A command of a client: its status, and what is reported.

ghost use Rattle.std.specs.Prelude.{◌≡◌, ◌<◌, ◌≤◌};
ghost use Rattle.nr_outside.specs.Streams.{sink_at, source_at};
ghost use Rattle.nr_words.specs.Limits.{tries_max};
ghost use Rattle.nr_words.specs.Lines.{plain_client, plain_get, plain_numbered};
ghost use Rattle.nr_client.specs.Dialing.{dialer_at};
ghost use Rattle.nr_client.specs.Jobs.{jobs_max};
ghost use Rattle.nr_top.specs.Clients.{ClientEnds, GetEnds, NumberedEnds, ReportsEnd, call_status, link_status, status_of};

use crate::report::write_error;
use crate::status::{
    BAD_INPUT, DONE, FAULT, LINK_CLOSED, LINK_FAULT, NFS_FAILED, NO_MEMORY, OVER_BUDGET,
    PROTOCOL_FAULT, REFUSED, TRANSPORT_ERROR,
};
use nr_client::{CallEnd, ClientEnd};
use nr_commands::{end_text, get_by_jobs, run_command, run_numbered};
use nr_link::End;
use nr_links::{Dialer, LinkSink, LinkSource};
use nr_outside::{Sink, Source};
use nr_words::{Client, GetByJobs, NumberedClient};
use std::alloc::Global;
use std::sync::Wait;
use std::thread::Threads;

/// The status for an end of the client's side of a link.
fn link_status(end: End) -> u8
    ensures { result ≡ link_status end }
{
    match end {
        End::Memory => NO_MEMORY,
        _ => PROTOCOL_FAULT,
    }
}

/// The status for the reason that a call has no answer.
fn call_status(end: CallEnd) -> u8
    ensures { result ≡ call_status end }
{
    match end {
        CallEnd::Ended(end) => link_status(end),
        CallEnd::LinkRead | CallEnd::LinkWrite | CallEnd::DialFault => LINK_FAULT,
        CallEnd::Closed | CallEnd::Tries { .. } => LINK_CLOSED,
        CallEnd::Spent { .. } | CallEnd::TooLarge { .. } | CallEnd::Budget { .. } => OVER_BUDGET,
        CallEnd::Memory => NO_MEMORY,
    }
}

/// The status for the reason that a command was not done.
fn status_of(end: ClientEnd) -> u8
    ensures { result ≡ status_of end }
{
    match end {
        ClientEnd::DialFault => LINK_FAULT,
        ClientEnd::Link(end) => call_status(end),
        ClientEnd::Rpc { .. } | ClientEnd::Mount { .. } => REFUSED,
        ClientEnd::Nfs { .. } => NFS_FAILED,
        ClientEnd::Chunk | ClientEnd::Version { .. } => TRANSPORT_ERROR,
        ClientEnd::BadReply { .. } => PROTOCOL_FAULT,
        ClientEnd::BadPath { .. } => BAD_INPUT,
        ClientEnd::InputFault | ClientEnd::OutputFault => FAULT,
        ClientEnd::Budget { .. } => OVER_BUDGET,
        ClientEnd::Memory => NO_MEMORY,
    }
}

/// Reports on `err` why a command was not done, and gives the status.
fn report_end<E: Sink>(alloc: Global, end: ClientEnd, err: &mut E) -> u8
    ensures { ReportsEnd end result (sink_at (E.taken err.old) (E.faults err.old)) (sink_at (E.taken err.new) (E.faults err.new)) }
{
    match end_text(alloc, end) {
        Ok(text) => write_error(err, text.as_bytes(), status_of(end)),
        Err(_) => write_error(err, b"memory\n", NO_MEMORY),
    }
}

/// Runs a command of a client, and gives the status: 0 if it was done. Else `err` takes the reason.
pub(crate) fn run_client<
    I: Source,
    P: LinkSource,
    Q: LinkSink,
    D: Dialer<Source = P, Sink = Q>,
    O: Sink,
    E: Sink,
>(alloc: Global, client: &Client<&str>, dial: &mut D, input: &mut I, out: &mut O, err: &mut E) -> u8
    ensures { ClientEnds (plain_client client.now) result
        (dialer_at (D.asked dial.old) (D.ended dial.old) (D.lost dial.old) (D.faults dial.old))
        (dialer_at (D.asked dial.new) (D.ended dial.new) (D.lost dial.new) (D.faults dial.new))
        (source_at (I.left input.old) (I.given input.old) (I.faults input.old)) (source_at (I.left input.new) (I.given input.new) (I.faults input.new))
        (sink_at (O.taken out.old) (O.faults out.old)) (sink_at (O.taken out.new) (O.faults out.new))
        (sink_at (E.taken err.old) (E.faults err.old)) (sink_at (E.taken err.new) (E.faults err.new)) }
{
    match run_command(alloc, client, dial, input, out) {
        Ok(()) => DONE,
        Err(end) => report_end(alloc, end, err),
    }
}

/// Runs a command of a client with a number, and gives the status: 0 if it was done. Else `err` takes the reason.
pub(crate) fn run_numbered_client<
    R: Wait,
    I: Source,
    P: LinkSource + Drop,
    Q: LinkSink + Drop,
    D: Dialer<Source = P, Sink = Q>,
    O: Sink,
    E: Sink,
>(
    rt: &R,
    alloc: Global,
    numbered: &NumberedClient<&str>,
    dial: &mut D,
    input: &mut I,
    out: &mut O,
    err: &mut E,
) -> u8
    requires { (0 < numbered.now.number) × (numbered.now.tries ≤ tries_max) }
    ensures { NumberedEnds (plain_numbered numbered.now) result
        (dialer_at (D.asked dial.old) (D.ended dial.old) (D.lost dial.old) (D.faults dial.old))
        (dialer_at (D.asked dial.new) (D.ended dial.new) (D.lost dial.new) (D.faults dial.new))
        (source_at (I.left input.old) (I.given input.old) (I.faults input.old)) (source_at (I.left input.new) (I.given input.new) (I.faults input.new))
        (sink_at (O.taken out.old) (O.faults out.old)) (sink_at (O.taken out.new) (O.faults out.new))
        (sink_at (E.taken err.old) (E.faults err.old)) (sink_at (E.taken err.new) (E.faults err.new)) }
{
    match run_numbered(rt, alloc, numbered, dial, input, out) {
        Ok(()) => DONE,
        Err(end) => report_end(alloc, end, err),
    }
}

/// Runs a `get` by several jobs, and gives the status: 0 if it was done. Else `err` takes the reason.
pub(crate) fn run_get<
    P: LinkSource,
    Q: LinkSink,
    D: Dialer<Source = P, Sink = Q>,
    R: Threads + Wait + Sync,
    O: Sink,
    E: Sink,
>(rt: &R, alloc: Global, get: &GetByJobs<&str>, dial: &mut D, out: &mut O, err: &mut E) -> u8
where
    P: Drop + Send,
    Q: Drop + Send,
    requires { (0 < get.now.jobs) × (get.now.jobs ≤ jobs_max) }
    ensures { GetEnds (plain_get get.now) result
        (dialer_at (D.asked dial.old) (D.ended dial.old) (D.lost dial.old) (D.faults dial.old))
        (dialer_at (D.asked dial.new) (D.ended dial.new) (D.lost dial.new) (D.faults dial.new))
        (sink_at (O.taken out.old) (O.faults out.old)) (sink_at (O.taken out.new) (O.faults out.new))
        (sink_at (E.taken err.old) (E.faults err.old)) (sink_at (E.taken err.new) (E.faults err.new)) }
{
    match get_by_jobs(rt, alloc, get, dial, out) {
        Ok(()) => DONE,
        Err(end) => report_end(alloc, end, err),
    }
}
