//! Drills: from where a script comes to what is printed, and the status.

ghost use Rattle.std.specs.Prelude.{◌≡◌, ◌<◌, ◌≤◌, IfOk, MatchResult};
ghost use Rattle.nr_outside.specs.Streams.{source_at, sink_at};
ghost use Rattle.nr_script.specs.Generator.{made_script};
ghost use Rattle.nr_texts.specs.Limits.{clients_max};
ghost use Rattle.nr_script.specs.Limits.{calls_max};
ghost use Rattle.nr_top.specs.declared.drill.ScriptSource.TheVariants as sources;
ghost use Rattle.nr_top.specs.Sources.{HasRanges};
ghost use Rattle.nr_top.specs.Causes.{cause_of};
ghost use Rattle.nr_top.specs.Ends.{Ends, Done, IsPrinted, ReadsScript, Stopped, StoppedBefore, StoppedReading, Shown, ReportsFailure};
ghost use Rattle.nr_top.specs.Ends.Cause.{BadScript};
ghost use Rattle.nr_top.specs.private.ReportTexts.{report_text};

use crate::report::write_error;
use crate::status::{BAD_INPUT, DONE, FAULT, NO_MEMORY, OVER_BUDGET};
use nr_capture::write_run;
use nr_drill::{Report, shown, summary};
use nr_outside::{INPUT_MAX, ReadEnd, Sink, Source, read_whole, write_whole};
use nr_script::{Script, ScriptFault, make_script, read_script};
use nr_texts::Opening;
use nr_world::run_world;
use nr_xdr::{Memory, Octets};
use std::alloc::Global;

/// The source of a drill's script.
#[derive(Clone, Copy)]
pub(crate) enum ScriptSource {
    /// It is read from the input.
    Input,
    /// It is made from a seed, for this many clients and calls.
    Seed { seed: u64, clients: u32, calls: u64 },
}

/// Why a drill wasn't done.
#[derive(Clone, Copy)]
enum Failure {
    Memory,
    Input,
    Output,
    Script { line: u64 },
    Budget,
}

impl From<ReadEnd> for Failure {
    ghost use Rattle.nr_top.specs.Causes.{failure_of_read};

    ghost from_gives = { λ end stop. stop ≡ failure_of_read end };

    fn from(end: ReadEnd) -> Failure {
        match end {
            ReadEnd::Failed => Failure::Input,
            ReadEnd::TooLong => Failure::Budget,
            ReadEnd::Memory => Failure::Memory,
        }
    }
}

impl From<ScriptFault> for Failure {
    ghost use Rattle.nr_top.specs.Causes.{stop_of_script};

    ghost from_gives = { λ fault stop. stop ≡ stop_of_script fault };

    fn from(fault: ScriptFault) -> Failure {
        match fault {
            ScriptFault::BadLine { line } => Failure::Script { line },
            ScriptFault::Memory => Failure::Memory,
        }
    }
}

impl From<Memory> for Failure {
    ghost use Rattle.nr_top.specs.declared.drill.Failure.TheVariants as stops;

    ghost from_gives = { λ _ stop. stop ≡ stops.Memory };

    fn from(_e: Memory) -> Failure {
        Failure::Memory
    }
}

/// Reads a script.
fn read_drill<I: Source>(alloc: Global, input: &mut I) -> Result<Script, Failure>
    ensures { MatchResult result
        (λ script. ReadsScript (source_at (I.left input.old) (I.given input.old) (I.faults input.old))
        (source_at (I.left input.new) (I.given input.new) (I.faults input.new)) script)
        (λ stop. StoppedReading (cause_of stop) (source_at (I.left input.old) (I.given input.old) (I.faults input.old))
        (source_at (I.left input.new) (I.given input.new) (I.faults input.new))) }
{
    let text = read_whole(alloc, input, INPUT_MAX)?;
    let script = read_script(alloc, text.as_slice())?;
    Ok(script)
}

/// The text that is printed of a report: with `log` the capture of its marks; without it what is shown of it, or the line of its
/// sums if the script was made from a seed. `opening` is the first line of the script.
fn text_of_report(
    alloc: Global,
    source: ScriptSource,
    log: bool,
    opening: Opening,
    report: &Report,
) -> Result<Octets, Memory>
    ensures { IfOk result (λ text. text ≡ report_text log source opening report.now) }
{
    if log {
        return write_run(alloc, opening, &report.marks);
    }
    match source {
        ScriptSource::Input => shown(alloc, report),
        ScriptSource::Seed { .. } => summary(alloc, report),
    }
}

/// Runs a script, and gives what is printed of that.
fn run_script(
    alloc: Global,
    source: ScriptSource,
    log: bool,
    script: &Script,
) -> Result<Octets, Memory>
    ensures { IfOk result (λ text. IsPrinted log source script.now text) }
{
    let report = run_world(alloc, script)?;
    text_of_report(alloc, source, log, script.opening(), &report)
}

/// Reads a script and runs it, and gives what is printed of that.
fn read_and_run<I: Source>(alloc: Global, log: bool, input: &mut I) -> Result<Octets, Failure>
    ensures { MatchResult result
        (λ text. Shown log sources.Input (source_at (I.left input.old) (I.given input.old) (I.faults input.old))
        (source_at (I.left input.new) (I.given input.new) (I.faults input.new)) text)
        (λ stop. StoppedReading (cause_of stop) (source_at (I.left input.old) (I.given input.old) (I.faults input.old))
        (source_at (I.left input.new) (I.given input.new) (I.faults input.new))) }
{
    let script = read_drill(alloc, input)?;
    let printed = run_script(alloc, ScriptSource::Input, log, &script)?;
    Ok(printed)
}

/// Makes a script from a seed and runs it, and gives what is printed of that.
fn make_and_run(
    alloc: Global,
    log: bool,
    seed: u64,
    clients: u32,
    calls: u64,
) -> Result<Octets, Memory>
    requires { (0 < clients) × (clients ≤ clients_max) × (calls ≤ calls_max) }
    ensures { IfOk result (λ text. IsPrinted log (sources.Seed seed clients calls) (made_script seed clients calls) text) }
{
    let script = make_script(alloc, seed, clients, calls)?;
    let source = ScriptSource::Seed {
        seed,
        clients,
        calls,
    };
    run_script(alloc, source, log, &script)
}

/// Has a script and runs it, and gives what is printed of that.
fn printed_drill<I: Source>(
    alloc: Global,
    source: ScriptSource,
    log: bool,
    input: &mut I,
) -> Result<Octets, Failure>
    requires { HasRanges source }
    ensures { MatchResult result
        (λ text. Shown log source (source_at (I.left input.old) (I.given input.old) (I.faults input.old))
        (source_at (I.left input.new) (I.given input.new) (I.faults input.new)) text)
        (λ stop. StoppedBefore source (cause_of stop) (source_at (I.left input.old) (I.given input.old) (I.faults input.old))
        (source_at (I.left input.new) (I.given input.new) (I.faults input.new))) }
{
    match source {
        ScriptSource::Input => read_and_run(alloc, log, input),
        ScriptSource::Seed {
            seed,
            clients,
            calls,
        } => match make_and_run(alloc, log, seed, clients, calls) {
            Ok(printed) => Ok(printed),
            Err(_) => Err(Failure::Memory),
        },
    }
}

/// Reads or makes a script, runs it, and prints what happened.
fn drill<I: Source, O: Sink>(
    alloc: Global,
    source: ScriptSource,
    log: bool,
    input: &mut I,
    out: &mut O,
) -> Result<(), Failure>
    requires { HasRanges source }
    ensures { MatchResult result
        (λ _. Done log source (source_at (I.left input.old) (I.given input.old) (I.faults input.old))
        (source_at (I.left input.new) (I.given input.new) (I.faults input.new))
        (sink_at (O.taken out.old) (O.faults out.old)) (sink_at (O.taken out.new) (O.faults out.new)))
        (λ stop. Stopped log (cause_of stop) source (source_at (I.left input.old) (I.given input.old) (I.faults input.old))
        (source_at (I.left input.new) (I.given input.new) (I.faults input.new))
        (sink_at (O.taken out.old) (O.faults out.old)) (sink_at (O.taken out.new) (O.faults out.new))) }
{
    let printed = printed_drill(alloc, source, log, input)?;
    match write_whole(out, printed.as_slice()) {
        Ok(()) => Ok(()),
        Err(_) => Err(Failure::Output),
    }
}

/// Reports the first bad line on `err`, and gives the status. If there is no memory for the text, that is reported.
#[tactic(auto, unfolding(crate::specs::Ends::bad_line_text))]
fn report_bad_line<E: Sink>(alloc: Global, line: u64, err: &mut E) -> u8
    ensures { ReportsFailure (BadScript line) result (sink_at (E.taken err.old) (E.faults err.old)) (sink_at (E.taken err.new) (E.faults err.new)) }
{
    match format!(in alloc; "bad line {line}\n") {
        Ok(text) => write_error(err, text.as_bytes(), BAD_INPUT),
        Err(_) => write_error(err, b"memory\n", NO_MEMORY),
    }
}

/// Reports on `err` why a drill wasn't done, and gives the status.
fn report_failure<E: Sink>(alloc: Global, stop: Failure, err: &mut E) -> u8
    ensures { ReportsFailure (cause_of stop) result (sink_at (E.taken err.old) (E.faults err.old)) (sink_at (E.taken err.new) (E.faults err.new)) }
{
    match stop {
        Failure::Memory => write_error(err, b"memory\n", NO_MEMORY),
        Failure::Input => write_error(err, b"input fault\n", FAULT),
        Failure::Output => write_error(err, b"output fault\n", FAULT),
        Failure::Budget => write_error(err, b"budget 16777216\n", OVER_BUDGET),
        Failure::Script { line } => report_bad_line(alloc, line, err),
    }
}

/// Runs a drill, and gives the status. A script that is read from `input` is run, and what happened is printed on `out`; of one that is made
/// from a seed one line of sums is printed. With `log` the capture of the run is printed in place of both. If the drill isn't done, `err`
/// takes the reason. The record `Ends` of the specs says what each status means.
pub(crate) fn run_drill<I: Source, O: Sink, E: Sink>(
    alloc: Global,
    source: ScriptSource,
    log: bool,
    input: &mut I,
    out: &mut O,
    err: &mut E,
) -> u8
    requires { HasRanges source }
    ensures { Ends log source result
        (source_at (I.left input.old) (I.given input.old) (I.faults input.old))
        (source_at (I.left input.new) (I.given input.new) (I.faults input.new))
        (sink_at (O.taken out.old) (O.faults out.old)) (sink_at (O.taken out.new) (O.faults out.new))
        (sink_at (E.taken err.old) (E.faults err.old)) (sink_at (E.taken err.new) (E.faults err.new)) }
{
    match drill(alloc, source, log, input, out) {
        Ok(()) => DONE,
        Err(stop) => report_failure(alloc, stop, err),
    }
}
