//! A file of cases, tried one after the other.

use crate::calls::Calls;
use crate::fault::CaseFault;
use crate::runs::{Done, Run};
use crate::words::parted;
use std::alloc::Global;
use std::io::{self, Write};
use std::sync::Wait;
use std::thread::Threads;

/// Why a file's cases can't all be tried.
#[derive(Clone, Copy, Debug)]
pub enum Stop {
    /// Memory ran out.
    Memory,
    /// The output failed.
    Output,
}

impl From<io::Error> for Stop {
    fn from(error: io::Error) -> Stop {
        match error.kind() {
            io::ErrorKind::OutOfMemory => Stop::Memory,
            _ => Stop::Output,
        }
    }
}

/// Whether a line of a case says nothing: it is empty, or a comment.
fn is_comment(line: &str) -> bool {
    line.is_empty() || line.starts_with('#')
}

/// The first line that says something, and the lines after it.
fn first_line(body: &str) -> (&str, &str) {
    let mut rest = body;
    for _ in 0..body.len() {
        let (line, after) = match rest.split_once('\n') {
            Some(parts) => parts,
            None => (rest, ""),
        };
        if !is_comment(line) {
            return (line, after);
        }
        rest = after;
    }
    ("", "")
}

/// Writes what a run did, for a case that it doesn't meet.
fn write_done<W: Write>(done: &Done, out: &mut W) -> Result<(), Stop> {
    writeln!(out, "status {}", done.status)?;
    out.write_all(done.output.bytes())?;
    out.write_all(done.report.bytes())?;
    Ok(())
}

/// The run of a case, with what is expected of it.
fn run_of(alloc: Global, words: &str, lines: &str) -> Result<Run, CaseFault> {
    let mut run = Run::new(alloc, words)?;
    for line in lines.lines() {
        if !is_comment(line) {
            let (key, text) = parted(line);
            run.line(key, text)?;
        }
    }
    Ok(run)
}

/// Tries a case of a run, and writes its line.
fn try_run<W: Write, R: Threads + Wait + Copy + Drop + Send + Sync + 'static>(
    rt: R,
    alloc: Global,
    title: &str,
    words: &str,
    lines: &str,
    out: &mut W,
) -> Result<(), Stop> {
    let run = match run_of(alloc, words, lines) {
        Ok(run) => run,
        Err(fault) => return write_fault(fault, title, "a line", out),
    };
    let (done, wanted) = run.make(rt, alloc);
    if wanted.is_met(&done) {
        writeln!(out, "ok {title}")?;
        return Ok(());
    }
    writeln!(out, "no {title}")?;
    write_done(&done, out)
}

/// Writes why a case can't be tried.
fn write_fault<W: Write>(
    fault: CaseFault,
    title: &str,
    line: &str,
    out: &mut W,
) -> Result<(), Stop> {
    match fault {
        CaseFault::Memory => Err(Stop::Memory),
        CaseFault::Format => {
            writeln!(out, "no {title}: not a line of a case: {line}")?;
            Ok(())
        }
    }
}

/// Writes a line that isn't so, and the reply in words.
fn write_wrong<W: Write>(calls: &Calls, title: &str, line: &str, out: &mut W) -> Result<(), Stop> {
    writeln!(out, "no {title}: {line}")?;
    for word in calls.reply().chunks(4) {
        for byte in word {
            write!(out, "{byte:02x}")?;
        }
        writeln!(out)?;
    }
    Ok(())
}

/// Makes the calls of a case, and writes the lines that are not so.
fn try_lines<W: Write>(
    alloc: Global,
    title: &str,
    calls: &mut Calls,
    lines: &str,
    out: &mut W,
) -> Result<bool, Stop> {
    for line in lines.lines() {
        if is_comment(line) {
            continue;
        }
        let (key, text) = parted(line);
        match calls.line(alloc, key, text) {
            Ok(true) => {}
            Ok(false) => {
                write_wrong(calls, title, line, out)?;
                return Ok(false);
            }
            Err(fault) => {
                write_fault(fault, title, line, out)?;
                return Ok(false);
            }
        }
    }
    Ok(true)
}

/// Tries a case of calls, and writes its line.
fn try_calls<W: Write>(
    alloc: Global,
    title: &str,
    server: &str,
    lines: &str,
    out: &mut W,
) -> Result<(), Stop> {
    let mut calls = match Calls::open(alloc, server) {
        Ok(calls) => calls,
        Err(fault) => return write_fault(fault, title, server, out),
    };
    if try_lines(alloc, title, &mut calls, lines, out)? {
        let compared = calls.compared();
        writeln!(out, "ok {title}: {compared}")?;
    }
    drop(calls);
    Ok(())
}

/// Tries a case, and writes its line.
fn try_case<W: Write, R: Threads + Wait + Copy + Drop + Send + Sync + 'static>(
    rt: R,
    alloc: Global,
    case: &str,
    out: &mut W,
) -> Result<(), Stop> {
    let (title, body) = match case.split_once('\n') {
        Some(parts) => parts,
        None => (case, ""),
    };
    let (first, lines) = first_line(body);
    let (key, text) = parted(first);
    match key {
        "run" => try_run(rt, alloc, title, text, lines, out),
        "server" => try_calls(alloc, title, text, lines, out),
        _ => write_fault(CaseFault::Format, title, first, out),
    }
}

/// Tries the cases of a file.
pub fn try_cases<W: Write, R: Threads + Wait + Copy + Drop + Send + Sync + 'static>(
    rt: R,
    alloc: Global,
    file: &str,
    out: &mut W,
) -> Result<(), Stop> {
    for case in file.split("\ncase ").skip(1) {
        try_case(rt, alloc, case, out)?;
    }
    Ok(())
}
