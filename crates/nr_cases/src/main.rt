//! Cases as text: each is tried through the public calls of the program (nr_top) or of the plain server (nr_plain), and has a line in
//! what is printed, `ok TITLE`, or `no TITLE` and what was different.
//!
//! The words are names of files. A file has comments, which begin with `#`, and cases: `case TITLE`, then `run WORDS` (`runs.rt` has the
//! lines that can follow) or `server TREE CAPACITY` (`calls.rt`). A new case is text alone, and needs no proof. The expected bytes come
//! from the RFCs, or from an implementation that isn't this one, never from this program.
#![tactic(auto)]

mod calls;
mod cases;
mod fault;
mod runs;
mod words;

use crate::cases::{Stop, try_cases};
use nr_outside::{INPUT_MAX, StdSource, read_whole};
use std::env;
use std::fs::File;
use std::io::{self, BufWriter, Write};
use std::process::ExitCode;
use std::sync::Wait;
use std::thread::Threads;

/// The bytes of a file.
fn bytes_of(rt: &HostRuntime, name: &str) -> Option<Vec<u8>> {
    let file = File::open(rt, name).ok()?;
    let mut source = StdSource::new(file);
    read_whole(rt.alloc(), &mut source, INPUT_MAX).ok()
}

/// Tries the cases of a file; `host` is what a run needs of the process.
fn try_file<W: Write, R: Threads + Wait + Copy + Drop + Send + Sync + 'static>(
    rt: &HostRuntime,
    host: R,
    name: &str,
    out: &mut W,
) -> Result<(), Stop> {
    let Some(bytes) = bytes_of(rt, name) else {
        writeln!(out, "no file {name}")?;
        return Ok(());
    };
    match str::from_utf8(bytes.as_slice()) {
        Ok(text) => try_cases(host, rt.alloc(), text, out),
        Err(_) => {
            writeln!(out, "no text in {name}")?;
            Ok(())
        }
    }
}

/// Tries the cases of the files that the words name.
fn try_files<R: Threads + Wait + Copy + Drop + Send + Sync + 'static>(
    rt: &HostRuntime,
    host: R,
) -> Result<(), Stop> {
    let mut out = BufWriter::new(rt.alloc(), io::writer(rt))?;
    for name in env::args(rt)?.skip(1) {
        try_file(rt, host, name.as_str(), &mut out)?;
    }
    out.flush()?;
    Ok(())
}

fn main(rt: HostRuntime) -> ExitCode {
    match try_files(&rt, rt) {
        Ok(()) => ExitCode::SUCCESS,
        Err(Stop::Memory) => ExitCode::from(2),
        Err(Stop::Output) => ExitCode::from(9),
    }
}
