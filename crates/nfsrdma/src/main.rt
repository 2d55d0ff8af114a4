//! The program: it opens the streams of its process, a dialer and an acceptor over TCP, the system's clock and a spawner of threads,
//! and hands them to [`nr_top::run`], or to [`nr_top::refuse`] if it can't have its arguments. The input of the commands `serve` and
//! `gate` is the file of their configuration.
#![tactic(auto)]

use nr_jobs::ThreadSpawner;
use nr_links::{SystemClock, TcpAcceptor, TcpDialer};
use nr_outside::{StdSink, StdSource};
use nr_top::{refuse, run};
use nr_words::{Command, WordsFault, read_words};
use std::fs::File;
use std::io::{ErrorKind, Read};
use std::process::ExitCode;
use std::sync::Wait;
use std::thread::Threads;
use std::{env, io};

/// How many connections are served in threads at a time. Each takes two descriptors, and a process often may have 1024: at this
/// number there are enough for one more, for the listener and for the standard streams.
const THREADS: u64 = 500;

/// An input. The first read of a file that can't be opened fails.
#[derive(Drop)]
enum Input<S, F> {
    Stream(S),
    File(F),
    Missing,
}

impl<S: Read, F: Read> Read for Input<S, F> {
    fn read(&mut self, buf: &mut [u8]) -> io::Result<usize> {
        match self {
            Input::Stream(stream) => stream.read(buf),
            Input::File(file) => file.read(buf),
            Input::Missing => Err(io::Error::from(ErrorKind::NotFound)),
        }
    }
}

/// The input that is this file, if it was opened.
fn file_input<S, F>(opened: io::Result<F>) -> Input<S, F> {
    match opened {
        Ok(file) => Input::File(file),
        Err(_) => Input::Missing,
    }
}

/// The arguments that the program was started with, its name first.
fn arguments(rt: &HostRuntime) -> io::Result<Vec<String>> {
    let mut arguments = Vec::new(rt.alloc());
    for word in env::args(rt)? {
        arguments.push(word)?;
    }
    Ok(arguments)
}

/// Runs the program, with the leave to start threads and to wait, and gives the status.
fn run_with<R: Threads + Wait + Copy + Drop + Send + Sync + 'static>(
    rt: HostRuntime,
    threads: R,
    arguments: &[String],
) -> u8 {
    let input = match read_words(rt.alloc(), arguments) {
        Ok(Command::Serve { config }) => file_input(File::open(&rt, config)),
        Ok(Command::Gate { config }) => file_input(File::open(&rt, config)),
        // Out of memory: the command may be one that reads a file, so nothing is read.
        Err(WordsFault::Memory) => Input::Missing,
        _ => Input::Stream(rt.stdin()),
    };
    let mut input = StdSource::new(input);
    let mut out = StdSink::new(rt.stdout());
    let mut err = StdSink::new(rt.stderr());
    let mut dial = TcpDialer::new(rt);
    let mut accept = TcpAcceptor::new(rt);
    let mut clock = SystemClock::new(rt);
    let Ok(mut spawn) = ThreadSpawner::new(rt.alloc(), THREADS) else {
        return refuse(&mut err, true);
    };
    let Ok(mut gates) = ThreadSpawner::new(rt.alloc(), THREADS) else {
        return refuse(&mut err, true);
    };
    run(
        threads,
        rt.alloc(),
        arguments,
        &mut input,
        &mut out,
        &mut err,
        &mut dial,
        &mut accept,
        &mut clock,
        &mut spawn,
        &mut gates,
    )
}

fn main(rt: HostRuntime) -> ExitCode {
    // If a standard stream is closed, the next file or socket takes its number, and what is printed or read goes over a link.
    // These handles take the numbers that are free, and keep them to the end. Reading a folder fails, and so does writing it.
    let _first = File::open(&rt, "/");
    let _second = File::open(&rt, "/");
    let _third = File::open(&rt, "/");
    match arguments(&rt) {
        Ok(arguments) => ExitCode::from(run_with(rt, rt, arguments.as_slice())),
        Err(error) => {
            let mut err = StdSink::new(rt.stderr());
            ExitCode::from(refuse(&mut err, error.kind() == io::ErrorKind::OutOfMemory))
        }
    }
}
