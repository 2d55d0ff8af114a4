//! Cases of a run of the program: its words, its input, what it prints and reports, and its status.
//!
//! `run WORDS` gives the words after the program's name. Then `< TEXT` is a line of the input, `> TEXT` one of the output, `! TEXT` one
//! of the error stream, each with a newline; `<| TEXT`, `>| TEXT` and `!| TEXT` have none. `byte N` is a byte of the input,
//! `fill COUNT N` that byte COUNT times, and `times COUNT TEXT` a line of it COUNT times. `status N` is the status, else 0.
//! `more STREAM` says that only the beginning is written here, of the `output` or of the `report`, which is the error stream.
//! `fails STREAM N` says that the call N of a stream fails, from 0, of the `input` too. A run has no network.

use crate::fault::CaseFault;
use crate::words::{number, parted};
use nr_jobs::HandBack;
use nr_links::{MemAcceptor, MemClock, MemDialer};
use nr_outside::{MemSink, MemSource, Moment};
use nr_top::run;
use std::alloc::Global;
use std::sync::Wait;
use std::thread::Threads;

/// The moments of the clock.
static MOMENTS: [Moment; 1] = [Moment {
    seconds: 0,
    nanos: 0,
}];

/// Text that is expected.
#[derive(Drop)]
struct Expected {
    text: Vec<u8>,
    /// Whether more may come after it.
    is_begin: bool,
}

impl Expected {
    fn new(alloc: Global) -> Expected {
        Expected {
            text: Vec::new(alloc),
            is_begin: false,
        }
    }

    /// Whether this is what was written.
    fn is_met(&self, bytes: &[u8]) -> bool {
        if self.is_begin {
            bytes.starts_with(self.text.as_slice())
        } else {
            bytes == self.text.as_slice()
        }
    }
}

/// A run, before it is made.
#[derive(Drop)]
pub struct Run {
    words: Vec<String>,
    input: Vec<u8>,
    output: Expected,
    report: Expected,
    status: u8,
    failing_input: Vec<usize>,
    failing_output: Vec<usize>,
    failing_report: Vec<usize>,
}

/// What a run did.
#[derive(Drop)]
pub struct Done {
    pub status: u8,
    pub output: MemSink,
    pub report: MemSink,
}

/// A text with a newline after it.
fn put_line(bytes: &mut Vec<u8>, text: &str) -> Result<(), CaseFault> {
    bytes.extend_from_slice(text.as_bytes())?;
    bytes.push(b'\n')?;
    Ok(())
}

/// The words of a run, the program's name first.
fn words_of(alloc: Global, text: &str) -> Result<Vec<String>, CaseFault> {
    let mut words = Vec::new(alloc);
    words.push(String::from_str(alloc, "nfsrdma")?)?;
    for word in text.split_whitespace() {
        words.push(String::from_str(alloc, word)?)?;
    }
    Ok(words)
}

impl Run {
    /// A run of these words, which is expected to print nothing.
    pub fn new(alloc: Global, text: &str) -> Result<Run, CaseFault> {
        Ok(Run {
            words: words_of(alloc, text)?,
            input: Vec::new(alloc),
            output: Expected::new(alloc),
            report: Expected::new(alloc),
            status: 0,
            failing_input: Vec::new(alloc),
            failing_output: Vec::new(alloc),
            failing_report: Vec::new(alloc),
        })
    }

    /// A call of a stream that fails.
    fn fails(&mut self, text: &str) -> Result<(), CaseFault> {
        let (stream, call) = parted(text);
        let call = usize::try_from(number(call)?).map_err(|_| CaseFault::Format)?;
        match stream {
            "input" => self.failing_input.push(call)?,
            "output" => self.failing_output.push(call)?,
            "report" => self.failing_report.push(call)?,
            _ => return Err(CaseFault::Format),
        }
        Ok(())
    }

    /// A stream whose text goes on.
    fn more(&mut self, stream: &str) -> Result<(), CaseFault> {
        match stream {
            "output" => self.output.is_begin = true,
            "report" => self.report.is_begin = true,
            _ => return Err(CaseFault::Format),
        }
        Ok(())
    }

    /// Bytes of the input that are all the same.
    fn fill(&mut self, count: &str, byte: &str) -> Result<(), CaseFault> {
        let byte = u8::try_from(number(byte)?).map_err(|_| CaseFault::Format)?;
        for _ in 0..number(count)? {
            self.input.push(byte)?;
        }
        Ok(())
    }

    /// A line of the input that stands there several times.
    fn times(&mut self, count: &str, text: &str) -> Result<(), CaseFault> {
        for _ in 0..number(count)? {
            put_line(&mut self.input, text)?;
        }
        Ok(())
    }

    /// Takes a line of the case.
    pub fn line(&mut self, key: &str, text: &str) -> Result<(), CaseFault> {
        match key {
            "<" => put_line(&mut self.input, text),
            "<|" => Ok(self.input.extend_from_slice(text.as_bytes())?),
            ">" => put_line(&mut self.output.text, text),
            "!" => put_line(&mut self.report.text, text),
            ">|" => Ok(self.output.text.extend_from_slice(text.as_bytes())?),
            "!|" => Ok(self.report.text.extend_from_slice(text.as_bytes())?),
            "byte" => self.fill("1", text),
            "fill" => {
                let (count, byte) = parted(text);
                self.fill(count, byte)
            }
            "times" => {
                let (count, line) = parted(text);
                self.times(count, line)
            }
            "more" => self.more(text),
            "status" => {
                self.status = u8::try_from(number(text)?).map_err(|_| CaseFault::Format)?;
                Ok(())
            }
            "fails" => self.fails(text),
            _ => Err(CaseFault::Format),
        }
    }
}

/// Runs the program without a network.
fn run_over<R: Threads + Wait + Copy + Drop + Send + Sync + 'static>(
    rt: R,
    alloc: Global,
    words: &[String],
    input: &mut MemSource,
    output: &mut MemSink,
    report: &mut MemSink,
) -> u8 {
    let mut dial = MemDialer::new(alloc, Vec::new(alloc), Vec::new(alloc));
    let mut accept = MemAcceptor::new(alloc, Vec::new(alloc), Vec::new(alloc));
    let mut clock = MemClock::new(&MOMENTS);
    let mut spawn = HandBack::new();
    let mut gates = HandBack::new();
    run(
        rt,
        alloc,
        words,
        input,
        output,
        report,
        &mut dial,
        &mut accept,
        &mut clock,
        &mut spawn,
        &mut gates,
    )
}

/// What a run is expected to do.
#[derive(Drop)]
pub struct Wanted {
    status: u8,
    output: Expected,
    report: Expected,
}

impl Wanted {
    /// Whether a run did so.
    pub fn is_met(&self, done: &Done) -> bool {
        self.status == done.status
            && self.output.is_met(done.output.bytes())
            && self.report.is_met(done.report.bytes())
    }
}

impl Run {
    /// Makes the run.
    pub fn make<R: Threads + Wait + Copy + Drop + Send + Sync + 'static>(
        self,
        rt: R,
        alloc: Global,
    ) -> (Done, Wanted) {
        let Run {
            words,
            input,
            output,
            report,
            status,
            failing_input,
            failing_output,
            failing_report,
        } = self;
        let wanted = Wanted {
            status,
            output,
            report,
        };
        let mut input = MemSource::new(input, Vec::new(alloc), failing_input);
        let mut output = MemSink::new(alloc, failing_output);
        let mut report = MemSink::new(alloc, failing_report);
        let status = run_over(
            rt,
            alloc,
            words.as_slice(),
            &mut input,
            &mut output,
            &mut report,
        );
        (
            Done {
                status,
                output,
                report,
            },
            wanted,
        )
    }
}
