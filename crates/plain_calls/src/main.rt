//! A trial program of the plain server, over the drill's tree with the write verifier 1 and the export `/`.
//!
//! It takes no words. The first line of the input is `capacity B`. Each further one is `SECONDS HEX`, the seconds of the clock and the
//! payload of a call, `-` for no bytes. For each the output has `PLACE HEX`, the place and the payload of the reply, or `notcall AT`, and
//! at the end `journal N cost C`. Numbers are decimal, without a sign or leading zeros. Each line ends with a newline, the last one too.
//!
//! The input is read to its end first, and has at most 16,777,216 bytes. At the first line that is none of these the program says
//! `bad line N` on the error stream, counted from 1, after the replies to the calls before it. Statuses and texts are those of `nfsrdma`.
#![tactic(auto)]

ghost use Rattle.std.specs.Prelude.{◌<◌, ◌^◌, IfOk};

use hex::FromHexError;
use nr_nfs_base::Verifier;
use nr_outside::{INPUT_MAX, Moment, ReadEnd, StdSource, read_whole};
use nr_plain::{Fault, Reply, Server};
use nr_tree::Tree;
use nr_xdr::{Memory, Octets};
use std::alloc::{AllocError, Global};
use std::env;
use std::io::{self, BufWriter, Write};
use std::process::ExitCode;

/// The status after a word.
const BAD_WORDS: u8 = 1;

/// The status after running out of memory.
const NO_MEMORY: u8 = 2;

/// The status after a fault of the input, of the output or of the error stream.
const FAULT: u8 = 9;

/// The status after a line that can't be read.
const BAD_LINE: u8 = 10;

/// The status after an input of more than `INPUT_MAX` bytes.
const OVER_BUDGET: u8 = 11;

/// The capacities are below this one, so that no number of the server passes 64 bits.
const CAPACITY_END: u64 = 1 << 63;

/// Why the program stops before the end of its input.
#[derive(Clone, Copy)]
enum Stop {
    /// There are words, or one that is not UTF-8.
    Words,
    /// The line that is being read has another format.
    BadLine,
    /// Memory ran out.
    Memory,
    /// The input failed.
    Input,
    /// The output failed.
    Output,
    /// The input is too long.
    Budget,
}

impl From<io::Error> for Stop {
    fn from(error: io::Error) -> Stop {
        match error.kind() {
            io::ErrorKind::OutOfMemory => Stop::Memory,
            _ => Stop::Output,
        }
    }
}

impl From<ReadEnd> for Stop {
    fn from(end: ReadEnd) -> Stop {
        match end {
            ReadEnd::Failed => Stop::Input,
            ReadEnd::TooLong => Stop::Budget,
            ReadEnd::Memory => Stop::Memory,
        }
    }
}

impl From<AllocError> for Stop {
    fn from(_e: AllocError) -> Stop {
        Stop::Memory
    }
}

impl From<Memory> for Stop {
    fn from(_e: Memory) -> Stop {
        Stop::Memory
    }
}

/// A decimal number without a sign or leading zeros.
fn decimal(text: &str) -> Result<u64, Stop> {
    if text.starts_with('+') || (text.len() > 1 && text.starts_with('0')) {
        return Err(Stop::BadLine);
    }
    text.parse::<u64>().map_err(|_| Stop::BadLine)
}

/// The bytes of a call, written in hexadecimal.
fn payload(alloc: Global, text: &str) -> Result<Vec<u8>, Stop> {
    match text {
        "-" => Ok(Vec::new(alloc)),
        "" => Err(Stop::BadLine),
        _ => match hex::decode(alloc, text) {
            Ok(bytes) => Ok(bytes),
            Err(FromHexError::OutOfMemory) => Err(Stop::Memory),
            Err(_) => Err(Stop::BadLine),
        },
    }
}

/// The capacity that the first line gives.
fn capacity(line: &str) -> Result<u64, Stop>
    ensures { IfOk result (λ capacity. capacity < 2 ^ 63) }
{
    let Some(number) = line.strip_prefix("capacity ") else {
        return Err(Stop::BadLine);
    };
    let capacity = decimal(number)?;
    if capacity < CAPACITY_END {
        Ok(capacity)
    } else {
        Err(Stop::BadLine)
    }
}

/// A server of the drill's tree.
fn opened(alloc: Global, capacity: u64) -> Result<Server, Stop>
    requires { capacity < 2 ^ 63 }
{
    let tree = Tree::drill(alloc)?;
    let export = Octets::from_slice(alloc, b"/")?;
    Ok(Server::open(tree, capacity, Verifier { number: 1 }, export))
}

/// The first line of a text, without its newline, and the text after it.
fn next_line(text: &[u8]) -> Option<(&[u8], &[u8])> {
    let at = text.iter().position(|b| *b == b'\n')?;
    let (line, rest) = text.split_at(at);
    let (_, after) = rest.split_at(1);
    Some((line, after))
}

/// The lines of the input, one after the other.
#[derive(Drop)]
struct Lines<'a> {
    /// The text after the line that was read last.
    rest: &'a [u8],
    /// The number of that line, from 1.
    number: u64,
}

impl<'a> Lines<'a> {
    /// The next line without its newline, or `None` at the end of the text.
    fn advance(&mut self) -> Result<Option<&'a str>, Stop> {
        self.number = self.number.saturating_add(1);
        if self.rest.is_empty() {
            return Ok(None);
        }
        let Some((line, after)) = next_line(self.rest) else {
            return Err(Stop::BadLine);
        };
        self.rest = after;
        match str::from_utf8(line) {
            Ok(line) => Ok(Some(line)),
            Err(_) => Err(Stop::BadLine),
        }
    }
}

/// Writes the place and the payload of a reply.
fn write_reply<W: Write>(alloc: Global, reply: &Reply, out: &mut W) -> Result<(), Stop> {
    let digits = hex::encode(alloc, reply.payload.as_slice())?;
    writeln!(out, "{} {}", reply.place, digits.as_str())?;
    Ok(())
}

/// Writes the offset at which a payload is no call.
fn write_fault<W: Write>(fault: Fault, out: &mut W) -> Result<(), Stop> {
    match fault {
        Fault::NotCall { at } => {
            writeln!(out, "notcall {at}")?;
            Ok(())
        }
        Fault::Memory => Err(Stop::Memory),
        // no call is old: none is of a client with a number
        Fault::Old { .. } => Err(Stop::Memory),
    }
}

/// Executes a call, and writes the place and the reply, or the offset at which the payload is no call.
fn execute<W: Write>(
    alloc: Global,
    server: &mut Server,
    now: Moment,
    payload: &[u8],
    out: &mut W,
) -> Result<(), Stop> {
    match server.execute(alloc, now, payload) {
        Ok(reply) => {
            let written = write_reply(alloc, &reply, out);
            drop(reply);
            written
        }
        Err(fault) => write_fault(fault, out),
    }
}

/// The clock and the payload's digits of a line.
fn parts(line: &str) -> Result<(Moment, &str), Stop> {
    let Some((seconds, digits)) = line.split_once(' ') else {
        return Err(Stop::BadLine);
    };
    let Ok(seconds) = u32::try_from(decimal(seconds)?) else {
        return Err(Stop::BadLine);
    };
    Ok((Moment { seconds, nanos: 0 }, digits))
}

/// Executes the call of a line.
fn answer<W: Write>(
    alloc: Global,
    server: &mut Server,
    line: &str,
    out: &mut W,
) -> Result<(), Stop> {
    let (now, digits) = parts(line)?;
    let payload = payload(alloc, digits)?;
    execute(alloc, server, now, payload.as_slice(), out)
}

/// The server that the first line asks for.
fn begun(alloc: Global, lines: &mut Lines<'_>) -> Result<Server, Stop> {
    let Some(line) = lines.advance()? else {
        return Err(Stop::BadLine);
    };
    opened(alloc, capacity(line)?)
}

/// Executes the call of the next line, and gives whether there was one.
fn answer_next<W: Write>(
    alloc: Global,
    server: &mut Server,
    lines: &mut Lines<'_>,
    out: &mut W,
) -> Result<bool, Stop> {
    let Some(line) = lines.advance()? else {
        return Ok(false);
    };
    answer(alloc, server, line, out)?;
    Ok(true)
}

/// Executes the calls of the further lines.
fn answer_all<W: Write>(
    alloc: Global,
    server: &mut Server,
    lines: &mut Lines<'_>,
    out: &mut W,
) -> Result<(), Stop> {
    for _ in 0..u64::MAX {
        if !answer_next(alloc, server, lines, out)? {
            break;
        }
    }
    Ok(())
}

/// Writes what the journal is at the end.
fn write_journal<W: Write>(server: &Server, out: &mut W) -> Result<(), Stop> {
    let (count, cost) = (server.journal_len(), server.journal_cost());
    writeln!(out, "journal {count} cost {cost}")?;
    Ok(())
}

/// Serves the lines after the first.
fn serve_rest<W: Write>(
    alloc: Global,
    server: &mut Server,
    lines: &mut Lines<'_>,
    out: &mut W,
) -> Result<(), Stop> {
    answer_all(alloc, server, lines, out)?;
    write_journal(server, out)
}

/// Serves all lines.
fn serve<W: Write>(alloc: Global, lines: &mut Lines<'_>, out: &mut W) -> Result<(), Stop> {
    let mut server = begun(alloc, lines)?;
    let served = serve_rest(alloc, &mut server, lines, out);
    drop(server);
    served
}

/// How many words the program was started with, its name too.
fn words(rt: &HostRuntime) -> Result<u64, Stop> {
    let mut count: u64 = 0;
    match env::args(rt) {
        Ok(words) => {
            for _ in words {
                count = count.saturating_add(1);
            }
            Ok(count)
        }
        Err(error) if error.kind() == io::ErrorKind::OutOfMemory => Err(Stop::Memory),
        Err(_) => Err(Stop::Words),
    }
}

/// The complete input. The program may be started with its name alone.
fn input(rt: &HostRuntime) -> Result<Vec<u8>, Stop> {
    if words(rt)? != 1 {
        return Err(Stop::Words);
    }
    let mut source = StdSource::new(rt.stdin());
    let text = read_whole(rt.alloc(), &mut source, INPUT_MAX)?;
    Ok(text)
}

/// Serves a text, and writes what was answered before a stop too. `line` becomes the number of the line that was read last.
fn serve_text(rt: &HostRuntime, text: &[u8], line: &mut u64) -> Result<(), Stop> {
    let mut lines = Lines {
        rest: text,
        number: 0,
    };
    let mut out = BufWriter::new(rt.alloc(), io::writer(rt))?;
    let served = serve(rt.alloc(), &mut lines, &mut out);
    *line = lines.number;
    out.flush()?;
    served
}

/// Serves the input. `line` becomes the number of the line that was read last.
fn run(rt: &HostRuntime, line: &mut u64) -> Result<(), Stop> {
    let text = input(rt)?;
    serve_text(rt, text.as_slice(), line)
}

/// Says why the program stopped, and gives the status.
fn say(rt: &HostRuntime, stop: Stop, line: u64) -> u8 {
    let (said, status) = match stop {
        Stop::Words => (eprintln!(rt; "bad words"), BAD_WORDS),
        Stop::BadLine => (eprintln!(rt; "bad line {line}"), BAD_LINE),
        Stop::Memory => (eprintln!(rt; "memory"), NO_MEMORY),
        Stop::Input => (eprintln!(rt; "input fault"), FAULT),
        Stop::Output => (eprintln!(rt; "output fault"), FAULT),
        Stop::Budget => (eprintln!(rt; "budget {INPUT_MAX}"), OVER_BUDGET),
    };
    match said {
        Ok(()) => status,
        Err(_) => FAULT,
    }
}

fn main(rt: HostRuntime) -> ExitCode {
    let mut line = 0;
    match run(&rt, &mut line) {
        Ok(()) => ExitCode::SUCCESS,
        Err(stop) => ExitCode::from(say(&rt, stop, line)),
    }
}
