//! Tests of nr_outside.

use crate::compare::same;
use nr_outside::*;
use std::alloc::Global;
use std::io;
use std::io::{ErrorKind, Read, Write};
use std::process::Abort;

/// A reader and a writer whose first call is interrupted. Each later read gives "ok", and each later write takes one byte.
#[derive(Drop)]
struct FailsOnce {
    failed: bool,
    kind: ErrorKind,
}

impl FailsOnce {
    fn call(&mut self) -> io::Result<()> {
        if self.failed {
            return Ok(());
        }
        self.failed = true;
        Err(io::Error::new(self.kind, "fails once"))
    }
}

impl Read for FailsOnce {
    fn read(&mut self, buf: &mut [u8]) -> io::Result<usize> {
        self.call()?;
        let n = buf.len().min(2);
        buf[..n].copy_from_slice(&b"ok"[..n]);
        Ok(n)
    }
}

impl Write for FailsOnce {
    fn write(&mut self, buf: &[u8]) -> io::Result<usize> {
        self.call()?;
        Ok(buf.len().min(1))
    }

    fn flush(&mut self) -> io::Result<()> {
        Ok(())
    }
}

/// A writer that takes at most two bytes at a time, and five in all.
#[derive(Drop)]
struct Narrow {
    room: usize,
}

impl Write for Narrow {
    fn write(&mut self, buf: &[u8]) -> io::Result<usize> {
        let n = buf.len().min(self.room).min(2);
        self.room -= n;
        Ok(n)
    }

    fn flush(&mut self) -> io::Result<()> {
        Ok(())
    }
}

/// Reads into four bytes as often as there are answers: what each read answers, and what stands in the bytes then.
fn reads<S: Source>(
    rt: &impl Abort,
    row: usize,
    source: &mut S,
    wants: &[(Result<usize, Failed>, [u8; 4])],
) {
    for want in wants {
        let mut buf = *b"----";
        let got = source.read(&mut buf);
        same(rt, row, (got, buf), *want);
    }
}

/// Writes each piece: what the write answers.
fn writes<K: Sink>(
    rt: &impl Abort,
    row: usize,
    sink: &mut K,
    wants: &[(&[u8], Result<usize, Failed>)],
) {
    for (piece, want) in wants {
        same(rt, row, sink.write(piece), *want);
    }
}

/// A source of these bytes. The sizes are those of calls 0, 1 and so on, and a size of 0 means 1.
fn mem_source(
    rt: &impl Abort,
    alloc: Global,
    bytes: &[u8],
    sizes: &[usize],
    failing: &[usize],
) -> MemSource {
    let bytes = bytes.to_vec(alloc).expect(rt, "memory");
    let sizes = sizes.to_vec(alloc).expect(rt, "memory");
    MemSource::new(bytes, sizes, failing.to_vec(alloc).expect(rt, "memory"))
}

#[test]
fn readers_are_sources(rt: HostRuntime) {
    let slice = [(Ok(4), *b"abcd"), (Ok(1), *b"e---"), (Ok(0), *b"----")];
    reads(&rt, 1, &mut StdSource::new(b"abcde".as_slice()), &slice);
}

/// The adapter answers the first error of any kind, and doesn't read or write again by itself.
#[test]
fn first_errors_are_answered(rt: HostRuntime) {
    let read = [(Err(Failed), *b"----"), (Ok(2), *b"ok--")];
    let written: [(&[u8], Result<usize, Failed>); 2] = [(b"abc", Err(Failed)), (b"abc", Ok(1))];
    for kind in [ErrorKind::Interrupted, ErrorKind::Other] {
        let failed = false;
        reads(
            &rt,
            3,
            &mut StdSource::new(FailsOnce { failed, kind }),
            &read,
        );
        writes(
            &rt,
            4,
            &mut StdSink::new(FailsOnce { failed, kind }),
            &written,
        );
    }
}

/// A sink in memory whose call number 1 is to fail.
fn mem_sink(rt: &impl Abort, alloc: Global) -> MemSink {
    MemSink::new(alloc, vec![in alloc; 1].expect(rt, "memory"))
}

#[test]
fn writers_are_sinks(rt: HostRuntime) {
    // To take nothing of a piece is a fault.
    let narrow: [(&[u8], Result<usize, Failed>); 5] = [
        (b"abc", Ok(2)),
        (b"", Ok(0)),
        (b"defg", Ok(2)),
        (b"h", Ok(1)),
        (b"i", Err(Failed)),
    ];
    writes(&rt, 3, &mut StdSink::new(Narrow { room: 5 }), &narrow);
}

#[test]
fn a_pipe_hands_out_each_byte_once_and_keeps_all(rt: HostRuntime) {
    let mut pipe = Pipe::new(rt.alloc());
    same(&rt, 0, pipe.write(b"abcdefg"), Ok(7));
    reads(&rt, 1, &mut pipe, &[(Ok(4), *b"abcd")]);
    pipe.skip(1);
    same(&rt, 2, pipe.peek(1), b"f".as_slice());
    same(&rt, 3, (pipe.waiting(), pipe.log().len()), (2, 7));
}

/// What is read of "abcde", if the call of a number fails: how many bytes, or why none.
fn read_five(
    rt: &impl Abort,
    alloc: Global,
    limit: usize,
    failing: usize,
) -> Result<usize, ReadEnd> {
    let mut source = mem_source(rt, alloc, b"abcde", &[2, 1], &[failing]);
    read_whole(alloc, &mut source, limit).map(|bytes| bytes.len())
}

// The limit, the number of the call that fails, and the answer.
static WHOLE: [(usize, usize, Result<usize, ReadEnd>); 6] = [
    (9, 9, Ok(5)),
    (5, 9, Ok(5)),
    (4, 9, Err(ReadEnd::TooLong)),
    (0, 9, Err(ReadEnd::TooLong)),
    (9, 0, Err(ReadEnd::Failed)),
    (9, 2, Err(ReadEnd::Failed)),
];

#[test]
fn whole_inputs(rt: HostRuntime) {
    for (row, (limit, failing, want)) in WHOLE.iter().enumerate() {
        same(
            &rt,
            row,
            read_five(&rt, rt.alloc(), *limit, *failing),
            *want,
        );
    }
}

#[test]
fn whole_outputs_in_parts(rt: HostRuntime) {
    let mut narrow = StdSink::new(Narrow { room: 5 });
    same(&rt, 15, write_whole(&mut narrow, b"abc"), Ok(()));
    same(&rt, 16, write_whole(&mut narrow, b"defg"), Err(Failed));
    same(&rt, 17, narrow.into_inner().room, 0);
}

#[test]
fn whole_outputs_of_two_pieces(rt: HostRuntime) {
    // The body of the first pair is to fail.
    let mut memory = mem_sink(&rt, rt.alloc());
    let first = write_whole_vectored(&mut memory, b"ab", b"cd");
    let second = write_whole_vectored(&mut memory, b"ef", b"ghi");
    same(&rt, 18, (first, second), (Err(Failed), Ok(())));
    same(&rt, 19, memory.bytes(), b"abefghi".as_slice());
}
