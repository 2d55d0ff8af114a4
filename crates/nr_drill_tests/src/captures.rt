//! Captures that are read and written again, that of a run, and texts that are none.

use crate::compare::same;
use nr_capture::{CaptureFault, read_capture, write_capture, write_run};
use nr_marks::MarkLog;
use nr_outside::INPUT_MAX;
use nr_reduce::Mark;
use nr_texts::Opening;
use nr_wire::Side;
use nr_xdr::Octets;
use std::alloc::Global;
use std::process::Abort;

/// A text that is read and written again, and how many marks it has.
static TEXTS: [(&[u8], usize); 4] = [
    (b"clients 1 credits 64 numbered invalidate\n", 0),
    (
        b"clients 2 credits 4\nsubmit 1 1 auto 100003.3 0 none -\nout 1 client 4d5041\nin 2 server 00ff\n",
        3,
    ),
    (
        b"clients 1 credits 1 capacity 0 sizes 1 16 invalidate\nsubmit 1 1 given:read@4=5,6;write=;reply=7 100003.3 6 1000.100 00\n",
        1,
    ),
    (
        b"clients 1 credits 1 sizes 2 1\nexec 1 1 4294967295\ndone 1 1 reply 0a\ndone 1 2 chunk\ndone 1 3 version 1 1\nforget 1 4\nrevoke 1 5\ndrop 1\ngrant 1 0\ngrant 1 4294967295\n",
        9,
    ),
];

/// How many marks a text has, and whether it is written as it was read.
fn read_and_written(rt: &impl Abort, alloc: Global, text: &[u8]) -> (usize, bool) {
    if text.len() > INPUT_MAX {
        return (0, false);
    }
    let Ok(capture) = read_capture(alloc, text) else {
        return (0, false);
    };
    let written = write_capture(alloc, &capture).expect(rt, "memory");
    (
        capture.marks().len(),
        written.as_slice() == text && capture.opening().clients > 0,
    )
}

#[test]
fn captures_are_written_as_they_were_read(rt: HostRuntime) {
    for (row, want) in TEXTS.iter().enumerate() {
        let (text, marks) = *want;
        same(
            &rt,
            row,
            read_and_written(&rt, rt.alloc(), text),
            (marks, true),
        );
    }
}

/// A text, and the number of its first invalid line.
static INVALID: [(&[u8], u64); 10] = [
    (b"", 1),
    (b"clients 1 credits 1", 1),
    (b"clients 17 credits 1\n", 1),
    (b"clients 1 credits 1 invalidate numbered\n", 1),
    (b"clients 1 credits 1\ndrop 1\n\n", 3),
    (b"clients 1 credits 1\ndrop 2\n", 2),
    (b"clients 1 credits 1\ngrant 2 1\n", 2),
    (b"clients 1 credits 1\ngrant 1\n", 2),
    (b"clients 1 credits 1\nin 1 client -\n", 2),
    (b"clients 1 credits 1\ndone 1 1 reply 0\n", 2),
];

/// The number of the first invalid line of a text, or 0.
fn invalid_line(alloc: Global, text: &[u8]) -> u64 {
    if text.len() > INPUT_MAX {
        return 0;
    }
    match read_capture(alloc, text) {
        Err(CaptureFault::BadLine { line }) => line,
        _ => 0,
    }
}

#[test]
fn invalid_lines(rt: HostRuntime) {
    for (row, want) in INVALID.iter().enumerate() {
        let (text, line) = *want;
        same(&rt, row, invalid_line(rt.alloc(), text), line);
    }
}

/// The text of the capture of a run of one mark, and of one that has no line.
fn written(rt: &impl Abort, alloc: Global) -> Vec<u8> {
    let mut marks = MarkLog::new(alloc);
    for bytes in ONE_LINE.iter() {
        let mark = Mark::Wrote {
            link: 3,
            side: Side::Responder,
            bytes: Octets::from_slice(alloc, bytes).expect(rt, "memory"),
        };
        marks.push(mark).expect(rt, "memory");
    }
    let marks = marks.finish().expect(rt, "memory");
    let text = write_run(alloc, OPENING, &marks).expect(rt, "memory");
    text.into_vec()
}

/// A mark of one byte, and one of none.
static ONE_LINE: [&[u8]; 2] = [b"\xAB", b""];

const OPENING: Opening = Opening {
    clients: 3,
    credits: 2,
    capacity: 9,
    client_units: 1,
    server_units: 1,
    numbered: false,
    invalidates: false,
};

#[test]
fn the_capture_of_a_run(rt: HostRuntime) {
    let want: &[u8] = b"clients 3 credits 2 capacity 9\nout 3 server ab\n";
    same(
        &rt,
        0,
        written(&rt, rt.alloc()),
        want.to_vec(rt.alloc()).expect(&rt, "memory"),
    );
}
