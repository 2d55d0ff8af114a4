//! Scripts: what is done with both ends of a link, and what each call gives.
//!
//! A line is `CALL PARTS : BYTES ; BYTES = ANSWER`, without what the call doesn't have: bytes in words (`words.rt`), and the answer as it is
//! printed. Lines that begin with `#` are comments. What each call is stands at the functions that make it.

use crate::compare::same;
use crate::line::{Line, parted, piece};
use crate::link::TestLink;
use crate::moving::moved;
use crate::words::bytes_of;
use std::alloc::Global;
use std::process::Abort;

/// Ends the test if a line gives something else.
fn run_line(
    rt: &impl Abort,
    alloc: Global,
    link: &mut TestLink,
    size: usize,
    row: usize,
    text: &str,
) {
    let (asked, want) = parted(text, '=');
    let (call, words) = parted(asked, ':');
    let (name, parts) = parted(call, ' ');
    let (first, second) = parted(words, ';');
    let bytes = bytes_of(rt, alloc, first);
    let more = bytes_of(rt, alloc, second);
    let line = Line {
        row,
        size,
        name,
        parts,
        bytes: bytes.as_slice(),
        more: more.as_slice(),
    };
    let mut got = String::new(alloc);
    moved(rt, alloc, link, &line, &mut got);
    same(rt, row, got.as_str(), want);
}

/// Runs the lines of a script, with pieces of this length.
pub fn run_lines(rt: &impl Abort, alloc: Global, link: &mut TestLink, size: usize, script: &str) {
    for (row, text) in script.lines().enumerate() {
        if !text.is_empty() && !text.starts_with('#') {
            run_line(rt, alloc, link, size, row, text);
        }
    }
}

/// Runs a script with pieces of each of these lengths.
pub fn run(rt: &impl Abort, alloc: Global, sizes: &[usize], script: &str) {
    for size in sizes {
        let mut link = TestLink::open(rt, alloc, 16);
        run_lines(rt, alloc, &mut link, *size, script);
        link.close();
    }
}

/// The field of a row at a place.
fn field<'a>(rt: &impl Abort, row: &'a str, place: &str) -> &'a str {
    piece(rt, row, '|', place.parse::<usize>().expect(rt, "a place"))
}

/// A script in which the fields of a row stand for their places: the first for `$0$`, the next for `$1$`.
fn filled(rt: &impl Abort, alloc: Global, template: &str, row: &str) -> String {
    let mut script = String::new(alloc);
    for (at, part) in template.split('$').enumerate() {
        let text = if at % 2 == 0 {
            part
        } else {
            field(rt, row, part)
        };
        script.push_str(text).expect(rt, "memory");
    }
    script
}

/// Runs a script with the fields of each row, with pieces of each of these lengths. A row is a line, and `|` stands between fields.
pub fn rows(rt: &impl Abort, alloc: Global, sizes: &[usize], template: &str, text: &str) {
    for row in text.lines() {
        if !row.is_empty() && !row.starts_with('#') {
            let script = filled(rt, alloc, template, row);
            run(rt, alloc, sizes, script.as_str());
        }
    }
}
