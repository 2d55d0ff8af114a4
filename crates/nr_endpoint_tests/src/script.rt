//! Scripts: what is done with an endpoint, and what each call gives.
//!
//! A line is `CALL NUMBERS : BYTES = ANSWER`, without the parts that the call doesn't have: decimal numbers, bytes in words (`words.rt`), and
//! the answer as it is printed. Lines that begin with `#` are comments. What each call is stands at the functions that make it.

use crate::compare::same;
use crate::endpoint::TestEndpoint;
use crate::feeding::fed;
use crate::line::{Line, parted};
use crate::words::bytes_of;
use nr_wire::Side;
use std::alloc::Global;
use std::process::Abort;

/// The side that a script is run with, and the length of the pieces in which bytes are fed.
#[derive(Clone, Copy)]
pub struct Setting {
    pub side: Side,
    pub piece: usize,
}

/// Ends the test if a line gives something else.
fn run_line(
    rt: &impl Abort,
    alloc: Global,
    endpoint: &mut TestEndpoint,
    setting: Setting,
    row: usize,
    text: &str,
) {
    let (asked, want) = parted(text, '=');
    let (call, words) = parted(asked, ':');
    let (name, numbers) = parted(call, ' ');
    let bytes = bytes_of(rt, alloc, setting.side, words);
    let line = Line {
        row,
        setting,
        name,
        numbers,
        bytes: bytes.as_slice(),
    };
    let got = fed(rt, alloc, endpoint, &line);
    same(rt, row, got.as_str(), want);
}

/// Runs the lines of a script.
pub fn run_lines(
    rt: &impl Abort,
    alloc: Global,
    endpoint: &mut TestEndpoint,
    setting: Setting,
    script: &str,
) {
    for (row, text) in script.lines().enumerate() {
        if !text.is_empty() && !text.starts_with('#') {
            run_line(rt, alloc, endpoint, setting, row, text);
        }
    }
}

/// Runs a script with a side.
pub fn run(rt: &impl Abort, alloc: Global, setting: Setting, script: &str) {
    let mut endpoint = TestEndpoint::open(rt, alloc, setting.side);
    run_lines(rt, alloc, &mut endpoint, setting, script);
    drop(endpoint);
}

/// The field of a row at a place.
fn field<'a>(rt: &impl Abort, row: &'a str, place: &str) -> &'a str {
    let place = place.parse::<usize>().expect(rt, "a place");
    for (at, field) in row.split('|').enumerate() {
        if at == place {
            return field.trim();
        }
    }
    panic!(rt; "no field {place} in {row}")
}

/// A script in which the fields of a row stand for their places: the first for `$0$`, the next for `$1$`.
fn filled(rt: &impl Abort, alloc: Global, template: &str, row: &str) -> String {
    let mut script = String::new(alloc);
    for (at, part) in template.split('$').enumerate() {
        let text = if at % 2 == 0 {
            part
        } else {
            field(rt, row, part)
        };
        script.push_str(text).expect(rt, "memory");
    }
    script
}

/// Runs a script with a side and the fields of a row.
fn run_row(
    rt: &impl Abort,
    alloc: Global,
    side: Side,
    pieces: &[usize],
    template: &str,
    row: &str,
) {
    let script = filled(rt, alloc, template, row);
    for piece in pieces {
        let piece = *piece;
        run(rt, alloc, Setting { side, piece }, script.as_str());
    }
}

/// Runs a script with a side and the fields of each row, for each of these lengths of pieces. A row is a line, and `|` stands between fields.
pub fn rows(
    rt: &impl Abort,
    alloc: Global,
    side: Side,
    pieces: &[usize],
    template: &str,
    text: &str,
) {
    for row in text.lines() {
        if !row.is_empty() && !row.starts_with('#') {
            run_row(rt, alloc, side, pieces, template, row);
        }
    }
}

/// Runs a script with each side, and each of these lengths of pieces.
pub fn both(rt: &impl Abort, alloc: Global, pieces: &[usize], script: &str) {
    for piece in pieces {
        let piece = *piece;
        let side = Side::Initiator;
        run(rt, alloc, Setting { side, piece }, script);
        let side = Side::Responder;
        run(rt, alloc, Setting { side, piece }, script);
    }
}
