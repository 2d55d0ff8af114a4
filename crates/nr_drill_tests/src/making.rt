//! A script that is made from a seed.

use crate::compare::same;
use nr_script::{Line, make_script};
use std::alloc::Global;
use std::process::Abort;

/// A line: its kind, its client, and the procedure and the bytes of the arguments of a call, or the most bytes of a piece.
type Seen = (u32, u32, u32, usize);

const CALL: u32 = 0;

const UP: u32 = 1;

const WORK: u32 = 2;

const DOWN: u32 = 3;

const DRAIN: u32 = 4;

const OTHER: u32 = 5;

fn seen(line: &Line) -> Seen {
    match line {
        Line::Call {
            client,
            proc,
            args,
            ..
        } => (CALL, *client, *proc, args.len()),
        Line::Up { client, most } => (UP, *client, *most, 0),
        Line::Work { client } => (WORK, *client, 0, 0),
        Line::Down { client, most } => (DOWN, *client, *most, 0),
        Line::Drain => (DRAIN, 0, 0, 0),
        _ => (OTHER, 0, 0, 0),
    }
}

/// Eight calls of three clients, of seed 7.
static MADE: [Seen; 17] = [
    (CALL, 3, 5, 12),
    (DOWN, 3, 1673, 0),
    (CALL, 2, 5, 12),
    (DRAIN, 0, 0, 0),
    (CALL, 1, 1, 12),
    (UP, 1, 1195, 0),
    (CALL, 1, 6, 24),
    (WORK, 1, 0, 0),
    (CALL, 1, 7, 192),
    (UP, 1, 793, 0),
    (CALL, 2, 0, 0),
    (DOWN, 2, 1704, 0),
    (CALL, 3, 5, 12),
    (DOWN, 3, 2632, 0),
    (CALL, 2, 1, 12),
    (DRAIN, 0, 0, 0),
    (OTHER, 0, 0, 0),
];

fn nth_seen(rt: &impl Abort, alloc: Global, row: usize) -> Seen {
    let script = make_script(alloc, 7, 3, 8).expect(rt, "memory");
    match script.lines().get(row) {
        Some(line) => seen(line),
        None => (OTHER, 0, 0, 0),
    }
}

#[test]
fn a_script_of_seed_7(rt: HostRuntime) {
    for (row, want) in MADE.iter().enumerate() {
        same(&rt, row, nth_seen(&rt, rt.alloc(), row), *want);
    }
}

/// The first bytes of the arguments of calls of the script above, by the number of the line: READLINK of 3, GETATTR of 2, READ of 2
/// from 5,232 on with count 477, and WRITE of 159 bytes to 2 from 4,140 on, of which byte i is (4,140 + i) mod 256.
static ARGS: [(usize, &[u8]); 4] = [
    (0, b"\0\0\0\x08\0\0\0\0\0\0\0\x03"),
    (4, b"\0\0\0\x08\0\0\0\0\0\0\0\x02"),
    (
        6,
        b"\0\0\0\x08\0\0\0\0\0\0\0\x02\0\0\0\0\0\0\x14\x70\0\0\x01\xdd",
    ),
    (
        8,
        b"\0\0\0\x08\0\0\0\0\0\0\0\x02\0\0\0\0\0\0\x10\x2c\0\0\0\x9f\0\0\0\x02\0\0\0\x9f\x2c\x2d\x2e\x2f",
    ),
];

fn first_args(rt: &impl Abort, alloc: Global, row: usize, len: usize) -> Vec<u8> {
    let script = make_script(alloc, 7, 3, 8).expect(rt, "memory");
    match script.lines().get(row) {
        Some(Line::Call { args, .. }) => match args.as_slice().get(..len) {
            Some(bytes) => bytes.to_vec(alloc).expect(rt, "memory"),
            None => Vec::new(alloc),
        },
        _ => Vec::new(alloc),
    }
}

#[test]
fn arguments_of_seed_7(rt: HostRuntime) {
    for (row, want) in ARGS.iter() {
        let got = first_args(&rt, rt.alloc(), *row, want.len());
        same(
            &rt,
            *row,
            got,
            want.to_vec(rt.alloc()).expect(&rt, "memory"),
        );
    }
}
