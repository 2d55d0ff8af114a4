//! A program whose arguments can't be had.

use crate::compare::same;
use nr_outside::MemSink;
use nr_top::refuse;
use std::process::Abort;

/// Whether memory ran out, the calls of standard error that fail, the status, and what is reported.
static ROWS: [(bool, &[usize], u8, &[u8]); 3] = [
    (true, &[], 2, b"memory\n"),
    (false, &[], 1, b"bad words\n"),
    (true, &[0], 9, b""),
];

#[test]
fn arguments_that_cannot_be_had(rt: HostRuntime) {
    for (row, (memory, failing, status, text)) in ROWS.iter().enumerate() {
        let failing = failing.to_vec(rt.alloc()).expect(&rt, "memory");
        let mut err = MemSink::new(rt.alloc(), failing);
        let got = refuse(&mut err, *memory);
        same(&rt, row, (got, err.bytes()), (*status, *text));
    }
}
