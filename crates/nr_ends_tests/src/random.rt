//! Many calls in pieces of random lengths.

use crate::calls::CALLS;
use crate::link::TestLink;
use crate::script::run_lines;
use std::alloc::Global;
use std::process::Abort;

/// The next draw, by the rule of drills that are made of a seed.
fn draw(state: &mut u64) -> usize {
    *state = state
        .wrapping_mul(6364136223846793005)
        .wrapping_add(1442695040888963407);
    (*state >> 33) as usize
}

/// The call of this number among those of [`CALLS`].
fn numbered(rt: &impl Abort, number: usize) -> &'static str {
    let mut left = number;
    for line in CALLS.lines() {
        if line.starts_with('#') {
            continue;
        }
        if left == 0 {
            return line;
        }
        left -= 1;
    }
    panic!(rt; "no call {number}")
}

/// One call of a random row, in pieces of a random length of up to 3,000 bytes.
fn random_call(rt: &impl Abort, alloc: Global, link: &mut TestLink, state: &mut u64) {
    let call = numbered(rt, draw(state) % 12);
    let size = 1 + draw(state) % 3000;
    run_lines(rt, alloc, link, size, call);
}

/// Each is executed with its own payload and has the reply that it was given, and at the end nothing is outstanding.
#[test]
fn ten_thousand_calls(rt: HostRuntime) {
    let mut link = TestLink::open(&rt, rt.alloc(), 16);
    run_lines(&rt, rt.alloc(), &mut link, 65536, "up\ndown\n");
    let mut state = 7;
    for _ in 0..10000 {
        random_call(&rt, rt.alloc(), &mut link, &mut state);
    }
    let end = "counts = [0, 16, 0, 0, 0, 2]\nends = (None, None)\n";
    run_lines(&rt, rt.alloc(), &mut link, 65536, end);
    link.close();
}
