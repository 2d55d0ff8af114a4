//! Benchmarks, run by hand. The arguments are the name of a benchmark and its words (each module says which), and then, if there are
//! more, the next benchmark. For each one it prints a line.
#![tactic(auto)]

mod calls;
mod ends;
mod ends_client;
mod ends_link;
mod ends_server;
mod links;
mod links_client;
mod links_work;
mod sends;
mod shared;
mod tree;
mod words;

use nr_outside::raise_trim_threshold;
use std::alloc::Global;
use std::env;
use std::env::Args;
use std::process::ExitCode;
use std::sync::Wait;
use std::thread::Threads;

/// The size of the block by which the allocator is made to keep the memory of a call for the next one, in bytes, as `get`
/// and `put` have it.
const TRIM_BLOCK_LEN: usize = 1 << 24;

/// What a benchmark counts.
fn measured(alloc: Global, name: &str, words: &mut Args) -> Option<u64> {
    match name {
        "tree" => tree::measure(alloc, words),
        "ends" => ends::measure(alloc, words),
        _ => None,
    }
}

/// Runs a benchmark, and prints its line.
fn run<R: Threads + Wait + Sync>(
    rt: HostRuntime,
    runtime: &R,
    name: &str,
    words: &mut Args,
) -> Option<()> {
    if name == "links" {
        let (total, micros) = links::measure(rt, words)?;
        return println!(rt; "{total} {micros}").ok();
    }
    if name == "shared" {
        let (own, unanswered) = shared::measure(rt, runtime, words)?;
        return println!(rt; "{own} {unanswered}").ok();
    }
    let total = measured(rt.alloc(), name, words)?;
    println!(rt; "{total}").ok()
}

fn main(rt: HostRuntime) -> ExitCode {
    let Ok(mut words) = env::args(&rt) else {
        return ExitCode::FAILURE;
    };
    let _ = words.next();
    raise_trim_threshold(rt.alloc(), TRIM_BLOCK_LEN);
    for _ in 0..usize::MAX {
        let Some(name) = words.next() else {
            return ExitCode::SUCCESS;
        };
        if run(rt, &rt, name.as_str(), &mut words).is_none() {
            return ExitCode::FAILURE;
        }
    }
    ExitCode::SUCCESS
}
