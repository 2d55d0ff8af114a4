//! The data of a READ.

ghost use Rattle.std.specs.Prelude.{◌≡◌, ◌<◌, ◌≤◌, ◌+◌, false, if◌then◌else◌, length, IfOk, IfErr};
ghost use Rattle.nr_client.specs.Reading.{OutputFaults, piece_left};
ghost use Rattle.nr_client.specs.Results.{KeepsCounts};
ghost use Rattle.nr_client.specs.private.OpenReads.{GivesData, GivesNone};

use crate::client_end::ClientEnd;
use crate::file_results::read_in;
use nr_nfs_base::TRANSFER_MAX;
use nr_nfs_res::ReadOkRef;
use nr_outside::{Sink, write_whole};
use nr_reduce::Outcome;
use std::alloc::Global;

/// How many bytes a READ at this offset asks for.
pub(crate) fn piece_left(size: u64, at: u64) -> u32
    requires { at < size }
    ensures is { result ≡ piece_left size at }
    ensures some { 0 < result }
    ensures within { at + result ≤ size }
{
    let piece = TRANSFER_MAX as u64;
    (piece - at % piece).min(size - at) as u32
}

/// How far the next READ is after one of `count` bytes.
fn advance(results: &ReadOkRef<'_>, count: u32) -> u32
    requires some { 0 < count }
    requires within { length results.now.bytes ≤ count }
    requires sense { results.now.eof ≡ false → 0 < length results.now.bytes }
    ensures is { result ≡ (if results.now.eof then count else length results.now.bytes) }
    ensures some { 0 < result }
    ensures within { result ≤ count }
{
    if results.eof() {
        count
    } else {
        results.bytes().len() as u32
    }
}

/// Writes the data of a READ of `count` bytes to the output. Gives how far the next READ is after it.
pub(crate) fn write_data<K: Sink>(
    alloc: Global,
    outcome: Outcome,
    count: u32,
    out: &mut K,
) -> Result<u32, ClientEnd>
    requires { 0 < count }
    ensures some { IfOk result (λ step. 0 < step) }
    ensures within { IfOk result (λ step. step ≤ count) }
    ensures ok { IfOk result (λ step. GivesData count outcome step (K.taken out.old) (K.taken out.new)) }
    ensures err { IfErr result (λ end. GivesNone count outcome end (K.taken out.old) (K.taken out.new)) }
    ensures of_link { IfErr result KeepsCounts }
    ensures out_faults { OutputFaults result (K.faults out.old) (K.faults out.new) }
{
    let results = match read_in(alloc, &outcome, count) {
        Ok(results) => results,
        Err(end) => return Err(end),
    };
    let step = advance(&results, count);
    match write_whole(out, results.bytes()) {
        Ok(()) => Ok(step),
        Err(_) => Err(ClientEnd::OutputFault),
    }
}
