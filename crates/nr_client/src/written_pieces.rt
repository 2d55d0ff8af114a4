//! The pieces of a file that jobs read are written in order, and what no job has read is read.

ghost use Rattle.std.specs.Prelude.{◌≡◌, ◌<◌, ◌≤◌, ℕ, ◌+◌, Some, None, Err, IfErr, OnOk};
ghost use Rattle.nr_turnstile.specs.Passes.{mine_of, seen_by};
ghost use Rattle.nr_shared.specs.Sharing.{SharedRests};
ghost use Rattle.nr_client.specs.Reading.{OutputFaults, piece_left};
ghost use Rattle.nr_client.specs.private.JobReads.{EndsMore, Grows, IsFetched, IsRuleOf, IsUpTo, ReadsMore};
ghost use Rattle.nr_client.specs.private.OpenReads.{GivesData, GivesNone};

use crate::client_end::ClientEnd;
use crate::file_calls::read_call;
use crate::file_to_read::FileToRead;
use crate::read_data::{piece_left, write_data};
use crate::shared_calls::outcome_of;
use nr_links::{LinkSink, LinkSource};
use nr_outside::Sink;
use nr_reduce::Outcome;
use nr_shared::{CallRule, Pass, SharedRequester};
use std::alloc::Global;
use std::sync::Wait;

/// One READ by a call of the caller's own, of what is left of its piece. Its data are written to the output.
fn read_on<R: Wait, I: LinkSource + Drop, O: LinkSink + Drop, C: CallRule, K: Sink>(
    rt: &R,
    shared: &SharedRequester<I, O, C>,
    pass: &mut Pass<I, O, C>,
    file: &FileToRead<'_>,
    end: u64,
    at: &mut u64,
    out: &mut K,
) -> Result<(), ClientEnd>
    requires rule { IsRuleOf C.allows file.now.uid file.now.gid file.now.handle.now file.now.size }
    requires below { at.old < file.now.size }
    requires within { at.old < end }
    requires piece { IsUpTo file.now.size at.old end }
    requires rests { SharedRests shared.now pass.old }
    ensures rests { SharedRests shared.now pass.new }
    ensures source { seen_by pass.new.source ≡ seen_by pass.old.source }
    ensures grows { Grows pass.old.main pass.new.main }
    ensures piece { OnOk result (IsUpTo file.now.size at.new end) }
    ensures more { OnOk result (at.old < at.new) }
    ensures ok { OnOk result (ReadsMore file.now.uid file.now.gid file.now.handle.now file.now.size at.old at.new pass.old.main pass.new.main (K.taken out.old) (K.taken out.new)) }
    ensures err { IfErr result (λ why. EndsMore file.now.uid file.now.gid file.now.handle.now file.now.size at.old pass.old.main pass.new.main (K.taken out.old) (K.taken out.new) (Err why)) }
    ensures out_faults { OutputFaults result (K.faults out.old) (K.faults out.new) }
{
    let count = piece_left(file.size, *at);
    let outcome = match outcome_of(
        rt,
        shared,
        pass,
        read_call(file.alloc, file.uid, file.gid, file.handle, *at, count),
    ) {
        Ok(outcome) => outcome,
        Err(end) => return Err(end),
    };
    let step = match write_data(file.alloc, outcome, count, out) {
        Ok(step) => step,
        Err(end) => return Err(end),
    };
    *at += step as u64;
    Ok(())
}

/// READs by calls of the caller's own of the rest of a piece, one after another.
fn read_rest<R: Wait, I: LinkSource + Drop, O: LinkSink + Drop, C: CallRule, K: Sink>(
    rt: &R,
    shared: &SharedRequester<I, O, C>,
    pass: &mut Pass<I, O, C>,
    file: &FileToRead<'_>,
    end: u64,
    at: &mut u64,
    out: &mut K,
) -> Result<(), ClientEnd>
    requires rule { IsRuleOf C.allows file.now.uid file.now.gid file.now.handle.now file.now.size }
    requires within { end ≤ file.now.size }
    requires piece { IsUpTo file.now.size at.old end }
    requires rests { SharedRests shared.now pass.old }
    ensures rests { SharedRests shared.now pass.new }
    ensures source { seen_by pass.new.source ≡ seen_by pass.old.source }
    ensures grows { Grows pass.old.main pass.new.main }
    ensures end { OnOk result (at.new ≡ end) }
    ensures ok { OnOk result (ReadsMore file.now.uid file.now.gid file.now.handle.now file.now.size at.old at.new pass.old.main pass.new.main (K.taken out.old) (K.taken out.new)) }
    ensures err { IfErr result (λ why. EndsMore file.now.uid file.now.gid file.now.handle.now file.now.size at.old pass.old.main pass.new.main (K.taken out.old) (K.taken out.new) (Err why)) }
    ensures out_faults { OutputFaults result (K.faults out.old) (K.faults out.new) }
{
    'rest: while *at < end {
        match read_on(rt, shared, pass, file, end, at, out) {
            Ok(()) => {}
            Err(why) => return Err(why),
        }
    }
    Ok(())
}

/// Writes the data of the first READ of a piece, which a job has made.
fn write_fetched<K: Sink>(
    alloc: Global,
    size: u64,
    outcome: Outcome,
    at: &mut u64,
    out: &mut K,
) -> Result<(), ClientEnd>
    requires below { at.old < size }
    ensures piece { OnOk result (IsUpTo size at.new (at.old + piece_left size at.old)) }
    ensures ok { OnOk result ((count step : ℕ) × ((count ≡ piece_left size at.old) × ((at.new ≡ at.old + step) × GivesData count outcome step (K.taken out.old) (K.taken out.new)))) }
    ensures err { IfErr result (λ why. GivesNone (piece_left size at.old) outcome why (K.taken out.old) (K.taken out.new)) }
    ensures out_faults { OutputFaults result (K.faults out.old) (K.faults out.new) }
{
    let count = piece_left(size, *at);
    let step = match write_data(alloc, outcome, count, out) {
        Ok(step) => step,
        Err(end) => return Err(end),
    };
    *at += step as u64;
    Ok(())
}

/// Writes the data of a piece whose first READ a job has made, and reads what is left of it.
fn finish_piece<R: Wait, I: LinkSource + Drop, O: LinkSink + Drop, C: CallRule, K: Sink>(
    rt: &R,
    shared: &SharedRequester<I, O, C>,
    pass: &mut Pass<I, O, C>,
    file: &FileToRead<'_>,
    outcome: Outcome,
    at: &mut u64,
    out: &mut K,
) -> Result<(), ClientEnd>
    requires rule { IsRuleOf C.allows file.now.uid file.now.gid file.now.handle.now file.now.size }
    requires below { at.old < file.now.size }
    requires fetched { IsFetched file.now.uid file.now.gid file.now.handle.now file.now.size at.old (Some outcome) (seen_by pass.old.main) (mine_of pass.old.main) }
    requires rests { SharedRests shared.now pass.old }
    ensures rests { SharedRests shared.now pass.new }
    ensures source { seen_by pass.new.source ≡ seen_by pass.old.source }
    ensures grows { Grows pass.old.main pass.new.main }
    ensures end { OnOk result (at.new ≡ at.old + piece_left file.now.size at.old) }
    ensures ok { OnOk result (ReadsMore file.now.uid file.now.gid file.now.handle.now file.now.size at.old at.new pass.old.main pass.new.main (K.taken out.old) (K.taken out.new)) }
    ensures err { IfErr result (λ why. EndsMore file.now.uid file.now.gid file.now.handle.now file.now.size at.old pass.old.main pass.new.main (K.taken out.old) (K.taken out.new) (Err why)) }
    ensures out_faults { OutputFaults result (K.faults out.old) (K.faults out.new) }
{
    let end = *at + piece_left(file.size, *at) as u64;
    match write_fetched(file.alloc, file.size, outcome, at, out) {
        Ok(()) => {}
        Err(why) => return Err(why),
    }
    match read_rest(rt, shared, pass, file, end, at, out) {
        Ok(()) => Ok(()),
        Err(why) => Err(why),
    }
}

/// Writes the data of one piece: those that a job has read, if it has, and what is left of it by calls of the caller's own.
pub(crate) fn write_piece<R: Wait, I: LinkSource + Drop, O: LinkSink + Drop, C: CallRule, K: Sink>(
    rt: &R,
    shared: &SharedRequester<I, O, C>,
    pass: &mut Pass<I, O, C>,
    file: &FileToRead<'_>,
    outcome: Option<Outcome>,
    at: &mut u64,
    out: &mut K,
) -> Result<(), ClientEnd>
    requires rule { IsRuleOf C.allows file.now.uid file.now.gid file.now.handle.now file.now.size }
    requires below { at.old < file.now.size }
    requires fetched { IsFetched file.now.uid file.now.gid file.now.handle.now file.now.size at.old outcome (seen_by pass.old.main) (mine_of pass.old.main) }
    requires rests { SharedRests shared.now pass.old }
    ensures rests { SharedRests shared.now pass.new }
    ensures source { seen_by pass.new.source ≡ seen_by pass.old.source }
    ensures grows { Grows pass.old.main pass.new.main }
    ensures end { OnOk result (at.new ≡ at.old + piece_left file.now.size at.old) }
    ensures ok { OnOk result (ReadsMore file.now.uid file.now.gid file.now.handle.now file.now.size at.old at.new pass.old.main pass.new.main (K.taken out.old) (K.taken out.new)) }
    ensures err { IfErr result (λ why. EndsMore file.now.uid file.now.gid file.now.handle.now file.now.size at.old pass.old.main pass.new.main (K.taken out.old) (K.taken out.new) (Err why)) }
    ensures out_faults { OutputFaults result (K.faults out.old) (K.faults out.new) }
{
    let end = *at + piece_left(file.size, *at) as u64;
    match outcome {
        None => read_rest(rt, shared, pass, file, end, at, out),
        Some(outcome) => finish_piece(rt, shared, pass, file, outcome, at, out),
    }
}
