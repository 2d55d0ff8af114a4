//! A file is read by several jobs, each in a thread of its own.

ghost use Rattle.std.specs.Prelude.{◌≡◌, ◌≢◌, ◌<◌, ◌≤◌, ℕ, [], ◌∷◌, Some, None, Err, List, length, All, slice_index_or, IfOk, IfErr, OnOk};
ghost use Rattle.nr_outside.specs.Streams.{sink_at, source_at};
ghost use Rattle.nr_link.specs.declared.end.End.TheVariants as ends;
ghost use Rattle.nr_links.specs.Limits.{read_max};
ghost use Rattle.nr_reduce.specs.declared.call.Call.{Call};
ghost use Rattle.nr_reduce.specs.declared.call.Form.{Form};
ghost use Rattle.nr_reduce.specs.declared.call.Outcome.{Outcome};
ghost use Rattle.nr_requester.specs.Fed.{fed_bytes};
ghost use Rattle.nr_turnstile.specs.Passes.{mine_of, seen_by};
ghost use Rattle.nr_shared.specs.declared.entry.Entry.{Entry};
ghost use Rattle.nr_shared.specs.declared.entry.Entry.TheVariants as entries;
ghost use Rattle.nr_shared.specs.Sharing.{SharedRests};
ghost use Rattle.nr_shared.specs.Standing.{bytes_before};
ghost use Rattle.nr_client.specs.Jobs.{FileReads, ReadsShared, jobs_max, link_at};
ghost use Rattle.nr_client.specs.Reading.{OutputFaults, file_read};
ghost use Rattle.nr_client.specs.Reading.FileRead.{SizeKnown};
ghost use Rattle.nr_client.specs.private.JobReads.{AreFetched, EndsMore, Grows, IsDone, IsFetched, IsReady, IsRuleOf, ReadsMore};

use crate::client_end::ClientEnd;
use crate::fetching::fetch;
use crate::file_to_read::FileToRead;
use crate::link::LinkEnds;
use crate::shared_calls::share;
use crate::written_pieces::write_piece;
use nr_links::{LinkSink, LinkSource};
use nr_nfs_base::TRANSFER_MAX;
use nr_outside::Sink;
use nr_reduce::Outcome;
use nr_shared::{Appended, CallRule, Pass, SharedRequester};
use std::alloc::{AllocError, Global};
use std::sync::Wait;
use std::thread;
use std::thread::Threads;

/// The most pieces of a job in one round: its READs are outstanding at once, and what is held ahead of the output is at most so many pieces of each
/// job. With more, their data don't stay in a processor's caches until they are written.
const PIECES_AHEAD: usize = 1;

/// A piece of a file that a job has read: where it begins, and the outcome of its READ.
#[derive(Drop)]
pub(crate) struct PieceRead {
    pub(crate) at: u64,
    pub(crate) outcome: Outcome,
}

/// A job: a pass of the shared requester, where its pieces begin, and those that it has read.
#[derive(Drop)]
pub(crate) struct ReadJob<I: LinkSource + Drop, O: LinkSink + Drop, C: CallRule> {
    pub(crate) pass: Pass<I, O, C>,
    pub(crate) offsets: Vec<u64>,
    pub(crate) fetched: Vec<PieceRead>,
}

/// Each job reads its pieces, in a thread of its own if there is one.
fn fetch_all<
    R: Threads + Wait + Sync,
    I: LinkSource + Send + Drop,
    O: LinkSink + Send + Drop,
    C: CallRule + Send,
>(rt: &R, shared: &SharedRequester<I, O, C>, file: &FileToRead<'_>, made: &mut [ReadJob<I, O, C>])
    requires rule { IsRuleOf C.allows file.now.uid file.now.gid file.now.handle.now file.now.size }
    requires threads { 0 < file.now.jobs }
    requires ready { All (IsReady shared.now file.now.uid file.now.gid file.now.handle.now file.now.size) made.old }
    ensures len { length made.new ≡ length made.old }
    ensures each { (i : ℕ) (d : _) → i < length made.old → IsDone shared.now file.now.uid file.now.gid file.now.handle.now file.now.size (slice_index_or made.new i d) }
{
    let run = |_: usize, job: &mut ReadJob<I, O, C>|
        requires { IsReady shared.now file.now.uid file.now.gid file.now.handle.now file.now.size job.now × IsRuleOf C.allows file.now.uid file.now.gid file.now.handle.now file.now.size }
        ensures { IsDone shared.entry.now file.entry.now.uid file.entry.now.gid file.entry.now.handle.now file.entry.now.size job.exit.now }
    { fetch(rt, shared, file, job) };
    thread::for_each_mut(rt, made, file.jobs, &run);
}

/// Where the pieces of one job begin: every `step` bytes from an offset on, at most so many, before the size.
fn offsets_from(alloc: Global, size: u64, from: u64, step: u64) -> Result<Vec<u64>, AllocError>
    ensures { IfOk result (λ v. All (λ at. at < size) v.items) }
{
    let mut offsets = Vec::with_capacity(alloc, PIECES_AHEAD)?;
    let mut at = from;
    let mut left = PIECES_AHEAD;
    'offsets: while left > 0 && at < size {
        offsets.push(at)?;
        at = at.saturating_add(step);
        left -= 1;
    }
    Ok(offsets)
}

/// A job of one round, with a pass of its own.
fn make_job<I: LinkSource + Drop, O: LinkSink + Drop, C: CallRule>(
    alloc: Global,
    shared: &SharedRequester<I, O, C>,
    pass: &mut Pass<I, O, C>,
    size: u64,
    from: u64,
    step: u64,
) -> Result<ReadJob<I, O, C>, AllocError>
    requires rests { SharedRests shared.now pass.old }
    ensures rests { SharedRests shared.now pass.new }
    ensures source { seen_by pass.new.source ≡ seen_by pass.old.source }
    ensures unchanged { (seen_by pass.new.main ≡ seen_by pass.old.main) × (mine_of pass.new.main ≡ mine_of pass.old.main) }
    ensures ok { IfOk result (λ j. (uid gid : ℕ) (file : List ℕ) → IsReady shared.now uid gid file size j) }
{
    let offsets = offsets_from(alloc, size, from, step)?;
    let fetched = Vec::with_capacity(alloc, PIECES_AHEAD)?;
    Ok(ReadJob {
        pass: shared.split(pass),
        offsets,
        fetched,
    })
}

/// The jobs of one round, whose pieces begin at this offset. Pieces go to jobs in turn.
fn make_jobs<I: LinkSource + Drop, O: LinkSink + Drop, C: CallRule>(
    shared: &SharedRequester<I, O, C>,
    pass: &mut Pass<I, O, C>,
    file: &FileToRead<'_>,
    from: u64,
) -> Result<Vec<ReadJob<I, O, C>>, AllocError>
    requires rests { SharedRests shared.now pass.old }
    ensures rests { SharedRests shared.now pass.new }
    ensures source { seen_by pass.new.source ≡ seen_by pass.old.source }
    ensures unchanged { (seen_by pass.new.main ≡ seen_by pass.old.main) × (mine_of pass.new.main ≡ mine_of pass.old.main) }
    ensures ok { IfOk result (λ v. All (IsReady shared.now file.now.uid file.now.gid file.now.handle.now file.now.size) v.items) }
{
    let mut made = Vec::with_capacity(file.alloc, file.jobs)?;
    let piece = TRANSFER_MAX as u64;
    let step = (file.jobs as u64).saturating_mul(piece);
    let mut at = from;
    'jobs: while made.len() < file.jobs {
        let job = make_job(file.alloc, shared, pass, file.size, at, step)?;
        made.push(job)?;
        at = at.saturating_add(piece);
    }
    Ok(made)
}

/// Takes the pass of each job back, in order, and the pieces that it has read.
fn join_jobs<I: LinkSource + Drop, O: LinkSink + Drop, C: CallRule>(
    alloc: Global,
    shared: &SharedRequester<I, O, C>,
    pass: &mut Pass<I, O, C>,
    mut made: Vec<ReadJob<I, O, C>>,
) -> Result<Vec<Vec<PieceRead>>, AllocError>
    requires rests { SharedRests shared.now pass.old }
    requires jobs { All (λ j. SharedRests shared.now j.pass) made.items }
    ensures rests { SharedRests shared.now pass.new }
    ensures source { seen_by pass.new.source ≡ seen_by pass.old.source }
    ensures grows { Grows pass.old.main pass.new.main }
    ensures ok { IfOk result (λ lists. (uid gid size : ℕ) (file : List ℕ) → All (IsDone shared.now uid gid file size) made.items
        → All (λ list. AreFetched uid gid file size (seen_by pass.new.main) (mine_of pass.new.main) list.items) lists.items) }
{
    let mut lists = Vec::with_capacity(alloc, made.len())?;
    'jobs: while made.len() > 0 {
        let ReadJob {
            pass: own,
            offsets: _offsets,
            fetched,
        } = made.remove(0);
        shared.join(pass, own);
        lists.push(fetched)?;
    }
    Ok(lists)
}

/// Takes the first piece out of a list. Gives the outcome of its READ, if it begins at this offset.
fn take_first(list: &mut Vec<PieceRead>, at: u64) -> Option<Outcome>
    ensures list { (uid gid size : ℕ) (file mine : List ℕ) (seen : List Entry) → AreFetched uid gid file size seen mine list.old.items → AreFetched uid gid file size seen mine list.new.items }
    ensures taken { (uid gid size : ℕ) (file mine : List ℕ) (seen : List Entry) → AreFetched uid gid file size seen mine list.old.items → IsFetched uid gid file size at result seen mine }
{
    if list.len() == 0 {
        return None;
    }
    let PieceRead { at: from, outcome } = list.remove(0);
    if from == at { Some(outcome) } else { None }
}

/// Takes the first piece out of the first list, which becomes the last. Gives the outcome of its READ, if it begins at this offset.
fn take_next(lists: &mut Vec<Vec<PieceRead>>, at: u64) -> Result<Option<Outcome>, AllocError>
    ensures lists { (uid gid size : ℕ) (file mine : List ℕ) (seen : List Entry) → All (λ list. AreFetched uid gid file size seen mine list.items) lists.old.items
        → All (λ list. AreFetched uid gid file size seen mine list.items) lists.new.items }
    ensures ok { IfOk result (λ outcome. (uid gid size : ℕ) (file mine : List ℕ) (seen : List Entry) → All (λ list. AreFetched uid gid file size seen mine list.items) lists.old.items
        → IsFetched uid gid file size at outcome seen mine) }
{
    if lists.len() == 0 {
        return Ok(None);
    }
    let mut list = lists.remove(0);
    let outcome = take_first(&mut list, at);
    match lists.push(list) {
        Ok(()) => Ok(outcome),
        Err(_) => Err(AllocError),
    }
}

/// The pieces of one round, read by jobs.
fn fetch_round<
    R: Threads + Wait + Sync,
    I: LinkSource + Send + Drop,
    O: LinkSink + Send + Drop,
    C: CallRule + Send,
>(
    rt: &R,
    shared: &SharedRequester<I, O, C>,
    pass: &mut Pass<I, O, C>,
    file: &FileToRead<'_>,
    from: u64,
) -> Result<Vec<Vec<PieceRead>>, AllocError>
    requires rule { IsRuleOf C.allows file.now.uid file.now.gid file.now.handle.now file.now.size }
    requires jobs { 0 < file.now.jobs }
    requires rests { SharedRests shared.now pass.old }
    ensures rests { SharedRests shared.now pass.new }
    ensures source { seen_by pass.new.source ≡ seen_by pass.old.source }
    ensures grows { Grows pass.old.main pass.new.main }
    ensures ok { IfOk result (λ lists. All (λ list. AreFetched file.now.uid file.now.gid file.now.handle.now file.now.size (seen_by pass.new.main) (mine_of pass.new.main) list.items) lists.items) }
{
    let mut made = make_jobs(shared, pass, file, from)?;
    fetch_all(rt, shared, file, made.as_mut_slice());
    join_jobs(file.alloc, shared, pass, made)
}

/// Reads the pieces of one round by jobs, and writes them in order of offset.
fn read_round<
    R: Threads + Wait + Sync,
    I: LinkSource + Send + Drop,
    O: LinkSink + Send + Drop,
    C: CallRule + Send,
    K: Sink,
>(
    rt: &R,
    shared: &SharedRequester<I, O, C>,
    pass: &mut Pass<I, O, C>,
    file: &FileToRead<'_>,
    at: &mut u64,
    out: &mut K,
) -> Result<(), ClientEnd>
    requires rule { IsRuleOf C.allows file.now.uid file.now.gid file.now.handle.now file.now.size }
    requires jobs { (0 < file.now.jobs) × (file.now.jobs ≤ jobs_max) }
    requires below { at.old < file.now.size }
    requires rests { SharedRests shared.now pass.old }
    ensures rests { SharedRests shared.now pass.new }
    ensures source { seen_by pass.new.source ≡ seen_by pass.old.source }
    ensures grows { Grows pass.old.main pass.new.main }
    ensures more { OnOk result (at.old < at.new) }
    ensures ok { OnOk result (ReadsMore file.now.uid file.now.gid file.now.handle.now file.now.size at.old at.new pass.old.main pass.new.main (K.taken out.old) (K.taken out.new)) }
    ensures err { IfErr result (λ why. EndsMore file.now.uid file.now.gid file.now.handle.now file.now.size at.old pass.old.main pass.new.main (K.taken out.old) (K.taken out.new) (Err why)) }
    ensures out_faults { OutputFaults result (K.faults out.old) (K.faults out.new) }
{
    let mut lists = match fetch_round(rt, shared, pass, file, *at) {
        Ok(lists) => lists,
        Err(_) => return Err(ClientEnd::Memory),
    };
    let mut left = file.jobs * PIECES_AHEAD;
    'pieces: while left > 0 && *at < file.size {
        let outcome = match take_next(&mut lists, *at) {
            Ok(outcome) => outcome,
            Err(_) => return Err(ClientEnd::Memory),
        };
        match write_piece(rt, shared, pass, file, outcome, at, out) {
            Ok(()) => {}
            Err(why) => return Err(why),
        }
        left -= 1;
    }
    Ok(())
}

/// Reads all pieces of a file by jobs.
fn read_rounds<
    R: Threads + Wait + Sync,
    I: LinkSource + Send + Drop,
    O: LinkSink + Send + Drop,
    C: CallRule + Send,
    K: Sink,
>(
    rt: &R,
    shared: &SharedRequester<I, O, C>,
    pass: &mut Pass<I, O, C>,
    file: &FileToRead<'_>,
    out: &mut K,
) -> Result<(), ClientEnd>
    requires rule { IsRuleOf C.allows file.now.uid file.now.gid file.now.handle.now file.now.size }
    requires jobs { (0 < file.now.jobs) × (file.now.jobs ≤ jobs_max) }
    requires rests { SharedRests shared.now pass.old }
    ensures rests { SharedRests shared.now pass.new }
    ensures source { seen_by pass.new.source ≡ seen_by pass.old.source }
    ensures grows { Grows pass.old.main pass.new.main }
    ensures ends { EndsMore file.now.uid file.now.gid file.now.handle.now file.now.size 0 pass.old.main pass.new.main (K.taken out.old) (K.taken out.new) result }
    ensures out_faults { OutputFaults result (K.faults out.old) (K.faults out.new) }
{
    let mut at = 0;
    'rounds: while at < file.size {
        match read_round(rt, shared, pass, file, &mut at, out) {
            Ok(()) => {}
            Err(why) => return Err(why),
        }
    }
    Ok(())
}

/// Shares the requester of a link with its source and its sink, reads a file into an output by jobs, and gives the source and the sink back.
pub(crate) fn read_shared<
    N: Appended,
    C: CallRule + Send,
    R: Threads + Wait + Sync,
    I: LinkSource + Drop,
    O: LinkSink + Drop,
    K: Sink,
>(rt: &R, link: LinkEnds<I, O>, file: &FileToRead<'_>, out: &mut K) -> (Result<(), ClientEnd>, I, O)
where
    I: Send,
    O: Send,
    requires entry { entries.Initial (record { requester = link.requester; sink = record { link = O.link link.sink; faults = O.faults link.sink; taken = O.taken link.sink }; tries = None }) ≡ N.entry }
    requires has_memory { link.requester.state.side.ended ≢ Some ends.Memory }
    requires fed { fed_bytes link.requester ≤ bytes_before }
    requires within { link.read ≤ read_max }
    requires rule { IsRuleOf C.allows file.now.uid file.now.gid file.now.handle.now file.now.size }
    requires only { (call : Call) (form : Form) → C.allows call form → FileReads file.now.uid file.now.gid file.now.handle.now file.now.size call form }
    requires jobs { (0 < file.now.jobs) × (file.now.jobs ≤ jobs_max) }
    ensures reads { (first : Outcome) → file_read (first ∷ []) ≡ SizeKnown file.now.size 0 [] → ReadsShared file.now.uid file.now.gid file.now.handle.now first file.now.size
        (link_at link.requester (source_at (I.left link.source) (I.given link.source) (I.faults link.source)) (sink_at (O.taken link.sink) (O.faults link.sink)) link.read)
        (source_at (I.left result.1) (I.given result.1) (I.faults result.1)) (sink_at (O.taken result.2) (O.faults result.2)) (K.taken out.old) (K.taken out.new) result.0 }
    ensures out_faults { OutputFaults result.0 (K.faults out.old) (K.faults out.new) }
{
    let LinkEnds {
        requester,
        source,
        sink,
        read,
    } = link;
    let alloc = file.alloc;
    let (shared, mut pass) = match share::<N, R, I, O, C>(
        rt, alloc, requester, source, sink, read,
    ) {
        Ok(opened) => opened,
        Err((requester, source, sink)) => {
            drop(requester);
            return (Err(ClientEnd::Memory), source, sink);
        }
    };
    let result = read_rounds(rt, &shared, &mut pass, file, out);
    let (requester, link, _) = shared.close(rt, pass);
    drop(requester);
    match link {
        Some((source, sink)) => (result, source, sink),
        None => unreachable!(),
    }
}
