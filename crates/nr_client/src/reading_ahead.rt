//! READs of the next pieces of a file are outstanding while the data of the first are written.

ghost use Rattle.std.specs.Prelude.{◌≡◌, ◌<◌, ◌≤◌, ◌+◌, ℕ, true, false, List, length, Option, Err, OnOk, IfErr};
ghost use Rattle.nr_client.specs.Reading.{ForgetsCallsOver, OutputFaults, piece_left};
ghost use Rattle.nr_client.specs.Relations.{KeepsTicketsOver, LooksOver};
ghost use Rattle.nr_client.specs.Requests.{CountsFaultsOver};
ghost use Rattle.nr_client.specs.Results.{IsOfCall};
ghost use Rattle.nr_client.specs.private.OpenReads.{AreOpen, EndsSo, IsFull, IsInPiece, MayAsk, ReadsAhead, ReadsOn, next_offset};

use crate::client_end::ClientEnd;
use crate::file_calls::read_call;
use crate::file_to_read::FileToRead;
use crate::limits::READS_MAX;
use crate::link_calls::Calls;
use crate::read_data::{piece_left, write_data};
use nr_outside::Sink;
use nr_requester::Ticket;
use std::alloc::Global;

/// Whether the next piece is asked for: none is outstanding, or fewer than the maximum are and a call may be submitted.
#[tactic(auto, using(crate::proofs::FileReading::looks_not))]
fn may_ask<L: Calls>(link: &mut L, size: u64, next: u64, tickets: &[Ticket]) -> bool
    ensures looked { LooksOver L.relations (L.at link.old) (L.at link.new) }
    ensures yes { result ≡ true → MayAsk L.relations size next tickets.now (L.at link.new) }
    ensures no { result ≡ false → IsFull L.relations size next tickets.now (L.at link.new) }
    ensures tickets { KeepsTicketsOver L.relations (L.at link.old) (L.at link.new) }
    ensures faults { L.relations.faults (L.at link.new) ≡ L.relations.faults (L.at link.old) }
{
    if next >= size {
        return false;
    }
    if tickets.is_empty() {
        return true;
    }
    if tickets.len() >= READS_MAX {
        return false;
    }
    link.has_credit()
}

/// Submits a READ of the next piece.
fn ask<L: Calls>(
    link: &mut L,
    file: &FileToRead<'_>,
    next: &mut u64,
    tickets: &mut Vec<Ticket>,
) -> Result<(), ClientEnd>
    requires may { MayAsk L.relations file.now.size next.old tickets.old.items (L.at link.old) }
    requires open { AreOpen L.relations (L.at link.old) tickets.old.items }
    ensures open { AreOpen L.relations (L.at link.new) tickets.new.items }
    ensures ahead { OnOk result ((at : ℕ) → ReadsAhead L.relations (L.at link.old) file.now.size at next.old tickets.old.items → ReadsAhead L.relations (L.at link.new) file.now.size at next.new tickets.new.items) }
    ensures more { OnOk result (next.old < next.new) }
    ensures within { OnOk result (next.new ≤ file.now.size) }
    ensures ok { OnOk result ((at : ℕ) (t : Option (List ℕ)) → at < file.now.size → ReadsAhead L.relations (L.at link.old) file.now.size at next.old tickets.old.items →
        ReadsOn L.relations file.now.uid file.now.gid file.now.handle.now file.now.size at at tickets.old.items at at tickets.new.items
        (L.at link.old) (L.at link.new) t t) }
    ensures err { IfErr result (λ end. (at : ℕ) (t : Option (List ℕ)) → at < file.now.size → ReadsAhead L.relations (L.at link.old) file.now.size at next.old tickets.old.items →
        EndsSo L.relations file.now.uid file.now.gid file.now.handle.now file.now.size at at tickets.old.items tickets.new.items
        (L.at link.old) (L.at link.new) t t (Err end)) }
    ensures of_call { IfErr result IsOfCall }
    ensures faults { CountsFaultsOver L.relations result (L.at link.old) (L.at link.new) }
{
    let count = piece_left(file.size, *next);
    if let Err(_) = tickets.reserve(1) {
        return Err(ClientEnd::Memory);
    }
    let call = match read_call(file.alloc, file.uid, file.gid, file.handle, *next, count) {
        Ok(call) => call,
        Err(_) => return Err(ClientEnd::Memory),
    };
    let ticket = match link.submit(call) {
        Ok(ticket) => ticket,
        Err(end) => return Err(ClientEnd::Link(end)),
    };
    tickets.push_reserved(ticket);
    *next += count as u64;
    Ok(())
}

/// Submits READs of the next pieces while calls may be submitted and fewer than the maximum are outstanding, and at least one if none is.
pub(crate) fn fill<L: Calls>(
    link: &mut L,
    file: &FileToRead<'_>,
    at: u64,
    next: &mut u64,
    tickets: &mut Vec<Ticket>,
) -> Result<(), ClientEnd>
    requires below { at < file.now.size }
    requires ahead { ReadsAhead L.relations (L.at link.old) file.now.size at next.old tickets.old.items }
    ensures open { AreOpen L.relations (L.at link.new) tickets.new.items }
    ensures ahead { OnOk result (ReadsAhead L.relations (L.at link.new) file.now.size at next.new tickets.new.items) }
    ensures full { OnOk result (IsFull L.relations file.now.size next.new tickets.new.items (L.at link.new)) }
    ensures ok { OnOk result ((t : Option (List ℕ)) → ReadsOn L.relations file.now.uid file.now.gid file.now.handle.now file.now.size at at tickets.old.items at at tickets.new.items
        (L.at link.old) (L.at link.new) t t) }
    ensures err { IfErr result (λ end. (t : Option (List ℕ)) → EndsSo L.relations file.now.uid file.now.gid file.now.handle.now file.now.size at at tickets.old.items tickets.new.items
        (L.at link.old) (L.at link.new) t t (Err end)) }
    ensures of_call { IfErr result IsOfCall }
    ensures faults { CountsFaultsOver L.relations result (L.at link.old) (L.at link.new) }
{
    'asked: while may_ask(link, file.size, *next, tickets.as_slice()) {
        match ask(link, file, next, tickets) {
            Ok(()) => {}
            Err(end) => return Err(end),
        }
    }
    Ok(())
}

/// Takes the outcome of the oldest READ, once it has come, and writes its data to the output.
pub(crate) fn take_oldest<L: Calls, K: Sink>(
    alloc: Global,
    link: &mut L,
    size: u64,
    at: &mut u64,
    tickets: &mut Vec<Ticket>,
    out: &mut K,
) -> Result<(), ClientEnd>
    requires below { at.old < size }
    requires some { 0 < length tickets.old.items }
    requires open { AreOpen L.relations (L.at link.old) tickets.old.items }
    ensures open { AreOpen L.relations (L.at link.new) tickets.new.items }
    ensures next { next_offset size (at.old + piece_left size at.old) tickets.new.items ≡ next_offset size at.old tickets.old.items }
    ensures piece { OnOk result (IsInPiece size at.new (at.old + piece_left size at.old)) }
    ensures more { OnOk result (at.old < at.new) }
    ensures ok { OnOk result ((uid gid next : ℕ) (file : List ℕ) → ReadsAhead L.relations (L.at link.old) size at.old next tickets.old.items → IsFull L.relations size next tickets.old.items (L.at link.old) →
        ReadsOn L.relations uid gid file size at.old at.old tickets.old.items at.new (at.old + piece_left size at.old) tickets.new.items
        (L.at link.old) (L.at link.new) (K.taken out.old) (K.taken out.new)) }
    ensures err { IfErr result (λ why. (uid gid next : ℕ) (file : List ℕ) → ReadsAhead L.relations (L.at link.old) size at.old next tickets.old.items → IsFull L.relations size next tickets.old.items (L.at link.old) →
        EndsSo L.relations uid gid file size at.old at.old tickets.old.items tickets.new.items
        (L.at link.old) (L.at link.new) (K.taken out.old) (K.taken out.new) (Err why)) }
    ensures out_faults { OutputFaults result (K.faults out.old) (K.faults out.new) }
    ensures faults { CountsFaultsOver L.relations result (L.at link.old) (L.at link.new) }
{
    let count = piece_left(size, *at);
    let outcome = match link.wait(tickets.remove(0)) {
        Ok(outcome) => outcome,
        Err(end) => return Err(ClientEnd::Link(end)),
    };
    let step = match write_data(alloc, outcome, count, out) {
        Ok(step) => step,
        Err(end) => return Err(end),
    };
    *at += step as u64;
    Ok(())
}

/// Forgets all READs that are outstanding.
pub(crate) fn forget_all<L: Calls>(link: &mut L, tickets: &mut Vec<Ticket>)
    requires { AreOpen L.relations (L.at link.old) tickets.old.items }
    ensures forgets { ForgetsCallsOver L.relations tickets.old.items (L.at link.old) (L.at link.new) }
    ensures faults { L.relations.faults (L.at link.new) ≡ L.relations.faults (L.at link.old) }
{
    'tickets: while tickets.len() > 0 {
        link.forget(tickets.remove(0));
    }
}
