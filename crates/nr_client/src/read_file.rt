//! A file is read into an output.

ghost use Rattle.std.specs.Prelude.{◌≡◌, ◌<◌, ◌≤◌, ◌+◌, ℕ, List, [], Ok, OnOk, IfErr};
ghost use Rattle.nr_client.specs.Reading.{OutputFaults, ReadsFileOver, piece_left};
ghost use Rattle.nr_client.specs.Relations.{KeepsTicketsOver};
ghost use Rattle.nr_client.specs.Requests.{CountsFaultsOver};
ghost use Rattle.nr_client.specs.private.OpenReads.{AreOpen, EndsSo, IsInPiece, ReadsAhead, ReadsOn};

use crate::answer::outcome_of;
use crate::asking::ask_nfs;
use crate::client_end::ClientEnd;
use crate::file_calls::read_call;
use crate::file_to_read::FileToRead;
use crate::link_calls::Calls;
use crate::read_data::{piece_left, write_data};
use crate::reading_ahead::{fill, forget_all, take_oldest};
use crate::requests::getattr_call;
use nr_nfs_base::{Attributes, Handle};
use nr_outside::Sink;
use nr_requester::Ticket;
use std::alloc::Global;

/// One READ, of what is left of its piece. Its data are written to the output.
fn read_on<L: Calls, K: Sink>(
    link: &mut L,
    file: &FileToRead<'_>,
    end: u64,
    at: &mut u64,
    out: &mut K,
) -> Result<(), ClientEnd>
    requires below { at.old < file.now.size }
    requires within { at.old < end }
    requires piece { IsInPiece file.now.size at.old end }
    ensures piece { OnOk result (IsInPiece file.now.size at.new end) }
    ensures more { OnOk result (at.old < at.new) }
    ensures ok { OnOk result ((from : ℕ) (xids : List ℕ) → ReadsOn L.relations file.now.uid file.now.gid file.now.handle.now file.now.size at.old from xids at.new from xids
        (L.at link.old) (L.at link.new) (K.taken out.old) (K.taken out.new)) }
    ensures err { IfErr result (λ why. (from : ℕ) (xids : List ℕ) → EndsSo L.relations file.now.uid file.now.gid file.now.handle.now file.now.size at.old from xids xids
        (L.at link.old) (L.at link.new) (K.taken out.old) (K.taken out.new) (Err why)) }
    ensures tickets { KeepsTicketsOver L.relations (L.at link.old) (L.at link.new) }
    ensures out_faults { OutputFaults result (K.faults out.old) (K.faults out.new) }
    ensures faults { CountsFaultsOver L.relations result (L.at link.old) (L.at link.new) }
{
    let count = piece_left(file.size, *at);
    let outcome = match outcome_of(
        link,
        read_call(file.alloc, file.uid, file.gid, file.handle, *at, count),
    ) {
        Ok(outcome) => outcome,
        Err(end) => return Err(end),
    };
    let step = match write_data(file.alloc, outcome, count, out) {
        Ok(step) => step,
        Err(end) => return Err(end),
    };
    *at += step as u64;
    Ok(())
}

/// READs of the rest of a piece, one after another.
fn read_rest<L: Calls, K: Sink>(
    link: &mut L,
    file: &FileToRead<'_>,
    end: u64,
    at: &mut u64,
    out: &mut K,
) -> Result<(), ClientEnd>
    requires within { end ≤ file.now.size }
    requires piece { IsInPiece file.now.size at.old end }
    ensures end { OnOk result (at.new ≡ end) }
    ensures ok { OnOk result ((from : ℕ) (xids : List ℕ) → ReadsOn L.relations file.now.uid file.now.gid file.now.handle.now file.now.size at.old from xids at.new from xids
        (L.at link.old) (L.at link.new) (K.taken out.old) (K.taken out.new)) }
    ensures err { IfErr result (λ why. (from : ℕ) (xids : List ℕ) → EndsSo L.relations file.now.uid file.now.gid file.now.handle.now file.now.size at.old from xids xids
        (L.at link.old) (L.at link.new) (K.taken out.old) (K.taken out.new) (Err why)) }
    ensures tickets { KeepsTicketsOver L.relations (L.at link.old) (L.at link.new) }
    ensures out_faults { OutputFaults result (K.faults out.old) (K.faults out.new) }
    ensures faults { CountsFaultsOver L.relations result (L.at link.old) (L.at link.new) }
{
    'rest: while *at < end {
        match read_on(link, file, end, at, out) {
            Ok(()) => {}
            Err(why) => return Err(why),
        }
    }
    Ok(())
}

/// The oldest READ is answered, and the rest of its piece is read, while READs of later pieces are outstanding.
fn read_piece<L: Calls, K: Sink>(
    link: &mut L,
    file: &FileToRead<'_>,
    at: &mut u64,
    next: &mut u64,
    tickets: &mut Vec<Ticket>,
    out: &mut K,
) -> Result<(), ClientEnd>
    requires below { at.old < file.now.size }
    requires ahead { ReadsAhead L.relations (L.at link.old) file.now.size at.old next.old tickets.old.items }
    ensures open { AreOpen L.relations (L.at link.new) tickets.new.items }
    ensures more { OnOk result (at.old < at.new) }
    ensures ahead { OnOk result (ReadsAhead L.relations (L.at link.new) file.now.size at.new next.new tickets.new.items) }
    ensures ok { OnOk result (ReadsOn L.relations file.now.uid file.now.gid file.now.handle.now file.now.size at.old at.old tickets.old.items at.new at.new tickets.new.items
        (L.at link.old) (L.at link.new) (K.taken out.old) (K.taken out.new)) }
    ensures err { IfErr result (λ why. EndsSo L.relations file.now.uid file.now.gid file.now.handle.now file.now.size at.old at.old tickets.old.items tickets.new.items
        (L.at link.old) (L.at link.new) (K.taken out.old) (K.taken out.new) (Err why)) }
    ensures out_faults { OutputFaults result (K.faults out.old) (K.faults out.new) }
    ensures faults { CountsFaultsOver L.relations result (L.at link.old) (L.at link.new) }
{
    let end = *at + piece_left(file.size, *at) as u64;
    match fill(link, file, *at, next, tickets) {
        Ok(()) => {}
        Err(why) => return Err(why),
    }
    match take_oldest(file.alloc, link, file.size, at, tickets, out) {
        Ok(()) => {}
        Err(why) => return Err(why),
    }
    match read_rest(link, file, end, at, out) {
        Ok(()) => Ok(()),
        Err(why) => Err(why),
    }
}

/// Reads all pieces of a file of this size.
fn read_pieces<L: Calls, K: Sink>(
    link: &mut L,
    file: &FileToRead<'_>,
    tickets: &mut Vec<Ticket>,
    out: &mut K,
) -> Result<(), ClientEnd>
    requires { tickets.old.items ≡ [] }
    ensures open { AreOpen L.relations (L.at link.new) tickets.new.items }
    ensures ends { EndsSo L.relations file.now.uid file.now.gid file.now.handle.now file.now.size 0 0 [] tickets.new.items
        (L.at link.old) (L.at link.new) (K.taken out.old) (K.taken out.new) result }
    ensures out_faults { OutputFaults result (K.faults out.old) (K.faults out.new) }
    ensures faults { CountsFaultsOver L.relations result (L.at link.old) (L.at link.new) }
{
    let mut at = 0;
    let mut next = 0;
    'pieces: while at < file.size {
        match read_piece(link, file, &mut at, &mut next, tickets, out) {
            Ok(()) => {}
            Err(why) => return Err(why),
        }
    }
    Ok(())
}

/// Reads a file into an output.
pub(crate) fn read_file_over<L: Calls, K: Sink>(
    alloc: Global,
    link: &mut L,
    uid: u32,
    gid: u32,
    file: &Handle,
    out: &mut K,
) -> Result<(), ClientEnd>
    ensures reads { ReadsFileOver L.relations uid gid file.now (L.at link.old) (L.at link.new) (K.taken out.old) (K.taken out.new) result }
    ensures out_faults { OutputFaults result (K.faults out.old) (K.faults out.new) }
    ensures faults { CountsFaultsOver L.relations result (L.at link.old) (L.at link.new) }
{
    let call = getattr_call(alloc, uid, gid, file);
    let attributes = match ask_nfs::<L, Attributes, ()>(alloc, link, call) {
        Ok(attributes) => attributes,
        Err(end) => return Err(end),
    };
    let file = FileToRead {
        alloc,
        uid,
        gid,
        handle: file,
        size: attributes.size,
        jobs: 1,
    };
    let mut tickets = Vec::new(alloc);
    let result = read_pieces(link, &file, &mut tickets, out);
    forget_all(link, &mut tickets);
    result
}
