//! Calls of clients that have a number: each change takes effect once.

ghost use Rattle.std.specs.Prelude.{◌≡◌, ◌≢◌, ◌≤◌, List, [], false, length, vec_capacity, IsOk, IfOk, IfErr, OnErr};
ghost use Rattle.nr_cache.specs.Caches.{found_by};
ghost use Rattle.nr_cache.specs.Entries.Finding.{NewCall};
ghost use Rattle.nr_rpc.specs.Reading.{call_of, head_xid};
ghost use Rattle.nr_plain.specs.Setup.{Setup};
ghost use Rattle.nr_plain.specs.History.{xid_in};
ghost use Rattle.nr_rpc.specs.declared.head.CallHead.{CallHead};
ghost use Rattle.nr_plain.specs.Numbered.{AnswersAreThoseOfRuns, AnswersFor, ChangesOnce, EntriesHaveCalls, FindingIsStanding, FirstRepliesAreKept, IsNumberedCause, IsSameButRoom, LeavesServer, OldCallsAreOld, RepresentsTagged, is_changing, may_change, may_change_by};
ghost use Rattle.nr_plain.specs.Journal.{nfs_procedure_of};
ghost use Rattle.nr_plain.specs.ReplySizes.{any_reply_max};
ghost use Rattle.nr_plain.specs.Stands.{IsCause};
ghost use Rattle.nr_reduce.specs.declared.mark.TaggedEntry.{TaggedEntry};
ghost use Rattle.nr_plain.specs.declared.fault.Fault.TheVariants as faults;

use crate::dispatch::only_reads;
use crate::fault::Fault;
use crate::server::{Reply, Server};
use nr_nfs_base::{NFS_PROGRAM, NFS_VERSION, NfsProcedure, Numbered};
use nr_outside::Moment;
use nr_rpc::{CallHead, HeadFault, read_call};
use nr_xdr::{Memory, Octets};
use std::alloc::Global;

/// What decides how a call is handled: its xid, and whether it is of a procedure that changes the tree.
#[derive(Clone, Copy)]
struct Asked {
    xid: u32,
    changes: bool,
}

/// The longest reply of a change, in bytes.
const CHANGE_REPLY_MAX: usize = 304;

/// What a call with this head asks.
fn asked_by(head: &CallHead) -> Asked
    ensures xid { result.xid ≡ head_xid head.now }
    ensures changes { result.changes ≡ may_change_by head.now }
{
    match head {
        CallHead::Other { xid, .. } => Asked {
            xid: *xid,
            changes: false,
        },
        CallHead::Version2 {
            xid,
            prog,
            vers,
            proc,
            ..
        } => Asked {
            xid: *xid,
            changes: *prog == NFS_PROGRAM && *vers == NFS_VERSION && is_changing(*proc),
        },
    }
}

/// Whether the procedure of NFS with this number changes the tree (RFC 1813 section 3.3).
fn is_changing(proc: u32) -> bool
    ensures { result ≡ is_changing (nfs_procedure_of proc) }
{
    match NfsProcedure::from_number(proc) {
        Some(p) => !only_reads(p),
        None => false,
    }
}

/// What a call asks.
fn read_asked(alloc: Global, payload: &[u8]) -> Result<Asked, Fault>
    ensures xid { IfOk result (λ a. a.xid ≡ xid_in payload.now) }
    ensures changes { IfOk result (λ a. a.changes ≡ may_change (call_of payload.now)) }
    ensures call { IfOk result (λ _. IsOk (call_of payload.now)) }
    ensures cause { IfErr result (λ e. IsCause e (call_of payload.now)) }
{
    let head = match read_call(alloc, payload) {
        Ok(head) => head,
        Err(HeadFault::NotCall { at }) => return Err(Fault::NotCall { at }),
        Err(_) => return Err(Fault::Memory),
    };
    let asked = asked_by(&head);
    drop(head);
    Ok(asked)
}

/// Room for the reply of a change.
fn reply_room(alloc: Global) -> Result<Vec<u8>, Memory>
    ensures { IfOk result (λ room. (room.items ≡ []) × (CHANGE_REPLY_MAX ≤ vec_capacity room)) }
{
    Ok(Vec::with_capacity(alloc, CHANGE_REPLY_MAX)?)
}

/// The bytes of a reply, in room that was taken before.
fn filled(mut room: Vec<u8>, reply: &[u8]) -> Octets
    requires empty { room.items ≡ [] }
    requires fits { length reply.now ≤ vec_capacity room }
    ensures { result ≡ reply.now }
{
    let _ = room.extend_from_slice(reply);
    Octets::from_vec(room)
}

impl Server {
    /// Answers a call of the client with this number, 0 if it has none. A call without a number, and one that is new, is
    /// executed, as [`Server::execute`] does. Of a change that was made under the call's xid before, the reply and the place
    /// are given again, and nothing changes. So each change of a client with a number takes effect once.
    ///
    /// # Errors
    ///
    /// [`Fault::NotCall`] only if the payload has no call head; [`Fault::Old`] only if it has one whose xid
    /// is 64 or more below the largest one of the client's changes; [`Fault::Memory`].
    pub fn execute_for(
        &mut self,
        alloc: Global,
        client: u64,
        now: Moment,
        payload: &[u8],
    ) -> Result<Reply, Fault>
        // So an old call gets no reply.
        ensures answered { IfOk result (λ r. (s : Setup) (T : List TaggedEntry) → RepresentsTagged s T self.old → AnswersFor s T client now payload.now r.payload r.place self.old self.new) }
        ensures call { IfOk result (λ _. IsOk (call_of payload.now)) }
        ensures limit { IfOk result (λ r. length r.payload ≤ any_reply_max) }
        ensures cause { IfErr result (λ e. (s : Setup) (T : List TaggedEntry) → RepresentsTagged s T self.old → IsNumberedCause s T client payload.now e) }
        ensures err { IfErr result (λ e. LeavesServer e self.old self.new) }
        // Room for the replies of a client is made for a change alone, and only if the client has a number.
        ensures room { may_change (call_of payload.now) ≡ false → self.new.cache ≡ self.old.cache }
        ensures unnumbered { client ≡ 0 → self.new.cache ≡ self.old.cache }
    {
        if client == 0 {
            return self.execute_now(alloc, now, payload);
        }
        let asked = read_asked(alloc, payload)?;
        if let Some(reply) = self.remembered(alloc, client, asked.xid)? {
            return Ok(reply);
        }
        if !asked.changes {
            return self.execute_now(alloc, now, payload);
        }
        self.execute_change(alloc, client, asked.xid, now, payload)
    }

    /// Executes a new call of a client with a number, which may be a change, and keeps its reply then.
    fn execute_change(
        &mut self,
        alloc: Global,
        client: u64,
        xid: u32,
        now: Moment,
        payload: &[u8],
    ) -> Result<Reply, Fault>
        requires number { client ≢ 0 }
        requires call { IsOk (call_of payload.now) }
        requires xid { xid ≡ xid_in payload.now }
        requires new { found_by self.old.cache client xid ≡ NewCall }
        ensures answered { IfOk result (λ r. (s : Setup) (T : List TaggedEntry) → RepresentsTagged s T self.old → AnswersFor s T client now payload.now r.payload r.place self.old self.new) }
        ensures limit { IfOk result (λ r. length r.payload ≤ any_reply_max) }
        ensures cause { IfErr result (λ e. e ≡ faults.Memory) }
        ensures err { OnErr result (IsSameButRoom self.old self.new) }
    {
        self.make_ready(alloc, client)?;
        let room = reply_room(alloc)?;
        let reply = self.execute_now(alloc, now, payload)?;
        if self.count() > reply.place {
            let kept = filled(room, reply.payload.as_slice());
            self.keep(client, xid, reply.place, kept);
        }
        Ok(reply)
    }
}

/// Over any list of calls, no two entries of the journal have the same client other than 0 and the same xid.
pub fn changes_once()
    ensures { ChangesOnce }
{}

/// A kept call gets the place and the reply that its change got.
pub fn first_replies_are_kept()
    ensures { FirstRepliesAreKept }
{}

/// What a call is found to be is what it is by the entries of a run, and the reply of a kept call is the one that its
/// entry has in a run, since the calls of all entries can be encoded.
pub fn finding_is_standing()
    ensures standing { FindingIsStanding }
    ensures calls { EntriesHaveCalls }
{}

/// What [`Server::execute_for`] answers to a call is what a run asks of it, and a call that it finds old is old in a run.
pub fn answers_are_those_of_runs()
    ensures answered { AnswersAreThoseOfRuns }
    ensures old { OldCallsAreOld }
{}
