//! The journal's entry of a call.

ghost use Rattle.std.specs.Prelude.{◌≡◌, ◌+◌, ◌≤◌, IfOk};
ghost use Rattle.std.specs.Option.{option_to_list};
ghost use Rattle.nr_reduce.specs.declared.mark.Entry.{Entry};
ghost use Rattle.nr_plain.specs.private.Code.{IsHeadWithin};
ghost use Rattle.nr_plain.specs.Journal.{nfs_procedure_of};
ghost use Rattle.nr_plain.specs.Replies.{cred_refusal, entries_if};
ghost use Rattle.nr_plain.specs.Added.{entries_by_cred, entries_by_head, entries_by_procedure, entries_by_program, entries_of_call, has_succeeded, has_word, status_at};

use crate::dispatch::only_reads;
use crate::server::{cred_status, rest};
use nr_nfs_base::{NFS_PROGRAM, NFS_VERSION, NfsProcedure, Numbered};
use nr_outside::Moment;
use nr_reduce::Entry;
use nr_rpc::{CallHead, Cred, HeadFault, read_call};
use nr_xdr::{Memory, Octets};
use std::alloc::Global;

/// The bytes of a word that is 0.
const ZERO: [u8; 4] = [0; 4];

/// The offsets of the reply status, the accept status and the status of the results in a reply whose verifier is empty
/// (RFC 5531 section 9; RFC 1813 section 2.6).
const REPLY_STAT_AT: usize = 8;

const ACCEPT_STAT_AT: usize = 20;

const STATUS_AT: usize = 24;

/// Whether the word at an offset is 0.
#[tactic(auto, unfolding(nr_xdr::specs::Item::word))]
fn is_zero(bytes: &[u8], at: usize) -> bool
    requires { at ≤ status_at }
    ensures { result ≡ has_word at 0 bytes.now }
{
    match bytes.get(at..at + 4) {
        Some(word) => word == ZERO.as_slice(),
        None => false,
    }
}

/// Whether a reply says that its call was accepted and has results of status 0 (RFC 5531 section 9; RFC 1813 section
/// 2.6).
fn has_succeeded(reply: &[u8]) -> bool
    ensures { result ≡ has_succeeded reply.now }
{
    is_zero(reply, REPLY_STAT_AT) && is_zero(reply, ACCEPT_STAT_AT) && is_zero(reply, STATUS_AT)
}

/// Whether a call of this procedure of NFS with this reply is an entry.
fn is_change(proc: u32, reply: &[u8]) -> bool
    ensures { (e : Entry) → entries_by_procedure (nfs_procedure_of proc) reply.now e ≡ entries_if result e }
{
    match NfsProcedure::from_number(proc) {
        Some(p) => !only_reads(p) && has_succeeded(reply),
        None => false,
    }
}

/// Whether a call of RPC version 2 with this reply is an entry.
fn is_entry(prog: u32, vers: u32, proc: u32, cred: &Cred, reply: &[u8]) -> bool
    ensures { (e : Entry) → e.proc ≡ proc → entries_by_cred (cred_refusal cred.now) (entries_by_program prog vers reply.now e) ≡ entries_if result e }
{
    match cred_status(cred) {
        Some(_) => false,
        None => prog == NFS_PROGRAM && vers == NFS_VERSION && is_change(proc, reply),
    }
}

/// The entry of a call with this head.
fn entry_of_head(
    alloc: Global,
    moment: Moment,
    payload: &[u8],
    reply: &[u8],
    head: CallHead,
) -> Result<Option<Entry>, Memory>
    requires { IsHeadWithin payload.now head }
    ensures { IfOk result (λ entry. option_to_list entry ≡ entries_by_head moment payload.now reply.now head) }
{
    match head {
        CallHead::Other { .. } => Ok(None),
        CallHead::Version2 {
            prog,
            vers,
            proc,
            cred,
            args_at,
            ..
        } => {
            if !is_entry(prog, vers, proc, &cred, reply) {
                return Ok(None);
            }
            Ok(Some(Entry {
                moment,
                cred,
                proc,
                args: Octets::from_slice(alloc, rest(payload, args_at))?,
            }))
        }
    }
}

/// The entry that a call adds to the journal, by its payload, the moment of its execution and its reply. `None` if it
/// isn't a change that succeeded.
///
/// # Errors
///
/// [`Memory`] if memory ran out.
pub fn entry_of_call(
    alloc: Global,
    moment: Moment,
    payload: &[u8],
    reply: &[u8],
) -> Result<Option<Entry>, Memory>
    ensures { IfOk result (λ entry. option_to_list entry ≡ entries_of_call moment payload.now reply.now) }
{
    match read_call(alloc, payload) {
        Ok(head) => entry_of_head(alloc, moment, payload, reply, head),
        Err(HeadFault::NotCall { .. }) => Ok(None),
        Err(_) => Err(Memory),
    }
}
