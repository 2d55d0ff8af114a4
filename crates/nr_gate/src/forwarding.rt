//! Calls of a connection that are forwarded over a shared requester.

ghost use Rattle.std.specs.Prelude.{◌≡◌, ◌<◌, ◌^◌, [], IfErr, IfNone, IfOk, IfSome, List, ℕ, length};
ghost use Rattle.nr_rpc.specs.Credential.{CanWriteCred};
ghost use Rattle.nr_rpc.specs.Reply.{reply_encoding};
ghost use Rattle.nr_rpc.specs.declared.head.ReplyHead.TheVariants as replies;
ghost use Rattle.nr_turnstile.specs.Passes.{seen_by};
ghost use Rattle.nr_shared.specs.Sharing.{SharedRests};
ghost use Rattle.nr_gate.specs.Forwarding.{Asks, with_xid};
ghost use Rattle.nr_gate.specs.Gating.{Gates, IsForwarded, IsUnfit};
ghost use Rattle.nr_gate.specs.private.Forwarded.{FailsSo, HasNone, RepliesWith, failure_at, kept_end};

use crate::asking::{RecordCall, read_record};
use crate::gate_end::GateEnd;
use nr_links::{LinkSink, LinkSource};
use nr_record_loop::{Answers, NoReply};
use nr_reduce::{Call, Form, Outcome};
use nr_requester::Done;
use nr_rpc::{RPC_VERSION, ReplyHead, write_reply};
use nr_shared::{AnyCall, CallEnd, Pass, SharedRequester};
use nr_xdr::Octets;
use std::alloc::Global;
use std::sync::Wait;

/// The length of an xid in bytes.
const XID_LEN: usize = 4;

/// A reply has fewer bytes than this, so that it can be one fragment (RFC 5531 section 11).
const REPLY_LIMIT: usize = 2147483648;

/// Why a call that was read has no reply.
#[derive(Clone, Copy)]
pub(crate) enum Failure {
    /// Memory ran out.
    Memory,
    /// Its remote call made this end.
    Ended(GateEnd),
}

/// The shared requester, with the pass of a connection and the end that the last remote call made.
#[derive(Drop)]
pub(crate) struct ForwardedCalls<'a, I: LinkSource + Drop, O: LinkSink + Drop, R> {
    pub(crate) rt: &'a R,
    pub(crate) remote: &'a SharedRequester<I, O, AnyCall>,
    pub(crate) pass: &'a mut Pass<I, O, AnyCall>,
    pub(crate) ended: Option<GateEnd>,
}

impl<'a, I: LinkSource + Drop, O: LinkSink + Drop, R: Wait> Answers
    for ForwardedCalls<'a, I, O, R> {
    ghost did = { λ p q xs more. Gates (kept_end q.ended) p.pass.now.main q.pass.now.main xs more };

    ghost rests = { λ p. SharedRests p.remote.now p.pass.now };

    ghost same = { λ p q. (q.remote.now ≡ p.remote.now) × ((q.pass.ghost_name ≡ p.pass.ghost_name) × (seen_by q.pass.now.source ≡ seen_by p.pass.now.source)) };

    /// Forwards the call, or answers it at once if it is of another version of RPC.
    fn reply(&mut self, alloc: Global, call: &[u8]) -> Result<Octets, NoReply> {
        let (xid, asked) = match read_record(alloc, call) {
            Ok(RecordCall::Version2 { xid, asked }) => (xid, asked),
            Ok(RecordCall::Other { xid }) => return mismatch(alloc, xid),
            Err(reason) => return Err(reason),
        };
        match forward(self.rt, alloc, self.remote, self.pass, xid, asked) {
            Ok(reply) => Ok(reply),
            Err(Failure::Memory) => Err(NoReply::Memory),
            Err(Failure::Ended(end)) => {
                self.ended = Some(end);
                Err(NoReply::Other)
            }
        }
    }
}

/// The reply to a call of another version of RPC, which is denied (RFC 5531 section 9).
fn mismatch(alloc: Global, xid: u32) -> Result<Octets, NoReply>
    ensures ok { IfOk result (λ reply. reply ≡ reply_encoding (replies.RpcMismatch xid 2 2) []) }
    ensures limit { IfOk result (λ reply. length reply < 2 ^ 31) }
    ensures err { IfErr result (λ reason. reason ≡ NoReply.Memory) }
{
    let head = ReplyHead::RpcMismatch {
        xid,
        low: RPC_VERSION,
        high: RPC_VERSION,
    };
    match write_reply(alloc, &head, &[]) {
        Ok(reply) => Ok(reply),
        Err(_) => Err(NoReply::Memory),
    }
}

/// A reply with this xid as its first word. `None` only if the reply has fewer than four bytes and memory ran out, or if it
/// has 2^31 bytes or more: no message carries such a reply.
fn with_own_xid(alloc: Global, reply: Octets, xid: u32) -> Option<Octets>
    ensures some { IfSome result (λ own. own ≡ with_xid xid reply) }
    ensures limit { IfSome result (λ own. length own < 2 ^ 31) }
    ensures none { IfNone result (IsUnfit reply) }
{
    let first = xid.to_be_bytes();
    if reply.len() < XID_LEN {
        match Octets::from_slice(alloc, &first) {
            Ok(own) => return Some(own),
            Err(_) => return None,
        }
    }
    if reply.len() >= REPLY_LIMIT {
        return None;
    }
    let mut own = reply;
    own.overwrite(0, &first);
    Some(own)
}

/// The failure that an end of the remote call makes.
fn failure_of(end: CallEnd) -> Failure
    ensures { result ≡ failure_at end }
{
    match end {
        CallEnd::Memory => Failure::Memory,
        end => Failure::Ended(GateEnd::Remote(end)),
    }
}

/// The reply to the call of a record, by the outcome of its remote call.
fn reply_of(alloc: Global, done: Done, xid: u32) -> Result<Octets, Failure>
    ensures ok { IfOk result (RepliesWith done.outcome xid) }
    ensures limit { IfOk result (λ reply. length reply < 2 ^ 31) }
    ensures err { IfErr result (HasNone done.outcome) }
{
    let Done {
        call,
        buffers,
        outcome,
    } = done;
    drop(call);
    drop(buffers);
    match outcome {
        Outcome::Reply(payload) => match with_own_xid(alloc, payload, xid) {
            Some(own) => Ok(own),
            None => Err(Failure::Memory),
        },
        Outcome::Chunk => Err(Failure::Ended(GateEnd::Chunk)),
        Outcome::Version { low, high } => Err(Failure::Ended(GateEnd::Version { low, high })),
    }
}

/// Forwards a call of RPC version 2, and waits for its reply, which gets this xid.
fn forward<I: LinkSource + Drop, O: LinkSink + Drop, R: Wait>(
    rt: &R,
    alloc: Global,
    remote: &SharedRequester<I, O, AnyCall>,
    pass: &mut Pass<I, O, AnyCall>,
    xid: u32,
    asked: Call,
) -> Result<Octets, Failure>
    requires writable { CanWriteCred asked.cred }
    requires rests { SharedRests remote.now pass.old }
    ensures rests { SharedRests remote.now pass.new }
    ensures source { seen_by pass.new.source ≡ seen_by pass.old.source }
    ensures ok { IfOk result (λ reply. (bytes : List ℕ) → Asks bytes xid asked → IsForwarded pass.old.main pass.new.main bytes reply) }
    ensures limit { IfOk result (λ reply. length reply < 2 ^ 31) }
    ensures err { IfErr result (λ failure. (bytes : List ℕ) → Asks bytes xid asked → FailsSo failure pass.old.main pass.new.main bytes) }
{
    let done = match remote.call(rt, pass, asked, Form::Auto) {
        Ok(done) => done,
        Err(end) => return Err(failure_of(end)),
    };
    match reply_of(alloc, done, xid) {
        Ok(reply) => Ok(reply),
        Err(failure) => Err(failure),
    }
}
