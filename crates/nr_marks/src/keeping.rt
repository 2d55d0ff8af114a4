//! Marks that are put into the form in which they are kept.

ghost use Rattle.std.specs.Prelude.{◌≡◌, ◌+◌, ◌≤◌, length, IfOk, IfSome, OnOk, IsTrue};
ghost use Rattle.nr_rpc.specs.declared.cred.Cred.TheVariants as creds;
ghost use Rattle.nr_reduce.specs.declared.call.Form.TheVariants as forms;
ghost use Rattle.nr_reduce.specs.declared.call.Outcome.TheVariants as outcomes;
ghost use Rattle.nr_reduce.specs.declared.call.Submission.TheVariants as submissions;
ghost use Rattle.nr_reduce.specs.declared.mark.Mark.TheVariants as marks;
ghost use Rattle.nr_marks.specs.Pieces.{Grows, Holds, stored_len};
ghost use Rattle.nr_marks.specs.Views.{mark_len, is_written_next};
ghost use Rattle.nr_marks.specs.KeptMarks.{Keeps, AddsFew, own_len};

use crate::kept::{Kept, KeptCall, KeptExecution};
use crate::stores::{
    ByteStores, Cursor, OTHERS, Piece, REACH, before_end, payload_slot, reply_slot, store_of,
};
use nr_outside::Moment;
use nr_reduce::{Boxed, Call, Form, Mark, Outcome, Submission};
use nr_rpc::Cred;
use nr_wire::Side;
use nr_xdr::{Memory, Octets};
use std::alloc::Global;

/// The bytes of a call head without a credential (RFC 5531 section 9).
const CALL_HEAD: usize = 40;

/// The bytes of the arguments of a WRITE before its data.
const ARGS_START: usize = 32;

/// Keeps bytes that a side was fed: the next ones that the other side wrote.
fn keep_fed(
    alloc: Global,
    stores: &mut ByteStores,
    link: u32,
    side: Side,
    bytes: &[u8],
) -> Result<Option<Kept>, Memory>
    ensures grows { Grows stores.old stores.new }
    ensures keeps { IfOk result (λ o. IfSome o (λ kept. Keeps stores.new kept (marks.Fed link side bytes.now))) }
    ensures size { IfOk result (AddsFew stores.old stores.new (length bytes.now)) }
{
    let store = store_of(link, side.peer());
    let Cursor { fed, read } = stores.cursor(store);
    let bytes = stores.refer(alloc, store, (fed, fed), bytes)?;
    let fed = if bytes.store == store {
        bytes.at.saturating_add(bytes.len as usize)
    } else {
        fed.saturating_add(bytes.len as usize)
    };
    stores.set_cursor(store, Cursor { fed, read });
    Ok(Some(Kept::Fed { link, side, bytes }))
}

/// Keeps the payload of a call, or a reply, that is looked for in what a side of a link was fed.
fn keep_read(
    alloc: Global,
    stores: &mut ByteStores,
    store: u32,
    bytes: &[u8],
) -> Result<Piece, Memory>
    ensures grows { Grows stores.old stores.new }
    ensures piece { IfOk result (λ piece. Holds stores.new piece bytes.now) }
    ensures size { OnOk result (stored_len stores.new ≤ stored_len stores.old + length bytes.now) }
{
    let Cursor { fed, read } = stores.cursor(store);
    let piece = stores.refer(alloc, store, (read, before_end(fed, bytes.len())), bytes)?;
    if piece.store == store {
        let read = piece.at.saturating_add(piece.len as usize);
        stores.set_cursor(store, Cursor { fed, read });
    }
    Ok(piece)
}

/// Keeps a reply that a server has just written: in the last FPDU, or in the one before it.
fn keep_written(
    alloc: Global,
    stores: &mut ByteStores,
    store: u32,
    bytes: &[u8],
) -> Result<Piece, Memory>
    ensures grows { Grows stores.old stores.new }
    ensures piece { IfOk result (λ piece. Holds stores.new piece bytes.now) }
    ensures size { OnOk result (stored_len stores.new ≤ stored_len stores.old + length bytes.now) }
{
    let last = before_end(stores.len_of(store), bytes.len());
    stores.refer(alloc, store, (last, last.saturating_sub(REACH)), bytes)
}

/// Whether a call has no credential.
fn has_no_cred(call: &Call) -> bool
    ensures { IsTrue result → call.now.cred ≡ creds.None }
{
    match &call.cred {
        Cred::None => true,
        _ => false,
    }
}

/// Whether a form is Auto.
fn is_auto(form: &Form) -> bool
    ensures { IsTrue result → form.now ≡ forms.Auto }
{
    match form {
        Form::Auto => true,
        _ => false,
    }
}

/// Appends the call head that a client has just written to store 0, if the bytes after it are the first ones of these arguments.
#[tactic(auto, using(crate::proofs::Growing::grows_same))]
fn copy_head(alloc: Global, stores: &mut ByteStores, store: u32, args: &[u8]) -> Result<(), Memory>
    ensures grows { Grows stores.old stores.new }
    ensures size { OnOk result (stored_len stores.new ≤ stored_len stores.old + 40) }
{
    if args.len() < ARGS_START {
        return Ok(());
    }
    let from = before_end(stores.len_of(store), ARGS_START);
    let Some(start) = stores.find(store, from, &args[..ARGS_START]) else {
        return Ok(());
    };
    if start.at < CALL_HEAD {
        return Ok(());
    }
    let head = Piece {
        store: start.store,
        at: start.at - CALL_HEAD,
        len: CALL_HEAD as u32,
    };
    let head = Octets::from_slice(alloc, stores.bytes(head))?;
    match stores.append(alloc, OTHERS, head.as_slice()) {
        Ok(_) => Ok(()),
        Err(memory) => Err(memory),
    }
}

/// Keeps the arguments of a call that was written just now. If they cross the link in parts, the call head is put before them, so that the
/// payload is a piece too.
#[tactic(auto, using(crate::proofs::Growing::grows_same, crate::proofs::Growing::grows_trans))]
fn keep_args(
    alloc: Global,
    stores: &mut ByteStores,
    link: u32,
    args: &[u8],
) -> Result<Piece, Memory>
    ensures grows { Grows stores.old stores.new }
    ensures piece { IfOk result (λ piece. Holds stores.new piece args.now) }
    ensures size { OnOk result (stored_len stores.new ≤ stored_len stores.old + (40 + length args.now)) }
{
    let store = store_of(link, Side::Initiator);
    let from = before_end(stores.len_of(store), args.len());
    if let Some(piece) = stores.find(store, from, args) {
        return Ok(piece);
    }
    copy_head(alloc, stores, store, args)?;
    stores.append(alloc, OTHERS, args)
}

/// Keeps an accepted call, if it has no credential and its form is Auto.
#[tactic(auto, using(crate::proofs::Growing::grows_same))]
fn keep_call(
    alloc: Global,
    stores: &mut ByteStores,
    link: u32,
    call: &Call,
    form: &Form,
    xid: u32,
) -> Result<Option<Kept>, Memory>
    ensures grows { Grows stores.old stores.new }
    ensures keeps { IfOk result (λ o. IfSome o (λ kept. Keeps stores.new kept (marks.Submit link call.now form.now (submissions.Accepted xid)))) }
    ensures size { IfOk result (AddsFew stores.old stores.new (40 + length call.now.args)) }
{
    if !has_no_cred(call) {
        return Ok(None);
    }
    if !is_auto(form) {
        return Ok(None);
    }
    let args = keep_args(alloc, stores, link, call.args.as_slice())?;
    let payload = Piece {
        store: args.store,
        at: args.at.saturating_sub(CALL_HEAD),
        len: 0,
    };
    stores.note(payload_slot(link, xid), payload)?;
    let call = KeptCall {
        prog: call.prog,
        vers: call.vers,
        proc: call.proc,
        xid,
        args,
    };
    Ok(Some(Kept::Submit {
        link,
        call: Boxed::new(alloc, call)?,
    }))
}

/// Keeps an execution.
#[tactic(auto, using(crate::proofs::Growing::grows_same, crate::proofs::Growing::grows_trans, crate::proofs::Growing::holds_grown))]
fn keep_execution(
    alloc: Global,
    stores: &mut ByteStores,
    call: (u32, u32, u64),
    moment: Moment,
    payload: &[u8],
    reply: &[u8],
) -> Result<Option<Kept>, Memory>
    ensures grows { Grows stores.old stores.new }
    ensures keeps { IfOk result (λ o. IfSome o (λ kept. Keeps stores.new kept (marks.Execute call.0 call.1 moment payload.now call.2 reply.now))) }
    ensures size { IfOk result (AddsFew stores.old stores.new (length payload.now + length reply.now)) }
{
    let (link, xid, place) = call;
    let payload = match stores.noted(payload_slot(link, xid), payload) {
        Some(payload) => payload,
        None => keep_read(alloc, stores, store_of(link, Side::Initiator), payload)?,
    };
    let reply = keep_written(alloc, stores, store_of(link, Side::Responder), reply)?;
    stores.note(reply_slot(link, xid), reply)?;
    let execution = KeptExecution {
        link,
        xid,
        moment,
        place,
        payload,
        reply,
    };
    Ok(Some(Kept::Execute(Boxed::new(alloc, execution)?)))
}

/// Keeps bytes that a side wrote.
fn keep_wrote(
    alloc: Global,
    stores: &mut ByteStores,
    link: u32,
    side: Side,
    bytes: &[u8],
) -> Result<Option<Kept>, Memory>
    ensures grows { Grows stores.old stores.new }
    ensures keeps { IfOk result (λ o. IfSome o (λ kept. Keeps stores.new kept (marks.Wrote link side bytes.now))) }
    ensures size { IfOk result (AddsFew stores.old stores.new (length bytes.now)) }
{
    let bytes = stores.append(alloc, store_of(link, side), bytes)?;
    Ok(Some(Kept::Wrote { link, side, bytes }))
}

/// Keeps a reply that was handed over: that of the call's execution, if they are equal.
#[tactic(auto, using(crate::proofs::Growing::grows_same))]
fn keep_done(
    alloc: Global,
    stores: &mut ByteStores,
    link: u32,
    xid: u32,
    reply: &[u8],
) -> Result<Option<Kept>, Memory>
    ensures grows { Grows stores.old stores.new }
    ensures keeps { IfOk result (λ o. IfSome o (λ kept. Keeps stores.new kept (marks.Done link xid (outcomes.Reply reply.now)))) }
    ensures size { IfOk result (AddsFew stores.old stores.new (length reply.now)) }
{
    let reply = match stores.noted(reply_slot(link, xid), reply) {
        Some(reply) => reply,
        None => keep_read(alloc, stores, store_of(link, Side::Responder), reply)?,
    };
    Ok(Some(Kept::Done { link, xid, reply }))
}

/// Keeps a mark apart from its bytes, if it is of a kind that is kept so.
#[tactic(auto, using(crate::proofs::Growing::grows_same))]
fn keep_apart(alloc: Global, stores: &mut ByteStores, mark: &Mark) -> Result<Option<Kept>, Memory>
    ensures grows { Grows stores.old stores.new }
    ensures keeps { IfOk result (λ o. IfSome o (λ kept. Keeps stores.new kept mark.now)) }
    ensures size { IfOk result (AddsFew stores.old stores.new (mark_len mark.now)) }
{
    match mark {
        Mark::Submit {
            link,
            call,
            form,
            answer: Submission::Accepted { xid },
        } => keep_call(alloc, stores, *link, call.get(), form.get(), *xid),
        Mark::Wrote { link, side, bytes } => {
            keep_wrote(alloc, stores, *link, *side, bytes.as_slice())
        }
        Mark::Fed { link, side, bytes } => keep_fed(alloc, stores, *link, *side, bytes.as_slice()),
        Mark::Execute {
            link,
            xid,
            moment,
            payload,
            place,
            reply,
        } => keep_execution(
            alloc,
            stores,
            (*link, *xid, *place),
            *moment,
            payload.as_slice(),
            reply.as_slice(),
        ),
        Mark::Done {
            link,
            xid,
            outcome: Outcome::Reply(reply),
        } => keep_done(alloc, stores, *link, *xid, reply.as_slice()),
        _ => Ok(None),
    }
}

/// Keeps a mark.
pub(crate) fn keep(alloc: Global, stores: &mut ByteStores, mark: Mark) -> Result<Kept, Memory>
    ensures grows { Grows stores.old stores.new }
    ensures keeps { IfOk result (λ kept. Keeps stores.new kept mark) }
    ensures size { IfOk result (λ kept. stored_len stores.new + own_len kept ≤ stored_len stores.old + mark_len mark) }
{
    match keep_apart(alloc, stores, &mark) {
        Ok(Some(kept)) => {
            drop(mark);
            Ok(kept)
        }
        Ok(None) => Ok(Kept::Other(Boxed::new(alloc, mark)?)),
        Err(memory) => {
            drop(mark);
            Err(memory)
        }
    }
}

/// Whether a mark waits for the next one, whose bytes may be found to have its own: a call is written right after its call line, and a reply
/// right after its execution.
pub(crate) fn waits(mark: &Mark) -> bool
    ensures { result ≡ is_written_next mark.now }
{
    match mark {
        Mark::Submit { .. } | Mark::Execute { .. } => true,
        _ => false,
    }
}
