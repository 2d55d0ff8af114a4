//! A mark as it is kept, and as it is read.

ghost use Rattle.std.specs.Prelude.{◌≡◌, ℕ, List};
ghost use Rattle.nr_reduce.specs.declared.call.Outcome.TheVariants as outcomes;
ghost use Rattle.nr_marks.specs.declared.kept.Kept.TheVariants as kinds;
ghost use Rattle.nr_marks.specs.Views.{mark_seen, submit_link, outcome_len, mark_len as len_of_mark};
ghost use Rattle.nr_marks.specs.KeptMarks.{mark_of, IsKept, own_len as len_of_own};

use crate::stores::{ByteStores, Piece};
use nr_outside::Moment;
use nr_reduce::{Boxed, Mark, Outcome};
use nr_wire::Side;

/// A call without a credential that was sent in the Auto form, and accepted.
#[derive(Clone, Copy)]
pub(crate) struct KeptCall {
    pub(crate) prog: u32,
    pub(crate) vers: u32,
    pub(crate) proc: u32,
    pub(crate) xid: u32,
    pub(crate) args: Piece,
}

/// An execution.
#[derive(Clone, Copy)]
pub(crate) struct KeptExecution {
    pub(crate) link: u32,
    pub(crate) xid: u32,
    pub(crate) moment: Moment,
    pub(crate) place: u64,
    pub(crate) payload: Piece,
    pub(crate) reply: Piece,
}

/// A mark, without its bytes.
#[derive(Drop)]
pub(crate) enum Kept {
    Submit { link: u32, call: Boxed<KeptCall> },
    Wrote { link: u32, side: Side, bytes: Piece },
    Fed { link: u32, side: Side, bytes: Piece },
    Execute(Boxed<KeptExecution>),
    Done { link: u32, xid: u32, reply: Piece },
    Other(Boxed<Mark>),
}

/// A mark that is read: what it says, and its bytes where they are kept.
#[derive(Clone, Copy)]
pub enum MarkView<'a> {
    /// The client was given a call without a credential, in the Auto form, and sent it under this xid.
    Submit {
        link: u32,
        prog: u32,
        vers: u32,
        proc: u32,
        xid: u32,
        args: &'a [u8],
    },
    /// A side wrote bytes.
    Wrote {
        link: u32,
        side: Side,
        bytes: &'a [u8],
    },
    /// A side was fed bytes.
    Fed {
        link: u32,
        side: Side,
        bytes: &'a [u8],
    },
    /// The server executed a call.
    Execute {
        link: u32,
        xid: u32,
        moment: Moment,
        payload: &'a [u8],
        place: u64,
        reply: &'a [u8],
    },
    /// The client handed over a call's reply.
    Done {
        link: u32,
        xid: u32,
        reply: &'a [u8],
    },
    /// Any other mark.
    Other(&'a Mark),
}

fn execution_view<'a>(stores: &'a ByteStores, of: &KeptExecution) -> MarkView<'a>
    requires { IsKept stores.now (kinds.Execute of.now) }
    ensures { mark_seen result ≡ mark_of stores.now (kinds.Execute of.now) }
{
    MarkView::Execute {
        link: of.link,
        xid: of.xid,
        moment: of.moment,
        payload: stores.bytes(of.payload),
        place: of.place,
        reply: stores.bytes(of.reply),
    }
}

fn call_view<'a>(stores: &'a ByteStores, link: u32, of: &KeptCall) -> MarkView<'a>
    requires { IsKept stores.now (kinds.Submit link of.now) }
    ensures { mark_seen result ≡ mark_of stores.now (kinds.Submit link of.now) }
{
    MarkView::Submit {
        link,
        prog: of.prog,
        vers: of.vers,
        proc: of.proc,
        xid: of.xid,
        args: stores.bytes(of.args),
    }
}

/// A kept mark, with its bytes.
pub(crate) fn view_of<'a>(stores: &'a ByteStores, kept: &'a Kept) -> MarkView<'a>
    requires { IsKept stores.now kept.now }
    ensures { mark_seen result ≡ mark_of stores.now kept.now }
{
    match kept {
        Kept::Submit { link, call } => call_view(stores, *link, call.get()),
        Kept::Wrote { link, side, bytes } => MarkView::Wrote {
            link: *link,
            side: *side,
            bytes: stores.bytes(*bytes),
        },
        Kept::Fed { link, side, bytes } => MarkView::Fed {
            link: *link,
            side: *side,
            bytes: stores.bytes(*bytes),
        },
        Kept::Execute(of) => execution_view(stores, of.get()),
        Kept::Done { link, xid, reply } => MarkView::Done {
            link: *link,
            xid: *xid,
            reply: stores.bytes(*reply),
        },
        Kept::Other(mark) => MarkView::Other(mark.get()),
    }
}

/// The link of a mark, if it is a call line.
fn link_of_submit(mark: &Mark) -> Option<u32>
    ensures { result ≡ submit_link mark.now }
{
    match mark {
        Mark::Submit { link, .. } => Some(*link),
        _ => None,
    }
}

/// The link of a kept mark, if it is a call line.
pub(crate) fn submit_link_of(kept: &Kept) -> Option<u32>
    ensures { (stores : List (List ℕ)) → result ≡ submit_link (mark_of stores kept.now) }
{
    match kept {
        Kept::Submit { link, .. } => Some(*link),
        Kept::Other(mark) => link_of_submit(mark.get()),
        _ => None,
    }
}

/// The bytes of an outcome.
fn reply_len(outcome: &Outcome) -> u128
    ensures { result ≡ outcome_len outcome.now }
{
    match outcome {
        Outcome::Reply(reply) => reply.len() as u128,
        Outcome::Chunk => 0,
        Outcome::Version { .. } => 0,
    }
}

/// The bytes of a mark: its byte strings, and of a call line its arguments with the call head before them.
pub(crate) fn mark_len(mark: &Mark) -> u128
    ensures { result ≡ len_of_mark mark.now }
{
    match mark {
        Mark::Submit { call, .. } => 40 + call.get().args.len() as u128,
        Mark::Wrote { bytes, .. } => bytes.len() as u128,
        Mark::Fed { bytes, .. } => bytes.len() as u128,
        Mark::Execute { payload, reply, .. } => payload.len() as u128 + reply.len() as u128,
        Mark::Done { outcome, .. } => reply_len(outcome),
        Mark::Lost { .. } => 0,
        Mark::Forget { .. } => 0,
        Mark::Revoke { bytes, .. } => bytes.len() as u128,
        Mark::Drop { .. } | Mark::Told { .. } => 0,
    }
}

/// The bytes that a kept mark has of its own.
pub(crate) fn own_len(kept: &Kept) -> u128
    ensures { result ≡ len_of_own kept.now }
{
    match kept {
        Kept::Other(mark) => mark_len(mark.get()),
        _ => 0,
    }
}
