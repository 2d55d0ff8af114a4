//! The parts of a call: what its head asks for, and its arguments. A head is read once, or not at all by who made it.

ghost use Rattle.std.specs.Prelude.{◌≡◌, ◌+◌, ◌^◌, ◌++◌, ◌<◌, ◌≤◌, length, Some, IfSome};
ghost use Rattle.nr_rpc.specs.Reading.{call_of, target_of};
ghost use Rattle.nr_rpc.specs.Call.{call_head, call_encoding, call_of_target};
ghost use Rattle.nr_rpc.specs.Credential.{CanWriteCred};
ghost use Rattle.nr_reduce.specs.Items.{from_place, ends_with_item, call_item, reducible_item};
ghost use Rattle.nr_reduce.specs.Largest.{largest_reply};
ghost use Rattle.nr_reduce.specs.Plans.{write_offer};
ghost use Rattle.nr_reduce.specs.CallOutlines.{parts_payload, IsCall, ArePartsOf};
ghost use Rattle.nr_reduce.specs.PlanSizes.{facts_of, ItemFits};
ghost use Rattle.nr_reduce.specs.declared.item.Of.TheVariants.{Call};

use crate::cutting::are_zeros;
use crate::item::{Item, argument_item};
use crate::largest::{REPLY_LIMIT_MIN, program_reply_max};
use crate::outline::argument_offer;
use crate::two_slices::from_offset;
use nr_rpc::{CallTarget, Cred, call_target, cred_fits};
use nr_xdr::{Reader, pad_len};

/// A call of RPC version 2 as its head and its arguments (RFC 5531 section 9).
#[derive(Clone, Copy)]
pub struct CallParts<'a> {
    /// What the head asks for. Its `args_at` is the length of the head.
    pub target: CallTarget,
    /// The payload up to the arguments.
    pub head: &'a [u8],
    /// The rest of the payload.
    pub args: &'a [u8],
}

/// What a plan depends on of a payload: its length, the most bytes of the reply, the bytes of the write chunk that it may offer,
/// and its item, if that can be cut.
#[derive(Clone, Copy)]
pub(crate) struct PayloadFacts {
    pub(crate) len: usize,
    pub(crate) largest: u32,
    pub(crate) offer: Option<u32>,
    pub(crate) item: Option<Item>,
}

/// The parts of a payload. `None` if and only if it begins with no call head of RPC version 2. Takes no memory.
pub fn call_parts(payload: &[u8]) -> Option<CallParts<'_>>
    ensures { ArePartsOf result payload.now }
{
    match call_target(payload) {
        Some(target) => {
            let (head, args) = payload.split_at(target.args_at);
            Some(CallParts { target, head, args })
        }
        None => None,
    }
}

/// These numbers are words, as their types say.
fn words_fit(xid: u32, prog: u32, vers: u32, proc: u32)
    ensures xid { xid < 2 ^ 32 }
    ensures prog { prog < 2 ^ 32 }
    ensures vers { vers < 2 ^ 32 }
    ensures proc { proc < 2 ^ 32 }
{
    let _words = (xid, prog, vers, proc);
}

/// The parts of a call whose head was written for this target and credential, as by [`nr_rpc::write_call_head`].
/// The head is not read, and `args_at` of the target is ignored.
pub fn written_parts<'a>(
    target: CallTarget,
    cred: &Cred,
    head: &'a [u8],
    args: &'a [u8],
) -> CallParts<'a>
    requires cred { CanWriteCred cred.now }
    requires head { head.now ≡ call_head (call_of_target target cred.now) }
    ensures call { IsCall result }
    ensures target { result.target ≡ record { xid = target.xid; prog = target.prog; vers = target.vers; proc = target.proc; args_at = length head.now } }
    ensures payload { parts_payload result ≡ call_encoding (call_of_target target cred.now) args.now }
{
    cred_fits(cred);
    words_fit(target.xid, target.prog, target.vers, target.proc);
    CallParts {
        target: CallTarget {
            xid: target.xid,
            prog: target.prog,
            vers: target.vers,
            proc: target.proc,
            args_at: head.len(),
        },
        head,
        args,
    }
}

/// A reader at the arguments.
fn arguments<'a>(parts: CallParts<'a>) -> Reader<'a>
    requires { IsCall parts }
    ensures { result ≡ from_place parts.entry.target.args_at (parts_payload parts.entry) }
{
    Reader::at_place(parts.head.len(), parts.args)
}

/// The most bytes that the reply to a call has: that of [`crate::largest_reply`] for its payload. Takes no memory.
pub fn largest_reply_of(parts: CallParts<'_>) -> u32
    requires { IsCall parts }
    ensures { result ≡ largest_reply (parts_payload parts.entry) }
{
    let target = parts.target;
    program_reply_max(target.prog, target.vers, target.proc, arguments(parts))
}

/// The item of a call whose head and arguments these are.
fn item_in(target: CallTarget, head: &[u8], args: &[u8]) -> Option<Item>
    requires call { target_of (call_of (head.now ++ args.now)) ≡ Some target }
    requires place { target.args_at ≡ length head.now }
    ensures exact { result ≡ call_item (head.now ++ args.now) }
    ensures inside { IfSome result (λ i. i.pos ≤ length (head.now ++ args.now)) }
{
    let parts = CallParts { target, head, args };
    argument_item(target.prog, target.vers, target.proc, arguments(parts))
}

/// The item of a call: that of [`crate::call_item`] for its payload. Takes no memory.
pub fn call_item_of(parts: CallParts<'_>) -> Option<Item>
    requires { IsCall parts }
    ensures exact { result ≡ call_item (parts_payload parts.entry) }
    ensures inside { IfSome result (λ i. i.pos ≤ length (parts_payload parts.entry)) }
{
    item_in(parts.target, parts.head, parts.args)
}

/// How many bytes the write chunk has that a call may offer: a READ and a READLINK may.
fn write_offer_of(parts: CallParts<'_>) -> Option<u32>
    requires { IsCall parts }
    ensures { result ≡ write_offer (parts_payload parts.entry) }
{
    let target = parts.target;
    argument_offer(target.prog, target.vers, target.proc, arguments(parts))
}

/// Whether the item's bytes and a pad of zeros are all that stands after its length word.
fn ends_with_item(parts: CallParts<'_>, item: Item) -> bool
    requires { item.pos ≤ length (parts_payload parts) }
    ensures { result ≡ ends_with_item (parts_payload parts.entry) item }
{
    let len = item.len as usize;
    let left = parts.head.len() + parts.args.len() - item.pos;
    if left != len + pad_len(len) {
        return false;
    }
    let (first, second) = from_offset(parts.head, parts.args, item.pos + len);
    are_zeros(first) && are_zeros(second)
}

/// The item of a call that can be cut.
#[tactic(auto, unfolding(crate::specs::Items::reducible_item))]
fn reducible_item_of(parts: CallParts<'_>) -> Option<Item>
    requires { IsCall parts }
    ensures exact { result ≡ reducible_item Call (parts_payload parts.entry) }
    ensures inside { IfSome result (λ i. i.pos + i.len ≤ length (parts_payload parts.entry)) }
{
    match call_item_of(parts) {
        Some(item) => if ends_with_item(parts, item) {
            Some(item)
        } else {
            None
        },
        None => None,
    }
}

/// What a plan depends on of a call.
pub(crate) fn facts_of_call(parts: CallParts<'_>) -> PayloadFacts
    requires { IsCall parts }
    ensures exact { result ≡ facts_of (parts_payload parts.entry) }
    ensures fits { ItemFits result.len result.item }
{
    PayloadFacts {
        len: parts.head.len() + parts.args.len(),
        largest: largest_reply_of(parts),
        offer: write_offer_of(parts),
        item: reducible_item_of(parts),
    }
}

/// What a plan depends on of a payload.
pub(crate) fn facts_of(payload: &[u8]) -> PayloadFacts
    ensures exact { result ≡ facts_of payload.now }
    ensures fits { ItemFits result.len result.item }
{
    match call_parts(payload) {
        Some(parts) => facts_of_call(parts),
        None => PayloadFacts {
            len: payload.len(),
            largest: REPLY_LIMIT_MIN,
            offer: None,
            item: None,
        },
    }
}
