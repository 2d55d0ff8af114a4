//! Arguments read, and results written after the head of a reply.

ghost use Rattle.std.specs.Prelude.{◌≡◌, ◌<◌, [], length, IfOk, IfErr};
ghost use Rattle.nr_nfs_base.specs.Codec.{read_all, read_or_none};
ghost use Rattle.nr_rpc.specs.Reply.{CanWriteReply};
ghost use Rattle.nr_plain.specs.private.Code.{reply_with};
ghost use Rattle.nr_plain.specs.Replies.{accepted as head_of_accepted, GARBAGE_ARGS as garbage_args, refusal, results_reply};
ghost use Rattle.nr_plain.specs.ReplySizes.{reply_max};

use nr_nfs_base::{ValueFault, Xdr};
use nr_rpc::{ReplyHead, write_reply, write_reply_head};
use nr_xdr::{Memory, Octets, RoomWriter};
use std::alloc::Global;

/// The arguments that all of the bytes are read as; none if they are no encoding of the type.
pub(crate) fn read_arguments<A: Xdr>(alloc: Global, arguments: &[u8]) -> Result<Option<A>, Memory>
    ensures { IfOk result (λ o. o ≡ read_or_none (read_all A.codec arguments.now)) }
{
    match A::read(alloc, arguments) {
        Ok(value) => Ok(Some(value)),
        Err(ValueFault::Bad { .. }) => Ok(None),
        Err(ValueFault::Memory) => Err(Memory),
    }
}

/// The accept status of a call whose procedure was executed (RFC 5531 section 9).
pub(crate) const SUCCESS: u32 = 0;

/// The accept status of a call whose arguments can't be read.
const GARBAGE_ARGS: u32 = 4;

/// The bytes of the head of a reply to a call that was accepted (RFC 5531 section 9).
pub(crate) const HEAD_SIZE: usize = 24;

/// The most bytes of the results of a procedure that changes files, which are those of CREATE (RFC 1813 section 3.3.8).
const RESULTS_MAX: usize = 280;

/// Room for any reply with the results of a procedure that changes files.
pub(crate) fn room_of_reply(alloc: Global) -> Result<RoomWriter, Memory>
    ensures { IfOk result (λ room. room ≡ record { bytes = []; left = reply_max }) }
{
    RoomWriter::with_room(alloc, HEAD_SIZE + RESULTS_MAX)
}

/// The head of a reply to a call that was accepted with this status.
pub(crate) fn accepted_head(xid: u32, stat: u32) -> ReplyHead
    ensures { result ≡ head_of_accepted xid stat }
{
    ReplyHead::Accepted {
        xid,
        stat,
        results_at: 0,
    }
}

/// The reply to a call that was accepted with status 0, with its results, written into a writer with no bytes. Fails
/// only if that has no room for it.
pub(crate) fn write_accepted<R: Xdr>(
    writer: RoomWriter,
    xid: u32,
    results: &R,
) -> Result<Octets, Memory>
    requires { writer.bytes ≡ [] }
    ensures ok { IfOk result (λ o. o ≡ results_reply xid R.codec results.now) }
    ensures room { IfErr result (λ _. writer.left < length (results_reply xid R.codec results.now)) }
{
    let writer = write_reply_head(writer, &accepted_head(xid, SUCCESS))?;
    let writer = results.write_to(writer)?;
    Ok(writer.finish())
}

/// The reply to a call that was accepted with status 0, with its results.
pub(crate) fn accepted<R: Xdr>(alloc: Global, xid: u32, results: &R) -> Result<Octets, Memory>
    ensures { IfOk result (λ o. o ≡ results_reply xid R.codec results.now) }
{
    write_accepted(RoomWriter::new(alloc), xid, results)
}

/// The reply to a call that reaches no procedure.
pub(crate) fn refused(alloc: Global, head: ReplyHead) -> Result<Octets, Memory>
    requires { CanWriteReply head }
    ensures { IfOk result (λ o. o ≡ (refusal head).reply) }
{
    match write_reply(alloc, &head, &[]) {
        Ok(reply) => Ok(reply),
        Err(_) => Err(Memory),
    }
}

/// The reply to a call whose arguments are no encoding of their type.
pub(crate) fn garbage(alloc: Global, xid: u32) -> Result<Octets, Memory>
    ensures { IfOk result (λ o. o ≡ (refusal (head_of_accepted xid garbage_args)).reply) }
{
    refused(alloc, accepted_head(xid, GARBAGE_ARGS))
}

/// The reply of a procedure whose results are the same for all arguments.
pub(crate) fn constant_reply<A: Xdr, R: Xdr>(
    alloc: Global,
    xid: u32,
    arguments: &[u8],
    results: &R,
) -> Result<Octets, Memory>
    ensures { IfOk result (λ o. o ≡ reply_with xid R.codec (λ (_ : A). results.now) (read_all A.codec arguments.now)) }
{
    match read_arguments::<A>(alloc, arguments)? {
        Some(_) => accepted(alloc, xid, results),
        None => garbage(alloc, xid),
    }
}
