//! The results in the reply to a call.

ghost use Rattle.std.specs.Prelude.{◌≡◌, ◌≤◌, length, IfErr, IfOk};
ghost use Rattle.nr_rpc.specs.Reading.{reply_of};
ghost use Rattle.nr_nfs_res.specs.Results.{read_res_codec};
ghost use Rattle.nr_client.specs.Requests.{mnt_result};
ghost use Rattle.nr_client.specs.Results.{Gives, IsOfReply, mount_done, nfs_done, result_of_outcome, result_of_reply, results_in, results_or, results_start};

use crate::client_end::{ClientEnd, RpcKind};
use crate::reasons::NOT_READ;
use nr_nfs_base::{Handle, MountStatus, StatusUnion, ValueFault, Xdr};
use nr_nfs_res::{MountOk, ReadOkRef, ReadResRef, read_read_res_from};
use nr_reduce::Outcome;
use nr_rpc::{HeadFault, ReplyHead, read_reply};
use nr_xdr::Reader;
use std::alloc::Global;

/// Reads the results that begin at this offset of a reply.
fn read_results<T: Xdr>(alloc: Global, payload: &[u8], at: usize) -> Result<T, ClientEnd>
    requires { at ≤ length payload.now }
    ensures gives { Gives result (results_or (results_in T.codec payload.now at)) }
    ensures of_reply { IfErr result IsOfReply }
{
    let _len = payload.len();
    let (_, rest) = payload.split_at(at);
    match T::read_from(alloc, Reader::at_place(at, rest)) {
        Ok((value, reader)) => {
            if reader.rest().is_empty() {
                return Ok(value);
            }
            Err(ClientEnd::BadReply {
                at: reader.at(),
                reason: NOT_READ,
            })
        }
        Err(ValueFault::Bad { at }) => Err(ClientEnd::BadReply {
            at,
            reason: NOT_READ,
        }),
        Err(ValueFault::Memory) => Err(ClientEnd::Memory),
    }
}

/// The same of a READ, whose data are not copied.
fn read_data_results<'a>(
    alloc: Global,
    payload: &'a [u8],
    at: usize,
) -> Result<ReadResRef<'a>, ClientEnd>
    requires { at ≤ length payload.now }
    ensures gives { Gives result (results_or (results_in read_res_codec payload.now at)) }
    ensures of_reply { IfErr result IsOfReply }
{
    let _len = payload.len();
    let (_, rest) = payload.split_at(at);
    match read_read_res_from(alloc, Reader::at_place(at, rest)) {
        Ok((results, reader)) => {
            if reader.rest().is_empty() {
                return Ok(results);
            }
            Err(ClientEnd::BadReply {
                at: reader.at(),
                reason: NOT_READ,
            })
        }
        Err(ValueFault::Bad { at }) => Err(ClientEnd::BadReply {
            at,
            reason: NOT_READ,
        }),
        Err(ValueFault::Memory) => Err(ClientEnd::Memory),
    }
}

/// Where the results begin in the reply to a call that was executed; or why it has none.
fn results_start(payload: &[u8]) -> Result<usize, ClientEnd>
    ensures is { result ≡ results_start (reply_of payload.now) }
    ensures within { IfOk result (λ at. at ≤ length payload.now) }
    ensures of_reply { IfErr result IsOfReply }
{
    match read_reply(payload) {
        Ok(
            ReplyHead::Accepted {
                stat,
                results_at,
                ..
            },
        ) => {
            if stat == 0 {
                Ok(results_at)
            } else {
                Err(ClientEnd::Rpc {
                    kind: RpcKind::Accept,
                    code: stat,
                })
            }
        }
        Ok(ReplyHead::ProgMismatch { .. }) => Err(ClientEnd::Rpc {
            kind: RpcKind::Accept,
            code: 2,
        }),
        Ok(ReplyHead::RpcMismatch { .. }) => Err(ClientEnd::Rpc {
            kind: RpcKind::Reject,
            code: 0,
        }),
        Ok(ReplyHead::AuthError { .. }) => Err(ClientEnd::Rpc {
            kind: RpcKind::Reject,
            code: 1,
        }),
        Err(HeadFault::NotReply { at }) => Err(ClientEnd::BadReply {
            at,
            reason: NOT_READ,
        }),
        Err(_) => unreachable!(),
    }
}

/// Reads the results in a reply.
fn results_of_reply<T: Xdr>(alloc: Global, payload: &[u8]) -> Result<T, ClientEnd>
    ensures gives { Gives result (result_of_reply T.codec payload.now) }
    ensures of_reply { IfErr result IsOfReply }
{
    match results_start(payload) {
        Ok(at) => read_results(alloc, payload, at),
        Err(end) => Err(end),
    }
}

/// The same of a READ, whose data are not copied.
fn data_results_of_reply<'a>(alloc: Global, payload: &'a [u8]) -> Result<ReadResRef<'a>, ClientEnd>
    ensures gives { Gives result (result_of_reply read_res_codec payload.now) }
    ensures of_reply { IfErr result IsOfReply }
{
    match results_start(payload) {
        Ok(at) => read_data_results(alloc, payload, at),
        Err(end) => Err(end),
    }
}

/// Reads the results that an outcome has.
pub(crate) fn results<T: Xdr>(alloc: Global, outcome: &Outcome) -> Result<T, ClientEnd>
    ensures gives { Gives result (result_of_outcome T.codec outcome.now) }
    ensures of_reply { IfErr result IsOfReply }
{
    match outcome {
        Outcome::Reply(payload) => results_of_reply(alloc, payload.as_slice()),
        Outcome::Chunk => Err(ClientEnd::Chunk),
        Outcome::Version { low, high } => Err(ClientEnd::Version {
            low: *low,
            high: *high,
        }),
    }
}

/// The same of a READ, whose data are not copied.
fn data_results<'a>(alloc: Global, outcome: &'a Outcome) -> Result<ReadResRef<'a>, ClientEnd>
    ensures gives { Gives result (result_of_outcome read_res_codec outcome.now) }
    ensures of_reply { IfErr result IsOfReply }
{
    match outcome {
        Outcome::Reply(payload) => data_results_of_reply(alloc, payload.as_slice()),
        Outcome::Chunk => Err(ClientEnd::Chunk),
        Outcome::Version { low, high } => Err(ClientEnd::Version {
            low: *low,
            high: *high,
        }),
    }
}

/// Reads the results of an NFS procedure that an outcome has, if it succeeded.
pub(crate) fn nfs_results<D: Xdr, F: Xdr>(alloc: Global, outcome: &Outcome) -> Result<D, ClientEnd>
    ensures gives { Gives result (nfs_done (result_of_outcome ⟦<StatusUnion<D, F> as Xdr>⟧.codec outcome.now)) }
    ensures of_reply { IfErr result IsOfReply }
{
    match results::<StatusUnion<D, F>>(alloc, outcome) {
        Ok(StatusUnion::Done(results)) => Ok(results),
        Ok(StatusUnion::Failed { status, .. }) => Err(ClientEnd::Nfs { status }),
        Err(end) => Err(end),
    }
}

/// The same of a READ, whose data are not copied.
pub(crate) fn nfs_data_results<'a>(
    alloc: Global,
    outcome: &'a Outcome,
) -> Result<ReadOkRef<'a>, ClientEnd>
    ensures gives { Gives result (nfs_done (result_of_outcome read_res_codec outcome.now)) }
    ensures of_reply { IfErr result IsOfReply }
{
    match data_results(alloc, outcome) {
        Ok(StatusUnion::Done(results)) => Ok(results),
        Ok(StatusUnion::Failed { status, .. }) => Err(ClientEnd::Nfs { status }),
        Err(end) => Err(end),
    }
}

/// Reads the results of a MOUNT procedure that an outcome has, if it succeeded.
pub(crate) fn mount_results<D: Xdr, F: Xdr>(
    alloc: Global,
    outcome: &Outcome,
) -> Result<D, ClientEnd>
    ensures gives { Gives result (mount_done (result_of_outcome ⟦<StatusUnion<D, F, MountStatus> as Xdr>⟧.codec outcome.now)) }
    ensures of_reply { IfErr result IsOfReply }
{
    match results::<StatusUnion<D, F, MountStatus>>(alloc, outcome) {
        Ok(StatusUnion::Done(results)) => Ok(results),
        Ok(StatusUnion::Failed { status, .. }) => Err(ClientEnd::Mount { status }),
        Err(end) => Err(end),
    }
}

/// Reads the handle that the outcome of MNT has.
pub(crate) fn handle_in(alloc: Global, outcome: &Outcome) -> Result<Handle, ClientEnd>
    ensures gives { Gives result (mnt_result outcome.now) }
    ensures of_reply { IfErr result IsOfReply }
{
    match mount_results::<MountOk, ()>(alloc, outcome) {
        Ok(MountOk { handle, flavors }) => {
            drop(flavors);
            Ok(handle)
        }
        Err(end) => Err(end),
    }
}
