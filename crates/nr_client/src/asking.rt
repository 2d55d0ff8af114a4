//! Requests over a link: a call, and what its answer is read as.

ghost use Rattle.std.specs.Prelude.{◌≡◌, IfOk, IfErr};
ghost use Rattle.nr_client.specs.Results.{IsOfCall};
ghost use Rattle.nr_client.specs.Requests.{CountsFaultsOver, AsksOver, mnt_call, mnt_result, nfs_reads};
ghost use Rattle.nr_reduce.specs.declared.call.Call.{Call};
ghost use Rattle.nr_rpc.specs.Credential.{CanWriteCred};

use crate::answer::outcome_of;
use crate::client_end::ClientEnd;
use crate::link_calls::Calls;
use crate::requests::mnt_call;
use crate::results::{handle_in, nfs_results};
use nr_nfs_base::{Handle, MountPath, Xdr};
use nr_reduce::Call;
use nr_xdr::Memory;
use std::alloc::Global;

/// MNT of an export.
pub(crate) fn mount_over<L: Calls>(
    alloc: Global,
    link: &mut L,
    uid: u32,
    gid: u32,
    export: &MountPath,
) -> Result<Handle, ClientEnd>
    ensures asks { AsksOver L.relations mnt_result (mnt_call uid gid export.now) (L.at link.old) (L.at link.new) result }
    ensures faults { CountsFaultsOver L.relations result (L.at link.old) (L.at link.new) }
{
    let outcome = match outcome_of(link, mnt_call(alloc, uid, gid, export)) {
        Ok(outcome) => outcome,
        Err(end) => return Err(end),
    };
    handle_in(alloc, &outcome)
}

/// A call of a procedure of NFS with these results, if there was memory for it.
pub(crate) fn ask_nfs<L: Calls, D: Xdr, F: Xdr>(
    alloc: Global,
    link: &mut L,
    call: Result<Call, Memory>,
) -> Result<D, ClientEnd>
    requires { IfOk call (λ c. CanWriteCred c.cred) }
    ensures asks { (asked : Call) → IfOk call (λ c. c ≡ asked) → AsksOver L.relations (nfs_reads D.codec F.codec) asked (L.at link.old) (L.at link.new) result }
    ensures of_call { IfErr result IsOfCall }
    ensures faults { CountsFaultsOver L.relations result (L.at link.old) (L.at link.new) }
{
    let outcome = match outcome_of(link, call) {
        Ok(outcome) => outcome,
        Err(end) => return Err(end),
    };
    nfs_results::<D, F>(alloc, &outcome)
}
