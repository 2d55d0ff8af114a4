//! Who calls.

ghost use Rattle.std.specs.Prelude.{◌≡◌, [], IfOk};
ghost use Rattle.nr_plain.specs.Setup.{caller_of, nobody, time_of};

use nr_nfs_base::{Array, Caller, Time};
use nr_outside::Moment;
use nr_rpc::{Cred, Gids};
use nr_xdr::Memory;
use std::alloc::Global;

/// The uid and gid of a call without a credential.
const NOBODY: u32 = 65_534;

fn anonymous(alloc: Global) -> Caller
    ensures { result ≡ record { uid = nobody; gid = nobody; gids = [] } }
{
    Caller {
        uid: NOBODY,
        gid: NOBODY,
        gids: Array::from_vec(Vec::new(alloc)),
    }
}

fn groups(alloc: Global, gids: &Gids) -> Result<Array<u32>, Memory>
    ensures { IfOk result (λ a. a ≡ gids.now) }
{
    Ok(Array::from_vec(Vec::from_slice(alloc, gids.as_slice())?))
}

/// The caller that a credential names (RFC 5531 appendix A).
pub(crate) fn caller(alloc: Global, cred: &Cred) -> Result<Caller, Memory>
    ensures { IfOk result (λ c. c ≡ caller_of cred.now) }
{
    match cred {
        Cred::Sys { uid, gid, gids, .. } => Ok(Caller {
            uid: *uid,
            gid: *gid,
            gids: groups(alloc, gids)?,
        }),
        Cred::None => Ok(anonymous(alloc)),
        Cred::Other { .. } => Ok(anonymous(alloc)),
    }
}

/// The moment of a call, as NFS has it (RFC 1813 section 2.5, `nfstime3`).
pub(crate) fn time(now: Moment) -> Time
    ensures { result ≡ time_of now }
{
    Time {
        seconds: now.seconds,
        nanoseconds: now.nanos,
    }
}
