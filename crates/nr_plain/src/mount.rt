//! The procedures of MOUNT (RFC 1813 section 5.2).

ghost use Rattle.std.specs.Prelude.{◌≡◌, nat_eq, IfOk};
ghost use Rattle.std.specs.Cmp.Lexicographic.{pointwise};
ghost use Rattle.nr_nfs_base.specs.declared.procedure.MountProcedure.TheVariants as procedures;
ghost use Rattle.nr_plain.specs.private.Code.{mount_reply};
ghost use Rattle.nr_plain.specs.Programs.{mounted as root_mounted, mount_results};

use crate::encoding::{accepted, constant_reply, garbage, read_arguments};
use nr_nfs_args::{MntArgs, NullArgs, UmntArgs, UmntallArgs};
use nr_nfs_base::{Array, Handle, MountProcedure, MountStatus, StatusUnion};
use nr_nfs_res::{MntRes, MountOk, NullRes, UmntRes, UmntallRes};
use nr_rpc::{AUTH_NONE, AUTH_SYS};
use nr_xdr::{Memory, Octets};
use std::alloc::Global;

/// The number of the root.
const ROOT: u64 = 1;

fn mounted(alloc: Global) -> Result<MountOk, Memory>
    ensures { IfOk result (λ ok. ok ≡ root_mounted) }
{
    let flavors = Vec::from_slice(alloc, &[AUTH_SYS, AUTH_NONE])?;
    Ok(MountOk {
        handle: Handle::from_slice(alloc, &ROOT.to_be_bytes())?,
        flavors: Array::from_vec(flavors),
    })
}

fn same(a: &[u8], b: &[u8]) -> bool
    ensures { result ≡ pointwise nat_eq a.now b.now }
{
    a == b
}

fn mount(alloc: Global, export: &[u8], arguments: MntArgs) -> Result<MntRes, Memory>
    ensures { IfOk result (λ r. r ≡ mount_results export.now procedures.Mnt arguments) }
{
    let is_export = same(arguments.dirpath.as_slice(), export);
    drop(arguments);
    if is_export {
        Ok(StatusUnion::Done(mounted(alloc)?))
    } else {
        Ok(StatusUnion::Failed {
            status: MountStatus::Noent,
            part: (),
        })
    }
}

fn mnt(alloc: Global, xid: u32, export: &[u8], arguments: &[u8]) -> Result<Octets, Memory>
    ensures { IfOk result (λ o. o ≡ mount_reply xid export.now procedures.Mnt arguments.now) }
{
    match read_arguments::<MntArgs>(alloc, arguments)? {
        Some(arguments) => {
            let results = mount(alloc, export, arguments)?;
            accepted(alloc, xid, &results)
        }
        None => garbage(alloc, xid),
    }
}

/// The reply to a call of a procedure of MOUNT. `export` is the path that may be mounted.
pub(crate) fn reply(
    alloc: Global,
    xid: u32,
    export: &[u8],
    p: MountProcedure,
    arguments: &[u8],
) -> Result<Octets, Memory>
    ensures { IfOk result (λ o. o ≡ mount_reply xid export.now p arguments.now) }
{
    match p {
        MountProcedure::Null => constant_reply::<NullArgs, NullRes>(
            alloc, xid, arguments, &NullRes,
        ),
        MountProcedure::Mnt => mnt(alloc, xid, export, arguments),
        MountProcedure::Umnt => constant_reply::<UmntArgs, UmntRes>(
            alloc, xid, arguments, &UmntRes,
        ),
        MountProcedure::Umntall => {
            constant_reply::<UmntallArgs, UmntallRes>(alloc, xid, arguments, &UmntallRes)
        }
    }
}
