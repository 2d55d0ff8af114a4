//! The calls of a session.

ghost use Rattle.std.specs.Prelude.{◌≡◌, IfOk};
ghost use Rattle.nr_client.specs.Listing.{readdir_call};
ghost use Rattle.nr_client.specs.Requests.{client_call, getattr_call, lookup_call, mkdir_call, mnt_call, only_mode, readlink_call, remove_call, symlink_call};

use nr_nfs_args::{
    GetattrArgs, LookupArgs, MkdirArgs, MntArgs, ReaddirArgs, ReadlinkArgs, RemoveArgs, SymlinkArgs,
};
use nr_nfs_base::{
    Handle, LISTING_MAX, MOUNT_PROGRAM, MOUNT_VERSION, MountPath, MountProcedure, NFS_PROGRAM,
    NFS_VERSION, Name, NfsProcedure, Path, SetAttributes, SetTime, Verifier, Xdr,
};
use nr_reduce::Call;
use nr_rpc::{Cred, Gids};
use nr_xdr::{Memory, Octets};
use std::alloc::Global;

/// The number of GETATTR.
const GETATTR: u32 = NfsProcedure::Getattr as u32;

/// The number of LOOKUP.
const LOOKUP: u32 = NfsProcedure::Lookup as u32;

/// The number of READLINK.
const READLINK: u32 = NfsProcedure::Readlink as u32;

/// The number of MKDIR.
const MKDIR: u32 = NfsProcedure::Mkdir as u32;

/// The number of SYMLINK.
const SYMLINK: u32 = NfsProcedure::Symlink as u32;

/// The number of READDIR.
const READDIR: u32 = NfsProcedure::Readdir as u32;

/// The mode of a new directory.
const DIRECTORY_MODE: u32 = 0o755;

/// The number of REMOVE.
const REMOVE: u32 = NfsProcedure::Remove as u32;

/// The number of MNT.
const MNT: u32 = MountProcedure::Mnt as u32;

/// The name of the machine in each credential.
const MACHINE: [u8; 7] = [110, 102, 115, 114, 100, 109, 97];

/// A call of a user with these encoded arguments.
pub(crate) fn client_call(
    alloc: Global,
    target: (u32, u32, u32),
    uid: u32,
    gid: u32,
    args: Octets,
) -> Result<Call, Memory>
    ensures { IfOk result (λ call. call ≡ client_call target.0 target.1 target.2 uid gid args) }
{
    let Ok(machine) = Octets::from_slice(alloc, &MACHINE) else {
        return Err(Memory);
    };
    let (prog, vers, proc) = target;
    Ok(Call {
        prog,
        vers,
        proc,
        cred: Cred::Sys {
            stamp: 0,
            machine,
            uid,
            gid,
            gids: Gids::new(),
        },
        args,
    })
}

/// GETATTR of a file.
pub(crate) fn getattr_call(alloc: Global, uid: u32, gid: u32, file: &Handle) -> Result<Call, Memory>
    ensures { IfOk result (λ call. call ≡ getattr_call uid gid file.now) }
{
    let object = Handle::from_slice(alloc, file.as_slice())?;
    let args = GetattrArgs { object }.write(alloc)?;
    client_call(alloc, (NFS_PROGRAM, NFS_VERSION, GETATTR), uid, gid, args)
}

/// MNT of an export.
pub(crate) fn mnt_call(
    alloc: Global,
    uid: u32,
    gid: u32,
    export: &MountPath,
) -> Result<Call, Memory>
    ensures { IfOk result (λ call. call ≡ mnt_call uid gid export.now) }
{
    let dirpath = MountPath::from_slice(alloc, export.as_slice())?;
    let args = MntArgs { dirpath }.write(alloc)?;
    client_call(alloc, (MOUNT_PROGRAM, MOUNT_VERSION, MNT), uid, gid, args)
}

/// LOOKUP of a name in a directory.
pub(crate) fn lookup_call(
    alloc: Global,
    uid: u32,
    gid: u32,
    dir: &Handle,
    name: &Name,
) -> Result<Call, Memory>
    ensures { IfOk result (λ call. call ≡ lookup_call uid gid dir.now name.now) }
{
    let dir = Handle::from_slice(alloc, dir.as_slice())?;
    let name = Name::from_slice(alloc, name.as_slice())?;
    let args = LookupArgs { dir, name }.write(alloc)?;
    client_call(alloc, (NFS_PROGRAM, NFS_VERSION, LOOKUP), uid, gid, args)
}

/// READLINK of a link.
pub(crate) fn readlink_call(
    alloc: Global,
    uid: u32,
    gid: u32,
    file: &Handle,
) -> Result<Call, Memory>
    ensures { IfOk result (λ call. call ≡ readlink_call uid gid file.now) }
{
    let symlink = Handle::from_slice(alloc, file.as_slice())?;
    let args = ReadlinkArgs { symlink }.write(alloc)?;
    client_call(alloc, (NFS_PROGRAM, NFS_VERSION, READLINK), uid, gid, args)
}

/// REMOVE of a name in a directory.
pub(crate) fn remove_call(
    alloc: Global,
    uid: u32,
    gid: u32,
    dir: &Handle,
    name: &Name,
) -> Result<Call, Memory>
    ensures { IfOk result (λ call. call ≡ remove_call uid gid dir.now name.now) }
{
    let dir = Handle::from_slice(alloc, dir.as_slice())?;
    let name = Name::from_slice(alloc, name.as_slice())?;
    let args = RemoveArgs { dir, name }.write(alloc)?;
    client_call(alloc, (NFS_PROGRAM, NFS_VERSION, REMOVE), uid, gid, args)
}

/// A mode, if there is one, and no other attribute.
fn only_mode(mode: Option<u32>) -> SetAttributes
    ensures { result ≡ only_mode mode }
{
    SetAttributes {
        mode,
        uid: None,
        gid: None,
        size: None,
        atime: SetTime::Leave,
        mtime: SetTime::Leave,
    }
}

/// MKDIR of a name in a directory.
pub(crate) fn mkdir_call(
    alloc: Global,
    uid: u32,
    gid: u32,
    dir: &Handle,
    name: &Name,
) -> Result<Call, Memory>
    ensures { IfOk result (λ call. call ≡ mkdir_call uid gid dir.now name.now) }
{
    let dir = Handle::from_slice(alloc, dir.as_slice())?;
    let name = Name::from_slice(alloc, name.as_slice())?;
    let attributes = only_mode(Some(DIRECTORY_MODE));
    let args = MkdirArgs {
        dir,
        name,
        attributes,
    }
    .write(alloc)?;
    client_call(alloc, (NFS_PROGRAM, NFS_VERSION, MKDIR), uid, gid, args)
}

/// SYMLINK of a name in a directory with a path.
pub(crate) fn symlink_call(
    alloc: Global,
    uid: u32,
    gid: u32,
    dir: &Handle,
    name: &Name,
    path: &Path,
) -> Result<Call, Memory>
    ensures { IfOk result (λ call. call ≡ symlink_call uid gid dir.now name.now path.now) }
{
    let dir = Handle::from_slice(alloc, dir.as_slice())?;
    let name = Name::from_slice(alloc, name.as_slice())?;
    let path = Path::from_slice(alloc, path.as_slice())?;
    let attributes = only_mode(None);
    let args = SymlinkArgs {
        dir,
        name,
        attributes,
        path,
    }
    .write(alloc)?;
    client_call(alloc, (NFS_PROGRAM, NFS_VERSION, SYMLINK), uid, gid, args)
}

/// READDIR of a directory after a cookie.
pub(crate) fn readdir_call(
    alloc: Global,
    uid: u32,
    gid: u32,
    dir: &Handle,
    cookie: u64,
    verifier: Verifier,
) -> Result<Call, Memory>
    ensures { IfOk result (λ call. call ≡ readdir_call uid gid dir.now cookie verifier) }
{
    let dir = Handle::from_slice(alloc, dir.as_slice())?;
    let args = ReaddirArgs {
        dir,
        cookie,
        verifier,
        count: LISTING_MAX,
    }
    .write(alloc)?;
    client_call(alloc, (NFS_PROGRAM, NFS_VERSION, READDIR), uid, gid, args)
}
