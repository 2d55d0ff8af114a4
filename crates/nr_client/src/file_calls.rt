//! The calls that read and write a file.

ghost use Rattle.std.specs.Prelude.{◌≡◌, ◌<◌, ◌^◌, length, IfOk};
ghost use Rattle.nr_nfs_args.specs.Bytes.{write_args_codec};
ghost use Rattle.nr_nfs_base.specs.Codec.{WritesValue};
ghost use Rattle.nr_nfs_base.specs.declared.stable.StableHow.TheVariants as stable;
ghost use Rattle.nr_client.specs.Reading.{read_call};
ghost use Rattle.nr_client.specs.Writing.{create_call, new_file, write_call};

use crate::requests::client_call;
use nr_nfs_args::{CreateArgs, CreateHow, ReadArgs};
use nr_nfs_base::{
    Handle, NFS_PROGRAM, NFS_VERSION, Name, NfsProcedure, SetAttributes, SetTime, StableHow,
    UNLIMITED, Xdr, write_four, write_opaque,
};
use nr_reduce::Call;
use nr_xdr::{Memory, RoomWriter};
use std::alloc::Global;

/// The number of READ.
const READ: u32 = NfsProcedure::Read as u32;

/// The number of WRITE.
const WRITE: u32 = NfsProcedure::Write as u32;

/// The number of CREATE.
const CREATE: u32 = NfsProcedure::Create as u32;

/// The mode of a new file.
const FILE_MODE: u32 = 0o644;

/// READ of `count` bytes of a file.
pub(crate) fn read_call(
    alloc: Global,
    uid: u32,
    gid: u32,
    file: &Handle,
    offset: u64,
    count: u32,
) -> Result<Call, Memory>
    ensures { IfOk result (λ call. call ≡ read_call uid gid file.now offset count) }
{
    let file = Handle::from_slice(alloc, file.as_slice())?;
    let args = ReadArgs {
        file,
        offset,
        count,
    }
    .write(alloc)?;
    client_call(alloc, (NFS_PROGRAM, NFS_VERSION, READ), uid, gid, args)
}

/// The attributes of a new file.
fn new_file() -> SetAttributes
    ensures { result ≡ new_file }
{
    SetAttributes {
        mode: Some(FILE_MODE),
        uid: None,
        gid: None,
        size: Some(0),
        atime: SetTime::Leave,
        mtime: SetTime::Leave,
    }
}

/// CREATE of a name in a directory.
pub(crate) fn create_call(
    alloc: Global,
    uid: u32,
    gid: u32,
    dir: &Handle,
    name: &Name,
) -> Result<Call, Memory>
    ensures { IfOk result (λ call. call ≡ create_call uid gid dir.now name.now) }
{
    let dir = Handle::from_slice(alloc, dir.as_slice())?;
    let name = Name::from_slice(alloc, name.as_slice())?;
    let how = CreateHow::Unchecked(new_file());
    let args = CreateArgs { dir, name, how }.write(alloc)?;
    client_call(alloc, (NFS_PROGRAM, NFS_VERSION, CREATE), uid, gid, args)
}

/// Appends the arguments of WRITE, of which the data are borrowed.
fn write_args(
    file: &Handle,
    offset: u64,
    bytes: &[u8],
    writer: RoomWriter,
) -> Result<RoomWriter, Memory>
    requires { length bytes.now < 2 ^ 32 }
    ensures { WritesValue write_args_codec writer (record { file = file.now; offset = offset; count = length bytes.now; stable = stable.FileSync; bytes = bytes.now }) result }
{
    let count = bytes.len() as u32;
    let writer = write_four(file, &offset, &count, &StableHow::FileSync, writer)?;
    write_opaque::<UNLIMITED>(bytes, writer)
}

/// WRITE of these bytes.
pub(crate) fn write_call(
    alloc: Global,
    uid: u32,
    gid: u32,
    file: &Handle,
    offset: u64,
    bytes: &[u8],
) -> Result<Call, Memory>
    requires { length bytes.now < 2 ^ 32 }
    ensures { IfOk result (λ call. call ≡ write_call uid gid file.now offset bytes.now) }
{
    let args = write_args(file, offset, bytes, RoomWriter::new(alloc))?.finish();
    client_call(alloc, (NFS_PROGRAM, NFS_VERSION, WRITE), uid, gid, args)
}
