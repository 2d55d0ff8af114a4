//! MNT, UMNT and UMNTALL.

ghost use Rattle.nr_nfs_args.specs.Mount.{mnt_args_codec, mnt_args_lawful, umnt_args_codec, umnt_args_lawful, umntall_args_codec, umntall_args_lawful};

use nr_nfs_base::{MountPath, ValueFault, Xdr};
use nr_xdr::{Memory, Reader, RoomWriter};
use std::alloc::Global;

/// The arguments of MNT (RFC 1813 section 5.2.1).
#[derive(Drop)]
pub struct MntArgs {
    /// The server pathname of the directory.
    pub dirpath: MountPath,
}

#[tactic(auto, unfolding(crate::specs::Mount::mnt_args_codec))]
impl Xdr for MntArgs {
    ghost codec = { mnt_args_codec };

    ghost lawful = { mnt_args_lawful };

    fn read_from<'a>(
        alloc: Global,
        reader: Reader<'a>,
    ) -> Result<(MntArgs, Reader<'a>), ValueFault> {
        let (dirpath, reader) = MountPath::read_from(alloc, reader)?;
        Ok((MntArgs { dirpath }, reader))
    }

    fn write_to(&self, writer: RoomWriter) -> Result<RoomWriter, Memory> {
        self.dirpath.write_to(writer)
    }
}

/// The arguments of UMNT (RFC 1813 section 5.2.3).
#[derive(Drop)]
pub struct UmntArgs {
    /// The server pathname of the directory.
    pub dirpath: MountPath,
}

#[tactic(auto, unfolding(crate::specs::Mount::umnt_args_codec))]
impl Xdr for UmntArgs {
    ghost codec = { umnt_args_codec };

    ghost lawful = { umnt_args_lawful };

    fn read_from<'a>(
        alloc: Global,
        reader: Reader<'a>,
    ) -> Result<(UmntArgs, Reader<'a>), ValueFault> {
        let (dirpath, reader) = MountPath::read_from(alloc, reader)?;
        Ok((UmntArgs { dirpath }, reader))
    }

    fn write_to(&self, writer: RoomWriter) -> Result<RoomWriter, Memory> {
        self.dirpath.write_to(writer)
    }
}

/// Nothing: UMNTALL (RFC 1813 section 5.2.4).
#[derive(Clone, Copy)]
pub struct UmntallArgs;

#[tactic(auto, unfolding(crate::specs::Mount::umntall_args_codec))]
impl Xdr for UmntallArgs {
    ghost codec = { umntall_args_codec };

    ghost lawful = { umntall_args_lawful };

    fn read_from<'a>(
        _alloc: Global,
        reader: Reader<'a>,
    ) -> Result<(UmntallArgs, Reader<'a>), ValueFault> {
        Ok((UmntallArgs, reader))
    }

    fn write_to(&self, writer: RoomWriter) -> Result<RoomWriter, Memory> {
        Ok(writer)
    }
}
