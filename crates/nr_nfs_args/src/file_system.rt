//! FSSTAT, FSINFO and PATHCONF.

ghost use Rattle.nr_nfs_args.specs.FileSystem.{fsinfo_args_codec, fsinfo_args_lawful, fsstat_args_codec, fsstat_args_lawful, pathconf_args_codec, pathconf_args_lawful};

use nr_nfs_base::{Handle, ValueFault, Xdr};
use nr_xdr::{Memory, Reader, RoomWriter};
use std::alloc::Global;

/// The arguments of FSSTAT (RFC 1813 section 3.3.18).
#[derive(Drop)]
pub struct FsstatArgs {
    /// The file handle of an object in the file system.
    pub fsroot: Handle,
}

#[tactic(auto, unfolding(crate::specs::FileSystem::fsstat_args_codec))]
impl Xdr for FsstatArgs {
    ghost codec = { fsstat_args_codec };

    ghost lawful = { fsstat_args_lawful };

    fn read_from<'a>(
        alloc: Global,
        reader: Reader<'a>,
    ) -> Result<(FsstatArgs, Reader<'a>), ValueFault> {
        let (fsroot, reader) = Handle::read_from(alloc, reader)?;
        Ok((FsstatArgs { fsroot }, reader))
    }

    fn write_to(&self, writer: RoomWriter) -> Result<RoomWriter, Memory> {
        self.fsroot.write_to(writer)
    }
}

/// The arguments of FSINFO (RFC 1813 section 3.3.19).
#[derive(Drop)]
pub struct FsinfoArgs {
    /// The file handle of an object in the file system.
    pub fsroot: Handle,
}

#[tactic(auto, unfolding(crate::specs::FileSystem::fsinfo_args_codec))]
impl Xdr for FsinfoArgs {
    ghost codec = { fsinfo_args_codec };

    ghost lawful = { fsinfo_args_lawful };

    fn read_from<'a>(
        alloc: Global,
        reader: Reader<'a>,
    ) -> Result<(FsinfoArgs, Reader<'a>), ValueFault> {
        let (fsroot, reader) = Handle::read_from(alloc, reader)?;
        Ok((FsinfoArgs { fsroot }, reader))
    }

    fn write_to(&self, writer: RoomWriter) -> Result<RoomWriter, Memory> {
        self.fsroot.write_to(writer)
    }
}

/// The arguments of PATHCONF (RFC 1813 section 3.3.20).
#[derive(Drop)]
pub struct PathconfArgs {
    /// The file handle of an object in the file system.
    pub object: Handle,
}

#[tactic(auto, unfolding(crate::specs::FileSystem::pathconf_args_codec))]
impl Xdr for PathconfArgs {
    ghost codec = { pathconf_args_codec };

    ghost lawful = { pathconf_args_lawful };

    fn read_from<'a>(
        alloc: Global,
        reader: Reader<'a>,
    ) -> Result<(PathconfArgs, Reader<'a>), ValueFault> {
        let (object, reader) = Handle::read_from(alloc, reader)?;
        Ok((PathconfArgs { object }, reader))
    }

    fn write_to(&self, writer: RoomWriter) -> Result<RoomWriter, Memory> {
        self.object.write_to(writer)
    }
}
