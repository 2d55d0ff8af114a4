//! LOOKUP and READLINK.

ghost use Rattle.nr_nfs_args.specs.Lookup.{lookup_args_codec, lookup_args_lawful, readlink_args_codec, readlink_args_lawful};

use nr_nfs_base::{Handle, Name, ValueFault, Xdr, write_two};
use nr_xdr::{Memory, Reader, RoomWriter};
use std::alloc::Global;

/// The arguments of LOOKUP (RFC 1813 section 3.3.3).
#[derive(Drop)]
pub struct LookupArgs {
    /// `what.dir`: the directory to search.
    pub dir: Handle,
    /// `what.name`: the name to look up.
    pub name: Name,
}

#[tactic(auto, unfolding(crate::specs::Lookup::lookup_args_codec))]
impl Xdr for LookupArgs {
    ghost codec = { lookup_args_codec };

    ghost lawful = { lookup_args_lawful };

    fn read_from<'a>(
        alloc: Global,
        reader: Reader<'a>,
    ) -> Result<(LookupArgs, Reader<'a>), ValueFault> {
        let ((dir, name), reader) = <(Handle, Name)>::read_from(alloc, reader)?;
        Ok((LookupArgs { dir, name }, reader))
    }

    fn write_to(&self, writer: RoomWriter) -> Result<RoomWriter, Memory> {
        write_two(&self.dir, &self.name, writer)
    }
}

/// The arguments of READLINK (RFC 1813 section 3.3.5).
#[derive(Drop)]
pub struct ReadlinkArgs {
    /// The symbolic link.
    pub symlink: Handle,
}

#[tactic(auto, unfolding(crate::specs::Lookup::readlink_args_codec))]
impl Xdr for ReadlinkArgs {
    ghost codec = { readlink_args_codec };

    ghost lawful = { readlink_args_lawful };

    fn read_from<'a>(
        alloc: Global,
        reader: Reader<'a>,
    ) -> Result<(ReadlinkArgs, Reader<'a>), ValueFault> {
        let (symlink, reader) = Handle::read_from(alloc, reader)?;
        Ok((ReadlinkArgs { symlink }, reader))
    }

    fn write_to(&self, writer: RoomWriter) -> Result<RoomWriter, Memory> {
        self.symlink.write_to(writer)
    }
}
