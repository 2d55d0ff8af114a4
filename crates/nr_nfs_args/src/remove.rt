//! REMOVE, RMDIR, RENAME and LINK.

ghost use Rattle.nr_nfs_args.specs.Remove.{link_args_codec, link_args_lawful, remove_args_codec, remove_args_lawful, rename_args_codec, rename_args_lawful, rmdir_args_codec, rmdir_args_lawful};

use nr_nfs_base::{Handle, Name, ValueFault, Xdr, write_four, write_three, write_two};
use nr_xdr::{Memory, Reader, RoomWriter};
use std::alloc::Global;

/// The arguments of REMOVE (RFC 1813 section 3.3.12).
#[derive(Drop)]
pub struct RemoveArgs {
    /// `object.dir`: the directory of the entry to remove.
    pub dir: Handle,
    /// `object.name`: the name of the entry to remove.
    pub name: Name,
}

#[tactic(auto, unfolding(crate::specs::Remove::remove_args_codec))]
impl Xdr for RemoveArgs {
    ghost codec = { remove_args_codec };

    ghost lawful = { remove_args_lawful };

    fn read_from<'a>(
        alloc: Global,
        reader: Reader<'a>,
    ) -> Result<(RemoveArgs, Reader<'a>), ValueFault> {
        let ((dir, name), reader) = <(Handle, Name)>::read_from(alloc, reader)?;
        Ok((RemoveArgs { dir, name }, reader))
    }

    fn write_to(&self, writer: RoomWriter) -> Result<RoomWriter, Memory> {
        write_two(&self.dir, &self.name, writer)
    }
}

/// The arguments of RMDIR (RFC 1813 section 3.3.13).
#[derive(Drop)]
pub struct RmdirArgs {
    /// `object.dir`: the directory of the subdirectory to remove.
    pub dir: Handle,
    /// `object.name`: the name of the entry to remove.
    pub name: Name,
}

#[tactic(auto, unfolding(crate::specs::Remove::rmdir_args_codec))]
impl Xdr for RmdirArgs {
    ghost codec = { rmdir_args_codec };

    ghost lawful = { rmdir_args_lawful };

    fn read_from<'a>(
        alloc: Global,
        reader: Reader<'a>,
    ) -> Result<(RmdirArgs, Reader<'a>), ValueFault> {
        let ((dir, name), reader) = <(Handle, Name)>::read_from(alloc, reader)?;
        Ok((RmdirArgs { dir, name }, reader))
    }

    fn write_to(&self, writer: RoomWriter) -> Result<RoomWriter, Memory> {
        write_two(&self.dir, &self.name, writer)
    }
}

/// The arguments of RENAME (RFC 1813 section 3.3.14).
#[derive(Drop)]
pub struct RenameArgs {
    /// `from.dir`: the directory of the entry to rename.
    pub from_dir: Handle,
    /// `from.name`: the name of the entry.
    pub from_name: Name,
    /// `to.dir`: the directory of the new entry.
    pub to_dir: Handle,
    /// `to.name`: the name of the new entry.
    pub to_name: Name,
}

#[tactic(auto, unfolding(crate::specs::Remove::rename_args_codec))]
impl Xdr for RenameArgs {
    ghost codec = { rename_args_codec };

    ghost lawful = { rename_args_lawful };

    fn read_from<'a>(
        alloc: Global,
        reader: Reader<'a>,
    ) -> Result<(RenameArgs, Reader<'a>), ValueFault> {
        let ((from_dir, (from_name, (to_dir, to_name))), reader) = <(
            Handle,
            (Name, (Handle, Name)),
        )>::read_from(alloc, reader)?;
        Ok((
            RenameArgs {
                from_dir,
                from_name,
                to_dir,
                to_name,
            },
            reader,
        ))
    }

    fn write_to(&self, writer: RoomWriter) -> Result<RoomWriter, Memory> {
        write_four(
            &self.from_dir,
            &self.from_name,
            &self.to_dir,
            &self.to_name,
            writer,
        )
    }
}

/// The arguments of LINK (RFC 1813 section 3.3.15).
#[derive(Drop)]
pub struct LinkArgs {
    /// The existing file.
    pub file: Handle,
    /// `link.dir`: the directory in which the link is created.
    pub dir: Handle,
    /// `link.name`: the name of the link.
    pub name: Name,
}

#[tactic(auto, unfolding(crate::specs::Remove::link_args_codec))]
impl Xdr for LinkArgs {
    ghost codec = { link_args_codec };

    ghost lawful = { link_args_lawful };

    fn read_from<'a>(
        alloc: Global,
        reader: Reader<'a>,
    ) -> Result<(LinkArgs, Reader<'a>), ValueFault> {
        let ((file, (dir, name)), reader) = <(Handle, (Handle, Name))>::read_from(alloc, reader)?;
        Ok((LinkArgs { file, dir, name }, reader))
    }

    fn write_to(&self, writer: RoomWriter) -> Result<RoomWriter, Memory> {
        write_three(&self.file, &self.dir, &self.name, writer)
    }
}
