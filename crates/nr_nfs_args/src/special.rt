//! SYMLINK and MKNOD.

ghost use Rattle.nr_nfs_args.specs.Special.{device_arm, device_data_codec, device_data_lawful, mknod_args_codec, mknod_args_lawful, mknod_data_codec, mknod_data_lawful, pipe_arm, symlink_args_codec, symlink_args_lawful};
ghost use Rattle.nr_nfs_base.specs.Codec.{Answers, arm_value};
ghost use Rattle.nr_nfs_base.specs.SetAttributes.{set_attributes_codec};

use nr_nfs_base::{
    FileType, Handle, Name, Path, SetAttributes, SpecialData, SymlinkArgsFront, ValueFault, Xdr,
    write_three, write_two,
};
use nr_xdr::{Memory, Reader, RoomWriter};
use std::alloc::Global;

/// The arguments of SYMLINK (RFC 1813 section 3.3.10).
#[derive(Drop)]
pub struct SymlinkArgs {
    /// `where.dir`: the directory in which the link is created.
    pub dir: Handle,
    /// `where.name`: the name of the new entry.
    pub name: Name,
    /// `symlink_attributes`: the initial attributes.
    pub attributes: SetAttributes,
    /// `symlink_data`: the path that the link holds.
    pub path: Path,
}

#[tactic(auto, unfolding(crate::specs::Special::symlink_args_codec))]
impl Xdr for SymlinkArgs {
    ghost codec = { symlink_args_codec };

    ghost lawful = { symlink_args_lawful };

    fn read_from<'a>(
        alloc: Global,
        reader: Reader<'a>,
    ) -> Result<(SymlinkArgs, Reader<'a>), ValueFault> {
        let ((front, path), reader) = <(SymlinkArgsFront, Path)>::read_from(alloc, reader)?;
        let (dir, (name, attributes)) = front;
        Ok((
            SymlinkArgs {
                dir,
                name,
                attributes,
                path,
            },
            reader,
        ))
    }

    fn write_to(&self, writer: RoomWriter) -> Result<RoomWriter, Memory> {
        let writer = write_three(&self.dir, &self.name, &self.attributes, writer)?;
        self.path.write_to(writer)
    }
}

/// The data of a device (RFC 1813 section 3.3.11, `devicedata3`).
#[derive(Clone, Copy)]
pub struct DeviceData {
    /// `dev_attributes`: the initial attributes.
    pub attributes: SetAttributes,
    /// `spec`: the device numbers.
    pub device: SpecialData,
}

#[tactic(auto, unfolding(crate::specs::Special::device_data_codec))]
impl Xdr for DeviceData {
    ghost codec = { device_data_codec };

    ghost lawful = { device_data_lawful };

    fn read_from<'a>(
        alloc: Global,
        reader: Reader<'a>,
    ) -> Result<(DeviceData, Reader<'a>), ValueFault> {
        let ((attributes, device), reader) = <(SetAttributes, SpecialData)>::read_from(
            alloc, reader,
        )?;
        Ok((DeviceData { attributes, device }, reader))
    }

    fn write_to(&self, writer: RoomWriter) -> Result<RoomWriter, Memory> {
        write_two(&self.attributes, &self.device, writer)
    }
}

/// What MKNOD creates (RFC 1813 section 3.3.11, `mknoddata3`). The types that MKNOD cannot create have an encoding too,
/// without data.
#[derive(Clone, Copy)]
pub enum MknodData {
    /// A regular file.
    Reg,
    /// A directory.
    Dir,
    /// A block device.
    Blk(DeviceData),
    /// A character device.
    Chr(DeviceData),
    /// A symbolic link.
    Lnk,
    /// A socket.
    Sock(SetAttributes),
    /// A named pipe.
    Fifo(SetAttributes),
}

#[tactic(auto, unfolding(crate::specs::Special::mknod_data_codec))]
impl Xdr for MknodData {
    ghost codec = { mknod_data_codec };

    ghost lawful = { mknod_data_lawful };

    fn read_from<'a>(
        alloc: Global,
        reader: Reader<'a>,
    ) -> Result<(MknodData, Reader<'a>), ValueFault> {
        let (tag, reader) = FileType::read_from(alloc, reader)?;
        match tag {
            FileType::Reg => Ok((MknodData::Reg, reader)),
            FileType::Dir => Ok((MknodData::Dir, reader)),
            FileType::Lnk => Ok((MknodData::Lnk, reader)),
            FileType::Blk => read_device(alloc, true, reader),
            FileType::Chr => read_device(alloc, false, reader),
            FileType::Sock => read_pipe(alloc, true, reader),
            FileType::Fifo => read_pipe(alloc, false, reader),
        }
    }

    fn write_to(&self, writer: RoomWriter) -> Result<RoomWriter, Memory> {
        match self {
            MknodData::Reg => FileType::Reg.write_to(writer),
            MknodData::Dir => FileType::Dir.write_to(writer),
            MknodData::Blk(value) => { write_two(&FileType::Blk, value, writer) }
            MknodData::Chr(value) => { write_two(&FileType::Chr, value, writer) }
            MknodData::Lnk => FileType::Lnk.write_to(writer),
            MknodData::Sock(value) => { write_two(&FileType::Sock, value, writer) }
            MknodData::Fifo(value) => { write_two(&FileType::Fifo, value, writer) }
        }
    }
}

/// Reads the data of a block device or a character device.
fn read_device<'a>(
    alloc: Global,
    is_block: bool,
    reader: Reader<'a>,
) -> Result<(MknodData, Reader<'a>), ValueFault>
    ensures { Answers result (arm_value (device_arm is_block) (device_data_codec.read reader.entry)) }
{
    let (value, reader) = DeviceData::read_from(alloc, reader)?;
    if is_block {
        Ok((MknodData::Blk(value), reader))
    } else {
        Ok((MknodData::Chr(value), reader))
    }
}

/// Reads the data of a socket or a named pipe.
fn read_pipe<'a>(
    alloc: Global,
    is_socket: bool,
    reader: Reader<'a>,
) -> Result<(MknodData, Reader<'a>), ValueFault>
    ensures { Answers result (arm_value (pipe_arm is_socket) (set_attributes_codec.read reader.entry)) }
{
    let (value, reader) = SetAttributes::read_from(alloc, reader)?;
    if is_socket {
        Ok((MknodData::Sock(value), reader))
    } else {
        Ok((MknodData::Fifo(value), reader))
    }
}

/// The arguments of MKNOD (RFC 1813 section 3.3.11).
#[derive(Drop)]
pub struct MknodArgs {
    /// `where.dir`: the directory in which the special file is created.
    pub dir: Handle,
    /// `where.name`: the name of the new entry.
    pub name: Name,
    /// The type of the special file, and its attributes.
    pub what: MknodData,
}

#[tactic(auto, unfolding(crate::specs::Special::mknod_args_codec))]
impl Xdr for MknodArgs {
    ghost codec = { mknod_args_codec };

    ghost lawful = { mknod_args_lawful };

    fn read_from<'a>(
        alloc: Global,
        reader: Reader<'a>,
    ) -> Result<(MknodArgs, Reader<'a>), ValueFault> {
        let ((dir, (name, what)), reader) = <(Handle, (Name, MknodData))>::read_from(
            alloc, reader,
        )?;
        Ok((MknodArgs { dir, name, what }, reader))
    }

    fn write_to(&self, writer: RoomWriter) -> Result<RoomWriter, Memory> {
        write_three(&self.dir, &self.name, &self.what, writer)
    }
}
