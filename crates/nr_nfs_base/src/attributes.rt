//! The attributes of a file.

ghost use Rattle.nr_nfs_base.specs.Attributes.{attributes_codec, attributes_lawful, special_data_codec, special_data_lawful};

use crate::fault::ValueFault;
use crate::file_type::FileType;
use crate::pair::write_two;
use crate::time::Time;
use crate::xdr::Xdr;
use nr_xdr::{Memory, Reader, RoomWriter};
use std::alloc::Global;

/// The device that a special file stands for (RFC 1813 section 2.5, `specdata3`).
#[derive(Clone, Copy)]
pub struct SpecialData {
    /// `specdata1`: the major device number.
    pub major: u32,
    /// `specdata2`: the minor device number.
    pub minor: u32,
}

#[tactic(auto, unfolding(crate::specs::Attributes::special_data_codec))]
impl Xdr for SpecialData {
    ghost codec = { special_data_codec };

    ghost lawful = { special_data_lawful };

    fn read_from<'a>(
        alloc: Global,
        reader: Reader<'a>,
    ) -> Result<(SpecialData, Reader<'a>), ValueFault> {
        let ((major, minor), reader) = <(u32, u32)>::read_from(alloc, reader)?;
        Ok((SpecialData { major, minor }, reader))
    }

    fn write_to(&self, writer: RoomWriter) -> Result<RoomWriter, Memory> {
        write_two(&self.major, &self.minor, writer)
    }
}

/// The attributes of a file (RFC 1813 section 2.5, `fattr3`).
#[derive(Clone, Copy)]
pub struct Attributes {
    /// `type`: the type of the file.
    pub file_type: FileType,
    /// The permission bits.
    pub mode: u32,
    /// The number of hard links.
    pub nlink: u32,
    /// The user ID of the owner.
    pub uid: u32,
    /// The group ID of the owner's group.
    pub gid: u32,
    /// In bytes.
    pub size: u64,
    /// The bytes of disk space that the file uses.
    pub used: u64,
    /// The device, of a block or character special file.
    pub rdev: SpecialData,
    /// The identifier of the file system.
    pub fsid: u64,
    /// The number that identifies the file within its file system.
    pub fileid: u64,
    /// The time of the last access to the data.
    pub atime: Time,
    /// The time of the last modification of the data.
    pub mtime: Time,
    /// The time of the last change of the attributes.
    pub ctime: Time,
}

/// The fields of `Attributes`, in order.
pub(crate) type AttributesParts = (FileType, (u32, (u32, (u32, (u32, NumbersAndTimes)))));

type NumbersAndTimes = (
    u64,
    (u64, (SpecialData, (u64, (u64, (Time, (Time, Time)))))),
);

#[tactic(auto, unfolding(crate::specs::Attributes::attributes_codec))]
impl Xdr for Attributes {
    ghost codec = { attributes_codec };

    ghost lawful = { attributes_lawful };

    fn read_from<'a>(
        alloc: Global,
        reader: Reader<'a>,
    ) -> Result<(Attributes, Reader<'a>), ValueFault> {
        let (parts, reader) = AttributesParts::read_from(alloc, reader)?;
        let (
            file_type,
            (mode, (nlink, (uid, (gid, (size, (used, (rdev, (fsid, (fileid, times))))))))),
        ) = parts;
        let (atime, (mtime, ctime)) = times;
        let value = Attributes {
            file_type,
            mode,
            nlink,
            uid,
            gid,
            size,
            used,
            rdev,
            fsid,
            fileid,
            atime,
            mtime,
            ctime,
        };
        Ok((value, reader))
    }

    fn write_to(&self, writer: RoomWriter) -> Result<RoomWriter, Memory> {
        let times = (self.atime, (self.mtime, self.ctime));
        let numbers = (
            self.size,
            (self.used, (self.rdev, (self.fsid, (self.fileid, times)))),
        );
        let parts = (
            self.file_type,
            (self.mode, (self.nlink, (self.uid, (self.gid, numbers)))),
        );
        parts.write_to(writer)
    }
}
