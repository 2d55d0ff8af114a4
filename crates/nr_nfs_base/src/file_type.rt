//! The type of a file.

ghost use Rattle.nr_nfs_base.specs.FileType.{each_file_type, file_type_codec, file_type_lawful, file_type_number, file_types};

use crate::fault::ValueFault;
use crate::numbered::{Numbered, read_numbered, write_numbered};
use crate::xdr::Xdr;
use nr_xdr::{Memory, Reader, RoomWriter};
use std::alloc::Global;

/// What a file is (RFC 1813 section 2.5, `ftype3`).
#[derive(Clone, Copy)]
pub enum FileType {
    /// A regular file.
    Reg = 1,
    /// A directory.
    Dir = 2,
    /// A block device.
    Blk = 3,
    /// A character device.
    Chr = 4,
    /// A symbolic link.
    Lnk = 5,
    /// A socket.
    Sock = 6,
    /// A named pipe.
    Fifo = 7,
}

impl Numbered for FileType {
    ghost number = { file_type_number };

    ghost all = { file_types };

    ghost each = { each_file_type };

    fn number(self) -> u32 {
        self as u32
    }

    fn from_number(word: u32) -> Option<FileType> {
        match word {
            1 => Some(FileType::Reg),
            2 => Some(FileType::Dir),
            3 => Some(FileType::Blk),
            4 => Some(FileType::Chr),
            5 => Some(FileType::Lnk),
            6 => Some(FileType::Sock),
            7 => Some(FileType::Fifo),
            _ => None,
        }
    }
}

#[tactic(auto, unfolding(crate::specs::FileType::file_type_codec))]
impl Xdr for FileType {
    ghost codec = { file_type_codec };

    ghost lawful = { file_type_lawful };

    fn read_from<'a>(
        alloc: Global,
        reader: Reader<'a>,
    ) -> Result<(FileType, Reader<'a>), ValueFault> {
        read_numbered(alloc, reader)
    }

    fn write_to(&self, writer: RoomWriter) -> Result<RoomWriter, Memory> {
        write_numbered(*self, writer)
    }
}
