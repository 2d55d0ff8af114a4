//! READ, WRITE and COMMIT.

ghost use Rattle.nr_nfs_args.specs.Bytes.{commit_args_codec, commit_args_lawful, read_args_codec, read_args_lawful, write_args_codec, write_args_lawful};

use nr_nfs_base::{
    Data, Handle, ReadArgsFront, StableHow, ValueFault, WriteArgsFront, Xdr, write_four,
    write_three, write_two,
};
use nr_xdr::{Memory, Reader, RoomWriter};
use std::alloc::Global;

/// The arguments of READ (RFC 1813 section 3.3.6).
#[derive(Drop)]
pub struct ReadArgs {
    /// The file that is read.
    pub file: Handle,
    /// In bytes.
    pub offset: u64,
    /// In bytes.
    pub count: u32,
}

#[tactic(auto, unfolding(crate::specs::Bytes::read_args_codec))]
impl Xdr for ReadArgs {
    ghost codec = { read_args_codec };

    ghost lawful = { read_args_lawful };

    fn read_from<'a>(
        alloc: Global,
        reader: Reader<'a>,
    ) -> Result<(ReadArgs, Reader<'a>), ValueFault> {
        let (((file, offset), count), reader) = <(ReadArgsFront, u32)>::read_from(alloc, reader)?;
        Ok((
            ReadArgs {
                file,
                offset,
                count,
            },
            reader,
        ))
    }

    fn write_to(&self, writer: RoomWriter) -> Result<RoomWriter, Memory> {
        let writer = write_two(&self.file, &self.offset, writer)?;
        self.count.write_to(writer)
    }
}

/// The arguments of WRITE (RFC 1813 section 3.3.7).
#[derive(Drop)]
pub struct WriteArgs {
    /// The file that is written.
    pub file: Handle,
    /// In bytes.
    pub offset: u64,
    /// In bytes; it need not be the length of the data.
    pub count: u32,
    /// How far the server has to commit the data before it replies.
    pub stable: StableHow,
    /// `data`: the data to write.
    pub bytes: Data,
}

#[tactic(auto, unfolding(crate::specs::Bytes::write_args_codec))]
impl Xdr for WriteArgs {
    ghost codec = { write_args_codec };

    ghost lawful = { write_args_lawful };

    fn read_from<'a>(
        alloc: Global,
        reader: Reader<'a>,
    ) -> Result<(WriteArgs, Reader<'a>), ValueFault> {
        let ((front, bytes), reader) = <(WriteArgsFront, Data)>::read_from(alloc, reader)?;
        let (file, (offset, (count, stable))) = front;
        let value = WriteArgs {
            file,
            offset,
            count,
            stable,
            bytes,
        };
        Ok((value, reader))
    }

    fn write_to(&self, writer: RoomWriter) -> Result<RoomWriter, Memory> {
        let writer = write_four(&self.file, &self.offset, &self.count, &self.stable, writer)?;
        self.bytes.write_to(writer)
    }
}

/// The arguments of COMMIT (RFC 1813 section 3.3.21).
#[derive(Drop)]
pub struct CommitArgs {
    /// The file whose data are committed.
    pub file: Handle,
    /// In bytes.
    pub offset: u64,
    /// In bytes.
    pub count: u32,
}

#[tactic(auto, unfolding(crate::specs::Bytes::commit_args_codec))]
impl Xdr for CommitArgs {
    ghost codec = { commit_args_codec };

    ghost lawful = { commit_args_lawful };

    fn read_from<'a>(
        alloc: Global,
        reader: Reader<'a>,
    ) -> Result<(CommitArgs, Reader<'a>), ValueFault> {
        let ((file, (offset, count)), reader) = <(Handle, (u64, u32))>::read_from(alloc, reader)?;
        Ok((
            CommitArgs {
                file,
                offset,
                count,
            },
            reader,
        ))
    }

    fn write_to(&self, writer: RoomWriter) -> Result<RoomWriter, Memory> {
        write_three(&self.file, &self.offset, &self.count, writer)
    }
}
