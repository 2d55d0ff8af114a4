//! WRITE with borrowed data.

ghost use Rattle.std.specs.Prelude.{◌≡◌};
ghost use Rattle.nr_nfs_args.specs.Bytes.{write_args_codec};
ghost use Rattle.nr_nfs_base.specs.Codec.{Answers, read_all};

use nr_nfs_base::{Handle, StableHow, UNLIMITED, ValueFault, WriteArgsFront, Xdr};
use nr_xdr::Reader;
use std::alloc::Global;
use std::marker::Model;

/// The arguments of WRITE whose data are a part of the bytes that they were read from (RFC 1813 section 3.3.7). Contracts see
/// a `WriteArgs`.
#[derive(Drop)]
pub struct WriteArgsRef<'a> {
    file: Handle,
    offset: u64,
    count: u32,
    stable: StableHow,
    bytes: &'a [u8],
}

impl<'a> Model for WriteArgsRef<'a> {
    ghost use Rattle.nr_nfs_args.specs.declared.bytes.WriteArgs.{WriteArgs};

    ghost Value = { WriteArgs };

    ghost view = { λ w. record { file = w.file; offset = w.offset; count = w.count; stable = w.stable; bytes = w.bytes.now } };
}

impl<'a> WriteArgsRef<'a> {
    /// The arguments that all of the bytes are read as, as by `WriteArgs::read`. The data are not copied.
    pub fn read(alloc: Global, bytes: &'a [u8]) -> Result<WriteArgsRef<'a>, ValueFault>
        ensures { Answers result (read_all write_args_codec bytes.now) }
    {
        let (value, reader) = read_from(alloc, Reader::new(bytes))?;
        if reader.rest().is_empty() {
            Ok(value)
        } else {
            Err(ValueFault::Bad { at: reader.at() })
        }
    }

    /// The handle of the file.
    pub fn file(&self) -> &[u8]
        ensures { result.now ≡ self.now.file }
    {
        self.file.as_slice()
    }

    /// Where the data are to be written, in bytes.
    pub fn offset(&self) -> u64
        ensures { result ≡ self.now.offset }
    {
        self.offset
    }

    /// In bytes; it need not be the length of the data.
    pub fn count(&self) -> u32
        ensures { result ≡ self.now.count }
    {
        self.count
    }

    /// The data.
    pub fn bytes(&self) -> &'a [u8]
        ensures { result.now ≡ self.now.bytes }
    {
        self.bytes
    }
}

/// The arguments at the reader's place, and the reader after them.
#[tactic(auto, unfolding(crate::specs::Bytes::write_args_codec, nr_nfs_base::specs::Codec::opaque))]
fn read_from<'a>(
    alloc: Global,
    reader: Reader<'a>,
) -> Result<(WriteArgsRef<'a>, Reader<'a>), ValueFault>
    ensures { Answers result (write_args_codec.read reader.entry) }
{
    let (front, mut reader) = WriteArgsFront::read_from(alloc, reader)?;
    let bytes = reader.opaque(UNLIMITED)?;
    let (file, (offset, (count, stable))) = front;
    let value = WriteArgsRef {
        file,
        offset,
        count,
        stable,
        bytes,
    };
    Ok((value, reader))
}
