//! The results of READ, with the data as pages of the tree.

ghost use Rattle.std.specs.Prelude.{◌≡◌, ◌+◌, ◌-◌, ◌≤◌, ◌<◌, [], ◌∷◌, ◌++◌, length, min, nat_le, take, drop, replicate, IfOk, OnOk};
ghost use Rattle.nr_nfs_base.specs.Limits.{transfer_max};
ghost use Rattle.nr_nfs_res.specs.Bytes.{read_ok_codec};
ghost use Rattle.nr_nfs_res.specs.Results.{read_res_codec};
ghost use Rattle.nr_ops_file.specs.Bytes.{piece_read, read_ok};
ghost use Rattle.nr_xdr.specs.Item.{pad_len};
ghost use Rattle.nr_xdr.specs.Item.Item.{Opaque};
ghost use Rattle.nr_xdr.specs.Items.{encodings};

use nr_nfs_base::{Attributes, Status, StatusUnion, TRANSFER_MAX, Xdr, write_numbered};
use nr_tree::File;
use nr_xdr::{Memory, Octets, RoomWriter, pad_len};
use std::alloc::AllocError;
use std::marker::Model;

/// The results of READ on success (RFC 1813 section 3.3.6). The data are a part of a file of the tree. Contracts see a `ReadOk`.
#[derive(Drop)]
pub struct ReadOkPart<'a> {
    attributes: Option<Attributes>,
    eof: bool,
    file: &'a File,
    /// The data begin at this offset of the file, and end before the other one.
    offset: u64,
    end: u64,
}

impl<'a> Model for ReadOkPart<'a> {
    ghost use Rattle.std.specs.Prelude.{◌≡◌, ◌-◌, ◌≤◌, length, take, drop};
    ghost use Rattle.nr_nfs_base.specs.Limits.{transfer_max};
    ghost use Rattle.nr_nfs_res.specs.declared.bytes.ReadOk.{ReadOk};

    ghost Value = { ReadOk };

    ghost view = { λ r. record { attributes = r.attributes; count = r.end - r.offset; eof = r.eof; bytes = take (r.end - r.offset) (drop r.offset r.file.now) } };

    ghost invariant = { λ r. (r.offset ≤ r.end) × (r.end - r.offset ≤ transfer_max) × (length (take (r.end - r.offset) (drop r.offset r.file.now)) ≡ r.end - r.offset) };
}

/// The results of READ (RFC 1813 section 3.3.6).
pub type ReadResPart<'a> = StatusUnion<ReadOkPart<'a>, Option<Attributes>>;

/// Whether a piece reaches the end of a file, or its offset is past it.
fn reaches_end(size: u64, offset: u64, count: u64) -> bool
    ensures { result ≡ nat_le size (offset + count) }
{
    size.saturating_sub(offset) <= count
}

/// How many bytes of a file of this size a READ gives: as many as are asked for, may be moved and are there.
fn count_read(size: u64, offset: u64, count: u32) -> u64
    ensures { result ≡ min (min count transfer_max) (size - offset) }
{
    if size <= offset {
        return 0;
    }
    (count.min(TRANSFER_MAX) as u64).min(size - offset)
}

impl<'a> ReadOkPart<'a> {
    /// The results for the part of a file from an offset on. Takes no memory.
    pub(crate) fn new(
        attributes: Option<Attributes>,
        file: &'a File,
        offset: u64,
        count: u32,
    ) -> ReadOkPart<'a>
        ensures { result ≡ read_ok attributes file.now offset (piece_read file.now offset count) }
    {
        let size = file.len();
        let count = count_read(size, offset, count);
        ReadOkPart {
            attributes,
            eof: reaches_end(size, offset, count),
            file,
            offset,
            end: offset + count,
        }
    }

    /// How many bytes of data there are.
    pub fn len(&self) -> usize
        ensures { result ≡ length self.now.bytes }
    {
        (self.end - self.offset) as usize
    }

    /// All bytes of a writer, and the data after them as variable-length opaque data (RFC 4506 section 4.10).
    fn append_data(&self, writer: RoomWriter) -> Result<Octets, Memory>
        ensures { IfOk result (λ o. o ≡ writer.bytes ++ encodings (Opaque self.now.bytes ∷ [])) }
    {
        let mut writer = writer;
        writer.u32((self.end - self.offset) as u32)?;
        let mut reply = writer.finish().into_vec();
        append_part(&mut reply, self.file, self.offset, self.end)?;
        append_pad(&mut reply, self.len())?;
        Ok(Octets::from_vec(reply))
    }

    /// All bytes of a writer, and the items after them that encode the results.
    #[tactic(auto, unfolding(nr_nfs_res::specs::Bytes::read_ok_codec))]
    fn append_to(&self, writer: RoomWriter) -> Result<Octets, Memory>
        ensures { IfOk result (λ o. o ≡ writer.bytes ++ encodings (read_ok_codec.items self.now)) }
    {
        let fields = (self.attributes, ((self.end - self.offset) as u32, self.eof));
        let writer = fields.write_to(writer)?;
        self.append_data(writer)
    }
}

/// Appends the bytes of a file from an offset on, up to another one. Each is copied once.
fn append_part(reply: &mut Vec<u8>, file: &File, offset: u64, end: u64) -> Result<(), AllocError>
    requires order { offset ≤ end }
    requires short { end - offset ≤ transfer_max }
    requires there { length (take (end - offset) (drop offset file.now)) ≡ end - offset }
    ensures { OnOk result (reply.new.items ≡ reply.old.items ++ take (end - offset) (drop offset file.now)) }
{
    let mut at = offset;
    while at < end {
        let piece = file.read(at, (end - at) as u32);
        reply.extend_from_slice(piece)?;
        at += piece.len() as u64;
    }
    Ok(())
}

/// Appends the zeros that fill data of `len` bytes up to a multiple of four (RFC 4506 section 3).
fn append_pad(reply: &mut Vec<u8>, len: usize) -> Result<(), AllocError>
    ensures { OnOk result (reply.new.items ≡ reply.old.items ++ replicate (pad_len len) 0) }
{
    const ZEROS: [u8; 3] = [0; 3];
    reply.extend_from_slice(&ZEROS[..pad_len(len)])?;
    Ok(())
}

/// All bytes of a reply to a READ: those of a writer, and the items after them that encode the results. The data are copied once.
#[tactic(auto, unfolding(nr_nfs_base::specs::StatusUnion::status_union_codec))]
pub fn finish_read(results: &ReadResPart<'_>, writer: RoomWriter) -> Result<Octets, Memory>
    ensures { IfOk result (λ o. o ≡ writer.bytes ++ encodings (read_res_codec.items results.now)) }
{
    match results {
        StatusUnion::Done(done) => {
            let writer = write_numbered(None::<Status>, writer)?;
            done.append_to(writer)
        }
        StatusUnion::Failed { status, part } => {
            let writer = write_numbered(Some(*status), writer)?;
            Ok(part.write_to(writer)?.finish())
        }
    }
}
