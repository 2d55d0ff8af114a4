//! READ, WRITE and COMMIT.

ghost use Rattle.std.specs.Prelude.{◌≡◌, ◌^◌, ◌<◌, length};
ghost use Rattle.nr_nfs_base.specs.Attributes.{attributes_codec};
ghost use Rattle.nr_nfs_base.specs.Codec.{Answers, WritesValue, arm_value, optional, read_all};
ghost use Rattle.nr_nfs_base.specs.declared.status_union.StatusUnion.TheVariants.{Done, Failed};
ghost use Rattle.nr_nfs_res.specs.Results.{read_res_codec};
ghost use Rattle.nr_nfs_res.specs.Bytes.{commit_ok_codec, commit_ok_lawful, read_ok_codec, read_ok_lawful, write_ok_codec, write_ok_lawful};

use nr_nfs_base::{
    Attributes, Data, ReadOkFront, StableHow, Status, StatusUnion, UNLIMITED, ValueFault, Verifier,
    WccData, Xdr, read_numbered, write_four, write_numbered, write_opaque, write_two,
};
use nr_xdr::{Memory, Reader, RoomWriter};
use std::alloc::Global;
use std::marker::Model;

/// The results of READ on success (RFC 1813 section 3.3.6).
#[derive(Drop)]
pub struct ReadOk {
    /// `file_attributes`: the attributes of the file.
    pub attributes: Option<Attributes>,
    /// In bytes.
    pub count: u32,
    /// The data reaches the end of the file.
    pub eof: bool,
    /// `data`: the data that was read.
    pub bytes: Data,
}

#[tactic(auto, unfolding(crate::specs::Bytes::read_ok_codec))]
impl Xdr for ReadOk {
    ghost codec = { read_ok_codec };

    ghost lawful = { read_ok_lawful };

    fn read_from<'a>(
        alloc: Global,
        reader: Reader<'a>,
    ) -> Result<(ReadOk, Reader<'a>), ValueFault> {
        let ((front, bytes), reader) = <(ReadOkFront, Data)>::read_from(alloc, reader)?;
        let (attributes, (count, eof)) = front;
        Ok((
            ReadOk {
                attributes,
                count,
                eof,
                bytes,
            },
            reader,
        ))
    }

    fn write_to(&self, writer: RoomWriter) -> Result<RoomWriter, Memory> {
        let front = (self.attributes, (self.count, self.eof));
        write_two(&front, &self.bytes, writer)
    }
}

/// The results of READ (RFC 1813 section 3.3.6).
pub type ReadRes = StatusUnion<ReadOk, Option<Attributes>>;

/// The results of READ on success with borrowed data: that of a file, or a part of the bytes that they were read from (RFC 1813
/// section 3.3.6). Contracts see a `ReadOk`.
#[derive(Drop)]
pub struct ReadOkRef<'a> {
    attributes: Option<Attributes>,
    count: u32,
    eof: bool,
    bytes: &'a [u8],
}

impl<'a> Model for ReadOkRef<'a> {
    ghost use Rattle.std.specs.Prelude.{◌^◌, ◌<◌, length};
    ghost use Rattle.nr_nfs_res.specs.declared.bytes.ReadOk.{ReadOk};

    ghost Value = { ReadOk };

    ghost view = { λ r. record { attributes = r.attributes; count = r.count; eof = r.eof; bytes = r.bytes.now } };

    ghost invariant = { λ r. length r.bytes.now < 2 ^ 32 };
}

impl<'a> ReadOkRef<'a> {
    /// The results with these fields. `count`: in bytes. `eof`: the data reaches the end of the file.
    pub fn new(
        attributes: Option<Attributes>,
        count: u32,
        eof: bool,
        bytes: &'a [u8],
    ) -> ReadOkRef<'a>
        requires { length bytes.now < 2 ^ 32 }
        ensures { result ≡ record { attributes = attributes; count = count; eof = eof; bytes = bytes.now } }
    {
        ReadOkRef {
            attributes,
            count,
            eof,
            bytes,
        }
    }

    /// `file_attributes`: the attributes of the file.
    pub fn attributes(&self) -> Option<Attributes>
        ensures { result ≡ self.now.attributes }
    {
        self.attributes
    }

    /// How many bytes were read.
    pub fn count(&self) -> u32
        ensures { result ≡ self.now.count }
    {
        self.count
    }

    /// Whether the data reaches the end of the file.
    pub fn eof(&self) -> bool
        ensures { result ≡ self.now.eof }
    {
        self.eof
    }

    /// The data.
    pub fn bytes(&self) -> &'a [u8]
        ensures { result.now ≡ self.now.bytes }
    {
        self.bytes
    }

    /// Appends the items that encode the results, as `ReadOk::write_to` does.
    #[tactic(auto, unfolding(crate::specs::Bytes::read_ok_codec))]
    fn write_to(&self, writer: RoomWriter) -> Result<RoomWriter, Memory>
        ensures { WritesValue read_ok_codec writer self.now result }
    {
        let fields = (self.attributes, (self.count, self.eof));
        let writer = fields.write_to(writer)?;
        write_opaque::<UNLIMITED>(self.bytes, writer)
    }
}

/// The results of READ on success at the reader's place, and the reader after them.
#[tactic(auto, unfolding(crate::specs::Bytes::read_ok_codec, nr_nfs_base::specs::Codec::opaque))]
fn read_ok_from<'a>(
    alloc: Global,
    reader: Reader<'a>,
) -> Result<(ReadOkRef<'a>, Reader<'a>), ValueFault>
    ensures { Answers result (read_ok_codec.read reader.entry) }
{
    let ((attributes, (count, eof)), mut reader) = ReadOkFront::read_from(alloc, reader)?;
    let bytes = reader.opaque(UNLIMITED)?;
    Ok((ReadOkRef::new(attributes, count, eof, bytes), reader))
}

/// The results of READ with borrowed data (RFC 1813 section 3.3.6).
pub type ReadResRef<'a> = StatusUnion<ReadOkRef<'a>, Option<Attributes>>;

/// The results after the status 0, and the reader after them.
fn read_done<'a>(
    alloc: Global,
    reader: Reader<'a>,
) -> Result<(ReadResRef<'a>, Reader<'a>), ValueFault>
    ensures { Answers result (arm_value Done (read_ok_codec.read reader.entry)) }
{
    let (done, reader) = read_ok_from(alloc, reader)?;
    Ok((StatusUnion::Done(done), reader))
}

/// The results after another status, and the reader after them.
fn read_failed<'a>(
    alloc: Global,
    status: Status,
    reader: Reader<'a>,
) -> Result<(ReadResRef<'a>, Reader<'a>), ValueFault>
    ensures { Answers result (arm_value (Failed status) ((optional attributes_codec).read reader.entry)) }
{
    let (part, reader) = Option::<Attributes>::read_from(alloc, reader)?;
    Ok((StatusUnion::Failed { status, part }, reader))
}

/// The results at the reader's place, and the reader after them, as by `ReadRes::read_from`. The data are not copied.
#[tactic(auto, unfolding(nr_nfs_base::specs::StatusUnion::status_union_codec))]
pub fn read_read_res_from<'a>(
    alloc: Global,
    reader: Reader<'a>,
) -> Result<(ReadResRef<'a>, Reader<'a>), ValueFault>
    ensures { Answers result (read_res_codec.read reader.entry) }
{
    let (tag, reader) = read_numbered::<Option<Status>>(alloc, reader)?;
    match tag {
        None => read_done(alloc, reader),
        Some(status) => read_failed(alloc, status, reader),
    }
}

/// The results that all of the bytes are read as, as by `ReadRes::read`. The data are not copied.
pub fn read_read_res<'a>(alloc: Global, bytes: &'a [u8]) -> Result<ReadResRef<'a>, ValueFault>
    ensures { Answers result (read_all read_res_codec bytes.now) }
{
    let (results, reader) = read_read_res_from(alloc, Reader::new(bytes))?;
    if reader.rest().is_empty() {
        Ok(results)
    } else {
        Err(ValueFault::Bad { at: reader.at() })
    }
}

/// Appends the items that encode the results, as `ReadRes::write_to` does: the data are copied once.
#[tactic(auto, unfolding(nr_nfs_base::specs::StatusUnion::status_union_codec))]
pub fn write_read_res(results: &ReadResRef<'_>, writer: RoomWriter) -> Result<RoomWriter, Memory>
    ensures { WritesValue read_res_codec writer results.now result }
{
    match results {
        StatusUnion::Done(done) => {
            let writer = write_numbered(None::<Status>, writer)?;
            done.write_to(writer)
        }
        StatusUnion::Failed { status, part } => {
            let writer = write_numbered(Some(*status), writer)?;
            part.write_to(writer)
        }
    }
}

/// The results of WRITE on success (RFC 1813 section 3.3.7).
#[derive(Clone, Copy)]
pub struct WriteOk {
    /// `file_wcc`: the file before and after the call.
    pub wcc: WccData,
    /// The bytes that were written.
    pub count: u32,
    /// How far the server has committed the data.
    pub committed: StableHow,
    /// `verf`: the write verifier.
    pub verifier: Verifier,
}

#[tactic(auto, unfolding(crate::specs::Bytes::write_ok_codec))]
impl Xdr for WriteOk {
    ghost codec = { write_ok_codec };

    ghost lawful = { write_ok_lawful };

    fn read_from<'a>(
        alloc: Global,
        reader: Reader<'a>,
    ) -> Result<(WriteOk, Reader<'a>), ValueFault> {
        let ((wcc, (count, (committed, verifier))), reader) = <(
            WccData,
            (u32, (StableHow, Verifier)),
        )>::read_from(alloc, reader)?;
        Ok((
            WriteOk {
                wcc,
                count,
                committed,
                verifier,
            },
            reader,
        ))
    }

    fn write_to(&self, writer: RoomWriter) -> Result<RoomWriter, Memory> {
        write_four(
            &self.wcc,
            &self.count,
            &self.committed,
            &self.verifier,
            writer,
        )
    }
}

/// The results of WRITE (RFC 1813 section 3.3.7).
pub type WriteRes = StatusUnion<WriteOk, WccData>;

/// The results of COMMIT on success (RFC 1813 section 3.3.21).
#[derive(Clone, Copy)]
pub struct CommitOk {
    /// `file_wcc`: the file before and after the call.
    pub wcc: WccData,
    /// `verf`: the write verifier.
    pub verifier: Verifier,
}

#[tactic(auto, unfolding(crate::specs::Bytes::commit_ok_codec))]
impl Xdr for CommitOk {
    ghost codec = { commit_ok_codec };

    ghost lawful = { commit_ok_lawful };

    fn read_from<'a>(
        alloc: Global,
        reader: Reader<'a>,
    ) -> Result<(CommitOk, Reader<'a>), ValueFault> {
        let ((wcc, verifier), reader) = <(WccData, Verifier)>::read_from(alloc, reader)?;
        Ok((CommitOk { wcc, verifier }, reader))
    }

    fn write_to(&self, writer: RoomWriter) -> Result<RoomWriter, Memory> {
        write_two(&self.wcc, &self.verifier, writer)
    }
}

/// The results of COMMIT (RFC 1813 section 3.3.21).
pub type CommitRes = StatusUnion<CommitOk, WccData>;
