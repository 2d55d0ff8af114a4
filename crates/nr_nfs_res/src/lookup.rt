//! LOOKUP and READLINK.

ghost use Rattle.nr_nfs_res.specs.Lookup.{lookup_ok_codec, lookup_ok_lawful, readlink_ok_codec, readlink_ok_lawful};

use nr_nfs_base::{Attributes, Handle, Path, StatusUnion, ValueFault, Xdr, write_three, write_two};
use nr_xdr::{Memory, Reader, RoomWriter};
use std::alloc::Global;

/// The results of LOOKUP on success (RFC 1813 section 3.3.3).
#[derive(Drop)]
pub struct LookupOk {
    /// The file handle of the object that was looked up.
    pub object: Handle,
    /// The attributes of the object.
    pub attributes: Option<Attributes>,
    /// The attributes of the directory.
    pub dir_attributes: Option<Attributes>,
}

#[tactic(auto, unfolding(crate::specs::Lookup::lookup_ok_codec))]
impl Xdr for LookupOk {
    ghost codec = { lookup_ok_codec };

    ghost lawful = { lookup_ok_lawful };

    fn read_from<'a>(
        alloc: Global,
        reader: Reader<'a>,
    ) -> Result<(LookupOk, Reader<'a>), ValueFault> {
        let ((object, (attributes, dir_attributes)), reader) = <(
            Handle,
            (Option<Attributes>, Option<Attributes>),
        )>::read_from(alloc, reader)?;
        Ok((
            LookupOk {
                object,
                attributes,
                dir_attributes,
            },
            reader,
        ))
    }

    fn write_to(&self, writer: RoomWriter) -> Result<RoomWriter, Memory> {
        write_three(&self.object, &self.attributes, &self.dir_attributes, writer)
    }
}

/// The results of LOOKUP. On failure they have the attributes of the directory (RFC 1813 section 3.3.3).
pub type LookupRes = StatusUnion<LookupOk, Option<Attributes>>;

/// The results of READLINK on success (RFC 1813 section 3.3.5).
#[derive(Drop)]
pub struct ReadlinkOk {
    /// `symlink_attributes`: the attributes of the link.
    pub attributes: Option<Attributes>,
    /// `data`: the path that the link holds.
    pub path: Path,
}

#[tactic(auto, unfolding(crate::specs::Lookup::readlink_ok_codec))]
impl Xdr for ReadlinkOk {
    ghost codec = { readlink_ok_codec };

    ghost lawful = { readlink_ok_lawful };

    fn read_from<'a>(
        alloc: Global,
        reader: Reader<'a>,
    ) -> Result<(ReadlinkOk, Reader<'a>), ValueFault> {
        let ((attributes, path), reader) = <(Option<Attributes>, Path)>::read_from(alloc, reader)?;
        Ok((ReadlinkOk { attributes, path }, reader))
    }

    fn write_to(&self, writer: RoomWriter) -> Result<RoomWriter, Memory> {
        write_two(&self.attributes, &self.path, writer)
    }
}

/// The results of READLINK (RFC 1813 section 3.3.5).
pub type ReadlinkRes = StatusUnion<ReadlinkOk, Option<Attributes>>;
