//! CREATE, MKDIR, SYMLINK and MKNOD.

ghost use Rattle.nr_nfs_res.specs.Create.{create_ok_codec, create_ok_lawful};

use nr_nfs_base::{Attributes, Handle, StatusUnion, ValueFault, WccData, Xdr, write_three};
use nr_xdr::{Memory, Reader, RoomWriter};
use std::alloc::Global;

/// The results on success of a call that creates a file (RFC 1813 sections 3.3.8 to 3.3.11).
#[derive(Drop)]
pub struct CreateOk {
    /// The file handle of the new object.
    pub object: Option<Handle>,
    /// The attributes of the object.
    pub attributes: Option<Attributes>,
    /// The attributes of the directory before and after the call.
    pub dir_wcc: WccData,
}

#[tactic(auto, unfolding(crate::specs::Create::create_ok_codec))]
impl Xdr for CreateOk {
    ghost codec = { create_ok_codec };

    ghost lawful = { create_ok_lawful };

    fn read_from<'a>(
        alloc: Global,
        reader: Reader<'a>,
    ) -> Result<(CreateOk, Reader<'a>), ValueFault> {
        let ((object, (attributes, dir_wcc)), reader) = <(
            Option<Handle>,
            (Option<Attributes>, WccData),
        )>::read_from(alloc, reader)?;
        Ok((
            CreateOk {
                object,
                attributes,
                dir_wcc,
            },
            reader,
        ))
    }

    fn write_to(&self, writer: RoomWriter) -> Result<RoomWriter, Memory> {
        write_three(&self.object, &self.attributes, &self.dir_wcc, writer)
    }
}

/// The results of CREATE (RFC 1813 section 3.3.8).
pub type CreateRes = StatusUnion<CreateOk, WccData>;

/// The results of MKDIR (RFC 1813 section 3.3.9).
pub type MkdirRes = StatusUnion<CreateOk, WccData>;

/// The results of SYMLINK (RFC 1813 section 3.3.10).
pub type SymlinkRes = StatusUnion<CreateOk, WccData>;

/// The results of MKNOD (RFC 1813 section 3.3.11).
pub type MknodRes = StatusUnion<CreateOk, WccData>;
