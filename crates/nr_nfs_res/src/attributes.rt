//! GETATTR, SETATTR and ACCESS.

ghost use Rattle.nr_nfs_res.specs.Attributes.{access_ok_codec, access_ok_lawful};

use nr_nfs_base::{Attributes, StatusUnion, ValueFault, WccData, Xdr, write_two};
use nr_xdr::{Memory, Reader, RoomWriter};
use std::alloc::Global;

/// The results of SETATTR (RFC 1813 section 3.3.2).
pub type SetattrRes = StatusUnion<WccData, WccData>;

/// The results of GETATTR (RFC 1813 section 3.3.1).
pub type GetattrRes = StatusUnion<Attributes, ()>;

/// The results of ACCESS on success (RFC 1813 section 3.3.4).
#[derive(Clone, Copy)]
pub struct AccessOk {
    /// `obj_attributes`: the attributes of the object.
    pub attributes: Option<Attributes>,
    /// A bit for each right that is granted.
    pub access: u32,
}

#[tactic(auto, unfolding(crate::specs::Attributes::access_ok_codec))]
impl Xdr for AccessOk {
    ghost codec = { access_ok_codec };

    ghost lawful = { access_ok_lawful };

    fn read_from<'a>(
        alloc: Global,
        reader: Reader<'a>,
    ) -> Result<(AccessOk, Reader<'a>), ValueFault> {
        let ((attributes, access), reader) = <(Option<Attributes>, u32)>::read_from(alloc, reader)?;
        Ok((AccessOk { attributes, access }, reader))
    }

    fn write_to(&self, writer: RoomWriter) -> Result<RoomWriter, Memory> {
        write_two(&self.attributes, &self.access, writer)
    }
}

/// The results of ACCESS (RFC 1813 section 3.3.4).
pub type AccessRes = StatusUnion<AccessOk, Option<Attributes>>;
