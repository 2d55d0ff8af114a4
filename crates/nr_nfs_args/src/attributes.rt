//! GETATTR, SETATTR and ACCESS.

ghost use Rattle.nr_nfs_args.specs.Attributes.{access_args_codec, access_args_lawful, getattr_args_codec, getattr_args_lawful, setattr_args_codec, setattr_args_lawful};

use nr_nfs_base::{
    Attributes, Handle, SetAttributes, Time, ValueFault, Xdr, write_three, write_two,
};
use nr_xdr::{Memory, Reader, RoomWriter};
use std::alloc::Global;

/// The arguments of GETATTR (RFC 1813 section 3.3.1).
#[derive(Drop)]
pub struct GetattrArgs {
    /// The file handle of the object.
    pub object: Handle,
}

#[tactic(auto, unfolding(crate::specs::Attributes::getattr_args_codec))]
impl Xdr for GetattrArgs {
    ghost codec = { getattr_args_codec };

    ghost lawful = { getattr_args_lawful };

    fn read_from<'a>(
        alloc: Global,
        reader: Reader<'a>,
    ) -> Result<(GetattrArgs, Reader<'a>), ValueFault> {
        let (object, reader) = Handle::read_from(alloc, reader)?;
        Ok((GetattrArgs { object }, reader))
    }

    fn write_to(&self, writer: RoomWriter) -> Result<RoomWriter, Memory> {
        self.object.write_to(writer)
    }
}

/// The arguments of SETATTR (RFC 1813 section 3.3.2).
#[derive(Drop)]
pub struct SetattrArgs {
    /// The file handle of the object.
    pub object: Handle,
    /// `new_attributes`: the attributes to set.
    pub attributes: SetAttributes,
    /// The change time that the object must have, if it is given.
    pub guard: Option<Time>,
}

#[tactic(auto, unfolding(crate::specs::Attributes::setattr_args_codec))]
impl Xdr for SetattrArgs {
    ghost codec = { setattr_args_codec };

    ghost lawful = { setattr_args_lawful };

    fn read_from<'a>(
        alloc: Global,
        reader: Reader<'a>,
    ) -> Result<(SetattrArgs, Reader<'a>), ValueFault> {
        let ((object, (attributes, guard)), reader) = <(
            Handle,
            (SetAttributes, Option<Time>),
        )>::read_from(alloc, reader)?;
        Ok((
            SetattrArgs {
                object,
                attributes,
                guard,
            },
            reader,
        ))
    }

    fn write_to(&self, writer: RoomWriter) -> Result<RoomWriter, Memory> {
        write_three(&self.object, &self.attributes, &self.guard, writer)
    }
}

/// The arguments of ACCESS (RFC 1813 section 3.3.4).
#[derive(Drop)]
pub struct AccessArgs {
    /// The file handle of the object.
    pub object: Handle,
    /// A bit for each right to check.
    pub access: u32,
}

#[tactic(auto, unfolding(crate::specs::Attributes::access_args_codec))]
impl Xdr for AccessArgs {
    ghost codec = { access_args_codec };

    ghost lawful = { access_args_lawful };

    fn read_from<'a>(
        alloc: Global,
        reader: Reader<'a>,
    ) -> Result<(AccessArgs, Reader<'a>), ValueFault> {
        let ((object, access), reader) = <(Handle, u32)>::read_from(alloc, reader)?;
        Ok((AccessArgs { object, access }, reader))
    }

    fn write_to(&self, writer: RoomWriter) -> Result<RoomWriter, Memory> {
        write_two(&self.object, &self.access, writer)
    }
}
