//! CREATE and MKDIR.

ghost use Rattle.nr_nfs_args.specs.Create.{attributes_arm, create_args_codec, create_args_lawful, create_how_codec, create_how_lawful, mkdir_args_codec, mkdir_args_lawful};
ghost use Rattle.nr_nfs_base.specs.Codec.{Answers, arm_value};
ghost use Rattle.nr_nfs_base.specs.SetAttributes.{set_attributes_codec};

use crate::create_mode::CreateMode;
use nr_nfs_base::{Handle, Name, SetAttributes, ValueFault, Verifier, Xdr, write_three, write_two};
use nr_xdr::{Memory, Reader, RoomWriter};
use std::alloc::Global;

/// How a file is created (RFC 1813 section 3.3.8, `createhow3`).
#[derive(Clone, Copy)]
pub enum CreateHow {
    /// A file of this name may exist.
    Unchecked(SetAttributes),
    /// No file of this name may exist.
    Guarded(SetAttributes),
    /// A file of this name may exist if it was created with the same verifier.
    Exclusive(Verifier),
}

#[tactic(auto, unfolding(crate::specs::Create::create_how_codec))]
impl Xdr for CreateHow {
    ghost codec = { create_how_codec };

    ghost lawful = { create_how_lawful };

    fn read_from<'a>(
        alloc: Global,
        reader: Reader<'a>,
    ) -> Result<(CreateHow, Reader<'a>), ValueFault> {
        let (tag, reader) = CreateMode::read_from(alloc, reader)?;
        match tag {
            CreateMode::Unchecked => read_attributes(alloc, false, reader),
            CreateMode::Guarded => read_attributes(alloc, true, reader),
            CreateMode::Exclusive => {
                let (value, reader) = Verifier::read_from(alloc, reader)?;
                Ok((CreateHow::Exclusive(value), reader))
            }
        }
    }

    fn write_to(&self, writer: RoomWriter) -> Result<RoomWriter, Memory> {
        match self {
            CreateHow::Unchecked(value) => { write_two(&CreateMode::Unchecked, value, writer) }
            CreateHow::Guarded(value) => { write_two(&CreateMode::Guarded, value, writer) }
            CreateHow::Exclusive(value) => { write_two(&CreateMode::Exclusive, value, writer) }
        }
    }
}

/// Reads the attributes of a new file.
fn read_attributes<'a>(
    alloc: Global,
    is_guarded: bool,
    reader: Reader<'a>,
) -> Result<(CreateHow, Reader<'a>), ValueFault>
    ensures { Answers result (arm_value (attributes_arm is_guarded) (set_attributes_codec.read reader.entry)) }
{
    let (value, reader) = SetAttributes::read_from(alloc, reader)?;
    if is_guarded {
        Ok((CreateHow::Guarded(value), reader))
    } else {
        Ok((CreateHow::Unchecked(value), reader))
    }
}

/// The arguments of CREATE (RFC 1813 section 3.3.8).
#[derive(Drop)]
pub struct CreateArgs {
    /// `where.dir`: the directory in which the file is created.
    pub dir: Handle,
    /// `where.name`: the name of the new entry.
    pub name: Name,
    /// How the file is created, and the attributes that it gets.
    pub how: CreateHow,
}

#[tactic(auto, unfolding(crate::specs::Create::create_args_codec))]
impl Xdr for CreateArgs {
    ghost codec = { create_args_codec };

    ghost lawful = { create_args_lawful };

    fn read_from<'a>(
        alloc: Global,
        reader: Reader<'a>,
    ) -> Result<(CreateArgs, Reader<'a>), ValueFault> {
        let ((dir, (name, how)), reader) = <(Handle, (Name, CreateHow))>::read_from(alloc, reader)?;
        Ok((CreateArgs { dir, name, how }, reader))
    }

    fn write_to(&self, writer: RoomWriter) -> Result<RoomWriter, Memory> {
        write_three(&self.dir, &self.name, &self.how, writer)
    }
}

/// The arguments of MKDIR (RFC 1813 section 3.3.9).
#[derive(Drop)]
pub struct MkdirArgs {
    /// `where.dir`: the directory in which the subdirectory is created.
    pub dir: Handle,
    /// `where.name`: the name of the new entry.
    pub name: Name,
    /// The initial attributes.
    pub attributes: SetAttributes,
}

#[tactic(auto, unfolding(crate::specs::Create::mkdir_args_codec))]
impl Xdr for MkdirArgs {
    ghost codec = { mkdir_args_codec };

    ghost lawful = { mkdir_args_lawful };

    fn read_from<'a>(
        alloc: Global,
        reader: Reader<'a>,
    ) -> Result<(MkdirArgs, Reader<'a>), ValueFault> {
        let ((dir, (name, attributes)), reader) = <(Handle, (Name, SetAttributes))>::read_from(
            alloc, reader,
        )?;
        Ok((
            MkdirArgs {
                dir,
                name,
                attributes,
            },
            reader,
        ))
    }

    fn write_to(&self, writer: RoomWriter) -> Result<RoomWriter, Memory> {
        write_three(&self.dir, &self.name, &self.attributes, writer)
    }
}
