//! How a file is created.

ghost use Rattle.nr_nfs_args.specs.CreateMode.{create_mode_codec, create_mode_lawful, create_mode_number, create_modes, each_create_mode};

use nr_nfs_base::{Numbered, ValueFault, Xdr, read_numbered, write_numbered};
use nr_xdr::{Memory, Reader, RoomWriter};
use std::alloc::Global;

/// How a file is created (RFC 1813 section 3.3.8, `createmode3`).
#[derive(Clone, Copy)]
pub enum CreateMode {
    /// A file of this name may exist.
    Unchecked = 0,
    /// No file of this name may exist.
    Guarded = 1,
    /// A file of this name may exist if it was created with the same verifier.
    Exclusive = 2,
}

impl Numbered for CreateMode {
    ghost number = { create_mode_number };

    ghost all = { create_modes };

    ghost each = { each_create_mode };

    fn number(self) -> u32 {
        self as u32
    }

    fn from_number(word: u32) -> Option<CreateMode> {
        match word {
            0 => Some(CreateMode::Unchecked),
            1 => Some(CreateMode::Guarded),
            2 => Some(CreateMode::Exclusive),
            _ => None,
        }
    }
}

#[tactic(auto, unfolding(crate::specs::CreateMode::create_mode_codec))]
impl Xdr for CreateMode {
    ghost codec = { create_mode_codec };

    ghost lawful = { create_mode_lawful };

    fn read_from<'a>(
        alloc: Global,
        reader: Reader<'a>,
    ) -> Result<(CreateMode, Reader<'a>), ValueFault> {
        read_numbered(alloc, reader)
    }

    fn write_to(&self, writer: RoomWriter) -> Result<RoomWriter, Memory> {
        write_numbered(*self, writer)
    }
}
