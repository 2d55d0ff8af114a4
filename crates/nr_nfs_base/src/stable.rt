//! Stable storage.

ghost use Rattle.nr_nfs_base.specs.Stable.{each_stable_how, stable_how_codec, stable_how_lawful, stable_how_number, stable_hows};

use crate::fault::ValueFault;
use crate::numbered::{Numbered, read_numbered, write_numbered};
use crate::xdr::Xdr;
use nr_xdr::{Memory, Reader, RoomWriter};
use std::alloc::Global;

/// What is on stable storage after a WRITE (RFC 1813 section 3.3.7, `stable_how`).
#[derive(Clone, Copy)]
pub enum StableHow {
    /// Possibly nothing.
    Unstable = 0,
    /// All data, and the metadata that is needed to read it.
    DataSync = 1,
    /// All data and all metadata.
    FileSync = 2,
}

impl Numbered for StableHow {
    ghost number = { stable_how_number };

    ghost all = { stable_hows };

    ghost each = { each_stable_how };

    fn number(self) -> u32 {
        self as u32
    }

    fn from_number(word: u32) -> Option<StableHow> {
        match word {
            0 => Some(StableHow::Unstable),
            1 => Some(StableHow::DataSync),
            2 => Some(StableHow::FileSync),
            _ => None,
        }
    }
}

#[tactic(auto, unfolding(crate::specs::Stable::stable_how_codec))]
impl Xdr for StableHow {
    ghost codec = { stable_how_codec };

    ghost lawful = { stable_how_lawful };

    fn read_from<'a>(
        alloc: Global,
        reader: Reader<'a>,
    ) -> Result<(StableHow, Reader<'a>), ValueFault> {
        read_numbered(alloc, reader)
    }

    fn write_to(&self, writer: RoomWriter) -> Result<RoomWriter, Memory> {
        write_numbered(*self, writer)
    }
}
