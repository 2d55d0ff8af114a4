//! Values of one item, and the empty value.

ghost use Rattle.nr_nfs_base.specs.Codec.{word, hyper, boolean, void};
ghost use Rattle.nr_nfs_base.specs.Laws.{word_lawful, hyper_lawful, boolean_lawful, void_lawful};

use crate::fault::ValueFault;
use crate::xdr::Xdr;
use nr_xdr::{Memory, Reader, RoomWriter};
use std::alloc::Global;

/// An unsigned integer (RFC 4506 section 4.2).
#[tactic(auto, using(crate::proofs::Appending::appends_one, crate::proofs::Appending::lacks_one), unfolding(crate::specs::Codec::word))]
impl Xdr for u32 {
    ghost codec = { word };

    ghost lawful = { word_lawful };

    fn read_from<'a>(
        _alloc: Global,
        mut reader: Reader<'a>,
    ) -> Result<(u32, Reader<'a>), ValueFault> {
        let number = reader.u32()?;
        Ok((number, reader))
    }

    fn write_to(&self, mut writer: RoomWriter) -> Result<RoomWriter, Memory> {
        writer.u32(*self)?;
        Ok(writer)
    }
}

/// An unsigned hyper integer (RFC 4506 section 4.5).
#[tactic(auto, using(crate::proofs::Appending::appends_one, crate::proofs::Appending::lacks_one), unfolding(crate::specs::Codec::hyper))]
impl Xdr for u64 {
    ghost codec = { hyper };

    ghost lawful = { hyper_lawful };

    fn read_from<'a>(
        _alloc: Global,
        mut reader: Reader<'a>,
    ) -> Result<(u64, Reader<'a>), ValueFault> {
        let number = reader.u64()?;
        Ok((number, reader))
    }

    fn write_to(&self, mut writer: RoomWriter) -> Result<RoomWriter, Memory> {
        writer.u64(*self)?;
        Ok(writer)
    }
}

/// A boolean (RFC 4506 section 4.4).
#[tactic(auto, using(crate::proofs::Appending::appends_one, crate::proofs::Appending::lacks_one), unfolding(crate::specs::Codec::boolean))]
impl Xdr for bool {
    ghost codec = { boolean };

    ghost lawful = { boolean_lawful };

    fn read_from<'a>(
        _alloc: Global,
        mut reader: Reader<'a>,
    ) -> Result<(bool, Reader<'a>), ValueFault> {
        let flag = reader.boolean()?;
        Ok((flag, reader))
    }

    fn write_to(&self, mut writer: RoomWriter) -> Result<RoomWriter, Memory> {
        writer.boolean(*self)?;
        Ok(writer)
    }
}

/// No bytes (RFC 4506 section 4.16).
impl Xdr for () {
    ghost codec = { void };

    ghost lawful = { void_lawful };

    fn read_from<'a>(_alloc: Global, reader: Reader<'a>) -> Result<((), Reader<'a>), ValueFault> {
        Ok(((), reader))
    }

    fn write_to(&self, writer: RoomWriter) -> Result<RoomWriter, Memory> {
        Ok(writer)
    }
}
