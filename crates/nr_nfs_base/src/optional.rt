//! Optional data.

ghost use Rattle.nr_nfs_base.specs.Codec.{optional};
ghost use Rattle.nr_nfs_base.specs.Laws.{optional_lawful};

use crate::fault::ValueFault;
use crate::xdr::Xdr;
use nr_xdr::{Memory, Reader, RoomWriter};
use std::alloc::Global;

/// Optional data (RFC 4506 section 4.19): a flag, and the value if the flag is 1.
#[tactic(auto, unfolding(crate::specs::Codec::optional))]
impl<T: Xdr> Xdr for Option<T> {
    ghost codec = { optional T.codec };

    ghost lawful = { optional_lawful T.codec T.lawful };

    fn read_from<'a>(
        alloc: Global,
        reader: Reader<'a>,
    ) -> Result<(Option<T>, Reader<'a>), ValueFault> {
        let (is_there, reader) = bool::read_from(alloc, reader)?;
        if is_there {
            let (value, reader) = T::read_from(alloc, reader)?;
            Ok((Some(value), reader))
        } else {
            Ok((None, reader))
        }
    }

    fn write_to(&self, writer: RoomWriter) -> Result<RoomWriter, Memory> {
        match self {
            None => false.write_to(writer),
            Some(value) => {
                let writer = true.write_to(writer)?;
                value.write_to(writer)
            }
        }
    }
}
