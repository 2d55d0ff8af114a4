//! Values one after the other.

ghost use Rattle.nr_nfs_base.specs.Codec.{WritesValue, ◌⊗◌, ◌&◌};
ghost use Rattle.nr_nfs_base.specs.Laws.{◌⊠◌};

use crate::fault::ValueFault;
use crate::xdr::Xdr;
use nr_xdr::{Memory, Reader, RoomWriter};
use std::alloc::Global;

/// Two values, one after the other (RFC 4506 section 4.14). The fields of a structure are read as nested pairs.
impl<A: Xdr, B: Xdr> Xdr for (A, B) {
    ghost codec = { A.codec ⊗ B.codec };

    ghost lawful = { A.lawful ⊠ B.lawful };

    fn read_from<'a>(
        alloc: Global,
        reader: Reader<'a>,
    ) -> Result<((A, B), Reader<'a>), ValueFault> {
        let (a, reader) = A::read_from(alloc, reader)?;
        let (b, reader) = B::read_from(alloc, reader)?;
        Ok(((a, b), reader))
    }

    fn write_to(&self, writer: RoomWriter) -> Result<RoomWriter, Memory> {
        write_two(&self.0, &self.1, writer)
    }
}

/// Writes two values, one after the other.
pub fn write_two<A: Xdr, B: Xdr>(a: &A, b: &B, writer: RoomWriter) -> Result<RoomWriter, Memory>
    ensures { WritesValue (A.codec ⊗ B.codec) writer (a.now & b.now) result }
{
    let writer = a.write_to(writer)?;
    b.write_to(writer)
}

/// Writes three values, one after the other.
pub fn write_three<A: Xdr, B: Xdr, C: Xdr>(
    a: &A,
    b: &B,
    c: &C,
    writer: RoomWriter,
) -> Result<RoomWriter, Memory>
    ensures { WritesValue (A.codec ⊗ B.codec ⊗ C.codec) writer (a.now & b.now & c.now) result }
{
    let writer = a.write_to(writer)?;
    write_two(b, c, writer)
}

/// Writes four values, one after the other.
pub fn write_four<A: Xdr, B: Xdr, C: Xdr, D: Xdr>(
    a: &A,
    b: &B,
    c: &C,
    d: &D,
    writer: RoomWriter,
) -> Result<RoomWriter, Memory>
    ensures { WritesValue (A.codec ⊗ B.codec ⊗ C.codec ⊗ D.codec) writer (a.now & b.now & c.now & d.now) result }
{
    let writer = a.write_to(writer)?;
    write_three(b, c, d, writer)
}
