//! The trait of all values that are read and written.

ghost use Rattle.std.specs.Prelude.{◌≡◌, IfOk, MatchResult};
ghost use Rattle.nr_nfs_base.specs.Codec.{Codec, Lawful, Answers, WritesValue, ReadsAs, read_all};
ghost use Rattle.nr_xdr.specs.Items.{encodings};
ghost use Rattle.nr_nfs_base.specs.declared.fault.ValueFault.TheVariants.{Memory as memory};

use crate::fault::ValueFault;
use nr_xdr::{Memory, Octets, Reader, RoomWriter};
use std::alloc::Global;

/// A value that is encoded as items of XDR (RFC 4506).
///
/// An implementation provides `codec`, `read_from`, `write_to` and the law. `read` and `write` treat a value that stands
/// alone. Pad bytes may have any value when read, and are written as zeros.
pub trait Xdr: Drop {
    /// The items that encode a value, whether a value is within the limits of the type, and what is read at an offset.
    ghost codec: { Codec Self };

    /// The value at the reader's offset, and the reader after it. `Bad` at the first item that fails, in bytes from
    /// the reader's first byte.
    fn read_from<'a>(alloc: Global, reader: Reader<'a>) -> Result<(Self, Reader<'a>), ValueFault>
        ensures exact { Answers result (codec.read reader.entry) };

    /// Appends the items that encode the value, each of which is within its limits. Fails only if the writer has no room for
    /// them.
    fn write_to(&self, writer: RoomWriter) -> Result<RoomWriter, Memory>
        ensures exact { WritesValue codec writer self.now result };

    /// Reading and encoding are inverse, whatever the pad bytes are.
    ghost lawful: { Lawful codec };

    /// The value that all of the bytes are read as, whatever their pad bytes are. `Bad` at the first item that fails, or
    /// at the first byte left over.
    final fn read(alloc: Global, bytes: &[u8]) -> Result<Self, ValueFault>
        // The bytes are read as the value that is given.
        ensures found { IfOk result (λ v. ReadsAs codec v bytes.now) }
        // If they are read as a value, it is given.
        ensures only { (v : Self) → ReadsAs codec v bytes.now → MatchResult result (λ w. w ≡ v) (λ e. e ≡ memory) }
        // Which fault it is.
        ensures exact { Answers result (read_all codec bytes.now) }
    {
        read_inner(alloc, bytes)
    }

    /// The bytes of the value.
    final fn write(&self, alloc: Global) -> Result<Octets, Memory>
        // The bytes are the one encoding of the value.
        ensures encoding { IfOk result (λ bytes. bytes ≡ encodings (codec.items self.now)) }
        // The bytes are read as the value.
        ensures reading { IfOk result (λ bytes. ReadsAs codec self.now bytes) }
    {
        Ok(self.write_to(RoomWriter::new(alloc))?.finish())
    }
}

/// The value that all of the bytes are read as.
fn read_inner<T: Xdr>(alloc: Global, bytes: &[u8]) -> Result<T, ValueFault>
    ensures { Answers result (read_all T.codec bytes.now) }
{
    let (value, reader) = T::read_from(alloc, Reader::new(bytes))?;
    if reader.rest().is_empty() {
        Ok(value)
    } else {
        Err(ValueFault::Bad { at: reader.at() })
    }
}
