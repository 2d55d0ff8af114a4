//! Verifiers.

ghost use Rattle.nr_nfs_base.specs.Verifier.{verifier_codec, verifier_lawful};

use crate::fault::ValueFault;
use crate::xdr::Xdr;
use nr_xdr::{Memory, Reader, RoomWriter};
use std::alloc::Global;

/// Eight opaque bytes by which a server recognizes its own earlier state, or a repeated call (RFC 1813 section 2.5,
/// `writeverf3`, `cookieverf3` and `createverf3`). They are kept as a big-endian number.
#[derive(Clone, Copy)]
pub struct Verifier {
    /// The eight bytes as a big-endian number.
    pub number: u64,
}

#[tactic(auto, unfolding(crate::specs::Verifier::verifier_codec))]
impl Xdr for Verifier {
    ghost codec = { verifier_codec };

    ghost lawful = { verifier_lawful };

    fn read_from<'a>(
        alloc: Global,
        reader: Reader<'a>,
    ) -> Result<(Verifier, Reader<'a>), ValueFault> {
        let (number, reader) = u64::read_from(alloc, reader)?;
        Ok((Verifier { number }, reader))
    }

    fn write_to(&self, writer: RoomWriter) -> Result<RoomWriter, Memory> {
        self.number.write_to(writer)
    }
}
