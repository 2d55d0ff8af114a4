//! Opaque data of a bounded length.

ghost use Rattle.std.specs.Prelude.{◌≡◌, ◌≤◌, length, IfOk};
ghost use Rattle.nr_nfs_base.specs.Codec.{opaque, WritesValue};
ghost use Rattle.nr_nfs_base.specs.Laws.{opaque_lawful};

use crate::fault::ValueFault;
use crate::xdr::Xdr;
use nr_xdr::{Memory, Octets, Reader, RoomWriter};
use std::alloc::Global;
use std::marker::Model;

/// Opaque data of at most `MAX` bytes (RFC 4506 section 4.10). Contracts see it as the list of its bytes.
#[derive(Drop)]
pub struct Opaque<const MAX: u32> {
    bytes: Octets,
}

impl<const MAX: u32> Model for Opaque<MAX> {
    ghost use Rattle.std.specs.Prelude.{List, ℕ, ◌≤◌, length};

    ghost Value = { List ℕ };

    ghost view = { λ o. o.bytes };

    ghost invariant = { λ o. length o.bytes ≤ MAX };
}

impl<const MAX: u32> Opaque<MAX> {
    /// These bytes. Takes no memory.
    pub fn new(bytes: Octets) -> Opaque<MAX>
        requires { length bytes ≤ MAX }
        ensures { result ≡ bytes }
    {
        Opaque { bytes }
    }

    /// A copy of some bytes.
    pub fn from_slice(alloc: Global, bytes: &[u8]) -> Result<Opaque<MAX>, Memory>
        requires { length bytes.now ≤ MAX }
        ensures { IfOk result (λ o. o ≡ bytes.now) }
    {
        Ok(Opaque {
            bytes: Octets::from_slice(alloc, bytes)?,
        })
    }

    /// The bytes. Takes no memory.
    pub fn into_octets(self) -> Octets
        ensures value { result ≡ self.entry }
        ensures bounded { length self.entry ≤ MAX }
    {
        self.bytes
    }

    /// The bytes.
    pub fn as_slice(&self) -> &[u8]
        ensures value { result.now ≡ self.now }
        ensures bounded { length self.now ≤ MAX }
    {
        self.bytes.as_slice()
    }
}

#[tactic(auto, unfolding(crate::specs::Codec::opaque))]
impl<const MAX: u32> Xdr for Opaque<MAX> {
    ghost codec = { opaque MAX };

    ghost lawful = { opaque_lawful MAX };

    fn read_from<'a>(
        alloc: Global,
        mut reader: Reader<'a>,
    ) -> Result<(Opaque<MAX>, Reader<'a>), ValueFault> {
        let bytes = reader.opaque(MAX)?;
        let bytes = Octets::from_slice(alloc, bytes)?;
        Ok((Opaque { bytes }, reader))
    }

    fn write_to(&self, writer: RoomWriter) -> Result<RoomWriter, Memory> {
        write_opaque::<MAX>(self.as_slice(), writer)
    }
}

/// Writes opaque data of at most `MAX` bytes, which are borrowed.
#[tactic(auto, using(crate::proofs::Appending::appends_one, crate::proofs::Appending::lacks_one), unfolding(crate::specs::Codec::opaque))]
pub fn write_opaque<const MAX: u32>(bytes: &[u8], writer: RoomWriter) -> Result<RoomWriter, Memory>
    requires { length bytes.now ≤ MAX }
    ensures { WritesValue (opaque MAX) writer bytes.now result }
{
    let mut writer = writer;
    writer.opaque(bytes)?;
    Ok(writer)
}
