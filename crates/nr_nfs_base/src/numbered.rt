//! Enumerations.

ghost use Rattle.std.specs.Prelude.{◌≡◌, ◌==◌, false, ℕ, List, Some};
ghost use Rattle.nr_nfs_base.specs.Codec.{value_with_number, enumeration, Answers, WritesValue};

use crate::fault::ValueFault;
use crate::xdr::Xdr;
use nr_xdr::{Memory, Reader, RoomWriter};
use std::alloc::Global;

/// An enumeration (RFC 4506 section 4.3): each value has a number, and no other number is a value.
pub trait Numbered: Copy {
    /// The number of a value.
    ghost number: { Self → ℕ };

    /// Every value, in the order of the numbers.
    ghost all: { List Self };

    /// The number of the value.
    fn number(self) -> u32
        ensures { result ≡ number self };

    /// The value with this number, if there is one.
    fn from_number(word: u32) -> Option<Self>
        ensures { result ≡ value_with_number number all word };

    /// The value with the number of a value is that value.
    ghost each: { (v : Self) → value_with_number number all (number v) ≡ Some v };
}

/// An enumeration of failures. The number 0 is not among them, since it means success.
pub trait Failure: Numbered {
    /// No failure has the number 0.
    ghost not_ok: { (v : Self) → (0 == Self.number v) ≡ false };
}

/// Reads a value of an enumeration. `Bad` at its word if the word is not the number of a value.
#[tactic(auto, unfolding(crate::specs::Codec::enumeration))]
pub fn read_numbered<'a, T: Numbered>(
    alloc: Global,
    reader: Reader<'a>,
) -> Result<(T, Reader<'a>), ValueFault>
    ensures { Answers result ((enumeration T.number T.all).read reader.entry) }
{
    let at = reader.at();
    let (word, reader) = u32::read_from(alloc, reader)?;
    match T::from_number(word) {
        Some(value) => Ok((value, reader)),
        None => Err(ValueFault::Bad { at }),
    }
}

/// Writes the number of a value.
#[tactic(auto, unfolding(crate::specs::Codec::enumeration))]
pub fn write_numbered<T: Numbered>(value: T, writer: RoomWriter) -> Result<RoomWriter, Memory>
    ensures { WritesValue (enumeration T.number T.all) writer value result }
{
    value.number().write_to(writer)
}
