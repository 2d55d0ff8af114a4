//! Readings of several items: the offset of the first item that fails, and nothing else about it.

ghost use Rattle.std.specs.Prelude.{◌≡◌, ◌+◌, ◌≤◌, length, OnErr};
ghost use Rattle.nr_xdr.specs.Fields.{word_at};
ghost use Rattle.nr_xdr.specs.Matching.{MatchesRead};
ghost use Rattle.nr_xdr.specs.Reading.{place_of};
ghost use Rattle.nr_xdr.specs.Sequencing.{number_at};

use crate::fault::ItemFault;
use crate::reader::Reader;
use crate::words::first_word;

/// The offset of the first item that fails, in bytes from the reader's first byte.
#[derive(Clone, Copy)]
pub struct DecodeError {
    /// That offset.
    pub at: usize,
}

impl From<ItemFault> for DecodeError {
    ghost from_gives = { λ e error. error.at ≡ place_of e };

    fn from(e: ItemFault) -> DecodeError {
        let at = match e {
            ItemFault::Short { at } | ItemFault::Long { at, .. } | ItemFault::BadBool { at } => at,
        };
        DecodeError { at }
    }
}

/// Reads an unsigned integer.
pub fn number(reader: &mut Reader<'_>) -> Result<u32, DecodeError>
    ensures exact { MatchesRead (λ n. n) result reader.new (number_at reader.old) }
    ensures err { OnErr result (reader.new ≡ reader.old) }
{
    Ok(reader.u32()?)
}

/// The four bytes at an offset as a number, the highest first (RFC 4506 section 4.2).
pub fn word_at(bytes: &[u8], place: usize) -> u32
    requires { place + 4 ≤ length bytes.now }
    ensures { result ≡ word_at place bytes.now }
{
    let (_, rest) = bytes.split_at(place);
    first_word(rest)
}
