//! What the private data of a hello says (RFC 5044 section 7.1). All of it is own.

ghost use Rattle.std.specs.Prelude.{◌≡◌, ◌+◌, ◌≤◌, length};
ghost use Rattle.arrayvec.specs.ArrayVec.{array_vec_len};
ghost use Rattle.nr_wire.specs.Constants.{NUMBERED_TERMS_LEN, TERMS_LEN};
ghost use Rattle.nr_wire.specs.Terms.{terms_key as key, number_in, terms_encoding, terms_in, units_byte, units_of_byte};

use crate::constants::{NUMBERED_TERMS_LEN, TERMS_INVALIDATE, TERMS_LEN, TERMS_NUMBER, UNITS_MAX};
use crate::words::{append, has_bit, hyper_at};
use arrayvec::ArrayVec;

/// What a side says in the private data of its hello.
#[derive(Clone, Copy, PartialEq, Eq)]
pub struct Terms {
    /// The maximum length of a Send that it writes, in units of 1,024 bytes: 1 to 16.
    pub sends: u8,
    /// The maximum length of a Send that it takes, in units of 1,024 bytes: 1 to 16.
    pub receives: u8,
    /// The number of the client, or 0 if it has none.
    pub number: u64,
    /// It makes or takes Sends with Invalidate (RFC 5040 section 4).
    pub invalidates: bool,
}

/// The bytes that open private data with terms, with the version.
#[tactic(auto, unfolding(crate::specs::Terms::terms_key))]
fn terms_key() -> &'static [u8]
    ensures { result.now ≡ key }
{
    b"NR01\x01"
}

/// A number of units as a byte.
fn units_byte(units: u8) -> u8
    ensures { result ≡ units_byte units }
{
    units.saturating_sub(1).min(UNITS_MAX - 1)
}

/// The units of a byte.
fn units_of_byte(byte: u8) -> u8
    ensures { result ≡ units_of_byte byte }
{
    byte.min(UNITS_MAX - 1) + 1
}

/// The number of a client in private data with terms, or 0.
fn number_in(private: &[u8]) -> u64
    requires { TERMS_LEN ≤ length private.now }
    ensures { result ≡ number_in private.now }
{
    if has_bit(TERMS_NUMBER, private[5]) && private.len() >= NUMBERED_TERMS_LEN {
        hyper_at(private, TERMS_LEN)
    } else {
        0
    }
}

/// What private data says, or `None` if it isn't of this project: if and only if it has fewer than 8 bytes or begins with
/// others than `NR01` and the version 1. Unknown flags are ignored, and a byte of units above 15 counts as 15.
#[tactic(auto, unfolding(crate::specs::Terms::terms_in))]
pub fn read_terms(private: &[u8]) -> Option<Terms>
    ensures { result ≡ terms_in private.now }
{
    if private.len() < TERMS_LEN || !private.starts_with(terms_key()) {
        return None;
    }
    Some(Terms {
        sends: units_of_byte(private[6]),
        receives: units_of_byte(private[7]),
        number: number_in(private),
        invalidates: has_bit(TERMS_INVALIDATE, private[5]),
    })
}

/// The private data of a side with these units for Sends in both directions, of which 0 counts as 1 and more than 16 as 16, and
/// with this number of a client, or 0 for none: 8 bytes, or 16 with a number. Takes no memory.
#[tactic(auto, unfolding(crate::specs::Terms::terms_encoding, crate::specs::Terms::terms_key, nr_xdr::specs::Item::hyper))]
pub fn write_terms(units: u8, number: u64, invalidates: bool) -> ArrayVec<u8, NUMBERED_TERMS_LEN>
    ensures bytes { result.items ≡ terms_encoding units number invalidates }
    ensures len { array_vec_len result ≤ NUMBERED_TERMS_LEN }
{
    let flags = TERMS_NUMBER * u8::from(number != 0) + TERMS_INVALIDATE * u8::from(invalidates);
    let units = units_byte(units);
    let mut out = ArrayVec::new();
    append(&mut out, terms_key());
    append(&mut out, &[flags, units, units]);
    if number != 0 {
        append(&mut out, &number.to_be_bytes());
    }
    out
}
