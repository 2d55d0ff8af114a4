//! The numbers of two and of eight bytes at an offset, the highest byte first, single bits, and bytes at the end of a list.

ghost use Rattle.std.specs.Prelude.{◌≡◌, ◌+◌, ◌<◌, ◌≤◌, ◌++◌, length};
ghost use Rattle.arrayvec.specs.ArrayVec.{array_vec_len};
ghost use Rattle.nr_wire.specs.Fields.{half_word_at, hyper_at, has_bit};

use arrayvec::ArrayVec;

/// The two bytes at an offset as a number.
#[tactic(auto, unfolding(crate::specs::Fields::half_word_of))]
pub fn half_word_at(bytes: &[u8], place: usize) -> u16
    requires { place + 2 ≤ length bytes.now }
    ensures { result ≡ half_word_at place bytes.now }
{
    let (_, rest) = bytes.split_at(place);
    u16::from_be_bytes([rest[0], rest[1]])
}

/// The eight bytes at an offset as a number.
#[tactic(auto, unfolding(nr_xdr::specs::Item::hyper_of))]
pub fn hyper_at(bytes: &[u8], place: usize) -> u64
    requires { place + 8 ≤ length bytes.now }
    ensures { result ≡ hyper_at place bytes.now }
{
    let (_, rest) = bytes.split_at(place);
    u64::from_be_bytes([
        rest[0], rest[1], rest[2], rest[3], rest[4], rest[5], rest[6], rest[7],
    ])
}

/// Whether the bit of this value is set in the byte.
pub fn has_bit(value: u8, byte: u8) -> bool
    requires { 0 < value }
    ensures { result ≡ has_bit value byte }
{
    byte / value % 2 == 1
}

/// Puts some bytes at the end. There is room for them.
pub(crate) fn append<const N: usize>(out: &mut ArrayVec<u8, N>, bytes: &[u8])
    requires { array_vec_len out.old + length bytes.now ≤ N }
    ensures bytes { out.new.items ≡ out.old.items ++ bytes.now }
    ensures len { array_vec_len out.new ≡ array_vec_len out.old + length bytes.now }
{
    if out.try_extend_from_slice(bytes).is_err() {
        unreachable!();
    }
}
