//! The numbers at the front of some bytes.

ghost use Rattle.std.specs.Prelude.{◌≡◌, ◌%◌, ◌-◌, ◌<◌, ◌≤◌, length, take};
ghost use Rattle.nr_xdr.specs.Item.{word_of, hyper_of, pad_len};

/// The first four bytes as a number, the highest first (RFC 4506 section 4.2).
#[tactic(auto, unfolding(crate::specs::Item::word_of))]
pub fn first_word(bytes: &[u8]) -> u32
    requires { 4 ≤ length bytes.now }
    ensures { result ≡ word_of (take 4 bytes.now) }
{
    u32::from_be_bytes([bytes[0], bytes[1], bytes[2], bytes[3]])
}

/// The first eight bytes as a number, the highest first (RFC 4506 section 4.5).
#[tactic(auto, unfolding(crate::specs::Item::hyper_of))]
pub fn first_hyper(bytes: &[u8]) -> u64
    requires { 8 ≤ length bytes.now }
    ensures { result ≡ hyper_of (take 8 bytes.now) }
{
    u64::from_be_bytes([
        bytes[0], bytes[1], bytes[2], bytes[3], bytes[4], bytes[5], bytes[6], bytes[7],
    ])
}

/// How many pad bytes fill `len` bytes up to a multiple of four (RFC 4506 section 3).
#[tactic(auto, unfolding(crate::specs::Item::pad_len))]
pub fn pad_len(len: usize) -> usize
    ensures is { result ≡ pad_len len }
    ensures small { result < 4 }
{
    (4 - len % 4) % 4
}
