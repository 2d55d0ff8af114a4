//! Numbers in decimal digits.

ghost use Rattle.std.specs.Prelude.{◌≡◌};
ghost use Rattle.nr_words.specs.Numbers.{number_within, numeral_within};

/// The number that a text of decimal digits writes, if it is in this range.
pub(crate) fn number_within(low: u64, high: u64, text: &[u8]) -> Option<u64>
    ensures { result ≡ number_within low high text.now }
{
    if text.is_empty() {
        return None;
    }
    let mut value: u64 = 0;
    for byte in text {
        if *byte < b'0' {
            return None;
        }
        if *byte > b'9' {
            return None;
        }
        let next = u128::from(value) * 10 + u128::from(*byte - b'0');
        if next > u128::from(high) {
            return None;
        }
        value = next as u64;
    }
    if value < low {
        return None;
    }
    Some(value)
}

/// The same of a text without a leading zero.
pub(crate) fn numeral_within(low: u64, high: u64, text: &[u8]) -> Option<u64>
    ensures { result ≡ numeral_within low high text.now }
{
    match text {
        [b'0', _, ..] => None,
        _ => number_within(low, high, text),
    }
}
