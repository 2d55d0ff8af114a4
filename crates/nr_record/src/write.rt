//! Writing of records.

ghost use Rattle.std.specs.Prelude.{◌≡◌, ◌+◌, ◌<◌, ◌^◌, length, IfOk, true};
ghost use Rattle.nr_record.specs.Records.{fragment, header};

use crate::constants::{BIT_LAST, HEADER_LEN};
use nr_xdr::{Memory, Octets};
use std::alloc::Global;

/// The header of a record of this length as one fragment (RFC 5531 section 11). A record above 1056768 bytes is refused by
/// [`crate::Records::feed`].
#[tactic(auto, unfolding(nr_xdr::specs::Item::word))]
pub fn record_header(len: usize) -> [u8; HEADER_LEN]
    requires { len < 2 ^ 31 }
    ensures { result ≡ header true len }
{
    (BIT_LAST + len as u32).to_be_bytes()
}

/// A record as one fragment: [`record_header`], and then the record.
pub fn write_record(alloc: Global, bytes: &[u8]) -> Result<Octets, Memory>
    requires { length bytes.now < 2 ^ 31 }
    ensures { IfOk result (λ o. o ≡ fragment true bytes.now) }
{
    let mut record = Vec::with_capacity(alloc, HEADER_LEN + bytes.len())?;
    record.extend_from_slice(&record_header(bytes.len()))?;
    record.extend_from_slice(bytes)?;
    Ok(Octets::from_vec(record))
}
