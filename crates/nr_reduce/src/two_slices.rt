//! Bytes that stand in two pieces, one after the other.

ghost use Rattle.std.specs.Prelude.{◌≡◌, ◌+◌, ◌-◌, ◌≤◌, ◌++◌, length, take, drop, replicate, IfOk};

use nr_xdr::{Memory, Octets};
use std::alloc::Global;

/// The bytes from an offset on.
pub(crate) fn from_offset<'a>(first: &'a [u8], second: &'a [u8], at: usize) -> (&'a [u8], &'a [u8])
    ensures { result.0.now ++ result.1.now ≡ drop at (first.now ++ second.now) }
{
    if at <= first.len() {
        let (_, rest) = first.split_at(at);
        return (rest, second);
    }
    let at = at - first.len();
    if at <= second.len() {
        let (_, rest) = second.split_at(at);
        return (rest, &[]);
    }
    (&[], &[])
}

/// The first bytes, at most `len`.
pub(crate) fn up_to<'a>(first: &'a [u8], second: &'a [u8], len: usize) -> (&'a [u8], &'a [u8])
    ensures { result.0.now ++ result.1.now ≡ take len (first.now ++ second.now) }
{
    if len <= first.len() {
        let (front, _) = first.split_at(len);
        return (front, &[]);
    }
    let len = len - first.len();
    if len <= second.len() {
        let (front, _) = second.split_at(len);
        return (first, front);
    }
    (first, second)
}

/// Both pieces, and zeros after them, `len` bytes in all.
pub(crate) fn with_zeros(
    alloc: Global,
    first: &[u8],
    second: &[u8],
    len: usize,
) -> Result<Octets, Memory>
    requires { length first.now + length second.now ≤ len }
    ensures { IfOk result (λ o. o ≡ (first.now ++ second.now) ++ replicate (len - length (first.now ++ second.now)) 0) }
{
    let mut region = Vec::with_capacity(alloc, len)?;
    region.extend_from_slice(first)?;
    region.extend_from_slice(second)?;
    region.resize(len, 0)?;
    Ok(Octets::from_vec(region))
}
