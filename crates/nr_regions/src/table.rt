//! The map from STag to region, in the terms of finite maps.

ghost use Rattle.std.specs.Prelude.{◌≡◌, ◌+◌, ◌<◌, ◌≤◌, length, option_map, is_some, true, IsOk, IfSome, OnOk, OnErr, IfErr};
ghost use Rattle.std.specs.FinMap.{empty, get, insert, remove};
ghost use Rattle.std.specs.HashMap.{spare};
ghost use Rattle.std.specs.Option.{option_copied};
ghost use Rattle.std.specs.Result.{result_err};
ghost use Rattle.nr_regions.specs.RegisteredMemory.{bytes_after_write, denial_in, region_offer};
ghost use Rattle.nr_regions.specs.Table.{table, outsides, dead_flags, region_of, outside_of, is_dead_of, live_in, not_live};

use crate::denied::Denied;
use crate::held::HeldBuffer;
use crate::right::Right;
use nr_xdr::Memory;
use std::alloc::{AllocFailed, Global};
use std::collections::HashMap;

/// A map with no region. Takes no memory.
pub fn no_regions(alloc: Global) -> HashMap<u32, HeldBuffer>
    ensures regions { table result ≡ empty }
    ensures outside { outsides result ≡ empty }
    ensures dead { dead_flags result ≡ empty }
{
    HashMap::new(alloc)
}

/// The region under an STag.
pub fn look_up(regions: &HashMap<u32, HeldBuffer>, stag: u32) -> Option<&HeldBuffer>
    ensures region { option_map region_of (option_copied result) ≡ get (table regions.now) stag }
    ensures dead { option_map is_dead_of (option_copied result) ≡ get (dead_flags regions.now) stag }
{
    regions.get(&stag)
}

/// Takes memory for some further regions. An `Err` changes no region.
pub fn make_room(regions: &mut HashMap<u32, HeldBuffer>, more: usize) -> Result<(), Memory>
    ensures ok { OnOk result (more ≤ spare regions.new) }
    ensures same { table regions.new ≡ table regions.old }
    ensures outside { outsides regions.new ≡ outsides regions.old }
    ensures dead { dead_flags regions.new ≡ dead_flags regions.old }
    ensures room { spare regions.old ≤ spare regions.new }
    ensures succeeds { more ≤ spare regions.old → IsOk result }
{
    regions.reserve(more)?;
    Ok(())
}

/// Puts a region under an STag. An `Err` gives it back and changes no region.
pub fn put(
    regions: &mut HashMap<u32, HeldBuffer>,
    stag: u32,
    region: HeldBuffer,
) -> Result<(), AllocFailed<(u32, HeldBuffer)>>
    ensures ok { OnOk result (table regions.new ≡ insert (table regions.old) stag (region_of region)) }
    ensures ok_outside { OnOk result (outsides regions.new ≡ insert (outsides regions.old) stag (outside_of region)) }
    ensures ok_dead { OnOk result (dead_flags regions.new ≡ insert (dead_flags regions.old) stag (is_dead_of region)) }
    ensures returned { IfErr result (λ e. e.value.1 ≡ region) }
    ensures err { OnErr result (table regions.new ≡ table regions.old) }
    ensures err_outside { OnErr result (outsides regions.new ≡ outsides regions.old) }
    ensures err_dead { OnErr result (dead_flags regions.new ≡ dead_flags regions.old) }
    ensures succeeds { 0 < spare regions.old → IsOk result }
    ensures room { spare regions.old ≤ spare regions.new + 1 }
{
    regions.insert(stag, region)?;
    Ok(())
}

/// Takes the region under an STag out.
pub fn take_out(regions: &mut HashMap<u32, HeldBuffer>, stag: u32) -> Option<HeldBuffer>
    ensures region { option_map region_of result ≡ get (table regions.old) stag }
    ensures outside { option_map outside_of result ≡ get (outsides regions.old) stag }
    ensures left { table regions.new ≡ remove (table regions.old) stag }
    ensures left_outside { outsides regions.new ≡ remove (outsides regions.old) stag }
    ensures left_dead { dead_flags regions.new ≡ remove (dead_flags regions.old) stag }
    ensures room { spare regions.old ≤ spare regions.new }
{
    regions.remove(&stag)
}

/// Writes some bytes over those of the region under an STag, from `to` on, if this access is allowed; else answers why it is
/// denied, and changes nothing. Takes no memory.
pub fn write_allowed(
    regions: &mut HashMap<u32, HeldBuffer>,
    right: Right,
    stag: u32,
    to: u64,
    bytes: &[u8],
) -> Result<(), Denied>
    ensures exact { result_err result
        ≡ denial_in (region_offer (live_in (dead_flags regions.old) (table regions.old) stag)) (record { right = right; stag = stag; to = to; len = length bytes.now }) }
    ensures within { OnOk result (IfSome (live_in (dead_flags regions.old) (table regions.old) stag) (λ region. to + length bytes.now ≤ length region.buf)) }
    ensures bytes { OnOk result (IfSome (live_in (dead_flags regions.old) (table regions.old) stag) (λ region. table regions.new
        ≡ insert (table regions.old) stag (record { right = region.right; buf = bytes_after_write region.buf to bytes.now }))) }
    ensures found { OnOk result (is_some (live_in (dead_flags regions.old) (table regions.old) stag) ≡ true) }
    ensures err { OnErr result (table regions.new ≡ table regions.old) }
    ensures outside { outsides regions.new ≡ outsides regions.old }
    ensures dead { dead_flags regions.new ≡ dead_flags regions.old }
    ensures room { spare regions.new ≡ spare regions.old }
{
    let Some(found) = regions.get_mut(&stag) else {
        return Err(Denied::NoStag);
    };
    if let Some(denied) = found.denial(right, to, bytes.len() as u64) {
        return Err(denied);
    }
    found.window.overwrite(to as usize, bytes);
    Ok(())
}

/// Marks the region under an STag as dead, if it is live; else answers that it isn't, and changes nothing. Takes no memory.
pub fn mark_dead(regions: &mut HashMap<u32, HeldBuffer>, stag: u32) -> Result<(), Denied>
    ensures exact { result_err result ≡ not_live (live_in (dead_flags regions.old) (table regions.old) stag) }
    ensures ok { OnOk result (dead_flags regions.new ≡ insert (dead_flags regions.old) stag true) }
    ensures err { OnErr result (dead_flags regions.new ≡ dead_flags regions.old) }
    ensures same { table regions.new ≡ table regions.old }
    ensures outside { outsides regions.new ≡ outsides regions.old }
    ensures room { spare regions.new ≡ spare regions.old }
{
    let Some(found) = regions.get_mut(&stag) else {
        return Err(Denied::NoStag);
    };
    if found.is_dead {
        return Err(Denied::NoStag);
    }
    found.is_dead = true;
    Ok(())
}
