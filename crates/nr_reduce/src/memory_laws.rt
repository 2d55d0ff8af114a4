//! Laws of an end's registered memory beside the definitions of a run.

ghost use Rattle.nr_reduce.specs.MemoryLaws.{MemoryDeniesAlike, MemoryStands, MemoryTakesAccess, MemoryClosesRegions, MemoryRegisters, AccessesGoOn, RegionsGoOn, RegionsClose, RegionsRegister};

/// Memory that holds exactly the open regions of an end denies what the grants deny, and still does while bytes are
/// received, after an access, after regions are closed, and after one is registered.
pub fn memory_follows_regions()
    ensures denies { MemoryDeniesAlike }
    ensures stands { MemoryStands }
    ensures access { MemoryTakesAccess }
    ensures closed { MemoryClosesRegions }
    ensures registered { MemoryRegisters }
{}

/// Regions and accesses keep what the law of memory asks of them: along a stream, when regions are closed, and when one
/// is registered.
pub fn regions_go_on()
    ensures accesses { AccessesGoOn }
    ensures later { RegionsGoOn }
    ensures closed { RegionsClose }
    ensures registered { RegionsRegister }
{}
