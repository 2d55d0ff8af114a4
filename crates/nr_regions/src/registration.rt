//! What the owner of a region holds.

ghost use Rattle.std.specs.Prelude.{◌≡◌};

use std::marker::Model;

/// A registered region, held from `register` to `release`. It can't be copied, so each region is released at most once.
#[derive(Drop)]
pub struct Registration {
    stag: u32,
    len: u64,
}

impl Model for Registration {
    ghost use Rattle.nr_regions.specs.RegisteredMemory.{Claim};
    ghost use Rattle.nr_regions.specs.Code.{claim_code};

    ghost Value = { Claim };

    ghost coded = { claim_code };

    ghost view = { λ r. record { stag = r.stag; len = r.len } };
}

impl Registration {
    pub(crate) fn new(stag: u32, len: u64) -> Registration
        ensures { result ≡ record { stag = stag; len = len } }
    {
        Registration { stag, len }
    }

    /// The STag, by which the peer names the region.
    pub fn stag(&self) -> u32
        ensures { result ≡ self.now.stag }
    {
        self.stag
    }

    /// How many bytes the region has.
    pub fn len(&self) -> u64
        ensures { result ≡ self.now.len }
    {
        self.len
    }
}
