//! A turnstile of a value with a pass of another turnstile.

ghost use Rattle.std.specs.Prelude.{◌≡◌, [], ◌∷◌, IfOk};
ghost use Rattle.nr_turnstile.specs.Passes.{Rests, IsOutside, home_of};
ghost use Rattle.nr_turnstile_tests.specs.Feeds.{IsOverHome};

use crate::counter::Counter;
use crate::feeder::{Feeder, First, Opened};
use nr_turnstile::{Pass, Turnstile};
use std::alloc::{AllocError, Global};
use std::marker::Brand;
use std::snapshot::Snapshot;

/// The first entry of the history is the pass as it is now.
pub fn open_feeder(
    alloc: Global,
    pass: Pass<Counter>,
) -> Result<(Turnstile<Feeder>, Pass<Feeder>), AllocError>
    requires { IsOutside pass }
    ensures { IfOk result (λ t. Rests t.0 t.1 × IsOverHome (home_of pass) t.1) }
{
    let noted = Snapshot::of(&pass);
    opened::<Brand>(alloc, Feeder { pass, entries: 1 }, &noted)
}

fn opened<K: First>(
    alloc: Global,
    feeder: Feeder,
    _noted: &Snapshot<Pass<Counter>>,
) -> Result<(Turnstile<Feeder>, Pass<Feeder>), AllocError>
    requires noted { K.noted ≡ _noted.now ∷ [] }
    requires one { feeder.entries ≡ 1 }
    requires outside { IsOutside feeder.pass }
    requires home { home_of _noted.now.value ≡ home_of feeder.pass }
    ensures { IfOk result (λ t. Rests t.0 t.1 × IsOverHome (home_of feeder.pass) t.1) }
{
    Turnstile::new::<Opened<K>>(alloc, feeder)
}
