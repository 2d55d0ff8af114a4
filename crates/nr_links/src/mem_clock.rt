ghost use Rattle.std.specs.Prelude.{◌≡◌, ◌<◌, All, length};
ghost use Rattle.nr_links.specs.MemClock.{moment_at, after_moment, given_by};

use crate::clock::Clock;
use nr_outside::Moment;
use std::marker::Model;

/// A clock in memory. It gives the moments of a list in order, and then the last one again and again. Clocks made by
/// `another` share the list, and each begins at its front. It counts what it gave up to 2^64 - 1.
#[derive(Drop)]
pub struct MemClock<'a> {
    moments: &'a [Moment],
    count: u64,
}

impl<'a> Model for MemClock<'a> {
    ghost use Rattle.std.specs.Prelude.{◌<◌, length, All};
    ghost use Rattle.nr_links.specs.MemClock.{MemClockState};

    ghost Value = { MemClockState };

    ghost view = { λ c. record { moments = c.moments.now; count = c.count } };

    ghost invariant = { λ c. (0 < length c.moments.now) × All (λ m. m.nanos < 1000000000) c.moments.now };
}

impl<'a> MemClock<'a> {
    /// A clock of these moments.
    pub fn new(moments: &'a [Moment]) -> MemClock<'a>
        requires some { 0 < length moments.now }
        requires nanos { All (λ m. m.nanos < 1000000000) moments.now }
        ensures { result ≡ record { moments = moments.now; count = 0 } }
    {
        MemClock { moments, count: 0 }
    }
}

impl<'a> Clock for MemClock<'a> {
    ghost gave = { given_by };

    fn now(&mut self) -> Moment
        ensures moment { result ≡ moment_at self.old.moments self.old.count }
        ensures clock { self.new ≡ after_moment self.old }
        ensures nanos { result.nanos < 1000000000 }
    {
        let moment = moment_at(self.moments, self.count);
        self.count = self.count.saturating_add(1);
        moment
    }

    fn another(&self) -> MemClock<'a>
        ensures { result ≡ record { moments = self.now.moments; count = 0 } }
    {
        MemClock {
            moments: self.moments,
            count: 0,
        }
    }
}

/// The moment at an index of the list, or the last one.
fn moment_at(moments: &[Moment], index: u64) -> Moment
    requires { 0 < length moments.now }
    ensures { result ≡ moment_at moments.now index }
{
    match usize::try_from(index) {
        Ok(index) if index < moments.len() => moments[index],
        _ => moments[moments.len() - 1],
    }
}
