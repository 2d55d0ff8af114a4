ghost use Rattle.std.specs.Prelude.{◌<◌, None};

use crate::clock::Clock;
use nr_outside::Moment;
use std::time::Duration;

/// The system's clock. It gives moments since the start of 1970: the last that a [`Moment`] can hold if the time is past
/// it, and the first if the system can't say the time. It is trusted for the time.
#[derive(Clone, Copy)]
pub struct SystemClock<T> {
    time: T,
}

impl<T> SystemClock<T> {
    /// The clock of this system.
    pub fn new(time: T) -> SystemClock<T> {
        SystemClock { time }
    }
}

impl<T: std::time::Clock + Copy> Clock for SystemClock<T> {
    ghost gave = { λ _. None };

    fn now(&mut self) -> Moment
        ensures { result.nanos < 1000000000 }
    {
        moment(self.time.since_1970().unwrap_or(Duration::ZERO))
    }

    fn another(&self) -> SystemClock<T> {
        SystemClock { time: self.time }
    }
}

/// A duration since the clock's epoch as a moment.
fn moment(time: Duration) -> Moment
    ensures { result.nanos < 1000000000 }
{
    Moment {
        seconds: u32::try_from(time.as_secs()).unwrap_or(u32::MAX),
        nanos: time.subsec_nanos(),
    }
}
