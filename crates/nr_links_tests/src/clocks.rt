//! A clock in memory, and the system's.

use crate::compare::same;
use nr_links::{Clock, MemClock, SystemClock};
use nr_outside::Moment;

#[test]
fn moments_in_order_and_then_the_last(rt: HostRuntime) {
    let moments = [
        Moment {
            seconds: 7,
            nanos: 1,
        },
        Moment {
            seconds: 8,
            nanos: 2,
        },
    ];
    let mut clock = MemClock::new(&moments);
    same(&rt, 0, clock.now().seconds, 7);
    let mut other = clock.another();
    let second = clock.now();
    same(&rt, 1, (second.seconds, second.nanos), (8, 2));
    same(&rt, 2, clock.now().seconds, 8);
    same(&rt, 3, other.now().seconds, 7);
}

/// The time is past the end of 2023.
#[test]
fn time_of_the_system(rt: HostRuntime) {
    let mut clock = SystemClock::new(rt);
    let mut other = clock.another();
    same(&rt, 0, clock.now().seconds > 1_704_067_200, true);
    same(&rt, 1, other.now().seconds > 1_704_067_200, true);
}
