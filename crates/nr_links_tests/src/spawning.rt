//! Jobs that run beside their caller.

use crate::compare::same;
use nr_jobs::{AtOnce, HandBack, Job, Spawner, ThreadSpawner};
use std::alloc::Global;
use std::process::Abort;
use std::sync::{Arc, Condvar, Mutex, Wait};
use std::thread;
use std::time::{Clock, Duration};

/// How many jobs have come to a place, and the way to wait there.
#[derive(Drop)]
struct Place {
    count: Mutex<u64>,
    more: Condvar,
}

/// A place to which nobody has come, by two owners.
fn places(rt: &impl Abort, alloc: Global) -> (Arc<Place, Global>, Arc<Place, Global>) {
    let place = Place {
        count: Mutex::new(0),
        more: Condvar::new(),
    };
    let one = Arc::new(alloc, place).expect(rt, "memory");
    let other = Arc::try_clone(&one).expect(rt, "memory");
    (one, other)
}

/// Comes to a place, and waits there until two have come.
#[derive(Drop)]
struct Meet<R> {
    rt: R,
    place: Arc<Place, Global>,
}

impl<R: Wait + Copy + Drop + Send + 'static> Job for Meet<R> {
    type Out = u64;

    fn run(self) -> u64 {
        let Meet { rt, place } = self;
        let mut count = place.count.lock(&rt);
        *count = count.saturating_add(1);
        place.more.notify_all();
        let count = place.more.wait_while(&rt, count, |count| *count < 2);
        *count
    }
}

/// Comes to a place after a while.
#[derive(Drop)]
struct Late<R> {
    rt: R,
    place: Arc<Place, Global>,
}

impl<R: Wait + Clock + Copy + Drop + Send + 'static> Job for Late<R> {
    type Out = ();

    fn run(self) {
        let Late { rt, place } = self;
        thread::sleep(&rt, Duration::from_millis(100));
        let mut count = place.count.lock(&rt);
        *count = count.saturating_add(1);
    }
}

#[derive(Drop)]
struct Number(u32);

impl Job for Number {
    type Out = u32;

    fn run(self) -> u32 {
        self.0
    }
}

/// Each of two jobs waits for the other one, so they run at once.
#[test]
fn two_jobs_meet(rt: HostRuntime) {
    let alloc = rt.alloc();
    let mut spawner = ThreadSpawner::new(alloc, 2).expect(&rt, "memory");
    let (place, other) = places(&rt, alloc);
    let one = Meet { rt, place };
    let two = Meet { rt, place: other };
    same(&rt, 0, spawner.start(rt, alloc, one).is_ok(), true);
    same(&rt, 1, spawner.start(rt, alloc, two).is_ok(), true);
    Spawner::<Number>::finish(&mut spawner, &rt);
}

/// With a limit of one, the second of two jobs comes back while the first one waits for it. Once both have ended, there is room for a third.
#[test]
fn one_job_at_once(rt: HostRuntime) {
    let alloc = rt.alloc();
    let mut spawner = ThreadSpawner::new(alloc, 1).expect(&rt, "memory");
    let (place, other) = places(&rt, alloc);
    let one = Meet { rt, place };
    let two = Meet { rt, place: other };
    same(&rt, 0, spawner.start(rt, alloc, one).is_ok(), true);
    let Err(two) = spawner.start(rt, alloc, two) else {
        panic!(rt; "two jobs at once")
    };
    same(&rt, 1, two.run(), 2);
    Spawner::<Number>::finish(&mut spawner, &rt);
    same(&rt, 2, spawner.start(rt, alloc, Number(3)).is_ok(), true);
    Spawner::<Number>::finish(&mut spawner, &rt);
}

/// A spawner waits for a job that takes a while.
#[test]
fn late_job(rt: HostRuntime) {
    let alloc = rt.alloc();
    let mut spawner = ThreadSpawner::new(alloc, 1).expect(&rt, "memory");
    let (place, other) = places(&rt, alloc);
    same(
        &rt,
        0,
        spawner.start(rt, alloc, Late { rt, place }).is_ok(),
        true,
    );
    Spawner::<Number>::finish(&mut spawner, &rt);
    let count = *other.count.lock(&rt);
    same(&rt, 1, count, 1);
}

#[test]
fn jobs_come_back(rt: HostRuntime) {
    let alloc = rt.alloc();
    let mut none = HandBack::new();
    let Err(job) = none.start(rt, alloc, Number(3)) else {
        panic!(rt; "started")
    };
    same(&rt, 0, job.run(), 3);
    let mut some = AtOnce::new([1].to_vec(alloc).expect(&rt, "memory"));
    same(&rt, 1, some.start(rt, alloc, Number(1)).is_ok(), true);
    same(&rt, 2, some.start(rt, alloc, Number(2)).is_err(), true);
    same(&rt, 3, some.start(rt, alloc, Number(3)).is_ok(), true);
    let mut full = ThreadSpawner::new(alloc, 0).expect(&rt, "memory");
    same(&rt, 4, full.start(rt, alloc, Number(4)).is_err(), true);
}
