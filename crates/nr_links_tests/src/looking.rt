//! A source whose next byte is looked at.

use crate::compare::same;
use nr_links::Peeked;
use nr_outside::{MemSource, Source};

/// A byte that was looked at is handed out alone, and then the rest. At the end there is none.
#[test]
fn looked_at(rt: HostRuntime) {
    let alloc = rt.alloc();
    let bytes = b"abc".to_vec(alloc).expect(&rt, "memory");
    let failing = [1].to_vec(alloc).expect(&rt, "memory");
    let mut source = Peeked::new(MemSource::new(bytes, Vec::new(alloc), failing));
    same(&rt, 0, source.look() == Ok(Some(b'a')), true);
    same(&rt, 1, source.look() == Ok(Some(b'a')), true);
    let mut buf = [0u8; 4];
    same(&rt, 2, source.read(&mut buf) == Ok(1), true);
    same(&rt, 3, buf, [b'a', 0, 0, 0]);
    // The second read of the source itself fails.
    same(&rt, 4, source.look().is_err(), true);
    same(&rt, 5, source.read(&mut buf) == Ok(2), true);
    same(&rt, 6, buf, [b'b', b'c', 0, 0]);
    same(&rt, 7, source.look() == Ok(None), true);
}
