//! A dialer that is lent.

ghost use Rattle.std.specs.Prelude.{◌≡◌, ℕ};

use nr_links::Dialer;
use nr_outside::Failed;
use std::marker::{Brand, PhantomData};

/// The ghost name of a borrow, for the proof.
pub(crate) trait BorrowName {
    ghost name: { ℕ };
}

impl BorrowName for Brand {
    ghost name = { 0 };
}

/// A dialer behind the borrow of this name. The name is a part of the type, so that what comes back is known to be the same borrow.
#[derive(Drop)]
pub(crate) struct LentDialer<'a, D: Dialer, N: BorrowName> {
    dialer: &'a mut D,
    of: PhantomData<N>,
    ghost is: { dialer.ghost_name ≡ N.name },
}

impl<'a, D: Dialer, N: BorrowName> LentDialer<'a, D, N> {
    /// The same dialer.
    pub(crate) fn new(dialer: &'a mut D) -> LentDialer<'a, D, N>
        requires { dialer.ghost_name ≡ N.name }
        ensures { result.dialer.now ≡ dialer.old }
    {
        LentDialer {
            dialer,
            of: PhantomData,
        }
    }

    /// The dialer, behind the same borrow.
    pub(crate) fn into_inner(self) -> &'a mut D
        ensures same { result.now ≡ self.entry.dialer.now }
        ensures name { result.ghost_name ≡ N.name }
    {
        let LentDialer { dialer, of: _of } = self;
        dialer
    }
}

impl<'a, D: Dialer, N: BorrowName> Dialer for LentDialer<'a, D, N> {
    type Source = D::Source;

    type Sink = D::Sink;

    ghost faults = { λ d. D.faults d.dialer.now };

    ghost lost = { λ d. D.lost d.dialer.now };

    ghost asked = { λ d. D.asked d.dialer.now };

    ghost ended = { λ d. D.ended d.dialer.now };

    ghost next = { λ d. D.next d.dialer.now };

    fn dial(&mut self, addr: &str) -> Result<(D::Source, D::Sink), Failed> {
        self.dialer.dial(addr)
    }

    fn hang_up(&mut self, source: D::Source, sink: D::Sink) {
        self.dialer.hang_up(source, sink);
    }
}
