ghost use Rattle.std.specs.Prelude.{◌≡◌, ◌≤◌, length, None, IfOk, MatchResult};
ghost use Rattle.std.specs.Io.KnownBytes.{ReadConsumes};
ghost use Rattle.nr_outside.specs.Faults.{next_count};

use crate::traits::{Failed, Source};
use std::io::Read;
use std::marker::Model;

/// A reader of std as a source. Each error of the reader is a fault, an interrupted read too: the adapter doesn't try
/// again. As a source its bytes are unknown, so for the content the reader is trusted.
#[derive(Drop)]
pub struct StdSource<R> {
    inner: R,
    faults: u64,
}

impl<R> Model for StdSource<R> {
    ghost use Rattle.nr_outside.specs.AdapterState.{AdapterState};

    ghost Value = { AdapterState R };

    ghost view = { λ s. record { inner = s.inner; faults = s.faults } };
}

impl<R> StdSource<R> {
    /// A source that reads from `inner`, with no faults so far.
    pub fn new(inner: R) -> StdSource<R>
        ensures { result ≡ record { inner = inner; faults = 0 } }
    {
        StdSource { inner, faults: 0 }
    }

    /// The reader, as the last read left it.
    pub fn into_inner(self) -> R
        ensures { result ≡ self.inner }
    {
        let StdSource { inner, .. } = self;
        inner
    }
}

impl<R: Read> Source for StdSource<R> {
    ghost faults = { λ s. s.faults };

    ghost left = { λ _. None };

    ghost given = { λ _. None };

    /// One read of the reader. The count rises by one at `Failed`, unless it is at its maximum.
    fn read(&mut self, buf: &mut [u8]) -> Result<usize, Failed>
        ensures bound { IfOk result (λ n. n ≤ length buf.old) }
        ensures bytes { ReadConsumes (R.remaining self.old.inner) (R.remaining self.new.inner) result buf.new }
        ensures counted { MatchResult result
            (λ _. self.new.faults ≡ self.old.faults) (λ _. self.new.faults ≡ next_count self.old.faults) }
        ensures never_falls { self.old.faults ≤ self.new.faults }
    {
        match self.inner.read(buf) {
            Ok(n) => Ok(n),
            Err(_) => {
                self.faults = self.faults.saturating_add(1);
                Err(Failed)
            }
        }
    }
}
