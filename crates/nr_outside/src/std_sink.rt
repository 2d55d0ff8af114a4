ghost use Rattle.std.specs.Prelude.{◌≡◌, ◌<◌, ◌≤◌, length, None, IfOk, MatchResult};
ghost use Rattle.std.specs.Io.KnownBytes.{WriteAppends};
ghost use Rattle.nr_outside.specs.Faults.{next_count};

use crate::traits::{Failed, Sink};
use std::io::Write;
use std::marker::Model;

/// A writer of std as a sink. Each error of the writer is a fault, `Interrupted` included. So is a write that returns 0 for
/// a piece that isn't empty. That the writer is called only once is tested, not proved. Nothing is flushed. As a sink its bytes are
/// unknown, so for the content the writer is trusted.
#[derive(Drop)]
pub struct StdSink<W> {
    inner: W,
    faults: u64,
}

impl<W> Model for StdSink<W> {
    ghost use Rattle.nr_outside.specs.AdapterState.{AdapterState};

    ghost Value = { AdapterState W };

    ghost view = { λ s. record { inner = s.inner; faults = s.faults } };
}

impl<W> StdSink<W> {
    /// A sink that writes to `inner`, with no faults so far.
    pub fn new(inner: W) -> StdSink<W>
        ensures { result ≡ record { inner = inner; faults = 0 } }
    {
        StdSink { inner, faults: 0 }
    }

    /// The writer, as the last write left it.
    pub fn into_inner(self) -> W
        ensures { result ≡ self.inner }
    {
        let StdSink { inner, .. } = self;
        inner
    }
}

impl<W: Write> Sink for StdSink<W> {
    ghost faults = { λ s. s.faults };

    ghost taken = { λ _. None };

    /// One write to the writer. The count rises by one at `Failed`, unless it is at its maximum.
    fn write(&mut self, piece: &[u8]) -> Result<usize, Failed>
        ensures bound { IfOk result (λ n. n ≤ length piece.now) }
        ensures progress { IfOk result (λ n. 0 < length piece.now → 0 < n) }
        ensures bytes { WriteAppends (W.contents self.old.inner) (W.contents self.new.inner) result piece.now }
        ensures counted { MatchResult result
            (λ _. self.new.faults ≡ self.old.faults) (λ _. self.new.faults ≡ next_count self.old.faults) }
        ensures never_falls { self.old.faults ≤ self.new.faults }
    {
        match self.inner.write(piece) {
            Ok(n) if n > 0 || piece.is_empty() => Ok(n),
            _ => {
                self.faults = self.faults.saturating_add(1);
                Err(Failed)
            }
        }
    }
}
