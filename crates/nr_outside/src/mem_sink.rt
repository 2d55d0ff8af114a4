ghost use Rattle.std.specs.Prelude.{◌≡◌, ◌≤◌, [], length, Contains, Some, IfOk, OnOk, OnErr, IsErr};
ghost use Rattle.nr_outside.specs.MemSink.{after_piece, after_fault};

use crate::traits::{Failed, Sink};
use std::alloc::Global;
use std::marker::Model;

/// A sink in memory. It keeps what it takes. It fails at the calls whose numbers it was given, the first call being
/// number 0, and if memory runs out.
#[derive(Drop)]
pub struct MemSink {
    bytes: Vec<u8>,
    failing: Vec<usize>,
    calls: usize,
    faults: u64,
}

impl Model for MemSink {
    ghost use Rattle.nr_outside.specs.MemSink.{MemSinkState};

    ghost Value = { MemSinkState };

    ghost view = { λ s. record {
      bytes = s.bytes.items;
      failing = s.failing.items;
      calls = s.calls;
      faults = s.faults;
    } };
}

impl MemSink {
    /// A sink with no bytes so far. Each call whose number is in `failing` fails. Calls are counted up to 2^64 - 1.
    /// Takes no memory.
    pub fn new(alloc: Global, failing: Vec<usize>) -> MemSink
        ensures { result ≡ record { bytes = []; failing = failing.items; calls = 0; faults = 0 } }
    {
        MemSink {
            bytes: Vec::new(alloc),
            failing,
            calls: 0,
            faults: 0,
        }
    }

    /// The bytes taken so far.
    pub fn bytes(&self) -> &[u8]
        ensures { result.now ≡ self.now.bytes }
    {
        self.bytes.as_slice()
    }
}

impl Sink for MemSink {
    ghost faults = { λ s. s.faults };

    ghost taken = { λ s. Some s.bytes };

    /// Takes the complete piece, or fails.
    fn write(&mut self, piece: &[u8]) -> Result<usize, Failed>
        ensures fails { Contains self.old.failing self.old.calls → IsErr result }
        ensures count { IfOk result (λ n. n ≡ length piece.now) }
        ensures ok { OnOk result (self.new ≡ after_piece self.old piece.now) }
        ensures err { OnErr result (self.new ≡ after_fault self.old) }
        ensures never_falls { self.old.faults ≤ self.new.faults }
    {
        let fails = self.failing.contains(&self.calls);
        self.calls = self.calls.saturating_add(1);
        if fails || self.bytes.extend_from_slice(piece).is_err() {
            self.faults = self.faults.saturating_add(1);
            return Err(Failed);
        }
        Ok(piece.len())
    }
}
