//! Bytes in transit.

ghost use Rattle.std.specs.Prelude.{◌≡◌, ◌+◌, ◌≤◌, ◌++◌, [], take, drop, length, OnOk};
ghost use Rattle.nr_world.specs.Transits.{TransitState};

use nr_xdr::Memory;
use std::alloc::Global;
use std::marker::Model;

/// The bytes that wait for one side of a link. At most twice as many are kept: those that were read stand before
/// them in the buffer, until they are more than those that wait.
#[derive(Drop)]
pub(crate) struct Transit {
    buffer: Vec<u8>,
    // How many bytes of the buffer were read.
    start: usize,
}

impl Model for Transit {
    ghost use Rattle.std.specs.Prelude.{◌+◌, ◌≤◌, drop, length};
    ghost use Rattle.nr_world.specs.Transits.{TransitState};

    ghost Value = { TransitState };

    ghost view = { λ t. record { waiting = drop t.start t.buffer.items; kept = length t.buffer.items } };

    ghost invariant = { λ t. t.start + t.start ≤ length t.buffer.items };
}

/// Keeps only the bytes from `start` on.
fn keep_from(bytes: &mut Vec<u8>, start: usize)
    requires { start ≤ length bytes.old.items }
    ensures { bytes.new.items ≡ drop start bytes.old.items }
{
    let len = bytes.len();
    bytes.as_mut_slice().copy_within(start..len, 0);
    bytes.truncate(len - start);
}

impl Transit {
    /// No bytes. Takes no memory.
    pub(crate) fn new(alloc: Global) -> Transit
        ensures { result ≡ record { waiting = []; kept = 0 } }
    {
        Transit {
            buffer: Vec::new(alloc),
            start: 0,
        }
    }

    /// How many bytes wait.
    pub(crate) fn waiting(&self) -> usize
        ensures { result ≡ length self.now.waiting }
    {
        self.buffer.len() - self.start
    }

    /// How many bytes are kept.
    pub(crate) fn kept(&self) -> usize
        ensures is { result ≡ self.now.kept }
        ensures few { result ≤ length self.now.waiting + length self.now.waiting }
    {
        self.buffer.len()
    }

    /// The next bytes that wait, at most `most`.
    pub(crate) fn peek(&self, most: usize) -> &[u8]
        ensures { result.now ≡ take most self.now.waiting }
    {
        let (_, waiting) = self.buffer.as_slice().split_at(self.start);
        let (next, _) = waiting.split_at(most.min(waiting.len()));
        next
    }

    /// Puts bytes after those that wait. After an `Err` nothing is known of them.
    pub(crate) fn put(&mut self, bytes: &[u8]) -> Result<(), Memory>
        ensures { OnOk result (self.new.waiting ≡ self.old.waiting ++ bytes.now) }
    {
        match self.buffer.extend_from_slice(bytes) {
            Ok(()) => Ok(()),
            Err(_) => Err(Memory),
        }
    }

    /// Skips the next bytes that wait, at most `most`.
    pub(crate) fn skip(&mut self, alloc: Global, most: usize)
        ensures { self.new.waiting ≡ drop most self.old.waiting }
    {
        let waiting = self.buffer.len() - self.start;
        if most >= waiting {
            self.buffer = Vec::new(alloc);
            self.start = 0;
            return;
        }
        let start = self.start + most;
        if start <= waiting - most {
            self.start = start;
            return;
        }
        self.start = 0;
        keep_from(&mut self.buffer, start);
    }
}
