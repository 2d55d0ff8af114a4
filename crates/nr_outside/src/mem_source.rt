ghost use Rattle.std.specs.Prelude.{◌≡◌, ◌≤◌, ◌↔◌, drop, take, length, Contains, Some, IfOk, OnOk, OnErr, IsErr, option_copied};
ghost use Rattle.nr_outside.specs.Content.{with_front};
ghost use Rattle.nr_outside.specs.MemSource.{within_size, next_piece, after_piece, after_fault};

use crate::copying::copy_front;
use crate::traits::{Failed, Source};
use std::marker::Model;

/// A source in memory. It hands out its bytes in pieces of the sizes that it was given, and fails at the calls whose
/// numbers it was given, the first call being number 0.
#[derive(Drop)]
pub struct MemSource {
    bytes: Vec<u8>,
    place: usize,
    sizes: Vec<usize>,
    failing: Vec<usize>,
    calls: usize,
    faults: u64,
}

impl Model for MemSource {
    ghost use Rattle.std.specs.Prelude.{◌≤◌, length};
    ghost use Rattle.nr_outside.specs.MemSource.{MemSourceState};

    ghost Value = { MemSourceState };

    ghost view = { λ s. record {
      bytes = s.bytes.items;
      place = s.place;
      sizes = s.sizes.items;
      failing = s.failing.items;
      calls = s.calls;
      faults = s.faults;
    } };

    ghost invariant = { λ s. s.place ≤ length s.bytes.items };
}

impl MemSource {
    /// A source of these bytes. Call number k hands out at most `sizes[k]` bytes; a size of 0 means 1. If there is no
    /// such size, only the buffer limits the call. Each call whose number is in `failing` fails. Calls are counted up to
    /// 2^64 - 1. Takes no memory.
    pub fn new(bytes: Vec<u8>, sizes: Vec<usize>, failing: Vec<usize>) -> MemSource
        ensures { result ≡ record {
          bytes = bytes.items;
          place = 0;
          sizes = sizes.items;
          failing = failing.items;
          calls = 0;
          faults = 0;
        } }
    {
        MemSource {
            bytes,
            place: 0,
            sizes,
            failing,
            calls: 0,
            faults: 0,
        }
    }
}

impl Source for MemSource {
    ghost faults = { λ s. s.faults };

    ghost left = { λ s. Some (drop s.place s.bytes) };

    ghost given = { λ s. Some (take s.place s.bytes) };

    /// Hands out the next piece, at most what the buffer has room for, or fails if the call is listed.
    fn read(&mut self, buf: &mut [u8]) -> Result<usize, Failed>
        ensures fails { IsErr result ↔ Contains self.old.failing self.old.calls }
        ensures count { IfOk result (λ n. n ≡ length (next_piece self.old (length buf.old))) }
        ensures copied { OnOk result (buf.new ≡ with_front buf.old (next_piece self.old (length buf.old))) }
        ensures ok { OnOk result (self.new ≡ after_piece self.old (length buf.old)) }
        ensures err { OnErr result (self.new ≡ after_fault self.old) }
        ensures err_buf { OnErr result (buf.new ≡ buf.old) }
        ensures never_falls { self.old.faults ≤ self.new.faults }
    {
        let call = self.calls;
        self.calls = call.saturating_add(1);
        if self.failing.contains(&call) {
            self.faults = self.faults.saturating_add(1);
            return Err(Failed);
        }
        let piece = first_of(&self.bytes[self.place..], self.sizes.get(call));
        let n = copy_front(buf, piece);
        self.place += n;
        Ok(n)
    }
}

/// The first bytes, at most the size, if there is one. At least one.
fn first_of<'a>(bytes: &'a [u8], size: Option<&usize>) -> &'a [u8]
    ensures { result.now ≡ within_size (option_copied size.entry) bytes.now }
{
    match size {
        Some(&size) => &bytes[..size.max(1).min(bytes.len())],
        None => bytes,
    }
}
