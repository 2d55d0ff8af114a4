//! A buffer of which a part is offered.

ghost use Rattle.std.specs.Prelude.{◌≡◌, ◌+◌, ◌≤◌, length, Some};
ghost use Rattle.nr_regions.specs.RegisteredMemory.{buffer_around, bytes_after_write, outside_len, window_bytes};
ghost use Rattle.nr_regions.specs.Windows.{window_in};

use nr_xdr::Octets;
use std::marker::Model;

/// A buffer of which `len` bytes from `start` on are offered to the peer.
#[derive(Drop)]
pub struct Window {
    buf: Octets,
    start: usize,
    len: usize,
}

impl Model for Window {
    ghost use Rattle.std.specs.Prelude.{◌+◌, ◌≤◌, length};
    ghost use Rattle.nr_regions.specs.Windows.{BufferParts, window_in, buffer_parts_code};

    ghost Value = { BufferParts };

    ghost coded = { buffer_parts_code };

    ghost view = { λ w. window_in w.start w.len w.buf };

    ghost invariant = { λ w. w.start + w.len ≤ length w.buf };
}

/// Keeps only `len` bytes from `start` on.
#[tactic(auto, using(crate::proofs::Parts::window_moved))]
fn keep_part(bytes: &mut Vec<u8>, start: usize, len: usize)
    requires { start + len ≤ length bytes.old.items }
    ensures { bytes.new.items ≡ window_bytes start len bytes.old.items }
{
    if start == 0 {
        bytes.truncate(len);
        return;
    }
    bytes.as_mut_slice().copy_within(start..start + len, 0);
    bytes.truncate(len);
}

impl Window {
    /// The part of a buffer that begins at `start`. Takes no memory.
    pub fn new(buf: Octets, start: usize, len: usize) -> Window
        requires { start + len ≤ length buf }
        ensures { result ≡ window_in start len buf }
    {
        Window { buf, start, len }
    }

    /// The bytes that are offered.
    pub fn bytes(&self) -> &[u8]
        ensures { result.now ≡ self.now.bytes }
    {
        let (_, from_start) = self.buf.as_slice().split_at(self.start);
        let (bytes, _) = from_start.split_at(self.len);
        bytes
    }

    /// How many bytes are offered.
    #[tactic(auto, using(crate::proofs::Parts::length_window))]
    pub fn len(&self) -> usize
        ensures { result ≡ length self.now.bytes }
    {
        self.len
    }

    /// How many bytes of the buffer are not offered.
    #[tactic(auto, using(crate::proofs::Parts::length_outside))]
    pub fn outside_len(&self) -> usize
        ensures { result ≡ outside_len self.now.outside }
    {
        self.buf.len() - self.len
    }

    /// Writes some bytes over those that are offered, from `at` on. Takes no memory.
    #[tactic(auto, using(crate::proofs::Parts::window_written))]
    pub fn overwrite(&mut self, at: usize, bytes: &[u8])
        requires { at + length bytes.now ≤ length self.old.bytes }
        ensures { self.new ≡ record self.old { bytes = bytes_after_write self.old.bytes at bytes.now } }
    {
        let _total = self.buf.len();
        self.buf.overwrite(self.start + at, bytes);
    }

    /// The complete buffer. Takes no memory.
    #[tactic(auto, using(crate::proofs::Parts::buffer_again))]
    pub fn into_buffer(self) -> Octets
        ensures { result ≡ buffer_around (Some self.outside) self.bytes }
    {
        self.buf
    }

    /// The bytes that were offered, moved to the front of their buffer. Takes no memory.
    pub fn into_bytes(self) -> Octets
        ensures { result ≡ self.bytes }
    {
        let mut bytes = self.buf.into_vec();
        keep_part(&mut bytes, self.start, self.len);
        Octets::from_vec(bytes)
    }
}
