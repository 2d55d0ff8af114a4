//! The room in which a payload is put together.

ghost use Rattle.std.specs.Prelude.{◌≡◌, ◌+◌, ◌≤◌, ◌++◌, [], length, take, vec_capacity, IfOk};

use nr_xdr::{Memory, Octets};
use std::alloc::Global;
use std::marker::Model;

/// Room for at most `len` bytes, and the bytes that were written into it. It is taken once, and isn't cleared. Contracts see both
/// (`PayloadRoom`).
#[derive(Drop)]
pub struct PayloadBuffer {
    bytes: Vec<u8>,
    len: usize,
}

impl Model for PayloadBuffer {
    ghost use Rattle.std.specs.Prelude.{◌≤◌, length, vec_capacity};
    ghost use Rattle.nr_reduce.specs.PayloadRoom.{PayloadRoom, payload_room_code};

    ghost Value = { PayloadRoom };

    ghost coded = { payload_room_code };

    ghost view = { λ b. record { bytes = b.bytes.items; len = b.len } };

    ghost invariant = { λ b. (length b.bytes.items ≤ b.len) × (b.len ≤ vec_capacity b.bytes) };
}

impl PayloadBuffer {
    /// Room for this many bytes.
    pub fn new(alloc: Global, len: usize) -> Result<PayloadBuffer, Memory>
        ensures { IfOk result (λ b. b ≡ record { bytes = []; len = len }) }
    {
        Ok(PayloadBuffer {
            bytes: Vec::with_capacity(alloc, len)?,
            len,
        })
    }

    /// How many bytes there is room for.
    pub fn len(&self) -> usize
        ensures is { result ≡ self.now.len }
        ensures within { length self.now.bytes ≤ result }
    {
        self.len
    }

    /// The bytes that were written.
    pub fn as_slice(&self) -> &[u8]
        ensures { result.now ≡ self.now.bytes }
    {
        self.bytes.as_slice()
    }

    /// Writes bytes at an offset; those after them are gone. Takes no memory.
    pub fn put(&mut self, at: usize, bytes: &[u8])
        requires at { at ≤ length self.old.bytes }
        requires room { at + length bytes.now ≤ self.old.len }
        ensures { self.new ≡ record { bytes = take at self.old.bytes ++ bytes.now; len = self.old.len } }
    {
        self.bytes.truncate(at);
        let _ = self.bytes.extend_from_slice(bytes);
    }

    /// The first bytes that were written, as a byte string of their own. Takes no memory.
    pub fn into_first(self, len: usize) -> Octets
        requires { len ≤ length self.bytes }
        ensures { result ≡ take len self.bytes }
    {
        let mut bytes = self.bytes;
        bytes.truncate(len);
        Octets::from_vec(bytes)
    }
}
