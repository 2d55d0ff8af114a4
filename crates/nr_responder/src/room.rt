//! The room in which a payload is put together, and the payload.

ghost use Rattle.std.specs.Prelude.{◌≡◌, ◌≤◌, length, take, IfOk};
ghost use Rattle.nr_rpc.specs.Reading.{call_of, target_of};
ghost use Rattle.nr_responder.specs.Rooms.{payload_room};

use nr_reduce::PayloadBuffer;
use nr_rpc::CallTarget;
use nr_xdr::{Memory, Octets};
use std::alloc::Global;
use std::marker::Model;

/// The room in which the payload of a call is put together. Contracts see how many bytes it is for, at most `payload_room`.
#[derive(Drop)]
pub struct Room {
    buffer: PayloadBuffer,
}

impl Model for Room {
    ghost use Rattle.std.specs.Prelude.{ℕ, ◌≤◌};
    ghost use Rattle.nr_responder.specs.Rooms.{payload_room};

    ghost Value = { ℕ };

    ghost view = { λ r. r.buffer.len };

    ghost invariant = { λ r. r.buffer.len ≤ payload_room };
}

impl Room {
    /// Takes the room of a payload of at most `len` bytes.
    pub fn new(alloc: Global, len: usize) -> Result<Room, Memory>
        requires { len ≤ payload_room }
        ensures { IfOk result (λ room. room ≡ len) }
    {
        Ok(Room {
            buffer: PayloadBuffer::new(alloc, len)?,
        })
    }

    /// The buffer in which the payload is put together.
    pub fn into_buffer(self) -> PayloadBuffer
        ensures same { result.len ≡ self }
        ensures most { result.len ≤ payload_room }
    {
        self.buffer
    }

    /// How many bytes it is for.
    pub fn len(&self) -> usize
        ensures is { result ≡ self.now }
        ensures most { result ≤ payload_room }
    {
        self.buffer.len()
    }
}

/// A payload that was put together, or completed in the buffer of its sink. It keeps all of the room that was taken for it,
/// and what its head asks for. Contracts see its bytes, of which there are at most `payload_room`.
#[derive(Drop)]
pub struct Payload {
    bytes: Octets,
    target: Option<CallTarget>,
}

impl Model for Payload {
    ghost use Rattle.std.specs.Prelude.{List, ℕ, ◌≤◌, length};
    ghost use Rattle.std.specs.Prelude.{◌≡◌};
    ghost use Rattle.nr_rpc.specs.Reading.{call_of, target_of};
    ghost use Rattle.nr_responder.specs.Rooms.{payload_room};

    ghost Value = { List ℕ };

    ghost view = { λ p. p.bytes };

    ghost invariant = { λ p. (length p.bytes ≤ payload_room) × (p.target ≡ target_of (call_of p.bytes)) };
}

impl Payload {
    /// The payload that is the first `len` bytes written into a buffer, whose head asks for this.
    pub fn of(buffer: PayloadBuffer, len: usize, target: Option<CallTarget>) -> Payload
        requires room { buffer.len ≤ payload_room }
        requires len { len ≤ length buffer.bytes }
        requires target { target ≡ target_of (call_of (take len buffer.bytes)) }
        ensures { result ≡ take len buffer.bytes }
    {
        let _room = buffer.len();
        Payload {
            bytes: buffer.into_first(len),
            target,
        }
    }

    /// The payload that is the first `len` bytes of a byte string, whose head asks for this.
    pub fn in_front(bytes: Octets, len: usize, target: Option<CallTarget>) -> Payload
        requires room { length bytes ≤ payload_room }
        requires len { len ≤ length bytes }
        requires target { target ≡ target_of (call_of (take len bytes)) }
        ensures { result ≡ take len bytes }
    {
        let mut bytes = bytes.into_vec();
        bytes.truncate(len);
        Payload {
            bytes: Octets::from_vec(bytes),
            target,
        }
    }

    /// The bytes of the payload.
    pub fn as_slice(&self) -> &[u8]
        ensures { result.now ≡ self.now }
    {
        self.bytes.as_slice()
    }

    /// What its head asks for; `None` if it has no head of RPC version 2.
    pub fn target(&self) -> Option<CallTarget>
        ensures { result ≡ target_of (call_of self.now) }
    {
        self.target
    }

    /// How many bytes there are.
    pub fn len(&self) -> usize
        ensures is { result ≡ length self.now }
        ensures most { result ≤ payload_room }
    {
        self.bytes.len()
    }
}
