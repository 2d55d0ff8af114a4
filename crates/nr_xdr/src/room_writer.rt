//! Writing of items into room that was taken before.

ghost use Rattle.std.specs.Prelude.{◌≡◌, ◌+◌, ◌^◌, ◌<◌, ◌≤◌, [], ◌++◌, length, vec_capacity, IfOk, OnOk, OnErr};
ghost use Rattle.nr_xdr.specs.Item.{encoding, pad_len};
ghost use Rattle.nr_xdr.specs.Item.Item.{Unsigned, Hyper, Boolean, Opaque, Fixed};
ghost use Rattle.nr_xdr.specs.Room.{Appended};

use crate::fault::Memory;
use crate::octets::Octets;
use crate::words::pad_len;
use std::alloc::Global;
use std::marker::Model;

/// Appends items, each by its one encoding, as `Writer` does. Contracts see the bytes so far, and the room after them: how
/// many more can be written without memory. A call whose item has room can't fail. A call that answers an `Err` leaves
/// bytes and room as they were.
#[derive(Drop)]
pub struct RoomWriter {
    bytes: Vec<u8>,
}

impl Model for RoomWriter {
    ghost use Rattle.std.specs.Prelude.{◌-◌, length, vec_capacity};
    ghost use Rattle.nr_xdr.specs.Room.{Room, room_code};

    ghost Value = { Room };

    ghost coded = { room_code };

    ghost view = { λ w. record { bytes = w.bytes.items; left = vec_capacity w.bytes - length w.bytes.items } };
}

/// Appends bytes that have room.
fn append(out: &mut Vec<u8>, bytes: &[u8])
    requires { length out.old.items + length bytes.now ≤ vec_capacity out.old }
    ensures items { out.new.items ≡ out.old.items ++ bytes.now }
    ensures capacity { vec_capacity out.old ≤ vec_capacity out.new }
{
    let _ = out.extend_from_slice(bytes);
}

/// Appends data that has room, and its pad of zeros.
fn append_padded(out: &mut Vec<u8>, bytes: &[u8])
    requires { length out.old.items + (length bytes.now + pad_len (length bytes.now)) ≤ vec_capacity out.old }
    ensures items { out.new.items ≡ out.old.items ++ encoding (Fixed bytes.now) }
    ensures capacity { vec_capacity out.old ≤ vec_capacity out.new }
{
    const ZEROS: [u8; 3] = [0; 3];
    append(out, bytes);
    append(out, &ZEROS[..pad_len(bytes.len())]);
}

impl RoomWriter {
    /// A writer with no bytes so far, and no room. Takes no memory.
    pub fn new(alloc: Global) -> RoomWriter
        ensures { result ≡ record { bytes = []; left = 0 } }
    {
        RoomWriter {
            bytes: Vec::new(alloc),
        }
    }

    /// A writer with no bytes so far, and room for `size` bytes.
    pub fn with_room(alloc: Global, size: usize) -> Result<RoomWriter, Memory>
        ensures { IfOk result (λ w. w ≡ record { bytes = []; left = size }) }
    {
        Ok(RoomWriter {
            bytes: Vec::with_capacity(alloc, size)?,
        })
    }

    /// An unsigned integer (RFC 4506 section 4.2).
    #[tactic(auto, unfolding(crate::specs::Item::word))]
    pub fn u32(&mut self, n: u32) -> Result<(), Memory>
        ensures ok { OnOk result (Appended self.old self.new (encoding (Unsigned n))) }
        ensures err { OnErr result (self.new ≡ self.old) }
        // It fails only without room.
        ensures room { OnErr result (self.old.left < length (encoding (Unsigned n))) }
    {
        self.bytes.reserve(4)?;
        append(&mut self.bytes, &n.to_be_bytes());
        Ok(())
    }

    /// An unsigned hyper integer (RFC 4506 section 4.5).
    #[tactic(auto, unfolding(crate::specs::Item::hyper))]
    pub fn u64(&mut self, n: u64) -> Result<(), Memory>
        ensures ok { OnOk result (Appended self.old self.new (encoding (Hyper n))) }
        ensures err { OnErr result (self.new ≡ self.old) }
        ensures room { OnErr result (self.old.left < length (encoding (Hyper n))) }
    {
        self.bytes.reserve(8)?;
        append(&mut self.bytes, &n.to_be_bytes());
        Ok(())
    }

    /// A boolean (RFC 4506 section 4.4).
    pub fn boolean(&mut self, b: bool) -> Result<(), Memory>
        ensures ok { OnOk result (Appended self.old self.new (encoding (Boolean b))) }
        ensures err { OnErr result (self.new ≡ self.old) }
        ensures room { OnErr result (self.old.left < length (encoding (Boolean b))) }
    {
        self.u32(u32::from(b))
    }

    /// Opaque data of variable length (RFC 4506 section 4.10).
    #[tactic(auto, unfolding(crate::specs::Item::word))]
    pub fn opaque(&mut self, bytes: &[u8]) -> Result<(), Memory>
        requires { length bytes.now < 2 ^ 32 }
        ensures ok { OnOk result (Appended self.old self.new (encoding (Opaque bytes.now))) }
        ensures err { OnErr result (self.new ≡ self.old) }
        ensures room { OnErr result (self.old.left < length (encoding (Opaque bytes.now))) }
    {
        let len = bytes.len();
        self.bytes.reserve(4 + (len + pad_len(len)))?;
        append(&mut self.bytes, &(len as u32).to_be_bytes());
        append_padded(&mut self.bytes, bytes);
        Ok(())
    }

    /// All bytes written. Takes no memory.
    pub fn finish(self) -> Octets
        ensures { result ≡ self.bytes }
    {
        Octets::from_vec(self.bytes)
    }
}
