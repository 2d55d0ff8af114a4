//! Writing of items.

ghost use Rattle.std.specs.Prelude.{◌≡◌, ◌^◌, ◌<◌, [], ◌++◌, length, take, IfOk, OnOk, OnErr};
ghost use Rattle.nr_xdr.specs.Item.{encoding, word};
ghost use Rattle.nr_xdr.specs.Item.Item.{Unsigned, Hyper, Boolean, Opaque, Fixed};

use crate::fault::Memory;
use crate::octets::Octets;
use crate::words::pad_len;
use std::alloc::Global;
use std::marker::Model;

/// Appends items, each by its one encoding. Contracts see the bytes so far. A call that answers an `Err` leaves them as
/// they were.
#[derive(Drop)]
pub struct Writer {
    bytes: Vec<u8>,
}

impl Model for Writer {
    ghost use Rattle.std.specs.Prelude.{List, ℕ};

    ghost Value = { List ℕ };

    ghost view = { λ w. w.bytes.items };
}

/// Appends data and its pad of zeros. After an `Err` some of it may be there.
fn push_padded(out: &mut Vec<u8>, bytes: &[u8]) -> Result<(), Memory>
    ensures ok { OnOk result (out.new.items ≡ out.old.items ++ encoding (Fixed bytes.now)) }
    ensures kept { take (length out.old.items) out.new.items ≡ out.old.items }
{
    const ZEROS: [u8; 3] = [0; 3];
    out.extend_from_slice(bytes)?;
    out.extend_from_slice(&ZEROS[..pad_len(bytes.len())])?;
    Ok(())
}

/// Appends the length of data, the data and its pad. After an `Err` some of it may be there.
fn push_opaque(out: &mut Vec<u8>, bytes: &[u8]) -> Result<(), Memory>
    requires { length bytes.now < 2 ^ 32 }
    ensures ok { OnOk result (out.new.items ≡ out.old.items ++ encoding (Opaque bytes.now)) }
    ensures kept { take (length out.old.items) out.new.items ≡ out.old.items }
{
    push_word(out, bytes.len() as u32)?;
    push_padded(out, bytes)?;
    Ok(())
}

/// Appends a number. An `Err` changes nothing.
#[tactic(auto, unfolding(crate::specs::Item::word))]
fn push_word(out: &mut Vec<u8>, n: u32) -> Result<(), Memory>
    ensures ok { OnOk result (out.new.items ≡ out.old.items ++ word n) }
    ensures err { OnErr result (out.new.items ≡ out.old.items) }
{
    out.extend_from_slice(&n.to_be_bytes())?;
    Ok(())
}

impl Writer {
    /// A writer with no bytes so far.
    pub fn new(alloc: Global) -> Writer
        ensures { result ≡ [] }
    {
        Writer {
            bytes: Vec::new(alloc),
        }
    }

    /// A writer with no bytes so far, which takes room for `capacity` bytes at once.
    pub fn with_capacity(alloc: Global, capacity: usize) -> Result<Writer, Memory>
        ensures { IfOk result (λ writer. writer ≡ []) }
    {
        Ok(Writer {
            bytes: Vec::with_capacity(alloc, capacity)?,
        })
    }

    /// An unsigned integer (RFC 4506 section 4.2).
    pub fn u32(&mut self, n: u32) -> Result<(), Memory>
        ensures ok { OnOk result (self.new ≡ self.old ++ encoding (Unsigned n)) }
        ensures err { OnErr result (self.new ≡ self.old) }
    {
        push_word(&mut self.bytes, n)?;
        Ok(())
    }

    /// An unsigned hyper integer (RFC 4506 section 4.5).
    #[tactic(auto, unfolding(crate::specs::Item::hyper))]
    pub fn u64(&mut self, n: u64) -> Result<(), Memory>
        ensures ok { OnOk result (self.new ≡ self.old ++ encoding (Hyper n)) }
        ensures err { OnErr result (self.new ≡ self.old) }
    {
        self.bytes.extend_from_slice(&n.to_be_bytes())?;
        Ok(())
    }

    /// A boolean (RFC 4506 section 4.4).
    pub fn boolean(&mut self, b: bool) -> Result<(), Memory>
        ensures ok { OnOk result (self.new ≡ self.old ++ encoding (Boolean b)) }
        ensures err { OnErr result (self.new ≡ self.old) }
    {
        self.u32(u32::from(b))
    }

    /// Opaque data of variable length (RFC 4506 section 4.10).
    pub fn opaque(&mut self, bytes: &[u8]) -> Result<(), Memory>
        requires { length bytes.now < 2 ^ 32 }
        ensures ok { OnOk result (self.new ≡ self.old ++ encoding (Opaque bytes.now)) }
        ensures err { OnErr result (self.new ≡ self.old) }
    {
        let before = self.bytes.len();
        match push_opaque(&mut self.bytes, bytes) {
            Ok(()) => Ok(()),
            Err(e) => {
                self.bytes.truncate(before);
                Err(e)
            }
        }
    }

    /// Opaque data of fixed length (RFC 4506 section 4.9).
    pub fn fixed(&mut self, bytes: &[u8]) -> Result<(), Memory>
        ensures ok { OnOk result (self.new ≡ self.old ++ encoding (Fixed bytes.now)) }
        ensures err { OnErr result (self.new ≡ self.old) }
    {
        let before = self.bytes.len();
        match push_padded(&mut self.bytes, bytes) {
            Ok(()) => Ok(()),
            Err(e) => {
                self.bytes.truncate(before);
                Err(e)
            }
        }
    }

    /// All bytes written. Takes no memory.
    pub fn finish(self) -> Octets
        ensures { result ≡ self }
    {
        Octets::from_vec(self.bytes)
    }
}
