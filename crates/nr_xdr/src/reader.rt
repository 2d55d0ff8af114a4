//! Reading of items.

ghost use Rattle.std.specs.Prelude.{◌≡◌, ℕ, ◌+◌, ◌^◌, ◌<◌, ◌≤◌, Bool, List, length, take, IfOk, IsOkAnd};
ghost use Rattle.nr_xdr.specs.Item.{IsBytes};
ghost use Rattle.nr_xdr.specs.Item.Item.{Unsigned, Hyper, Boolean, Opaque, Fixed};
ghost use Rattle.nr_xdr.specs.Reading.{Cursor, Takes, Gives, cursor_past, unsigned_at, hyper_at, boolean_at, opaque_at, fixed_at};

use crate::fault::ItemFault;
use crate::words::{first_hyper, first_word, pad_len};
use std::marker::Model;

/// Takes items from the front of some bytes. Contracts see the offset of the next item, which is the number of bytes taken so
/// far, and the bytes from there on. A call that answers an `Err` takes nothing.
#[derive(Drop)]
pub struct Reader<'a> {
    place: usize,
    rest: &'a [u8],
}

impl<'a> Model for Reader<'a> {
    ghost use Rattle.std.specs.Prelude.{◌+◌, ◌^◌, ◌<◌, length};
    ghost use Rattle.nr_xdr.specs.Item.{IsBytes};
    ghost use Rattle.nr_xdr.specs.Reading.{Cursor};

    ghost Value = { Cursor };

    ghost view = { λ r. record { place = r.place; rest = r.rest.now } };

    ghost invariant = { λ r. IsBytes r.rest.now × (r.place + length r.rest.now < 2 ^ 64) };
}

impl<'a> Reader<'a> {
    /// A reader at the first of these bytes, which is offset 0.
    pub fn new(bytes: &'a [u8]) -> Reader<'a>
        ensures { result ≡ record { place = 0; rest = bytes.now } }
    {
        Reader {
            place: 0,
            rest: bytes,
        }
    }

    /// A reader at the first of these bytes, at offset `place`: that many bytes were taken before.
    pub fn at_place(place: usize, bytes: &'a [u8]) -> Reader<'a>
        requires { place + length bytes.now < 2 ^ 64 }
        ensures { result ≡ record { place = place; rest = bytes.now } }
    {
        Reader { place, rest: bytes }
    }

    /// The offset of the next item, in bytes.
    pub fn at(&self) -> usize
        ensures { result ≡ self.now.place }
    {
        self.place
    }

    /// The bytes that are left.
    pub fn rest(&self) -> &'a [u8]
        ensures { result.now ≡ self.now.rest }
    {
        self.rest
    }

    /// Takes some bytes.
    #[tactic(auto, unfolding(crate::specs::Reading::cursor_past))]
    fn advance(&mut self, len: usize) -> &'a [u8]
        requires { len ≤ length self.old.rest }
        ensures front { result.now ≡ take len self.old.rest }
        ensures cursor { self.new ≡ cursor_past len self.old }
    {
        let (front, rest) = self.rest.split_at(len);
        self.rest = rest;
        self.place += len;
        front
    }

    #[tactic(auto, unfolding(crate::specs::Reading::unsigned_at))]
    fn u32_inner(&mut self) -> Result<u32, ItemFault>
        ensures bytes { IsBytes self.old.rest }
        ensures exact { Gives (λ n. n) result self.old self.new (unsigned_at self.old) }
    {
        if self.rest.len() < 4 {
            return Err(ItemFault::Short { at: self.place });
        }
        Ok(first_word(self.advance(4)))
    }

    #[tactic(auto, unfolding(crate::specs::Reading::hyper_at))]
    fn u64_inner(&mut self) -> Result<u64, ItemFault>
        ensures bytes { IsBytes self.old.rest }
        ensures exact { Gives (λ n. n) result self.old self.new (hyper_at self.old) }
    {
        if self.rest.len() < 8 {
            return Err(ItemFault::Short { at: self.place });
        }
        Ok(first_hyper(self.advance(8)))
    }

    #[tactic(auto, unfolding(crate::specs::Reading::boolean_at, crate::specs::Reading::boolean_by))]
    fn boolean_inner(&mut self) -> Result<bool, ItemFault>
        ensures bytes { IsBytes self.old.rest }
        ensures exact { Gives (λ b. b) result self.old self.new (boolean_at self.old) }
    {
        if self.rest.len() < 4 {
            return Err(ItemFault::Short { at: self.place });
        }
        match first_word(self.rest) {
            0 => {
                let _ = self.advance(4);
                Ok(false)
            }
            1 => {
                let _ = self.advance(4);
                Ok(true)
            }
            _ => Err(ItemFault::BadBool { at: self.place }),
        }
    }

    #[tactic(auto, unfolding(crate::specs::Reading::opaque_at, crate::specs::Reading::opaque_by))]
    fn opaque_inner(&mut self, max: u32) -> Result<&'a [u8], ItemFault>
        ensures bytes { IsBytes self.old.rest }
        ensures exact { Gives (λ s. s.now) result self.old self.new (opaque_at max self.old) }
    {
        let at = self.place;
        if self.rest.len() < 4 {
            return Err(ItemFault::Short { at });
        }
        let len = first_word(self.rest);
        if len > max {
            return Err(ItemFault::Long { at, len, max });
        }
        let len = len as usize;
        let whole = 4 + (len + pad_len(len));
        if self.rest.len() < whole {
            return Err(ItemFault::Short { at });
        }
        let (_, content) = self.rest.split_at(4);
        let (bytes, _) = content.split_at(len);
        let _ = self.advance(whole);
        Ok(bytes)
    }

    #[tactic(auto, unfolding(crate::specs::Reading::fixed_at))]
    fn fixed_inner(&mut self, len: usize) -> Result<&'a [u8], ItemFault>
        ensures { Gives (λ s. s.now) result self.old self.new (fixed_at len self.old) }
    {
        let pad = pad_len(len);
        if self.rest.len() < len {
            return Err(ItemFault::Short { at: self.place });
        }
        let (bytes, behind) = self.rest.split_at(len);
        if behind.len() < pad {
            return Err(ItemFault::Short { at: self.place });
        }
        let _ = self.advance(len + pad);
        Ok(bytes)
    }

    /// An unsigned integer (RFC 4506 section 4.2): `Short` if fewer than four bytes are left.
    pub fn u32(&mut self) -> Result<u32, ItemFault>
        // What is read has this encoding.
        ensures found { IfOk result (λ n. Takes self.old self.new (Unsigned n)) }
        // What has this encoding is read.
        ensures only { (n : ℕ) (after : Cursor) → Takes self.old after (Unsigned n) →
            IsOkAnd result (λ m. m ≡ n) × (self.new ≡ after) }
        // Otherwise, which fault it is.
        ensures exact { Gives (λ n. n) result self.old self.new (unsigned_at self.old) }
    {
        self.u32_inner()
    }

    /// An unsigned hyper integer (RFC 4506 section 4.5): `Short` if fewer than eight bytes are left.
    pub fn u64(&mut self) -> Result<u64, ItemFault>
        ensures found { IfOk result (λ n. Takes self.old self.new (Hyper n)) }
        ensures only { (n : ℕ) (after : Cursor) → Takes self.old after (Hyper n) →
            IsOkAnd result (λ m. m ≡ n) × (self.new ≡ after) }
        ensures exact { Gives (λ n. n) result self.old self.new (hyper_at self.old) }
    {
        self.u64_inner()
    }

    /// A boolean (RFC 4506 section 4.4): `Short` if fewer than four bytes are left, `BadBool` if the number is neither 0 nor 1.
    pub fn boolean(&mut self) -> Result<bool, ItemFault>
        ensures found { IfOk result (λ b. Takes self.old self.new (Boolean b)) }
        ensures only { (b : Bool) (after : Cursor) → Takes self.old after (Boolean b) →
            IsOkAnd result (λ c. c ≡ b) × (self.new ≡ after) }
        ensures exact { Gives (λ b. b) result self.old self.new (boolean_at self.old) }
    {
        self.boolean_inner()
    }

    /// Opaque data of variable length (RFC 4506 section 4.10), of at most `max` bytes. `Long` if the count is above `max`; that
    /// is checked before the data. `Short` if the count, the data or its pad runs past the end.
    pub fn opaque(&mut self, max: u32) -> Result<&'a [u8], ItemFault>
        ensures found { IfOk result (λ s. Takes self.old self.new (Opaque s.now) × (length s.now ≤ max)) }
        ensures only { (bytes : List ℕ) (after : Cursor) → length bytes ≤ max → Takes self.old after (Opaque bytes) →
            IsOkAnd result (λ s. s.now ≡ bytes) × (self.new ≡ after) }
        ensures exact { Gives (λ s. s.now) result self.old self.new (opaque_at max self.old) }
    {
        self.opaque_inner(max)
    }

    /// Opaque data of fixed length (RFC 4506 section 4.9), of `len` bytes: `Short` if the data or its pad runs past the end.
    pub fn fixed(&mut self, len: usize) -> Result<&'a [u8], ItemFault>
        ensures found { IfOk result (λ s. Takes self.old self.new (Fixed s.now) × (length s.now ≡ len)) }
        ensures only { (bytes : List ℕ) (after : Cursor) → length bytes ≡ len → Takes self.old after (Fixed bytes) →
            IsOkAnd result (λ s. s.now ≡ bytes) × (self.new ≡ after) }
        ensures exact { Gives (λ s. s.now) result self.old self.new (fixed_at len self.old) }
    {
        self.fixed_inner(len)
    }
}
