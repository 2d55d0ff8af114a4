//! The bytes that marks refer to.

ghost use Rattle.std.specs.Prelude.{◌≡◌, ◌+◌, ◌≤◌, ◌<◌, ℕ, List, [], length, take, drop, IfOk, IfSome, OnOk, IsTrue};
ghost use Rattle.nr_marks.specs.Pieces.{Grows, IsWithin, Holds, bytes_in, stored_len, stores_max, slots_max};

use nr_wire::Side;
use nr_xdr::{Memory, Octets};
use std::alloc::Global;
use std::marker::Model;

/// Up to this many offsets are tried for bytes that are looked for.
pub(crate) const REACH: usize = 128;

/// An FPDU has fewer bytes than this after its payload.
const TAIL: usize = 8;

/// The calls of a link whose payloads and replies are noted.
const CALLS: usize = 16;

/// The highest link that has stores of its own.
const LINKS: u32 = 16;

/// The store of the bytes that are found nowhere else.
pub(crate) const OTHERS: u32 = 0;

/// `len` bytes of a store, from offset `at` on.
#[derive(Clone, Copy)]
pub(crate) struct Piece {
    pub(crate) store: u32,
    pub(crate) at: usize,
    pub(crate) len: u32,
}

/// How far a store was read: by the side that was fed its bytes, and by what was executed or handed over. They only say at which
/// offset bytes are looked for first.
#[derive(Clone, Copy)]
pub(crate) struct Cursor {
    pub(crate) fed: usize,
    pub(crate) read: usize,
}

/// Stores of bytes, which only grow.
#[derive(Drop)]
pub(crate) struct ByteStores {
    stores: Vec<Octets>,
    cursors: Vec<Cursor>,
    // The payloads and the replies of the last calls of each link, by their slots.
    noted: Vec<Piece>,
}

impl Model for ByteStores {
    ghost use Rattle.std.specs.Prelude.{◌≤◌, List, ℕ, length};
    ghost use Rattle.nr_marks.specs.Pieces.{stores_max, slots_max};

    ghost Value = { List (List ℕ) };

    ghost view = { λ s. s.stores.items };

    // The lists of stores, of cursors and of noted pieces don't grow with the marks.
    ghost invariant = { λ s. (length s.stores.items ≤ stores_max) × (length s.cursors.items ≤ length s.stores.items) × (length s.noted.items ≤ slots_max) };
}

/// The store of what a side of a link wrote. Store 0 has the bytes that are found nowhere else.
pub(crate) fn store_of(link: u32, side: Side) -> u32
    ensures { result < stores_max }
{
    if link > LINKS {
        return OTHERS;
    }
    match side {
        Side::Initiator => 2 * link + 1,
        Side::Responder => 2 * link + 2,
    }
}

/// How many bytes there are, if a piece can have them. The bytes of a mark are fewer than 2^32.
fn short_len(bytes: &[u8]) -> Option<u32>
    ensures { IfSome result (λ len. len ≡ length bytes.now) }
{
    if bytes.len() > u32::MAX as usize {
        return None;
    }
    Some(bytes.len() as u32)
}

/// Whether these bytes are at this offset of others.
fn is_at(all: &[u8], at: usize, bytes: &[u8]) -> bool
    ensures { IsTrue result → (at + length bytes.now ≤ length all.now) × (take (length bytes.now) (drop at all.now) ≡ bytes.now) }
{
    if at > all.len() {
        return false;
    }
    if bytes.len() > all.len() - at {
        return false;
    }
    let there = &all[at..at + bytes.len()];
    there == bytes
}

/// The offset of these bytes among others, if they are found from this offset on.
fn offset_of(all: &[u8], from: usize, bytes: &[u8]) -> Option<usize>
    ensures { IfSome result (λ at. (at + length bytes.now ≤ length all.now) × (take (length bytes.now) (drop at all.now) ≡ bytes.now)) }
{
    let end = from.saturating_add(REACH);
    for at in from..end {
        if is_at(all, at, bytes) {
            return Some(at);
        }
    }
    None
}

impl ByteStores {
    /// No stores.
    pub(crate) fn new(alloc: Global) -> ByteStores
        ensures { result ≡ [] }
    {
        ByteStores {
            stores: Vec::new(alloc),
            cursors: Vec::new(alloc),
            noted: Vec::new(alloc),
        }
    }

    /// The bytes of a piece.
    pub(crate) fn bytes(&self, piece: Piece) -> &[u8]
        requires { IsWithin self.now piece }
        ensures { result.now ≡ bytes_in self.now piece }
    {
        let store = piece.store as usize;
        if store >= self.stores.len() {
            return &[];
        }
        let store = &self.stores[store];
        &store.as_slice()[piece.at..piece.at + piece.len as usize]
    }

    /// How many bytes a store has.
    pub(crate) fn len_of(&self, store: u32) -> usize {
        match self.stores.get(store as usize) {
            Some(store) => store.len(),
            None => 0,
        }
    }

    /// How far a store was read.
    pub(crate) fn cursor(&self, store: u32) -> Cursor {
        match self.cursors.get(store as usize) {
            Some(cursor) => *cursor,
            None => Cursor { fed: 0, read: 0 },
        }
    }

    /// Notes how far a store was read.
    pub(crate) fn set_cursor(&mut self, store: u32, cursor: Cursor)
        ensures { self.new ≡ self.old }
    {
        if let Some(slot) = self.cursors.get_mut(store as usize) {
            *slot = cursor;
        }
    }

    /// How many bytes all stores have.
    pub(crate) fn held(&self) -> u128
        ensures { result ≡ stored_len self.now }
    {
        let mut sum: u128 = 0;
        for at in 0..self.stores.len() {
            sum += self.stores[at].len() as u128;
        }
        sum
    }

    /// How many elements the lists of stores, of cursors and of noted pieces have.
    pub(crate) fn list_len(&self) -> usize
        ensures { result ≤ stores_max + (stores_max + slots_max) }
    {
        self.stores.len() + self.cursors.len() + self.noted.len()
    }

    /// Notes a piece, to be looked for by its slot.
    pub(crate) fn note(&mut self, slot: usize, piece: Piece) -> Result<(), Memory>
        requires { slot < slots_max }
        ensures { self.new ≡ self.old }
    {
        set_slot(&mut self.noted, slot, piece)
    }

    /// A piece of these bytes from the offset on at which the piece that was noted begins, if they are found there.
    pub(crate) fn noted(&self, slot: usize, bytes: &[u8]) -> Option<Piece>
        ensures { IfSome result (λ piece. Holds self.now piece bytes.now) }
    {
        match self.noted.get(slot) {
            Some(piece) => self.find(piece.store, piece.at, bytes),
            None => None,
        }
    }

    /// Adds an empty store.
    fn add_store(&mut self, alloc: Global) -> Result<(), Memory>
        requires { length self.old < stores_max }
        ensures grows { Grows self.old self.new }
        ensures size { stored_len self.new ≡ stored_len self.old }
        ensures one { OnOk result (length self.new ≡ length self.old + 1) }
        ensures few { length self.new ≤ stores_max }
    {
        match self.stores.push(Octets::new(alloc)) {
            Ok(()) => {}
            Err(failed) => {
                drop(failed);
                return Err(Memory);
            }
        }
        match self.cursors.push(Cursor { fed: 0, read: 0 }) {
            Ok(()) => Ok(()),
            Err(_) => Err(Memory),
        }
    }

    /// Adds empty stores until this one exists.
    #[tactic(auto, using(crate::proofs::Growing::grows_same, crate::proofs::Growing::grows_trans))]
    fn reach(&mut self, alloc: Global, store: usize) -> Result<(), Memory>
        requires { store < stores_max }
        ensures grows { Grows self.old self.new }
        ensures size { stored_len self.new ≡ stored_len self.old }
        ensures there { OnOk result (store < length self.new) }
    {
        'stores: while self.stores.len() <= store {
            match self.add_store(alloc) {
                Ok(()) => {}
                Err(memory) => return Err(memory),
            }
        }
        Ok(())
    }

    /// Appends bytes to a store that exists.
    fn append_at(&mut self, store: u32, bytes: &[u8]) -> Result<Piece, Memory>
        requires { store < length self.old }
        ensures grows { Grows self.old self.new }
        ensures piece { IfOk result (λ piece. Holds self.new piece bytes.now) }
        ensures size { OnOk result (stored_len self.new ≡ stored_len self.old + length bytes.now) }
    {
        let Some(len) = short_len(bytes) else {
            return Err(Memory);
        };
        let own = &mut self.stores[store as usize];
        let at = own.len();
        own.extend_from_slice(bytes)?;
        Ok(Piece { store, at, len })
    }

    /// Appends bytes to a store.
    #[tactic(auto, using(crate::proofs::Growing::grows_trans))]
    pub(crate) fn append(
        &mut self,
        alloc: Global,
        store: u32,
        bytes: &[u8],
    ) -> Result<Piece, Memory>
        requires { store < stores_max }
        ensures grows { Grows self.old self.new }
        ensures piece { IfOk result (λ piece. Holds self.new piece bytes.now) }
        ensures size { OnOk result (stored_len self.new ≡ stored_len self.old + length bytes.now) }
    {
        match self.reach(alloc, store as usize) {
            Ok(()) => self.append_at(store, bytes),
            Err(memory) => Err(memory),
        }
    }

    /// Looks for bytes in a store from an offset on.
    pub(crate) fn find(&self, store: u32, from: usize, bytes: &[u8]) -> Option<Piece>
        ensures { IfSome result (λ piece. Holds self.now piece bytes.now) }
    {
        let len = short_len(bytes)?;
        if store as usize >= self.stores.len() {
            return None;
        }
        let all = self.stores[store as usize].as_slice();
        match offset_of(all, from, bytes) {
            Some(at) => Some(Piece { store, at, len }),
            None => None,
        }
    }

    /// Refers to bytes that a store has from one of two offsets on, or else appends them to store 0.
    #[tactic(auto, using(crate::proofs::Growing::grows_same))]
    pub(crate) fn refer(
        &mut self,
        alloc: Global,
        store: u32,
        offsets: (usize, usize),
        bytes: &[u8],
    ) -> Result<Piece, Memory>
        ensures grows { Grows self.old self.new }
        ensures piece { IfOk result (λ piece. Holds self.new piece bytes.now) }
        ensures size { OnOk result (stored_len self.new ≤ stored_len self.old + length bytes.now) }
    {
        let (first, second) = offsets;
        if let Some(piece) = self.find(store, first, bytes) {
            return Ok(piece);
        }
        if let Some(piece) = self.find(store, second, bytes) {
            return Ok(piece);
        }
        self.append(alloc, OTHERS, bytes)
    }
}

/// The slot of the payload of a call.
pub(crate) fn payload_slot(link: u32, xid: u32) -> usize
    ensures { result + 1 < slots_max }
{
    let link = if link > LINKS { 0 } else { link as usize };
    2 * (CALLS * link + xid as usize % CALLS)
}

/// The slot of the reply to a call.
pub(crate) fn reply_slot(link: u32, xid: u32) -> usize
    ensures { result < slots_max }
{
    payload_slot(link, xid) + 1
}

/// Sets an element of a list, which is made longer if it is too short.
fn set_slot(pieces: &mut Vec<Piece>, at: usize, piece: Piece) -> Result<(), Memory>
    requires few { length pieces.old.items ≤ slots_max }
    requires within { at < slots_max }
    ensures { length pieces.new.items ≤ slots_max }
{
    'slots: while pieces.len() <= at {
        match pieces.push(piece) {
            Ok(()) => {}
            Err(_) => return Err(Memory),
        }
    }
    if let Some(slot) = pieces.get_mut(at) {
        *slot = piece;
    }
    Ok(())
}

/// The offset at which bytes that an FPDU ends with are looked for, if it ends at this offset.
pub(crate) fn before_end(end: usize, len: usize) -> usize {
    end.saturating_sub(len).saturating_sub(TAIL)
}
