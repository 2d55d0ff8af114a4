//! The entries of a directory that has had one: by name, and in the order in which they were made.

ghost use Rattle.std.specs.Prelude.{◌≡◌, ◌+◌, ◌<◌, ◌^◌, [], ◌∷◌, ◌++◌, None, Some, slice_get, length, OnOk, OnErr, is_some, true, IfSome};
ghost use Rattle.std.specs.Option.{option_map};

use crate::order::{IndexCursor, Order};
use crate::steps::Steps;
use indexmap::IndexMap;
use nr_xdr::Memory;
use std::alloc::Global;
use std::marker::{Brand, Model};
use std::sync::ledger::{Blank, Ledger};

/// The node of an entry, and the cookie to go on from.
#[derive(Clone, Copy)]
pub struct Slot {
    /// The cookie to go on from after this entry (RFC 1813 section 3.3.16).
    pub cookie: u64,
    /// The number of its node.
    pub number: u64,
}

/// A directory's entries, and the cookie that the next one gets.
#[derive(Drop)]
pub(crate) struct EntryTable {
    next_cookie: u64,
    /// By name, in no order.
    slots: IndexMap<Vec<u8>, Slot>,
    /// The indexes of the slots, in the order in which the entries were made.
    order: Order,
    /// The place of the entry that was taken out last: the next one is often near.
    last_place: usize,
}

impl Model for EntryTable {
    ghost use Rattle.nr_tree.specs.Entries.{Entries, entries_code};
    ghost use Rattle.nr_tree.specs.private.Slots.{slot_entries, ordered, IsOrdered};

    ghost Value = { Entries };

    ghost coded = { entries_code };

    ghost view = { λ d. record { next_cookie = d.next_cookie; list = ordered (slot_entries d.slots.entries) d.order } };

    ghost invariant = { λ d. IsOrdered (slot_entries d.slots.entries) d.order d.next_cookie };
}

impl EntryTable {
    ghost use Rattle.nr_tree.specs.Entries.{Entries, entry_of_name, entries_with, entries_without};
    ghost use Rattle.nr_tree.specs.Listing.{entries_after, count_until};

    /// No entries; the first one's cookie is 1. Takes no memory.
    pub(crate) fn new(alloc: Global) -> Self
        ensures { result ≡ record { next_cookie = 1; list = [] } }
    {
        EntryTable {
            next_cookie: 1,
            slots: IndexMap::new(alloc),
            order: Order::new(alloc),
            last_place: 0,
        }
    }

    /// The number of the node that a name leads to.
    pub(crate) fn number_of(&self, name: &[u8]) -> Option<u64>
        ensures { result ≡ option_map (λ e. e.number) (entry_of_name name.now self.now.list) }
    {
        match index_of(&self.slots, name) {
            Some(index) => Some(slot_at(&self.slots, index).1.number),
            None => None,
        }
    }

    /// Puts an entry last, under the next cookie. After an `Err` the directory is as before.
    pub(crate) fn add(&mut self, name: Vec<u8>, number: u64) -> Result<(), Memory>
        requires absent { entry_of_name name.items self.old.list ≡ None }
        requires cookies { self.old.next_cookie < 2 ^ 63 }
        ensures ok { OnOk result (self.new ≡ entries_with self.old name.items number) }
        ensures err { OnErr result (self.new ≡ self.old) }
    {
        let cookie = self.next_cookie;
        let slot = Slot { cookie, number };
        append(&mut self.slots, &mut self.order, name, slot)?;
        self.next_cookie += 1;
        Ok(())
    }

    /// Takes the entry of a name out, and puts one for another number last, under the next cookie. It cannot fail: out of
    /// memory it takes longer.
    pub(crate) fn replace(&mut self, name: Vec<u8>, number: u64)
        requires found { is_some (entry_of_name name.items self.old.list) ≡ true }
        requires cookies { self.old.next_cookie < 2 ^ 63 }
        ensures { self.new ≡ entries_with (entries_without self.old name.items) name.items number }
    {
        let cookie = self.next_cookie;
        let near = self.last_place;
        match index_of(&self.slots, name.as_slice()) {
            Some(index) => {
                move_last(&self.slots, &mut self.order, cookie, near, index);
                overwrite(&mut self.slots, index, Slot { cookie, number });
            }
            None => unreachable!(),
        }
        self.next_cookie = cookie + 1;
    }

    /// Takes the entry of a name out; the others keep their order and their cookies. Takes no memory.
    pub(crate) fn remove(&mut self, name: &[u8])
        ensures { self.new ≡ entries_without self.old name.now }
    {
        let near = self.last_place;
        match index_of(&self.slots, name) {
            Some(index) => {
                let (slots, order) = (&mut self.slots, &mut self.order);
                let place = take_out(slots, order, self.next_cookie, near, index);
                self.last_place = place;
            }
            None => {}
        }
    }

    /// The entries from an index on. Takes no memory.
    pub(crate) fn entries_from(&self, index: usize) -> TableCursor<'_>
        ensures { result ≡ drop index self.now.list }
    {
        cursor_from(&self.slots, &self.order, self.next_cookie, index)
    }

    /// How many entries have a cookie that is at most the given one. The entries after them are those that a listing goes on
    /// with (RFC 1813 section 3.3.16). A step is the comparison of one cookie.
    pub(crate) fn place_after<L: Ledger>(&self, cookie: u64, steps: &mut Steps<L>) -> usize
        ensures within { result ≤ length self.now.list }
        ensures place { result ≡ count_until cookie self.now.list }
        ensures entries { drop result self.now.list ≡ entries_after cookie self.now.list }
        ensures rises { steps.old ≤ steps.new }
        ensures cost { 2 ^ (steps.new - steps.old) ≤ 2 * length self.now.list + 1 }
        ensures counted { length self.now.list + 2 ≤ 2 * 2 ^ (steps.new - steps.old) }
    {
        place_above(&self.slots, &self.order, self.next_cookie, cookie, steps)
    }

    /// How many entries there are.
    pub(crate) fn len(&self) -> usize
        ensures { result ≡ length self.now.list }
    {
        self.slots.len()
    }
}

ghost use Rattle.std.specs.Prelude.{drop, MatchOption, slice_index, slice_index_or, slice_set, nat_le, ◌≤◌, ◌-◌, ◌*◌};
ghost use Rattle.nr_tree.specs.Entries.{entry_of_name};
ghost use Rattle.nr_tree.specs.Listing.{entries_after, count_until};
ghost use Rattle.nr_tree.specs.private.Slots.{slot_entries, ordered, no_entry, IsOrdered};
ghost use Rattle.nr_tree.specs.private.Indexes.{IsIndexOf, IsTakenOut, IsMovedLast};

type Slots = IndexMap<Vec<u8>, Slot>;

/// The index of the slot under a name.
fn index_of(slots: &Slots, name: &[u8]) -> Option<usize>
    ensures { IsIndexOf (slot_entries slots.now.entries) name.now result }
{
    slots.get_index_of(name)
}

/// The name and the slot at an index.
fn slot_at(slots: &Slots, index: usize) -> (&[u8], Slot)
    requires { index < length (slot_entries slots.now.entries) }
    ensures { slice_index_or (slot_entries slots.now.entries) index no_entry ≡ record { cookie = result.1.cookie; name = result.0.now; number = result.1.number } }
{
    match slots.get_index(index) {
        Some((name, slot)) => (name.as_slice(), *slot),
        None => unreachable!(),
    }
}

/// A slot under a new name, whose entry goes last. After an `Err` nothing has changed.
fn append(slots: &mut Slots, order: &mut Order, name: Vec<u8>, slot: Slot) -> Result<(), Memory>
    requires ordered { IsOrdered (slot_entries slots.old.entries) order.old slot.cookie }
    requires absent { entry_of_name name.items (ordered (slot_entries slots.old.entries) order.old) ≡ None }
    ensures slots { OnOk result (slot_entries slots.new.entries ≡ slot_entries slots.old.entries ++ record { cookie = slot.cookie; name = name.items; number = slot.number } ∷ []) }
    ensures order { OnOk result (order.new ≡ order.old ++ length (slot_entries slots.old.entries) ∷ []) }
    ensures slots_err { OnErr result (slot_entries slots.new.entries ≡ slot_entries slots.old.entries) }
    ensures order_err { OnErr result (order.new ≡ order.old) }
{
    let index = slots.len();
    order.push(index)?;
    match slots.insert(name, slot) {
        Ok(_) => Ok(()),
        Err(e) => {
            order.remove(index);
            Err(e.into())
        }
    }
}

/// Whether the slot at an index has a place in the order.
fn is_at(order: &Order, len: usize, place: usize, index: usize) -> bool
    requires { len ≡ length order.now }
    ensures { result ≡ true → (place < length order.now) × (slice_index order.now place ≡ index) }
{
    place < len && order.get(place) == index
}

/// The place in the order of the slot at an index, if it is a given place or one beside it.
fn place_near(order: &Order, len: usize, near: usize, index: usize) -> Option<usize>
    requires { len ≡ length order.now }
    ensures { IfSome result (λ place. (place < length order.now) × (slice_index order.now place ≡ index)) }
{
    let (before, after) = (near.saturating_sub(1), near.saturating_add(1));
    if is_at(order, len, near, index) {
        Some(near)
    } else if is_at(order, len, after, index) {
        Some(after)
    } else if is_at(order, len, before, index) {
        Some(before)
    } else {
        None
    }
}

/// The place in the order of the slot at an index, which may be near a given place.
fn place_of(slots: &Slots, order: &Order, next_cookie: u64, near: usize, index: usize) -> usize
    requires ordered { IsOrdered (slot_entries slots.now.entries) order.now next_cookie }
    requires within { index < length (slot_entries slots.now.entries) }
    ensures within { result < length order.now }
    ensures place { slice_index order.now result ≡ index }
{
    match place_near(order, slots.len(), near, index) {
        Some(place) => place,
        None => place_by_cookie(slots, order, next_cookie, index),
    }
}

/// The place in the order of the slot at an index, found by its cookie.
fn place_by_cookie(slots: &Slots, order: &Order, next_cookie: u64, index: usize) -> usize
    requires ordered { IsOrdered (slot_entries slots.now.entries) order.now next_cookie }
    requires within { index < length (slot_entries slots.now.entries) }
    ensures within { result < length order.now }
    ensures place { slice_index order.now result ≡ index }
{
    let (_, slot) = slot_at(slots, index);
    place_uncounted::<Brand>(slots, order, next_cookie, slot.cookie, Blank::new(1)) - 1
}

/// Takes the slot at an index out, and its entry, which may be near a given place. The last slot gets the index. Gives the
/// place that the entry had.
fn take_out(
    slots: &mut Slots,
    order: &mut Order,
    next_cookie: u64,
    near: usize,
    index: usize,
) -> usize
    requires ordered { IsOrdered (slot_entries slots.old.entries) order.old next_cookie }
    requires within { index < length (slot_entries slots.old.entries) }
    ensures ordered { IsOrdered (slot_entries slots.new.entries) order.new next_cookie }
    ensures entries { IsTakenOut (slot_entries slots.old.entries) order.old index (ordered (slot_entries slots.new.entries) order.new) }
{
    let last = slots.len() - 1;
    let place = place_of(slots, order, next_cookie, near, index);
    let place_of_last = place_of(slots, order, next_cookie, last, last);
    order.set(place_of_last, index);
    order.remove(place);
    slots.swap_remove_index(index);
    place
}

/// Puts the index of a slot last in the order. It cannot fail: out of memory it takes longer.
fn move_last(slots: &Slots, order: &mut Order, next_cookie: u64, near: usize, index: usize)
    requires ordered { IsOrdered (slot_entries slots.now.entries) order.old next_cookie }
    requires within { index < length (slot_entries slots.now.entries) }
    ensures { IsMovedLast order.old index order.new }
{
    let place = place_of(slots, order, next_cookie, near, index);
    order.move_last(place, slots.len() - 1);
}

/// Puts another cookie and number into the slot at an index.
fn overwrite(slots: &mut Slots, index: usize, slot: Slot)
    requires { index < length (slot_entries slots.old.entries) }
    ensures { slot_entries slots.new.entries ≡ slice_set (slot_entries slots.old.entries) index (record { cookie = slot.cookie; name = (slice_index_or (slot_entries slots.old.entries) index no_entry).name; number = slot.number }) }
{
    match slots.get_index_mut(index) {
        Some(kept) => *kept = slot,
        None => unreachable!(),
    }
}

/// The place after a cookie, with steps that nobody reads.
fn place_uncounted<L: Ledger>(
    slots: &Slots,
    order: &Order,
    next_cookie: u64,
    cookie: u64,
    blank: Blank,
) -> usize
    requires name { blank.name ≡ L.name }
    requires parts { blank.parts ≡ L.parts }
    requires some { 0 < L.parts }
    requires ordered { IsOrdered (slot_entries slots.now.entries) order.now next_cookie }
    ensures within { result ≤ length order.now }
    ensures place { result ≡ count_until cookie (ordered (slot_entries slots.now.entries) order.now) }
    ensures entries { drop result (ordered (slot_entries slots.now.entries) order.now) ≡ entries_after cookie (ordered (slot_entries slots.now.entries) order.now) }
{
    let mut steps = Steps::<L>::new(blank);
    place_above(slots, order, next_cookie, cookie, &mut steps)
}

/// Whether the cookie of the entry at a place is at most the given one. This is a step.
fn is_at_most<L: Ledger>(
    slots: &Slots,
    order: &Order,
    place: usize,
    cookie: u64,
    steps: &mut Steps<L>,
) -> bool
    requires place { place < length order.now }
    requires within { slice_index order.now place < length (slot_entries slots.now.entries) }
    ensures answer { option_map (λ e. nat_le e.cookie cookie) (slice_get (ordered (slot_entries slots.now.entries) order.now) place) ≡ Some result }
    ensures step { steps.new ≡ steps.old + 1 }
{
    steps.tick();
    let (_, slot) = slot_at(slots, order.get(place));
    slot.cookie <= cookie
}

/// How many entries have a cookie that is at most the given one.
fn place_above<L: Ledger>(
    slots: &Slots,
    order: &Order,
    next_cookie: u64,
    cookie: u64,
    steps: &mut Steps<L>,
) -> usize
    requires ordered { IsOrdered (slot_entries slots.now.entries) order.now next_cookie }
    ensures within { result ≤ length order.now }
    ensures place { result ≡ count_until cookie (ordered (slot_entries slots.now.entries) order.now) }
    ensures entries { drop result (ordered (slot_entries slots.now.entries) order.now) ≡ entries_after cookie (ordered (slot_entries slots.now.entries) order.now) }
    ensures rises { steps.old ≤ steps.new }
    ensures cost { 2 ^ (steps.new - steps.old) ≤ 2 * length order.now + 1 }
    ensures counted { length order.now + 2 ≤ 2 * 2 ^ (steps.new - steps.old) }
{
    let mut low = 0;
    let mut high = slots.len();
    while low < high {
        let middle = low + (high - low) / 2;
        if is_at_most(slots, order, middle, cookie, steps) {
            low = middle + 1;
        } else {
            high = middle;
        }
    }
    low
}

/// Entries of a directory that follow each other, up to its last one. Contracts see the list of them.
#[derive(Drop)]
pub(crate) struct TableCursor<'a> {
    slots: &'a Slots,
    indexes: IndexCursor<'a>,
}

impl<'a> Model for TableCursor<'a> {
    ghost use Rattle.std.specs.Prelude.{ℕ, List, ◌<◌, length, slice_index};
    ghost use Rattle.nr_tree.specs.Entries.{Entry};
    ghost use Rattle.nr_tree.specs.private.Slots.{slot_entries, ordered};

    ghost Value = { List Entry };

    ghost view = { λ c. ordered (slot_entries c.slots.now.entries) c.indexes };

    ghost invariant = { λ c. (k : ℕ) → k < length c.indexes → slice_index c.indexes k < length (slot_entries c.slots.now.entries) };
}

impl<'a> TableCursor<'a> {
    /// Gives the name, the node and the cookie of the first entry, and goes past it. None if no entry is left: the cursor
    /// then stays at the end, and gives none again.
    pub(crate) fn advance(&mut self) -> Option<(&'a [u8], Slot)>
        ensures { MatchOption result ((self.old ≡ []) × (self.new ≡ [])) (λ e. self.old ≡ record { cookie = e.1.cookie; name = e.0.now; number = e.1.number } ∷ self.new) }
    {
        match self.indexes.advance() {
            Some(index) => Some(slot_at(self.slots, index)),
            None => None,
        }
    }
}

/// The indexes of an order from a place on.
fn indexes_from<'a>(slots: &Slots, order: &'a Order, place: usize) -> IndexCursor<'a>
    requires { length order.now ≡ length (slot_entries slots.now.entries) }
    ensures { result ≡ drop place order.now }
{
    if place >= slots.len() {
        return IndexCursor::empty();
    }
    order.from(place)
}

/// The entries from a place on.
fn cursor_from<'a>(
    slots: &'a Slots,
    order: &'a Order,
    next_cookie: u64,
    place: usize,
) -> TableCursor<'a>
    requires { IsOrdered (slot_entries slots.now.entries) order.now next_cookie }
    ensures { result ≡ drop place (ordered (slot_entries slots.now.entries) order.now) }
{
    TableCursor {
        slots,
        indexes: indexes_from(slots, order, place),
    }
}
