//! The entries of a directory, in the order in which they were made. A directory that never had one takes no memory for them.

ghost use Rattle.std.specs.Prelude.{◌≡◌, ◌+◌, ◌*◌, ◌-◌, ◌<◌, ◌≤◌, ◌^◌, [], ◌∷◌, None, drop, length, is_some, true, MatchOption, OnOk, OnErr};
ghost use Rattle.std.specs.Option.{option_map};

use crate::entry_table::{EntryTable, Slot, TableCursor};
use crate::steps::Steps;
use nr_xdr::Memory;
use std::alloc::Global;
use std::marker::Model;
use std::sync::ledger::Ledger;

/// A directory's entries, and the cookie that the next one gets.
#[derive(Drop)]
pub struct Directory {
    alloc: Global,
    /// None until the first entry is made.
    table: Option<Box<EntryTable>>,
}

impl Model for Directory {
    ghost use Rattle.std.specs.Option.{option_map_or};
    ghost use Rattle.nr_tree.specs.Entries.{Entries, entries_code, no_entries};

    ghost Value = { Entries };

    ghost coded = { entries_code };

    ghost view = { λ d. option_map_or (λ b. b.value) d.table no_entries };
}

ghost use Rattle.std.specs.Option.{option_map_or};
ghost use Rattle.nr_tree.specs.Entries.{no_entries};

/// Makes the table if there is none. After an `Err` there is none.
fn make_table(alloc: Global, table: &mut Option<Box<EntryTable>>) -> Result<(), Memory>
    ensures kept { option_map_or (λ b. b.value) table.new no_entries ≡ option_map_or (λ b. b.value) table.old no_entries }
    ensures made { OnOk result (is_some table.new ≡ true) }
{
    if table.is_none() {
        *table = Some(Box::new(alloc, EntryTable::new(alloc))?);
    }
    Ok(())
}

impl Directory {
    ghost use Rattle.nr_tree.specs.Entries.{Entries, entry_of_name, entries_with, entries_without};
    ghost use Rattle.nr_tree.specs.Listing.{entries_after, count_until};

    /// No entries; the first one's cookie is 1. Takes no memory.
    pub fn new(alloc: Global) -> Self
        ensures { result ≡ record { next_cookie = 1; list = [] } }
    {
        Directory { alloc, table: None }
    }

    /// The number of the node that a name leads to.
    pub fn number_of(&self, name: &[u8]) -> Option<u64>
        ensures { result ≡ option_map (λ e. e.number) (entry_of_name name.now self.now.list) }
    {
        match &self.table {
            Some(table) => table.number_of(name),
            None => None,
        }
    }

    /// Puts an entry last, under the next cookie. After an `Err` the directory is as before.
    pub(crate) fn add(&mut self, name: Vec<u8>, number: u64) -> Result<(), Memory>
        requires absent { entry_of_name name.items self.old.list ≡ None }
        requires cookies { self.old.next_cookie < 2 ^ 63 }
        ensures ok { OnOk result (self.new ≡ entries_with self.old name.items number) }
        ensures err { OnErr result (self.new ≡ self.old) }
    {
        make_table(self.alloc, &mut self.table)?;
        match &mut self.table {
            Some(table) => table.add(name, number),
            None => unreachable!(),
        }
    }

    /// Takes the entry of a name out, and puts one for another number last, under the next cookie. It cannot fail: out of
    /// memory it takes longer.
    pub(crate) fn replace(&mut self, name: Vec<u8>, number: u64)
        requires found { is_some (entry_of_name name.items self.old.list) ≡ true }
        requires cookies { self.old.next_cookie < 2 ^ 63 }
        ensures { self.new ≡ entries_with (entries_without self.old name.items) name.items number }
    {
        match &mut self.table {
            Some(table) => table.replace(name, number),
            None => unreachable!(),
        }
    }

    /// Takes the entry of a name out; the others keep their order and their cookies. Takes no memory.
    pub(crate) fn remove(&mut self, name: &[u8])
        ensures { self.new ≡ entries_without self.old name.now }
    {
        match &mut self.table {
            Some(table) => table.remove(name),
            None => {}
        }
    }

    /// The entries from an index on. Takes no memory.
    pub fn entries_from(&self, index: usize) -> EntryCursor<'_>
        ensures { result ≡ drop index self.now.list }
    {
        match &self.table {
            Some(table) => EntryCursor {
                left: Some(table.entries_from(index)),
            },
            None => EntryCursor { left: None },
        }
    }

    /// How many entries have a cookie that is at most the given one. The entries after them are those that a listing goes on
    /// with (RFC 1813 section 3.3.16). A step is the comparison of one cookie.
    pub fn place_after<L: Ledger>(&self, cookie: u64, steps: &mut Steps<L>) -> usize
        ensures within { result ≤ length self.now.list }
        ensures place { result ≡ count_until cookie self.now.list }
        ensures entries { drop result self.now.list ≡ entries_after cookie self.now.list }
        ensures rises { steps.old ≤ steps.new }
        ensures cost { 2 ^ (steps.new - steps.old) ≤ 2 * length self.now.list + 1 }
        ensures counted { length self.now.list + 2 ≤ 2 * 2 ^ (steps.new - steps.old) }
    {
        match &self.table {
            Some(table) => table.place_after(cookie, steps),
            None => 0,
        }
    }

    /// How many entries there are.
    pub fn len(&self) -> usize
        ensures { result ≡ length self.now.list }
    {
        match &self.table {
            Some(table) => table.len(),
            None => 0,
        }
    }
}

/// Entries of a directory that follow each other, up to its last one. Contracts see the list of them.
#[derive(Drop)]
pub struct EntryCursor<'a> {
    /// None if the directory never had an entry.
    left: Option<TableCursor<'a>>,
}

impl<'a> Model for EntryCursor<'a> {
    ghost use Rattle.std.specs.Prelude.{List, [], unwrap_or};
    ghost use Rattle.nr_tree.specs.Entries.{Entry};

    ghost Value = { List Entry };

    ghost view = { λ c. unwrap_or c.left [] };
}

impl<'a> EntryCursor<'a> {
    /// Gives the name, the node and the cookie of the first entry, and goes past it. None if no entry is left: the cursor
    /// then stays at the end, and gives none again.
    pub fn advance(&mut self) -> Option<(&'a [u8], Slot)>
        ensures { MatchOption result ((self.old ≡ []) × (self.new ≡ [])) (λ e. self.old ≡ record { cookie = e.1.cookie; name = e.0.now; number = e.1.number } ∷ self.new) }
    {
        match &mut self.left {
            Some(left) => left.advance(),
            None => None,
        }
    }
}
