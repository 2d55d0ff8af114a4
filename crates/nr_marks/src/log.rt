//! The marks of a run: as they come, and all of them.

ghost use Rattle.std.specs.Prelude.{◌≡◌, ◌+◌, ◌<◌, ◌≤◌, ◌^◌, List, [], ◌∷◌, ◌++◌, if◌then◌else◌, is_ok, length, get_or, sum_by, IfOk, OnOk};
ghost use Rattle.std.specs.Option.{option_to_list};
ghost use Rattle.nr_reduce.specs.declared.mark.Mark.{Mark};
ghost use Rattle.nr_marks.specs.Views.{mark_seen, submit_link, mark_len as len_of_mark, marks_len};
ghost use Rattle.nr_marks.specs.KeptMarks.{AreKept, marks_of, kept_len, own_len as len_of_own};
ghost use Rattle.nr_marks.specs.Pieces.{Grows, stores_max, slots_max};

use crate::keeping::{keep, waits};
use crate::kept::{Kept, MarkView, mark_len, own_len, submit_link_of, view_of};
use crate::stores::ByteStores;
use nr_reduce::Mark;
use nr_xdr::Memory;
use std::alloc::Global;
use std::marker::Model;

/// The marks of a run so far. Contracts see the list of the marks. Most bytes that crossed a link are kept
/// once: what a side was fed, payloads and replies refer to what a side wrote, if they are found there.
#[derive(Drop)]
pub struct MarkLog {
    alloc: Global,
    stores: ByteStores,
    entries: Vec<Kept>,
    // The last mark, as long as it waits for the next one.
    waiting: Option<Mark>,
}

impl Model for MarkLog {
    ghost use Rattle.std.specs.Prelude.{List, ◌++◌, ◌≤◌};
    ghost use Rattle.std.specs.Option.{option_to_list};
    ghost use Rattle.nr_reduce.specs.declared.mark.Mark.{Mark};
    ghost use Rattle.nr_marks.specs.Views.{marks_len};
    ghost use Rattle.nr_marks.specs.KeptMarks.{AreKept, marks_of, kept_len};

    ghost Value = { List Mark };

    ghost view = { λ l. marks_of l.stores l.entries.items ++ option_to_list l.waiting };

    // No more bytes are kept than the marks have.
    ghost invariant = { λ l. AreKept l.stores l.entries.items × (kept_len l.stores l.entries.items ≤ marks_len (marks_of l.stores l.entries.items)) };
}

/// The marks of a run. Contracts see the list of the marks.
#[derive(Drop)]
pub struct MarkList {
    stores: ByteStores,
    entries: Vec<Kept>,
}

impl Model for MarkList {
    ghost use Rattle.std.specs.Prelude.{List};
    ghost use Rattle.nr_reduce.specs.declared.mark.Mark.{Mark};
    ghost use Rattle.nr_marks.specs.KeptMarks.{AreKept, marks_of};

    ghost Value = { List Mark };

    ghost view = { λ l. marks_of l.stores l.entries.items };

    ghost invariant = { λ l. AreKept l.stores l.entries.items };
}

/// Adds a kept mark.
fn add(entries: &mut Vec<Kept>, kept: Kept) -> Result<(), Memory>
    ensures { entries.new.items ≡ (if is_ok result then entries.old.items ++ kept ∷ [] else entries.old.items) }
{
    match entries.push(kept) {
        Ok(()) => Ok(()),
        Err(failed) => {
            drop(failed);
            Err(Memory)
        }
    }
}

/// The bytes that the first kept marks have of their own, if 128 bits are enough for the sum.
fn own_lens(entries: &[Kept]) -> u128
    ensures { result ≤ sum_by len_of_own entries.now }
{
    let mut sum: u128 = 0;
    for entry in entries {
        sum = sum.saturating_add(own_len(entry));
    }
    sum
}

/// The bytes of the mark that waits.
fn waiting_len(waiting: &Option<Mark>) -> u128
    ensures { result ≡ marks_len (option_to_list waiting.now) }
{
    match waiting {
        Some(mark) => mark_len(mark),
        None => 0,
    }
}

/// Adds the mark that waits, if one does.
fn settle(
    alloc: Global,
    stores: &mut ByteStores,
    entries: &mut Vec<Kept>,
    waiting: Option<Mark>,
) -> Result<(), Memory>
    requires { AreKept stores.old entries.old.items }
    ensures grows { Grows stores.old stores.new }
    ensures kept { AreKept stores.new entries.new.items }
    ensures marks { OnOk result (marks_of stores.new entries.new.items ≡ marks_of stores.old entries.old.items ++ option_to_list waiting) }
    ensures size { OnOk result (kept_len stores.new entries.new.items ≤ kept_len stores.old entries.old.items + marks_len (option_to_list waiting)) }
{
    let Some(mark) = waiting else {
        return Ok(());
    };
    match keep(alloc, stores, mark) {
        Ok(kept) => add(entries, kept),
        Err(memory) => Err(memory),
    }
}

/// Adds the mark that waited, and one that doesn't wait. It is kept first, so that what waited is found in its bytes.
fn add_both(
    alloc: Global,
    stores: &mut ByteStores,
    entries: &mut Vec<Kept>,
    waiting: Option<Mark>,
    mark: Mark,
) -> Result<(), Memory>
    requires { AreKept stores.old entries.old.items }
    ensures kept { AreKept stores.new entries.new.items }
    ensures marks { OnOk result (marks_of stores.new entries.new.items ≡ (marks_of stores.old entries.old.items ++ option_to_list waiting) ++ mark ∷ []) }
    ensures size { OnOk result (kept_len stores.new entries.new.items ≤ (kept_len stores.old entries.old.items + marks_len (option_to_list waiting)) + len_of_mark mark) }
{
    let kept = match keep(alloc, stores, mark) {
        Ok(kept) => kept,
        Err(memory) => {
            drop(waiting);
            return Err(memory);
        }
    };
    match settle(alloc, stores, entries, waiting) {
        Ok(()) => add(entries, kept),
        Err(memory) => {
            drop(kept);
            Err(memory)
        }
    }
}

/// Keeps no marks: after an `Err` not all that was kept belongs to a mark.
fn clear(alloc: Global, stores: &mut ByteStores, entries: &mut Vec<Kept>)
    ensures stores { stores.new ≡ [] }
    ensures entries { entries.new.items ≡ [] }
{
    *stores = ByteStores::new(alloc);
    *entries = Vec::new(alloc);
}

impl MarkLog {
    /// No marks. Takes no memory.
    pub fn new(alloc: Global) -> MarkLog
        ensures { result ≡ [] }
    {
        MarkLog {
            alloc,
            stores: ByteStores::new(alloc),
            entries: Vec::new(alloc),
            waiting: None,
        }
    }

    /// That there are fewer than 2^64 marks, for the proofs. It does nothing.
    pub fn facts(&self)
        ensures { length self.now < 2 ^ 64 }
    {
        let _count = self.entries.len();
    }

    /// How many bytes are kept in memory for the marks: no more than they have, where the arguments of a call line count with the 40 bytes
    /// of the call head that stands before them.
    pub fn held(&self) -> u128
        ensures { result ≤ marks_len self.now }
    {
        self.stores
            .held()
            .saturating_add(own_lens(self.entries.as_slice()))
            .saturating_add(waiting_len(&self.waiting))
    }

    /// How many elements the lists have that are kept for the marks: one for each mark, and some others, whose number doesn't grow.
    pub fn list_len(&self) -> u128
        ensures { result ≤ length self.now + (stores_max + (stores_max + slots_max)) }
    {
        self.entries.len() as u128 + self.stores.list_len() as u128
    }

    /// Adds a mark. After an `Err` nothing is known of the marks.
    ///
    /// # Errors
    ///
    /// [`Memory`] if memory ran out.
    pub fn push(&mut self, mark: Mark) -> Result<(), Memory>
        ensures { OnOk result (self.new ≡ self.old ++ mark ∷ []) }
    {
        let waiting = self.waiting.take();
        if waits(&mark) {
            match settle(self.alloc, &mut self.stores, &mut self.entries, waiting) {
                Ok(()) => {
                    self.waiting = Some(mark);
                    return Ok(());
                }
                Err(memory) => {
                    clear(self.alloc, &mut self.stores, &mut self.entries);
                    drop(mark);
                    return Err(memory);
                }
            }
        }
        match add_both(
            self.alloc,
            &mut self.stores,
            &mut self.entries,
            waiting,
            mark,
        ) {
            Ok(()) => Ok(()),
            Err(memory) => {
                clear(self.alloc, &mut self.stores, &mut self.entries);
                Err(memory)
            }
        }
    }

    /// The marks, to be read.
    ///
    /// # Errors
    ///
    /// [`Memory`] if memory ran out.
    pub fn finish(self) -> Result<MarkList, Memory>
        ensures { IfOk result (λ marks. marks ≡ self) }
    {
        let MarkLog {
            alloc,
            mut stores,
            mut entries,
            waiting,
        } = self;
        match settle(alloc, &mut stores, &mut entries, waiting) {
            Ok(()) => Ok(MarkList { stores, entries }),
            Err(memory) => {
                drop(stores);
                drop(entries);
                Err(memory)
            }
        }
    }
}

impl MarkList {
    /// How many marks there are.
    pub fn len(&self) -> usize
        ensures { result ≡ length self.now }
    {
        self.entries.len()
    }

    /// The mark at an index.
    pub fn mark(&self, at: usize) -> MarkView<'_>
        requires { at < length self.now }
        ensures { (d : Mark) → mark_seen result ≡ get_or self.now at d }
    {
        view_of(&self.stores, &self.entries[at])
    }

    /// The link of the mark at an index, if it is a call line.
    pub fn submit_link(&self, at: usize) -> Option<u32>
        requires { at < length self.now }
        ensures { (d : Mark) → result ≡ submit_link (get_or self.now at d) }
    {
        submit_link_of(&self.entries[at])
    }
}
