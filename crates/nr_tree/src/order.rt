//! Indexes in an order, in blocks: one is taken out in a time that hardly grows with their count.

ghost use Rattle.std.specs.Prelude.{◌≡◌, ◌+◌, ◌*◌, ◌<◌, ◌≤◌, ◌++◌, ◌∷◌, [], true, false, drop, length, remove, slice_index, slice_index_or, slice_set, MatchOption, OnOk, OnErr};
ghost use Rattle.std.specs.List.{concat};
ghost use Rattle.nr_tree.specs.private.Blocks.{IsIn, lists, no_block, joined_max, AreApart, AreRoomy, AreJoined, BlocksAreFew, IsTaken, IsAround, IsAfter, IsJoined, HasRoomLast, IsFullLast};

use nr_xdr::Memory;
use std::alloc::Global;
use std::marker::Model;

/// The maximum number of indexes in a block.
const BLOCK_MAX: usize = 2048;

/// Two blocks that follow each other become one if they have at most this many indexes.
const JOINED_MAX: usize = 1024;

/// Indexes that follow each other.
#[derive(Drop)]
struct Block {
    indexes: Vec<usize>,
}

impl Model for Block {
    ghost use Rattle.std.specs.Prelude.{vec_capacity};
    ghost use Rattle.nr_tree.specs.private.Blocks.{IndexBlock, block_code};

    ghost Value = { IndexBlock };

    ghost coded = { block_code };

    ghost view = { λ b. record { indexes = b.indexes.items; room = vec_capacity b.indexes } };
}

impl Block {
    fn new(alloc: Global) -> Self
        ensures { result.indexes ≡ [] }
    {
        Block {
            indexes: Vec::new(alloc),
        }
    }

    fn len(&self) -> usize
        ensures len { result ≡ length self.now.indexes }
        ensures room { length self.now.indexes ≤ self.now.room }
    {
        self.indexes.len()
    }

    fn get(&self, offset: usize) -> usize
        requires { offset < length self.now.indexes }
        ensures { result ≡ slice_index self.now.indexes offset }
    {
        self.indexes[offset]
    }

    /// The indexes from an offset on.
    fn from(&self, offset: usize) -> &[usize]
        requires { offset ≤ length self.now.indexes }
        ensures { result.now ≡ drop offset self.now.indexes }
    {
        &self.indexes[offset..]
    }

    fn set(&mut self, offset: usize, index: usize)
        requires { offset < length self.old.indexes }
        ensures { self.new ≡ record { indexes = slice_set self.old.indexes offset index; room = self.old.room } }
    {
        self.indexes[offset] = index;
    }

    fn remove(&mut self, offset: usize)
        requires { offset < length self.old.indexes }
        ensures { self.new ≡ record { indexes = remove self.old.indexes offset; room = self.old.room } }
    {
        self.indexes.remove(offset);
    }

    /// Takes the indexes of another block, for which it has room. Takes no memory.
    fn take_all(&mut self, other: &mut Block)
        requires { length self.old.indexes + length other.old.indexes ≤ self.old.room }
        ensures indexes { self.new.indexes ≡ self.old.indexes ++ other.old.indexes }
        ensures room { self.old.room ≤ self.new.room }
    {
        let _ = self.indexes.append(&mut other.indexes);
    }

    /// After an `Err` the block has the indexes that it had.
    fn push(&mut self, index: usize) -> Result<(), Memory>
        ensures ok { OnOk result (self.new.indexes ≡ self.old.indexes ++ index ∷ []) }
        ensures err { OnErr result (self.new.indexes ≡ self.old.indexes) }
        ensures room { self.old.room ≤ self.new.room }
    {
        self.indexes.push(index)?;
        Ok(())
    }
}

/// The indexes, in few blocks of at most BLOCK_MAX: none is empty, and any two that follow each other have more than JOINED_MAX.
#[derive(Drop)]
pub(crate) struct Order {
    blocks: Vec<Block>,
}

impl Model for Order {
    ghost use Rattle.std.specs.Prelude.{ℕ, List};
    ghost use Rattle.std.specs.List.{concat};
    ghost use Rattle.std.specs.Coded.{coded_list, coded_ℕ};
    ghost use Rattle.nr_tree.specs.private.Blocks.{lists, AreJoined};

    ghost Value = { List ℕ };

    ghost coded = { coded_list coded_ℕ };

    ghost view = { λ o. concat (lists o.blocks.items) };

    ghost invariant = { λ o. AreJoined o.blocks.items };
}

/// With n indexes there are at most 1 + 2 n / 1025 blocks.
fn blocks_are_few()
    ensures { BlocksAreFew }
{}

impl Order {
    /// No indexes. Takes no memory.
    pub(crate) fn new(alloc: Global) -> Self
        ensures { result ≡ [] }
    {
        Order {
            blocks: Vec::new(alloc),
        }
    }

    /// The index at a place.
    pub(crate) fn get(&self, place: usize) -> usize
        requires { place < length self.now }
        ensures { result ≡ slice_index self.now place }
    {
        let (block, offset) = find(&self.blocks, place);
        self.blocks[block].get(offset)
    }

    /// The indexes from a place on. Takes no memory.
    pub(crate) fn from(&self, place: usize) -> IndexCursor<'_>
        requires { place < length self.now }
        ensures { result ≡ drop place self.now }
    {
        cursor_from(&self.blocks, place)
    }

    /// Puts another index at a place. Takes no memory.
    pub(crate) fn set(&mut self, place: usize, index: usize)
        requires { place < length self.old }
        ensures { self.new ≡ slice_set self.old place index }
    {
        let (block, offset) = find(&self.blocks, place);
        set_at(&mut self.blocks, block, offset, index);
    }

    /// Takes the index at a place out. Takes no memory.
    pub(crate) fn remove(&mut self, place: usize)
        requires { place < length self.old }
        ensures { self.new ≡ remove self.old place }
    {
        let (block, offset) = find(&self.blocks, place);
        remove_at(&mut self.blocks, block, offset);
        tidy(&mut self.blocks, block);
    }

    /// Puts the index at a place last; `last` is the last place. It cannot fail: out of memory it takes longer.
    pub(crate) fn move_last(&mut self, place: usize, last: usize)
        requires place { place ≤ last }
        requires last { last + 1 ≡ length self.old }
        ensures { self.new ≡ remove self.old place ++ slice_index self.old place ∷ [] }
    {
        let index = self.get(place);
        match self.push(index) {
            Ok(()) => self.remove(place),
            Err(_) => self.move_down(place, last, index),
        }
    }

    /// Moves each index after a place one place down, and puts this one last.
    fn move_down(&mut self, place: usize, last: usize, index: usize)
        requires place { place ≤ last }
        requires last { last + 1 ≡ length self.old }
        ensures { self.new ≡ remove self.old place ++ index ∷ [] }
    {
        let mut at = place;
        'moving: while at < last {
            let next = self.get(at + 1);
            self.set(at, next);
            at += 1;
        }
        self.set(last, index);
    }

    /// Puts an index last. After an `Err` the indexes are as before.
    pub(crate) fn push(&mut self, index: usize) -> Result<(), Memory>
        ensures ok { OnOk result (self.new ≡ self.old ++ index ∷ []) }
        ensures err { OnErr result (self.new ≡ self.old) }
    {
        if has_room(&self.blocks) {
            push_to_last(&mut self.blocks, index)
        } else {
            push_block(&mut self.blocks, index)
        }
    }
}

/// Indexes of an order that follow each other, up to its last one.
#[derive(Drop)]
pub(crate) struct IndexCursor<'a> {
    block: &'a [usize],
    /// The blocks after it.
    blocks: &'a [Block],
}

impl<'a> Model for IndexCursor<'a> {
    ghost use Rattle.std.specs.Prelude.{ℕ, List, ◌++◌};
    ghost use Rattle.std.specs.List.{concat};
    ghost use Rattle.nr_tree.specs.private.Blocks.{lists};
    ghost use Rattle.std.specs.Coded.{coded_list, coded_ℕ};

    ghost Value = { List ℕ };

    ghost coded = { coded_list coded_ℕ };

    ghost view = { λ c. c.block.now ++ concat (lists c.blocks.now) };
}

impl<'a> IndexCursor<'a> {
    /// No indexes. Takes no memory.
    pub(crate) fn empty() -> IndexCursor<'a>
        ensures { result ≡ [] }
    {
        IndexCursor {
            block: &[],
            blocks: &[],
        }
    }

    /// Gives the first index and goes past it; none if there is none.
    pub(crate) fn advance(&mut self) -> Option<usize>
        ensures { MatchOption result ((self.old ≡ []) × (self.new ≡ [])) (λ index. self.old ≡ index ∷ self.new) }
    {
        let (block, blocks) = skip_empty(self.block, self.blocks);
        match block.split_first() {
            Some((index, rest)) => {
                self.block = rest;
                self.blocks = blocks;
                Some(*index)
            }
            None => None,
        }
    }
}

/// The first of some blocks that has indexes, and those after it; an empty one, if there is none.
fn skip_empty<'a>(block: &'a [usize], blocks: &'a [Block]) -> (&'a [usize], &'a [Block])
    ensures same { result.0.now ++ concat (lists result.1.now) ≡ block.now ++ concat (lists blocks.now) }
    ensures some { length result.0.now ≡ 0 → concat (lists result.1.now) ≡ [] }
{
    let mut block = block;
    let mut blocks = blocks;
    'skip: while block.is_empty() {
        match blocks.split_first() {
            Some((next, rest)) => {
                block = next.from(0);
                blocks = rest;
            }
            None => return (block, blocks),
        }
    }
    (block, blocks)
}

/// The indexes of some blocks from a place on.
fn cursor_from(blocks: &[Block], place: usize) -> IndexCursor<'_>
    requires { place < length (concat (lists blocks.now)) }
    ensures { result ≡ drop place (concat (lists blocks.now)) }
{
    let (block, offset) = find(blocks, place);
    let (_, left) = blocks.split_at(block);
    match left.split_first() {
        Some((first, rest)) => IndexCursor {
            block: first.from(offset),
            blocks: rest,
        },
        None => unreachable!(),
    }
}

/// The block that a place lies in, and the offset in it.
fn find(blocks: &[Block], place: usize) -> (usize, usize)
    requires { place < length (concat (lists blocks.now)) }
    ensures { IsIn (lists blocks.now) result.0 result.1 place }
{
    let mut block = 0;
    let mut offset = place;
    'search: while offset >= blocks[block].len() {
        offset -= blocks[block].len();
        block += 1;
    }
    (block, offset)
}

fn set_at(blocks: &mut Vec<Block>, block: usize, offset: usize, index: usize)
    requires block { block < length blocks.old.items }
    requires offset { offset < length (slice_index_or blocks.old.items block no_block).indexes }
    ensures { blocks.new.items ≡ slice_set blocks.old.items block (record { indexes = slice_set (slice_index_or blocks.old.items block no_block).indexes offset index; room = (slice_index_or blocks.old.items block no_block).room }) }
{
    blocks[block].set(offset, index);
}

fn remove_at(blocks: &mut Vec<Block>, block: usize, offset: usize)
    requires block { block < length blocks.old.items }
    requires offset { offset < length (slice_index_or blocks.old.items block no_block).indexes }
    ensures { blocks.new.items ≡ slice_set blocks.old.items block (record { indexes = remove (slice_index_or blocks.old.items block no_block).indexes offset; room = (slice_index_or blocks.old.items block no_block).room }) }
{
    blocks[block].remove(offset);
}

fn drop_if_empty(blocks: &mut Vec<Block>, block: usize)
    requires block { block < length blocks.old.items }
    requires taken { IsTaken block blocks.old.items }
    requires roomy { AreRoomy blocks.old.items }
    ensures same { concat (lists blocks.new.items) ≡ concat (lists blocks.old.items) }
    ensures around { IsAround block blocks.new.items }
    ensures roomy { AreRoomy blocks.new.items }
{
    if blocks[block].len() == 0 {
        blocks.remove(block);
    }
}

/// Whether a block and the next one have so few indexes that they become one.
fn are_small(blocks: &[Block], block: usize) -> bool
    ensures small { result ≡ true → (block + 1 < length blocks.now) × (length (slice_index_or blocks.now block no_block).indexes + length (slice_index_or blocks.now (block + 1) no_block).indexes ≤ joined_max) }
    ensures apart { result ≡ false → block + 1 < length blocks.now → joined_max < length (slice_index_or blocks.now block no_block).indexes + length (slice_index_or blocks.now (block + 1) no_block).indexes }
{
    if block >= blocks.len() || blocks.len() - block < 2 {
        return false;
    }
    let (first, second) = (blocks[block].len(), blocks[block + 1].len());
    first <= JOINED_MAX && second <= JOINED_MAX - first
}

/// Moves the indexes of the next block to a block, which has room for them. Takes no memory.
fn join(blocks: &mut Vec<Block>, block: usize)
    requires next { block + 1 < length blocks.old.items }
    requires room { length (slice_index_or blocks.old.items block no_block).indexes + length (slice_index_or blocks.old.items (block + 1) no_block).indexes ≤ (slice_index_or blocks.old.items block no_block).room }
    ensures { IsJoined blocks.old.items block blocks.new.items }
{
    let mut next = blocks.remove(block + 1);
    blocks[block].take_all(&mut next);
}

fn join_if_small(blocks: &mut Vec<Block>, block: usize)
    requires roomy { AreRoomy blocks.old.items }
    ensures same { concat (lists blocks.new.items) ≡ concat (lists blocks.old.items) }
    ensures roomy { AreRoomy blocks.new.items }
    ensures first { IsAround block blocks.old.items → IsAfter block blocks.new.items }
    ensures second { IsAfter (block + 1) blocks.old.items → AreApart blocks.new.items }
{
    if are_small(blocks, block) {
        join(blocks, block);
    }
}

/// After an index of a block was taken out: the block goes if it is empty, and small blocks become one.
fn tidy(blocks: &mut Vec<Block>, block: usize)
    requires block { block < length blocks.old.items }
    requires taken { IsTaken block blocks.old.items }
    requires roomy { AreRoomy blocks.old.items }
    ensures same { concat (lists blocks.new.items) ≡ concat (lists blocks.old.items) }
    ensures joined { AreJoined blocks.new.items }
{
    drop_if_empty(blocks, block);
    join_if_small(blocks, block);
    if block > 0 {
        join_if_small(blocks, block - 1);
    }
}

/// Whether the last block has room for one index more.
fn has_room(blocks: &[Block]) -> bool
    ensures yes { result ≡ true → HasRoomLast blocks.now }
    ensures no { result ≡ false → IsFullLast blocks.now }
{
    match blocks.last() {
        Some(block) => block.len() < BLOCK_MAX,
        None => false,
    }
}

/// After an `Err` the indexes are as before.
fn push_to_last(blocks: &mut Vec<Block>, index: usize) -> Result<(), Memory>
    requires joined { AreJoined blocks.old.items }
    requires room { HasRoomLast blocks.old.items }
    ensures ok { OnOk result (concat (lists blocks.new.items) ≡ concat (lists blocks.old.items) ++ index ∷ []) }
    ensures err { OnErr result (concat (lists blocks.new.items) ≡ concat (lists blocks.old.items)) }
    ensures joined { AreJoined blocks.new.items }
{
    let last = blocks.len() - 1;
    blocks[last].push(index)
}

/// Puts a block with one index last. After an `Err` the blocks are as before.
fn push_block(blocks: &mut Vec<Block>, index: usize) -> Result<(), Memory>
    requires joined { AreJoined blocks.old.items }
    requires full { IsFullLast blocks.old.items }
    ensures ok { OnOk result (concat (lists blocks.new.items) ≡ concat (lists blocks.old.items) ++ index ∷ []) }
    ensures err { OnErr result (concat (lists blocks.new.items) ≡ concat (lists blocks.old.items)) }
    ensures joined { AreJoined blocks.new.items }
{
    let mut block = Block::new(*blocks.allocator());
    block.push(index)?;
    blocks.push(block)?;
    Ok(())
}
