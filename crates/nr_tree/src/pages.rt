//! The pages of a file by number. A page that isn't kept reads as zeros.

ghost use Rattle.std.specs.Prelude.{◌≡◌, ◌+◌, ◌-◌, ◌*◌, ◌/◌, ◌%◌, ◌<◌, ◌≤◌, ◌^◌, ℕ, ◌++◌, length, take, drop, is_some, slice_index, true, false, IfOk, IfSome, OnOk, OnErr, None, Some};
ghost use Rattle.std.specs.List.{list_any};
ghost use Rattle.nr_tree.specs.Pages.{page_size, is_set};
ghost use Rattle.nr_tree.specs.Paged.{page, byte, HasByte, AreSized, AreZeros, ArePages, AreSet, KeepsBytes, IsOver, WritesOver, ClearsTail};

use std::alloc::{AllocError, Global};
use std::collections::BTreeMap;

/// The size of a page in bytes.
pub(crate) const PAGE_SIZE: u64 = 4096;

/// The pages that are kept, by number.
pub(crate) type Pages = BTreeMap<u64, Vec<u8>>;

fn zeros(alloc: Global, len: usize) -> Result<Vec<u8>, AllocError>
    ensures { IfOk result (λ v. AreZeros v.items len) }
{
    vec![in alloc; 0; len]
}

/// Keeps a page of zeros under a number if none is kept there.
fn insert_zeros(alloc: Global, pages: &mut Pages, number: u64) -> Result<(), AllocError>
    requires { AreSized pages.old.entries }
    ensures bytes { KeepsBytes pages.old.entries pages.new.entries number (number + 1) }
    ensures kept { OnOk result (is_some (page pages.new.entries number) ≡ true) }
    ensures others { (p : ℕ) → is_some (page pages.old.entries p) ≡ true → is_some (page pages.new.entries p) ≡ true }
{
    if !pages.contains_key(&number) {
        let page = zeros(alloc, PAGE_SIZE as usize)?;
        pages.insert(number, page)?;
    }
    Ok(())
}

/// Whether a page is kept under each of the numbers from `first` on, below `end`, found by one walk.
fn are_kept(pages: &Pages, first: u64, end: u64) -> bool
    requires { first ≤ end }
    ensures { result ≡ true → (p : ℕ) → first ≤ p → p < end → is_some (page pages.now.entries p) ≡ true }
{
    pages.range(first..end).count() as u64 == end - first
}

/// Keeps a page of zeros under each of the numbers from `first` on, below `end`, that has none.
fn make_room(alloc: Global, pages: &mut Pages, first: u64, end: u64) -> Result<(), AllocError>
    requires sized { AreSized pages.old.entries }
    requires forward { first ≤ end }
    ensures bytes { KeepsBytes pages.old.entries pages.new.entries first end }
    ensures kept { OnOk result ((p : ℕ) → first ≤ p → p < end → is_some (page pages.new.entries p) ≡ true) }
{
    if are_kept(pages, first, end) {
        return Ok(());
    }
    for number in first..end {
        insert_zeros(alloc, pages, number)?;
    }
    Ok(())
}

/// Whether all bytes are 0.
fn are_zero(bytes: &[u8]) -> bool
    ensures set { result ≡ false → list_any is_set bytes.now ≡ true }
    ensures zero { result ≡ true → (i : ℕ) → slice_index bytes.now i ≡ 0 }
{
    bytes.iter().all(|byte| *byte == 0)
}

/// Lets a page go if all its bytes are 0.
fn drop_if_zero(pages: &mut Pages, number: u64)
    requires { AreSized pages.old.entries }
    ensures bytes { KeepsBytes pages.old.entries pages.new.entries number (number + 1) }
    ensures set { IfSome (page pages.new.entries number) HasByte }
{
    let is_zero = match pages.get(&number) {
        Some(page) => are_zero(page),
        None => false,
    };
    if is_zero {
        pages.remove(&number);
    }
}

/// Lets the pages from `first` on, below `end`, go whose bytes are all 0.
fn drop_zeros(pages: &mut Pages, first: u64, end: u64)
    requires { AreSized pages.old.entries }
    ensures bytes { KeepsBytes pages.old.entries pages.new.entries first end }
    ensures set { (p : ℕ) → first ≤ p → p < end → IfSome (page pages.new.entries p) HasByte }
{
    for number in first..end {
        drop_if_zero(pages, number);
    }
}

/// Copies a piece into a page, from an offset in it on, and gives whether all bytes of the page are 0 then.
fn copy_at(bytes: &mut Vec<u8>, offset: usize, piece: &[u8]) -> bool
    requires { offset + length piece.now ≤ length bytes.old.items }
    ensures bytes { bytes.new.items ≡ take offset bytes.old.items ++ (piece.now ++ drop (offset + length piece.now) bytes.old.items) }
    ensures set { result ≡ false → HasByte bytes.new }
    ensures zero { result ≡ true → (i : ℕ) → slice_index bytes.new.items i ≡ 0 }
{
    let all = bytes.as_mut_slice();
    all[offset..offset + piece.len()].copy_from_slice(piece);
    are_zero(bytes)
}

/// Copies a piece into the page that it lies in, which is kept, and gives whether all bytes of the page are 0 then.
fn put(pages: &mut Pages, offset: u64, piece: &[u8]) -> bool
    requires sized { AreSized pages.old.entries }
    requires kept { is_some (page pages.old.entries (offset / page_size)) ≡ true }
    requires some { 0 < length piece.now }
    requires fits { offset % page_size + length piece.now ≤ page_size }
    ensures over { WritesOver pages.old.entries pages.new.entries offset piece.now }
    ensures set { result ≡ false → IfSome (page pages.new.entries (offset / page_size)) HasByte }
    ensures zero { result ≡ true → (i : ℕ) → i / page_size ≡ offset / page_size → byte pages.new.entries i ≡ 0 }
{
    match pages.get_mut(&(offset / PAGE_SIZE)) {
        Some(page) => copy_at(page, (offset % PAGE_SIZE) as usize, piece),
        None => unreachable!(),
    }
}

/// Copies a piece into the page that it lies in, which is kept. If all bytes of the page are 0 after that, the page is removed.
fn put_or_remove(pages: &mut Pages, offset: u64, piece: &[u8])
    requires sized { AreSized pages.old.entries }
    requires kept { is_some (page pages.old.entries (offset / page_size)) ≡ true }
    requires some { 0 < length piece.now }
    requires fits { offset % page_size + length piece.now ≤ page_size }
    ensures over { WritesOver pages.old.entries pages.new.entries offset piece.now }
    ensures set { IfSome (page pages.new.entries (offset / page_size)) HasByte }
{
    if put(pages, offset, piece) {
        pages.remove(&(offset / PAGE_SIZE));
    }
}

/// Copies a piece into its pages, each of which is kept. Each byte is copied once. A page whose bytes are all 0 then goes.
fn copy(pages: &mut Pages, offset: u64, piece: &[u8])
    requires sized { AreSized pages.old.entries }
    requires limit { offset + length piece.now < 2 ^ 62 }
    requires kept { (i : ℕ) → offset ≤ i → i < offset + length piece.now → is_some (page pages.old.entries (i / page_size)) ≡ true }
    ensures over { WritesOver pages.old.entries pages.new.entries offset piece.now }
    ensures set { AreSet pages.new.entries offset (offset + length piece.now) }
{
    let mut at = offset;
    let mut rest = piece;
    while !rest.is_empty() {
        let room = PAGE_SIZE - at % PAGE_SIZE; // the rest of the page
        let (part, after) = rest.split_at((room as usize).min(rest.len()));
        put_or_remove(pages, at, part);
        at += part.len() as u64;
        rest = after;
    }
}

/// Writes a piece over the bytes from an offset on. Room first: a page that isn't kept begins as zeros, and no page of zeros
/// stays. After an `Err` the bytes are as before.
pub(crate) fn write_pages(
    alloc: Global,
    pages: &mut Pages,
    offset: u64,
    piece: &[u8],
) -> Result<(), AllocError>
    requires limit { offset + length piece.now < 2 ^ 62 }
    requires sized { AreSized pages.old.entries }
    requires set { (p : ℕ) → IfSome (page pages.old.entries p) HasByte }
    ensures sized { AreSized pages.new.entries }
    ensures set { (p : ℕ) → IfSome (page pages.new.entries p) HasByte }
    ensures ok { OnOk result (IsOver (byte pages.old.entries) (byte pages.new.entries) offset piece.now) }
    ensures err { OnErr result ((i : ℕ) → byte pages.new.entries i ≡ byte pages.old.entries i) }
{
    if piece.is_empty() {
        return Ok(());
    }
    let first = offset / PAGE_SIZE;
    let end = (offset + piece.len() as u64 + (PAGE_SIZE - 1)) / PAGE_SIZE;
    if let Err(e) = make_room(alloc, pages, first, end) {
        drop_zeros(pages, first, end);
        return Err(e);
    }
    copy(pages, offset, piece);
    Ok(())
}

static ZEROS: [u8; PAGE_SIZE as usize] = [0; PAGE_SIZE as usize];

/// `len` zeros, at most a page of them.
fn zero_bytes<'a>(len: usize) -> &'a [u8]
    requires { len ≤ page_size }
    ensures { AreZeros result.now len }
{
    &ZEROS[..len]
}

/// Puts zeros over the bytes from an offset on in its page, if it is kept. If all bytes of the page are 0 after that, the page is removed.
fn clear_tail(pages: &mut Pages, from: u64)
    requires { AreSized pages.old.entries }
    ensures { ClearsTail pages.old.entries pages.new.entries from }
{
    if !pages.contains_key(&(from / PAGE_SIZE)) {
        return;
    }
    let room = PAGE_SIZE - from % PAGE_SIZE; // the rest of the page
    put_or_remove(pages, from, zero_bytes(room as usize));
}

/// Lets the pages from `first` on, below `end`, go.
fn remove_pages(pages: &mut Pages, first: u64, end: u64)
    ensures below { (p : ℕ) → p < first → page pages.new.entries p ≡ page pages.old.entries p }
    ensures gone { (p : ℕ) → first ≤ p → p < end → page pages.new.entries p ≡ None }
    ensures above { (p : ℕ) → end ≤ p → page pages.new.entries p ≡ page pages.old.entries p }
{
    for number in first..end {
        pages.remove(&number);
    }
}

/// Makes the bytes from an offset on zeros, of a file that had `len` of them. Takes no memory.
pub(crate) fn cut_pages(pages: &mut Pages, from: u64, len: u64)
    requires shorter { from < len }
    requires pages { ArePages pages.old.entries len }
    ensures pages { ArePages pages.new.entries from }
    ensures below { (i : ℕ) → i < from → byte pages.new.entries i ≡ byte pages.old.entries i }
{
    let first = from / PAGE_SIZE;
    clear_tail(pages, from);
    remove_pages(pages, first + 1, len / PAGE_SIZE + 1);
}

/// `count` bytes from an offset on, which lie in one page.
pub(crate) fn part_of_page(pages: &Pages, offset: u64, count: u64) -> &[u8]
    requires sized { AreSized pages.now.entries }
    requires fits { offset % page_size + count ≤ page_size }
    ensures len { length result.now ≡ count }
    ensures bytes { (k : ℕ) → k < count → slice_index result.now k ≡ byte pages.now.entries (offset + k) }
{
    let start = (offset % PAGE_SIZE) as usize;
    match pages.get(&(offset / PAGE_SIZE)) {
        Some(page) => &page[start..start + count as usize],
        None => zero_bytes(count as usize),
    }
}
