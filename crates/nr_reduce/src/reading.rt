//! The read list of a call, looked at without memory (RFC 8166 section 3.4.5).

ghost use Rattle.std.specs.Prelude.{◌≡◌, ◌+◌, ◌<◌, length};
ghost use Rattle.nr_reduce.specs.Chunks.{item_position, total_at, is_item, is_read_chunk_of_item};
ghost use Rattle.nr_reduce.specs.CodeViews.{is_read_chunk_of};

use crate::item::{Item, call_item};
use nr_header::ReadSegment;
use nr_xdr::pad_len;

/// The position other than 0 of the entries of a read list, `None` if all have position 0. Takes no memory.
#[tactic(auto, unfolding(crate::specs::Chunks::item_position))]
pub fn item_position(read: &[ReadSegment]) -> Option<u32>
    ensures { result ≡ item_position read.now }
{
    let mut at = 0;
    while at < read.len() {
        if read[at].position != 0 {
            return Some(read[at].position);
        }
        at += 1;
    }
    None
}

/// How many bytes the entries of a position have together. Takes no memory.
#[tactic(auto, unfolding(crate::specs::Chunks::total_at))]
pub fn total_at(position: u32, read: &[ReadSegment]) -> u128
    ensures { result ≡ total_at position read.now }
{
    let mut total: u128 = 0;
    for entry in read {
        if entry.position == position {
            total += u128::from(entry.length);
        }
    }
    total
}

/// Whether a chunk of `total` bytes at a position is an item's, with or without its pad.
fn is_item(item: Option<Item>, position: u32, total: u128) -> bool
    ensures { result ≡ is_item item position total }
{
    let Some(item) = item else {
        return false;
    };
    if item.pos != position as usize {
        return false;
    }
    let len = u128::from(item.len);
    total == len || total == len + pad_len(item.len as usize) as u128
}

/// Whether the chunk of a read list at a position other than 0, if there is one, is that of this item: at its position, and of its
/// length, with or without its pad. Takes no memory.
pub fn is_read_chunk_of(item: Option<Item>, read: &[ReadSegment]) -> bool
    ensures { result ≡ is_read_chunk_of item read.now (item_position read.now) }
{
    match item_position(read) {
        Some(position) => is_item(item, position, total_at(position, read)),
        None => true,
    }
}

/// Whether the chunk of a read list at a position other than 0, if there is one, is that of the item of a call with this
/// stream: at the item's position, and of its length, with or without its pad. If there is no such chunk, the stream isn't read.
/// Takes no memory.
pub fn is_read_chunk_of_item(stream: &[u8], read: &[ReadSegment]) -> bool
    ensures { result ≡ is_read_chunk_of_item stream.now read.now }
{
    match item_position(read) {
        Some(position) => is_item(call_item(stream), position, total_at(position, read)),
        None => true,
    }
}
