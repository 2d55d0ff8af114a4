//! Whether the lists of a reply are those that its call offered (RFC 8166 section 3.4).

ghost use Rattle.std.specs.Prelude.{◌≡◌, ◌&&◌, ◌||◌, ◌==◌, option_map};
ghost use Rattle.std.specs.List.{list_all};
ghost use Rattle.nr_reduce.specs.Chunks.{are_empty, returns, returns_each, fills_first, returns_none, returns_stream, answers_offer};
ghost use Rattle.nr_header.specs.Slices.{lists_of_slices};
ghost use Rattle.nr_reduce.specs.CodeViews.{returns_one};

use nr_header::{Chunk, ListSlices, RdmaSegment};

fn are_empty(chunk: &[RdmaSegment]) -> bool
    ensures { result ≡ are_empty chunk.now }
{
    chunk.iter().all(|s| s.length == 0)
}

/// Whether a segment comes back as it was offered, and no longer; if it is shorter, those after it are empty.
fn returns_one(offered: RdmaSegment, back: RdmaSegment, after: &[RdmaSegment]) -> bool
    ensures { result ≡ returns_one offered back after.now }
{
    if back.handle != offered.handle || back.offset != offered.offset {
        return false;
    }
    if back.length > offered.length {
        return false;
    }
    if back.length == offered.length {
        return true;
    }
    are_empty(after)
}

/// Whether a chunk comes back as it was offered, filled from the front.
fn returns(offered: &[RdmaSegment], back: &[RdmaSegment]) -> bool
    ensures { result ≡ returns offered.now back.now }
{
    if offered.len() != back.len() {
        return false;
    }
    let mut at = 0;
    while at < back.len() {
        if !returns_one(offered[at], back[at], &back[at + 1..]) {
            return false;
        }
        at += 1;
    }
    true
}

fn returns_each(offered: &[Chunk], back: &[Chunk]) -> bool
    ensures { result ≡ returns_each offered.now back.now }
{
    if offered.len() != back.len() {
        return false;
    }
    let mut at = 0;
    while at < back.len() {
        if !returns(offered[at].as_slice(), back[at].as_slice()) {
            return false;
        }
        at += 1;
    }
    true
}

fn all_empty(chunks: &[Chunk]) -> bool
    ensures { result ≡ list_all are_empty chunks.now }
{
    let mut at = 0;
    while at < chunks.len() {
        if !are_empty(chunks[at].as_slice()) {
            return false;
        }
        at += 1;
    }
    true
}

/// Whether the chunks after the first are empty.
fn fills_first(chunks: &[Chunk]) -> bool
    ensures { result ≡ fills_first chunks.now }
{
    if chunks.is_empty() {
        return true;
    }
    all_empty(&chunks[1..])
}

/// Whether the reply chunk of a reply with an inline stream is absent, or as offered and empty.
fn returns_none(offered: Option<&[RdmaSegment]>, back: Option<&[RdmaSegment]>) -> bool
    ensures { result ≡ returns_none (option_map (λ segments. segments.now) offered.entry) (option_map (λ segments. segments.now) back.entry) }
{
    let back = match back {
        None => return true,
        Some(back) => back,
    };
    match offered {
        None => false,
        Some(offered) => returns(offered, back) && are_empty(back),
    }
}

/// Whether the reply chunk of a reply whose stream is in it is as offered.
fn returns_stream(offered: Option<&[RdmaSegment]>, back: Option<&[RdmaSegment]>) -> bool
    ensures { result ≡ returns_stream (option_map (λ segments. segments.now) offered.entry) (option_map (λ segments. segments.now) back.entry) }
{
    match (offered, back) {
        (Some(offered), Some(back)) => returns(offered, back),
        _ => false,
    }
}

/// Whether the lists of a reply suit those that its call offered: no read list, each chunk of the write list as offered and
/// filled from the front, those after the first empty; a reply chunk with the stream if `long`, else absent or empty.
/// Takes no memory.
#[tactic(auto, unfolding(crate::specs::Chunks::answers_offer))]
pub fn answers_offer(long: bool, offered: ListSlices<'_>, back: ListSlices<'_>) -> bool
    ensures { result ≡ answers_offer long (lists_of_slices offered.entry) (lists_of_slices back.entry) }
{
    if !back.read.is_empty() {
        return false;
    }
    if !returns_each(offered.write, back.write) {
        return false;
    }
    if !fills_first(back.write) {
        return false;
    }
    if long {
        return returns_stream(offered.reply, back.reply);
    }
    returns_none(offered.reply, back.reply)
}
