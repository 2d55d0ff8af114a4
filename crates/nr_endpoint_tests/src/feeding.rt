//! Calls of a script by which an endpoint is opened, and gets bytes and regions.

use crate::answers::{done, shown};
use crate::compare::same;
use crate::endpoint::TestEndpoint;
use crate::line::Line;
use crate::queueing::queued;
use crate::words::{put_byte, put_words};
use nr_link::{Agreement, End, SideTerms};
use nr_regions::Right;
use std::alloc::Global;
use std::process::Abort;

/// The terms of a line: UNITS NUMBER INVALIDATES.
fn terms_in(rt: &impl Abort, line: &Line<'_>) -> SideTerms {
    SideTerms {
        units: line.units(rt, 0),
        number: line.number(rt, 1),
        invalidates: line.number(rt, 2) == 1,
    }
}

/// `open UNITS NUMBER INVALIDATES`: another endpoint, with these terms.
fn open(rt: &impl Abort, alloc: Global, endpoint: &mut TestEndpoint, line: &Line<'_>) {
    let terms = terms_in(rt, line);
    *endpoint = TestEndpoint::open_with(rt, alloc, line.setting.side, terms);
}

/// `open-again UNITS NUMBER INVALIDATES UP DOWN`: an initiator of a next link, with the lengths of Sends that an earlier hello agreed on.
fn open_again(rt: &impl Abort, alloc: Global, endpoint: &mut TestEndpoint, line: &Line<'_>) {
    let earlier = Agreement {
        up: line.word(rt, 3),
        down: line.word(rt, 4),
        invalidates: false,
    };
    *endpoint = TestEndpoint::open_again(rt, alloc, terms_in(rt, line), earlier);
}

/// The end of a side as an error.
pub fn end_of(endpoint: &TestEndpoint) -> Result<(), End> {
    match endpoint.endpoint().end() {
        Some(end) => Err(end),
        None => Ok(()),
    }
}

/// Feeds some bytes in pieces of this length. Each answer is the end.
pub fn feed_pieces(
    rt: &impl Abort,
    row: usize,
    endpoint: &mut TestEndpoint,
    bytes: &[u8],
    piece: usize,
) -> Result<(), End> {
    let mut left = bytes;
    for _ in 0..bytes.len() {
        if left.is_empty() {
            break;
        }
        let (front, rest) = left.split_at(left.len().min(piece));
        let fed = endpoint.feed(rt, front);
        same(rt, row, fed.err(), endpoint.endpoint().end());
        left = rest;
    }
    end_of(endpoint)
}

/// Puts a segment of 512 bytes at the end, all 7: not the last of the first Send, from this offset on.
fn put_segment(rt: &impl Abort, bytes: &mut Vec<u8>, offset: u32) {
    put_words(rt, bytes, &[0x0212_0143, 0, 0, 1, offset]);
    put_byte(rt, bytes, 7, 512);
    put_words(rt, bytes, &[0]);
}

/// `segments COUNT`: feeds a Send's first segments, of 512 bytes each.
fn feed_segments(
    rt: &impl Abort,
    alloc: Global,
    endpoint: &mut TestEndpoint,
    line: &Line<'_>,
) -> Result<(), End> {
    let mut bytes = Vec::new(alloc);
    for segment in 0..line.word(rt, 0) {
        put_segment(rt, &mut bytes, segment.wrapping_mul(512));
    }
    let piece = line.setting.piece;
    feed_pieces(rt, line.row, endpoint, bytes.as_slice(), piece)
}

/// Registers a region of the bytes: the peer may read it, write it, or its Read Responses go into it. Gives its STag.
fn register(
    rt: &impl Abort,
    alloc: Global,
    endpoint: &mut TestEndpoint,
    line: &Line<'_>,
    right: Right,
) -> String {
    let stag = endpoint.register(rt, alloc, line.bytes, right);
    shown(rt, alloc, &stag)
}

/// A line's answer. `feed` and `one` feed the bytes, in pieces and up to the end of a frame; `fetch`, `fill` and `sink` register a region,
/// `briefly` one that is released at once; `stop REASON` ends the side.
pub fn fed(rt: &impl Abort, alloc: Global, endpoint: &mut TestEndpoint, line: &Line<'_>) -> String {
    let piece = line.setting.piece;
    match line.name {
        "open" => open(rt, alloc, endpoint, line),
        "open-again" => open_again(rt, alloc, endpoint, line),
        "briefly" => endpoint.register_briefly(rt, alloc, line.bytes, Right::Fill),
        "feed" => {
            let fed = feed_pieces(rt, line.row, endpoint, line.bytes, piece);
            return done(rt, alloc, &fed);
        }
        "segments" => return done(rt, alloc, &feed_segments(rt, alloc, endpoint, line)),
        "one" => return shown(rt, alloc, &endpoint.feed_one(rt, line.bytes)),
        "stop" => return shown(rt, alloc, &endpoint.stop(rt, line.word(rt, 0))),
        "fetch" => return register(rt, alloc, endpoint, line, Right::Fetch),
        "fill" => return register(rt, alloc, endpoint, line, Right::Fill),
        "sink" => return register(rt, alloc, endpoint, line, Right::Sink),
        _ => return queued(rt, alloc, endpoint, line),
    }
    String::new(alloc)
}
