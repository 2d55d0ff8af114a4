//! Calls of a script that say how an endpoint stands, and what it received.

use crate::answers::{done, shown};
use crate::compare::same;
use crate::endpoint::TestEndpoint;
use crate::feeding::end_of;
use crate::line::Line;
use crate::queueing::writes;
use nr_endpoint::{Endpoint, Event};
use nr_link::End;
use std::alloc::Global;
use std::process::Abort;

/// `message`: the next event is a message of the bytes. Gives the length of its buffer, which is a receive again, and that of the message.
fn message(rt: &impl Abort, alloc: Global, endpoint: &mut TestEndpoint, line: &Line<'_>) -> String {
    let (buf, len) = endpoint.message(rt, alloc);
    same(rt, line.row, buf.as_slice().get(..len), Some(line.bytes));
    shown(rt, alloc, &(buf.len(), len))
}

/// `event`: takes the next event. Gives the number of a message and the STag that it names, or 0 for a read.
fn event(endpoint: &mut TestEndpoint) -> Option<(u64, Option<u32>)> {
    match endpoint.next_event() {
        Some(
            Event::Message {
                number,
                invalidated,
                ..
            },
        ) => Some((number, invalidated)),
        Some(Event::ReadDone) => Some((0, None)),
        None => None,
    }
}

/// `release`: releases the last region, which has these bytes.
fn release(rt: &impl Abort, endpoint: &mut TestEndpoint, line: &Line<'_>) {
    let buf = endpoint.release(rt);
    same(rt, line.row, buf.as_slice(), line.bytes);
}

/// Ends the test if a side that has ended takes more, or keeps what was staged.
fn takes_no_more(rt: &impl Abort, row: usize, endpoint: &mut TestEndpoint) {
    if let Some(end) = endpoint.endpoint().end() {
        same(rt, row, endpoint.feed(rt, &[0; 8]), Err(end));
        same(rt, row, endpoint.feed_one(rt, &[0; 8]), Err(end));
        let kept = (endpoint.endpoint().staged(), endpoint.endpoint().begun());
        same(rt, row, kept, (0, false));
    }
}

/// `rests`: gives the end of the side, if it has one, after which it takes no more. Ends the test if other bytes are to be written.
fn rests(
    rt: &impl Abort,
    alloc: Global,
    endpoint: &mut TestEndpoint,
    line: &Line<'_>,
) -> Result<(), End> {
    takes_no_more(rt, line.row, endpoint);
    let written = writes(rt, alloc, line.row, endpoint, line.bytes);
    same(rt, line.row, written, Ok(()));
    end_of(endpoint)
}

/// `staged`: the bytes are staged. Gives how many more are wanted, whether a frame is begun, and the length of the staging buffer.
fn staged(rt: &impl Abort, alloc: Global, endpoint: &Endpoint, line: &Line<'_>) -> String {
    let staged = endpoint.staging().get(..endpoint.staged());
    same(rt, line.row, staged, Some(line.bytes));
    let counts = (endpoint.wants(), endpoint.begun(), endpoint.staging().len());
    shown(rt, alloc, &counts)
}

/// Whether each of the regions 1 to 3 is reached by the peer.
fn live(endpoint: &Endpoint) -> (bool, bool, bool) {
    (
        endpoint.is_live(1),
        endpoint.is_live(2),
        endpoint.is_live(3),
    )
}

/// The answer of a line that changes nothing: `agreed` has the maximum length of a Send from the initiator and from the responder, `live`
/// whether the regions 1 to 3 are reached; the others are calls of the same name.
fn stands(rt: &impl Abort, alloc: Global, endpoint: &Endpoint, line: &Line<'_>) -> String {
    match line.name {
        "agreed" => shown(rt, alloc, &endpoint.agreed()),
        "invalidates" => shown(rt, alloc, &endpoint.invalidates()),
        "live" => shown(rt, alloc, &live(endpoint)),
        "held" => shown(rt, alloc, &endpoint.held()),
        "bytes-held" => shown(rt, alloc, &endpoint.regions().bytes_held()),
        "sends-held" => shown(rt, alloc, &endpoint.sends_held()),
        "sends-left" => shown(rt, alloc, &endpoint.sends_left()),
        "receives-free" => shown(rt, alloc, &endpoint.receives_free()),
        "staged" => staged(rt, alloc, endpoint, line),
        _ => panic!(rt; "row {}: no call {}", line.row, line.name),
    }
}

/// A line's answer.
pub fn looked(
    rt: &impl Abort,
    alloc: Global,
    endpoint: &mut TestEndpoint,
    line: &Line<'_>,
) -> String {
    match line.name {
        "message" => message(rt, alloc, endpoint, line),
        "event" => shown(rt, alloc, &event(endpoint)),
        "rests" => done(rt, alloc, &rests(rt, alloc, endpoint, line)),
        "release" => {
            release(rt, endpoint, line);
            String::new(alloc)
        }
        _ => stands(rt, alloc, endpoint.endpoint(), line),
    }
}
