//! Calls of a script that queue something, and what an endpoint writes.

use crate::answers::done;
use crate::compare::same;
use crate::endpoint::TestEndpoint;
use crate::line::Line;
use crate::looking::looked;
use crate::short_sink::ShortSink;
use nr_endpoint::{DrainFault, ReadRefused};
use nr_outside::MemSink;
use nr_xdr::Memory;
use std::alloc::Global;
use std::process::Abort;

/// `send-parts LEN`: queues a Send of the bytes in two parts, the first of this length.
fn send_parts(rt: &impl Abort, endpoint: &mut TestEndpoint, line: &Line<'_>) -> Result<(), Memory> {
    let (front, stream) = line.bytes.split_at(line.bytes.len().min(line.count(rt, 0)));
    endpoint.send_parts(rt, front, stream)
}

/// `writes`: ends the test if the endpoint has other bytes to write.
pub fn writes(
    rt: &impl Abort,
    alloc: Global,
    row: usize,
    endpoint: &mut TestEndpoint,
    want: &[u8],
) -> Result<(), DrainFault> {
    let mut sink = MemSink::new(alloc, Vec::new(alloc));
    let drained = endpoint.drain_into(&mut sink);
    same(rt, row, sink.bytes(), want);
    drained
}

/// A sink in memory that fails at one call.
fn failing(rt: &impl Abort, alloc: Global, at: usize) -> MemSink {
    let mut failing = Vec::new(alloc);
    failing.push(at).expect(rt, "memory");
    MemSink::new(alloc, failing)
}

/// `fails AT`: a sink that fails at its call of this number took fewer bytes, and the rest comes next.
fn fails(
    rt: &impl Abort,
    alloc: Global,
    endpoint: &mut TestEndpoint,
    line: &Line<'_>,
) -> Result<(), DrainFault> {
    let mut sink = failing(rt, alloc, line.count(rt, 0));
    let failed = endpoint.drain_into(&mut sink);
    same(rt, line.row, failed, Err(DrainFault::LinkWrite));
    let taken = sink.bytes().len();
    same(rt, line.row, Some(sink.bytes()), line.bytes.get(..taken));
    same(rt, line.row, taken < line.bytes.len(), true);
    let drained = endpoint.drain_into(&mut sink);
    same(rt, line.row, sink.bytes(), line.bytes);
    drained
}

/// `takes AT LEN`: a sink that takes five bytes a call and fails at its call of this number took this many bytes, with no complete Send, and
/// the rest comes next.
fn takes(
    rt: &impl Abort,
    alloc: Global,
    endpoint: &mut TestEndpoint,
    line: &Line<'_>,
) -> Result<(), DrainFault> {
    let mut sink = ShortSink {
        sink: failing(rt, alloc, line.count(rt, 0)),
        more: 4,
    };
    let failed = endpoint.drain_in_parts(&mut sink);
    same(rt, line.row, failed, Err(DrainFault::LinkWrite));
    let taken = line.bytes.get(..line.count(rt, 1));
    same(rt, line.row, Some(sink.sink.bytes()), taken);
    same(rt, line.row, endpoint.endpoint().sends_left(), 0);
    let drained = endpoint.drain_in_parts(&mut sink);
    same(rt, line.row, sink.sink.bytes(), line.bytes);
    drained
}

/// `write STAG OFFSET`: queues an RDMA Write of the bytes.
fn write(rt: &impl Abort, endpoint: &mut TestEndpoint, line: &Line<'_>) -> Result<(), Memory> {
    endpoint.write_remote(rt, line.word(rt, 0), line.number(rt, 1), line.bytes)
}

/// `read AT STAG OFFSET LEN`: queues a Read Request, whose responses go into the last region from byte AT on.
fn read(rt: &impl Abort, endpoint: &mut TestEndpoint, line: &Line<'_>) -> Result<(), ReadRefused> {
    let (at, stag) = (line.number(rt, 0), line.word(rt, 1));
    endpoint.read_remote(rt, at, stag, line.number(rt, 2), line.number(rt, 3))
}

/// `send-held`: queues the first Send that is held back.
fn send_held(alloc: Global, endpoint: &mut TestEndpoint) -> String {
    endpoint.send_held();
    String::new(alloc)
}

/// A line's answer. `send` and `send-invalidate STAG` queue a Send of the bytes, which `hold` holds back; `invalidate STAG` lets a region die.
pub fn queued(
    rt: &impl Abort,
    alloc: Global,
    endpoint: &mut TestEndpoint,
    line: &Line<'_>,
) -> String {
    match line.name {
        "send" => done(rt, alloc, &endpoint.send(rt, line.bytes)),
        "hold" => done(rt, alloc, &endpoint.hold(rt, alloc, line.bytes)),
        "send-held" => send_held(alloc, endpoint),
        "send-parts" => done(rt, alloc, &send_parts(rt, endpoint, line)),
        "send-invalidate" => {
            let queued = endpoint.send_invalidate(rt, line.bytes, line.word(rt, 0));
            done(rt, alloc, &queued)
        }
        "invalidate" => done(rt, alloc, &endpoint.invalidate(line.word(rt, 0))),
        "write" => done(rt, alloc, &write(rt, endpoint, line)),
        "read" => done(rt, alloc, &read(rt, endpoint, line)),
        "writes" => done(
            rt,
            alloc,
            &writes(rt, alloc, line.row, endpoint, line.bytes),
        ),
        "fails" => done(rt, alloc, &fails(rt, alloc, endpoint, line)),
        "takes" => done(rt, alloc, &takes(rt, alloc, endpoint, line)),
        _ => looked(rt, alloc, endpoint, line),
    }
}
