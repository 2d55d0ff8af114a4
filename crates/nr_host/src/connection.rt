//! A connection, from its first byte to its end.

ghost use Rattle.std.specs.Prelude.{◌≡◌, ◌<◌, ◌≤◌, ◌+◌, ℕ, false, None, [], length, take, IfOk, OnErr, MatchResult};
ghost use Rattle.std.specs.Io.KnownBytes.{IsAtEnd};
ghost use Rattle.nr_outside.specs.Content.{HandsOut};
ghost use Rattle.nr_outside.specs.Faults.{Rises};
ghost use Rattle.nr_endpoint.specs.FedBytes.{fed_bytes};
ghost use Rattle.nr_responder.specs.ResponderState.{end_of};
ghost use Rattle.nr_links.specs.Limits.{piece_max, read_max};
ghost use Rattle.nr_turnstile.specs.Passes.{Rests};
ghost use Rattle.nr_plain.specs.History.{pass_view};
ghost use Rattle.nr_host.specs.Ending.{AheadAt, FailedAt, MoreAt, ReadAt, SinkCount, SourceCount};
ghost use Rattle.nr_host.specs.Steps.{CarriesTo, EndsIdle, IsServed, outside, sink_state};
ghost use Rattle.nr_host.specs.declared.connection_limits.ConnectionLimits.{ConnectionLimits};

use crate::conn_end::ConnEnd;
use crate::connection_limits::ConnectionLimits;
use crate::feeding::feed_all;
use nr_links::{Clock, PIECE_MAX, READ_MAX};
use nr_outside::{Failed, Sink, Source};
use nr_plain::Server;
use nr_responder::Responder;
use nr_turnstile::{Machine, Pass, Turnstile};
use std::alloc::Global;
use std::sync::Wait;

/// The end of a connection whose client ended its stream, after this many bytes.
fn at_end(responder: &Responder, read: u64) -> ConnEnd
    requires live { end_of responder.now.side ≡ None }
    ensures idle { EndsIdle result read responder.now.side }
    ensures ahead { AheadAt result [] }
    ensures more { MoreAt result [] }
    ensures read { read < read_max → ReadAt result (read + 0) }
    ensures failed { FailedAt result false }
    ensures source { (count : ℕ) → SourceCount result count count }
    ensures sink { (count : ℕ) → SinkCount result count count }
{
    let calls = responder.unanswered();
    if responder.begun() {
        return ConnEnd::Cut { at: read, calls };
    }
    if calls > 0 {
        return ConnEnd::Cut { at: read, calls };
    }
    ConnEnd::Closed
}

/// One read, of at most `room` bytes, into the front of the buffer.
#[tactic(auto, using(std::proofs::lemmas::Grind::common_steps))]
fn read_part<I: Source>(source: &mut I, buf: &mut [u8], room: usize) -> Result<usize, Failed>
    requires { room ≤ length buf.old }
    ensures len { length buf.new ≡ length buf.old }
    ensures bound { IfOk result (λ n. n ≤ room) }
    ensures handed { IfOk result (λ n. HandsOut (I.left source.old) (I.given source.old) (I.left source.new) (I.given source.new) (take n buf.new)) }
    ensures end { IfOk result (λ n. n ≡ 0 → 0 < room → IsAtEnd (I.left source.new)) }
    ensures err { OnErr result (HandsOut (I.left source.old) (I.given source.old) (I.left source.new) (I.given source.new) []) }
    ensures counted { MatchResult result
        (λ _. I.faults source.new ≡ I.faults source.old) (λ _. Rises (I.faults source.old) (I.faults source.new)) }
{
    let (front, _) = buf.split_at_mut(room);
    source.read(front)
}

/// Reads the client's stream to its end through this buffer, and serves what is read.
fn carry<I: Source, O: Sink, C: Clock, R: Wait>(
    rt: &R,
    alloc: Global,
    source: &mut I,
    sink: &mut O,
    shared: &Turnstile<Server>,
    pass: &mut Pass<Server>,
    clock: &mut C,
    responder: &mut Responder,
    buf: &mut [u8],
) -> ConnEnd
    requires live { end_of responder.old.side ≡ None }
    requires fed { fed_bytes responder.old.side.link ≡ 0 }
    requires len { length buf.old ≡ piece_max }
    requires rests { Rests shared.now pass.old }
    ensures rests { Rests shared.now pass.new }
    ensures served { (limits : ConnectionLimits) → CarriesTo limits
        (outside (I.left source.old) (I.given source.old) (sink_state (O.taken sink.old) (O.faults sink.old) false) (C.gave clock.old) (pass_view pass.old))
        (outside (I.left source.old) (I.given source.old) (sink_state (O.taken sink.old) (O.faults sink.old) false) (C.gave clock.old) (pass_view pass.old)) responder.old.side 0 →
        IsServed limits (outside (I.left source.old) (I.given source.old) (sink_state (O.taken sink.old) (O.faults sink.old) false) (C.gave clock.old) (pass_view pass.old))
        (outside (I.left source.new) (I.given source.new) (sink_state (O.taken sink.new) (O.faults sink.new) false) (C.gave clock.new) (pass_view pass.new)) result }
    ensures source_count { SourceCount result (I.faults source.old) (I.faults source.new) }
    ensures sink_count { SinkCount result (O.faults sink.old) (O.faults sink.new) }
{
    let mut read = 0u64;
    let mut failed = false;
    while read < READ_MAX {
        let room = (READ_MAX - read).min(PIECE_MAX as u64) as usize;
        let n = match read_part(source, buf, room) {
            Ok(n) => n,
            Err(_) => return ConnEnd::LinkRead,
        };
        if n == 0 {
            return at_end(responder, read);
        }
        read += n as u64;
        let (piece, _) = buf.split_at(n);
        match feed_all(
            rt,
            alloc,
            responder,
            shared,
            pass,
            clock,
            sink,
            &mut failed,
            piece,
        ) {
            Ok(()) => {}
            Err(end) => return end,
        }
        if failed {
            return ConnEnd::LinkWrite;
        }
    }
    ConnEnd::Budget { read }
}

/// Serves one connection to its end, within these limits: reads the client's stream, feeds it frame by frame, and
/// before the next frame executes each call that is complete, and then writes what is due. If a write fails, it still
/// executes each call that was read, and reads no more.
pub fn serve_connection<I: Source, O: Sink, C: Clock, R: Wait>(
    rt: &R,
    alloc: Global,
    source: &mut I,
    sink: &mut O,
    shared: &Turnstile<Server>,
    pass: &mut Pass<Server>,
    clock: &mut C,
    limits: ConnectionLimits,
) -> ConnEnd
    requires { Rests shared.now pass.old }
    ensures rests { Rests shared.now pass.new }
    ensures served { IsServed limits (outside (I.left source.old) (I.given source.old) (sink_state (O.taken sink.old) (O.faults sink.old) false) (C.gave clock.old) (pass_view pass.old))
        (outside (I.left source.new) (I.given source.new) (sink_state (O.taken sink.new) (O.faults sink.new) false) (C.gave clock.new) (pass_view pass.new)) result }
    ensures source_count { SourceCount result (I.faults source.old) (I.faults source.new) }
    ensures sink_count { SinkCount result (O.faults sink.old) (O.faults sink.new) }
{
    let Ok(mut buf) = vec![in alloc; 0u8; PIECE_MAX] else {
        return ConnEnd::Memory;
    };
    let Ok(mut responder) = Responder::open_sized(
        alloc,
        limits.credits,
        limits.low,
        limits.units,
        limits.invalidates,
    ) else {
        return ConnEnd::Memory;
    };
    let end = carry(
        rt,
        alloc,
        source,
        sink,
        shared,
        pass,
        clock,
        &mut responder,
        buf.as_mut_slice(),
    );
    drop(responder);
    end
}
