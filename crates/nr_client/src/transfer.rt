//! Bytes are written to a link and read of it.

ghost use Rattle.std.specs.Prelude.{◌≡◌, ◌≢◌, ℕ, ◌<◌, ◌≤◌, ◌+◌, ◌^◌, None, Some, Option, List, [], length, take, IfOk, IfErr, OnOk, OnErr, MatchResult};
ghost use Rattle.std.specs.Io.KnownBytes.{IsAtEnd};
ghost use Rattle.nr_outside.specs.Content.{HandsOut};
ghost use Rattle.nr_outside.specs.Faults.{Rises};
ghost use Rattle.nr_link.specs.declared.end.End.TheVariants as ends;
ghost use Rattle.nr_wire.specs.declared.hello.Side.TheVariants.{Initiator};
ghost use Rattle.nr_reduce.specs.declared.mark.Mark.TheVariants as marks;
ghost use Rattle.nr_requester.specs.Fed.{fed_bytes};
ghost use Rattle.nr_requester.specs.MaySubmit.{may_submit};
ghost use Rattle.nr_requester.specs.OpenCalls.{KeepsTickets, found_answer};
ghost use Rattle.nr_requester.specs.RequesterState.{queue_of};
ghost use Rattle.nr_requester.specs.Standing.{StandsOn};
ghost use Rattle.nr_shared.specs.declared.call_end.CallEnd.TheVariants as calls;
ghost use Rattle.nr_client.specs.Ending.{LinkCause, SinkCount, SourceCount};
ghost use Rattle.nr_client.specs.Steps.{AnswersNone, FeedsOut, Fits, GoesOn, GoesTo, IsDrained, Reads, ReadsTo, Writes, WritesTo};
ghost use Rattle.nr_client.specs.Transfers.{link_bytes};

use nr_link::End;
use nr_links::{PIECE_MAX, READ_MAX};
use nr_outside::{Failed, Sink, Source};
use nr_requester::Requester;
use nr_shared::CallEnd;

/// One read, of at most `room` bytes, into the front of the buffer.
#[tactic(auto, using(std::proofs::lemmas::Grind::common_steps))]
fn read_part<I: Source>(source: &mut I, buf: &mut [u8], room: usize) -> Result<usize, Failed>
    requires { room ≤ length buf.old }
    ensures len { length buf.new ≡ length buf.old }
    ensures bound { IfOk result (λ n. n ≤ room) }
    ensures handed { IfOk result (λ n. HandsOut (I.left source.old) (I.given source.old) (I.left source.new) (I.given source.new) (take n buf.new)) }
    ensures end { IfOk result (λ n. n ≡ 0 → 0 < room → IsAtEnd (I.left source.new)) }
    ensures err { OnErr result (HandsOut (I.left source.old) (I.given source.old) (I.left source.new) (I.given source.new) []) }
    ensures counted { MatchResult result
        (λ _. I.faults source.new ≡ I.faults source.old) (λ _. Rises (I.faults source.old) (I.faults source.new)) }
{
    let (front, _) = buf.split_at_mut(room);
    source.read(front)
}

/// Writes what is due. Fails if the write does, or if the client's side has ended, after that is written.
pub(crate) fn write_due<O: Sink>(requester: &mut Requester, sink: &mut O) -> Result<(), CallEnd>
    ensures live { OnOk result (requester.new.state.side.ended ≡ None) }
    ensures started { OnOk result (requester.old.state.side.ended ≡ None) }
    ensures drained { MatchResult result (λ _. queue_of requester.new.state ≡ []) (λ end. IsDrained end requester.new) }
    ensures credit { OnOk result ((length requester.new.state.outstanding ≡ length requester.old.state.outstanding) × (may_submit requester.new.state ≡ may_submit requester.old.state)) }
    ensures writes { MatchResult result (λ _. Writes (O.taken sink.old) (O.taken sink.new) requester.old requester.new)
        (λ end. WritesTo end (O.taken sink.old) (O.taken sink.new) requester.old requester.new) }
    ensures cause { IfErr result (λ end. (left : Option (List ℕ)) (read : ℕ) → LinkCause end left read requester.new) }
    ensures answers { (xid : ℕ) → found_answer xid requester.new.state ≡ found_answer xid requester.old.state }
    ensures tickets { KeepsTickets requester.old.state requester.new.state }
    ensures fed { fed_bytes requester.new ≡ fed_bytes requester.old }
    ensures sink_count { SinkCount result (O.faults sink.old) (O.faults sink.new) }
    ensures source_count { (count : ℕ) → SourceCount result count count }
{
    match requester.drain_into(sink) {
        Ok(()) => {}
        Err(_) => return Err(CallEnd::LinkWrite),
    }
    match requester.end() {
        None => Ok(()),
        Some(end) => Err(CallEnd::Ended(end)),
    }
}

/// Feeds a piece that was read. Fails only if memory runs out for a frame of it.
fn feed_piece(requester: &mut Requester, piece: &[u8]) -> Result<(), CallEnd>
    requires live { requester.old.state.side.ended ≡ None }
    requires room { fed_bytes requester.old + length piece.now ≤ 2 ^ 62 }
    ensures ok { OnOk result (StandsOn requester.old (λ link. marks.Fed link Initiator piece.now) requester.new) }
    ensures memory { OnOk result (requester.new.state.side.ended ≢ Some ends.Memory) }
    ensures err { IfErr result (λ end. (end ≡ calls.Ended ends.Memory) × (FeedsOut piece.now requester.old requester.new × (requester.new.state.side.ended ≡ Some ends.Memory))) }
    ensures tickets { KeepsTickets requester.old.state requester.new.state }
    ensures fed { fed_bytes requester.new ≤ fed_bytes requester.old + length piece.now }
{
    match requester.feed(piece) {
        Ok(()) => Ok(()),
        Err(end) => match end {
            End::Memory => Err(CallEnd::Ended(end)),
            _ => Ok(()),
        },
    }
}

/// Reads a piece of the server's stream and feeds it.
fn read_piece<I: Source>(
    requester: &mut Requester,
    source: &mut I,
    read: &mut u64,
    buf: &mut [u8],
) -> Result<(), CallEnd>
    requires live { requester.old.state.side.ended ≡ None }
    requires drained { queue_of requester.old.state ≡ [] }
    requires waits { 0 < length requester.old.state.outstanding }
    requires fits { Fits requester.old read.old (length buf.old) }
    ensures fits { Fits requester.new read.new (length buf.new) }
    ensures more { OnOk result (read.old < read.new) }
    ensures memory { OnOk result (requester.new.state.side.ended ≢ Some ends.Memory) }
    ensures ok { OnOk result (Reads (I.left source.old) (I.given source.old) (I.left source.new) (I.given source.new) read.old read.new requester.old requester.new) }
    ensures err { IfErr result (λ end. ReadsTo end (I.left source.old) (I.given source.old) (I.left source.new) (I.given source.new) read.old read.new requester.old requester.new) }
    ensures cause { IfErr result (λ end. LinkCause end (I.left source.new) read.new requester.new) }
    ensures answers { IfErr result (λ end. AnswersNone end requester.old requester.new) }
    ensures tickets { KeepsTickets requester.old.state requester.new.state }
    ensures source_count { SourceCount result (I.faults source.old) (I.faults source.new) }
    ensures sink_count { (count : ℕ) → SinkCount result count count }
{
    let room = (READ_MAX - *read).min(PIECE_MAX as u64) as usize;
    if room == 0 {
        return Err(CallEnd::Budget { read: *read });
    }
    let n = match read_part(source, buf, room) {
        Ok(n) => n,
        Err(_) => return Err(CallEnd::LinkRead),
    };
    if n == 0 {
        return Err(CallEnd::Closed);
    }
    *read += n as u64;
    let (piece, _) = buf.split_at(n);
    match feed_piece(requester, piece) {
        Ok(()) => Ok(()),
        Err(end) => Err(end),
    }
}

/// Writes what is due, then reads a piece of the server's stream and feeds it, while a call is outstanding.
pub(crate) fn transfer<I: Source, O: Sink>(
    requester: &mut Requester,
    source: &mut I,
    sink: &mut O,
    read: &mut u64,
    buf: &mut [u8],
) -> Result<(), CallEnd>
    requires waits { 0 < length requester.old.state.outstanding }
    requires fits { Fits requester.old read.old (length buf.old) }
    ensures fits { Fits requester.new read.new (length buf.new) }
    ensures more { OnOk result (read.old < read.new) }
    ensures started { OnOk result (requester.old.state.side.ended ≡ None) }
    ensures memory { OnOk result (requester.new.state.side.ended ≢ Some ends.Memory) }
    ensures ok { OnOk result (GoesOn (link_bytes (I.left source.old) (I.given source.old) (O.taken sink.old) read.old)
        (link_bytes (I.left source.new) (I.given source.new) (O.taken sink.new) read.new) requester.old requester.new) }
    ensures err { IfErr result (λ end. GoesTo end (link_bytes (I.left source.old) (I.given source.old) (O.taken sink.old) read.old)
        (link_bytes (I.left source.new) (I.given source.new) (O.taken sink.new) read.new) requester.old requester.new) }
    ensures cause { IfErr result (λ end. LinkCause end (I.left source.new) read.new requester.new) }
    ensures answers { IfErr result (λ end. AnswersNone end requester.old requester.new) }
    ensures tickets { KeepsTickets requester.old.state requester.new.state }
    ensures source_count { SourceCount result (I.faults source.old) (I.faults source.new) }
    ensures sink_count { SinkCount result (O.faults sink.old) (O.faults sink.new) }
{
    match write_due(requester, sink) {
        Ok(()) => {}
        Err(end) => return Err(end),
    }
    match read_piece(requester, source, read, buf) {
        Ok(()) => Ok(()),
        Err(end) => Err(end),
    }
}
