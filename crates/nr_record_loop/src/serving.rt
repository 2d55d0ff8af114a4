//! A connection, from its first byte to its end.

ghost use Rattle.std.specs.Prelude.{◌≡◌, ℕ, ◌<◌, ◌≤◌, None, [], length, take, IfOk, OnErr, MatchResult};
ghost use Rattle.std.specs.Io.KnownBytes.{IsAtEnd};
ghost use Rattle.nr_links.specs.Limits.{piece_max};
ghost use Rattle.nr_outside.specs.Content.{HandsOut};
ghost use Rattle.nr_outside.specs.Faults.{Rises};
ghost use Rattle.nr_record.specs.RecordsState.{kept};
ghost use Rattle.nr_record_loop.specs.Connections.{IsServedBy, SinkCount, SourceCount, loop_at};
ghost use Rattle.nr_record_loop.specs.private.Steps.{CarriesTo, EndsStream, IsPlace};

use crate::answering::Answers;
use crate::loop_end::LoopEnd;
use crate::reading::take_in;
use nr_links::{PIECE_MAX, READ_MAX};
use nr_outside::{Failed, Sink, Source};
use nr_record::Records;
use std::alloc::Global;

/// The end of a connection whose client ended its stream, after this many bytes.
fn at_end(records: &Records, read: u64) -> LoopEnd
    ensures end { (at : ℕ) × (IsPlace (kept records.now) at × EndsStream result read at) }
    ensures source { (count : ℕ) → SourceCount result count count }
    ensures sink { (count : ℕ) → SinkCount result count count }
{
    if records.at() == read {
        LoopEnd::Closed
    } else {
        LoopEnd::Cut { at: read }
    }
}

/// One read, of at most `room` bytes, into the front of the buffer.
#[tactic(auto, using(std::proofs::lemmas::Grind::common_steps))]
fn read_part<I: Source>(source: &mut I, buf: &mut [u8], room: usize) -> Result<usize, Failed>
    requires { room ≤ length buf.old }
    ensures len { length buf.new ≡ length buf.old }
    ensures bound { IfOk result (λ n. n ≤ room) }
    ensures handed { IfOk result (λ n. HandsOut (I.left source.old) (I.given source.old) (I.left source.new) (I.given source.new) (take n buf.new)) }
    ensures end { IfOk result (λ n. n ≡ 0 → 0 < room → IsAtEnd (I.left source.new)) }
    ensures err { OnErr result (HandsOut (I.left source.old) (I.given source.old) (I.left source.new) (I.given source.new) []) }
    ensures counted { MatchResult result
        (λ _. I.faults source.new ≡ I.faults source.old) (λ _. Rises (I.faults source.old) (I.faults source.new)) }
{
    let (front, _) = buf.split_at_mut(room);
    source.read(front)
}

/// Reads the client's stream to its end through this buffer, and answers its records.
fn carry<A: Answers, I: Source, O: Sink>(
    answers: &mut A,
    alloc: Global,
    source: &mut I,
    sink: &mut O,
    records: &mut Records,
    buf: &mut [u8],
) -> LoopEnd
    requires live { (kept records.old).fault ≡ None }
    requires fed { (kept records.old).count ≡ 0 }
    requires len { length buf.old ≡ piece_max }
    requires rests { A.rests answers.old }
    ensures rests { A.rests answers.new }
    ensures same { (first : A) → A.same first answers.old → A.same first answers.new }
    ensures served { CarriesTo A.did (loop_at (I.left source.old) (I.given source.old) (O.taken sink.old) answers.old)
        (loop_at (I.left source.old) (I.given source.old) (O.taken sink.old) answers.old) (kept records.old) 0 →
        IsServedBy A.did (loop_at (I.left source.old) (I.given source.old) (O.taken sink.old) answers.old)
        (loop_at (I.left source.new) (I.given source.new) (O.taken sink.new) answers.new) result }
    ensures source_count { SourceCount result (I.faults source.old) (I.faults source.new) }
    ensures sink_count { SinkCount result (O.faults sink.old) (O.faults sink.new) }
{
    let mut read = 0u64;
    while read < READ_MAX {
        let room = (READ_MAX - read).min(PIECE_MAX as u64) as usize;
        let n = match read_part(source, buf, room) {
            Ok(n) => n,
            Err(_) => return LoopEnd::LinkRead,
        };
        if n == 0 {
            return at_end(records, read);
        }
        read += n as u64;
        let (piece, _) = buf.split_at(n);
        match take_in(answers, alloc, records, sink, piece) {
            Ok(()) => {}
            Err(end) => return end,
        }
    }
    LoopEnd::Budget { read }
}

/// Serves one connection to its end: reads the client's stream, lets `answers` answer the call of each record, and writes its
/// reply as a record before the next one is answered. It reads no more after a failed write.
pub fn serve_calls<A: Answers, I: Source, O: Sink>(
    answers: &mut A,
    alloc: Global,
    source: &mut I,
    sink: &mut O,
) -> LoopEnd
    requires rests { A.rests answers.old }
    requires nothing { A.did answers.old answers.old [] None }
    ensures rests { A.rests answers.new }
    ensures same { (first : A) → A.same first answers.old → A.same first answers.new }
    ensures served { IsServedBy A.did (loop_at (I.left source.old) (I.given source.old) (O.taken sink.old) answers.old)
        (loop_at (I.left source.new) (I.given source.new) (O.taken sink.new) answers.new) result }
    ensures source_count { SourceCount result (I.faults source.old) (I.faults source.new) }
    ensures sink_count { SinkCount result (O.faults sink.old) (O.faults sink.new) }
{
    let Ok(mut buf) = vec![in alloc; 0u8; PIECE_MAX] else {
        return LoopEnd::Memory;
    };
    let mut records = Records::new(alloc);
    let end = carry(
        answers,
        alloc,
        source,
        sink,
        &mut records,
        buf.as_mut_slice(),
    );
    drop(records);
    end
}
