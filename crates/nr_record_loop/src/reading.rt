//! Pieces of the client's stream: their records, answered in order.

ghost use Rattle.std.specs.Prelude.{◌≡◌, ℕ, ◌+◌, ◌≤◌, ◌^◌, None, length, IfErr, OnOk, MatchResult};
ghost use Rattle.nr_record.specs.RecordsState.{kept};
ghost use Rattle.nr_record_loop.specs.Connections.{SinkCount, SourceCount};
ghost use Rattle.nr_record_loop.specs.private.Steps.{AnswerEnds, AnswersAll, PieceEnds, TakesIn, end_at, end_at_fault};

use crate::answering::{Answers, Stop, answer};
use crate::loop_end::LoopEnd;
use nr_outside::Sink;
use nr_record::{RecordFault, Records};
use std::alloc::Global;

/// The reason for which a record without a call head ends a connection.
const REASON_CALL: u32 = 27;

/// The end of a connection at a record that isn't answered, and begins at this offset.
fn end_of(stop: Stop, at: u64) -> LoopEnd
    ensures { result ≡ end_at stop at }
{
    match stop {
        Stop::NotCall => LoopEnd::Bad {
            at,
            reason: REASON_CALL,
        },
        Stop::LinkWrite => LoopEnd::LinkWrite,
        Stop::Memory => LoopEnd::Memory,
        Stop::Other => LoopEnd::Unanswered,
    }
}

/// The end of a connection at a fault of its reader.
fn end_of_fault(fault: RecordFault) -> LoopEnd
    ensures end { result ≡ end_at_fault fault }
    ensures source { (count : ℕ) → SourceCount result count count }
    ensures sink { (count : ℕ) → SinkCount result count count }
{
    match fault {
        RecordFault::Bad { at, reason } => LoopEnd::Bad { at, reason },
        RecordFault::Memory => LoopEnd::Memory,
    }
}

/// Answers all records that are complete.
fn answer_all<A: Answers, O: Sink>(
    answers: &mut A,
    alloc: Global,
    records: &mut Records,
    sink: &mut O,
) -> Result<(), LoopEnd>
    requires { A.rests answers.old }
    ensures rests { A.rests answers.new }
    ensures same { (first : A) → A.same first answers.old → A.same first answers.new }
    ensures fault { (kept records.new).fault ≡ (kept records.old).fault }
    ensures count { (kept records.new).count ≡ (kept records.old).count }
    ensures ok { OnOk result (AnswersAll A.did (kept records.old) (kept records.new) (O.taken sink.old) (O.taken sink.new) answers.old answers.new) }
    ensures err { IfErr result (λ end. AnswerEnds A.did end (kept records.old) (O.taken sink.old) (O.taken sink.new) answers.old answers.new) }
    ensures counted { MatchResult result
        (λ _. O.faults sink.new ≡ O.faults sink.old) (λ end. SinkCount end (O.faults sink.old) (O.faults sink.new)) }
    ensures source { IfErr result (λ end. (count : ℕ) → SourceCount end count count) }
{
    let mut at = records.at();
    while let Some(call) = records.next_record() {
        match answer(answers, alloc, sink, call.as_slice()) {
            Ok(()) => {}
            Err(stop) => return Err(end_of(stop, at)),
        }
        at = records.at();
    }
    Ok(())
}

/// Feeds a piece of the client's stream, and answers all records that are complete then.
pub(crate) fn take_in<A: Answers, O: Sink>(
    answers: &mut A,
    alloc: Global,
    records: &mut Records,
    sink: &mut O,
    piece: &[u8],
) -> Result<(), LoopEnd>
    requires room { (kept records.old).count + length piece.now ≤ 2 ^ 62 }
    requires rests { A.rests answers.old }
    ensures rests { A.rests answers.new }
    ensures same { (first : A) → A.same first answers.old → A.same first answers.new }
    ensures fault { OnOk result ((kept records.new).fault ≡ None) }
    ensures count { (kept records.new).count ≤ (kept records.old).count + length piece.now }
    ensures ok { OnOk result (TakesIn A.did piece.now (kept records.old) (kept records.new) (O.taken sink.old) (O.taken sink.new) answers.old answers.new) }
    ensures err { IfErr result (λ end. PieceEnds A.did end piece.now (kept records.old) (O.taken sink.old) (O.taken sink.new) answers.old answers.new) }
    ensures counted { MatchResult result
        (λ _. O.faults sink.new ≡ O.faults sink.old) (λ end. SinkCount end (O.faults sink.old) (O.faults sink.new)) }
    ensures source { IfErr result (λ end. (count : ℕ) → SourceCount end count count) }
{
    let fed = records.feed(piece);
    match answer_all(answers, alloc, records, sink) {
        Ok(()) => {}
        Err(end) => return Err(end),
    }
    match fed {
        Ok(()) => Ok(()),
        Err(fault) => Err(end_of_fault(fault)),
    }
}
