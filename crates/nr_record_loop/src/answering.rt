//! Calls that came as records, answered.

ghost use Rattle.std.specs.Prelude.{◌≡◌, ◌<◌, ◌^◌, IfErr, IfOk, List, MatchResult, OnOk, Option, length};
ghost use Rattle.nr_record_loop.specs.Connections.{AnswersOne, AnswersNone, Exchange, Unanswered};
ghost use Rattle.nr_record_loop.specs.private.Answering.{AnswersCall, CountAt, StopsAt};

use nr_outside::{Sink, write_whole_vectored};
use nr_record::record_header;
use nr_xdr::Octets;
use std::alloc::Global;

/// Why a call has no reply.
#[derive(Clone, Copy)]
pub enum NoReply {
    /// It has no call head.
    NotCall,
    /// Memory ran out.
    Memory,
    /// A cause of its own, which what answers calls knows.
    Other,
}

/// Why a record isn't answered.
#[derive(Clone, Copy)]
pub(crate) enum Stop {
    /// It has no call head.
    NotCall,
    /// The write of its reply failed.
    LinkWrite,
    /// Memory ran out.
    Memory,
    /// A cause of its own.
    Other,
}

/// What answers the calls of a connection.
pub trait Answers {
    /// From the first state to the second these calls were answered, in order, and then this one was not.
    ghost did: { Self → Self → List Exchange → Option Unanswered → Type 0 };

    /// It can answer a call.
    ghost rests: { Self → Type 0 };

    /// It refers to the same values.
    ghost same: { Self → Self → Type 0 };

    /// Answers a call.
    fn reply(&mut self, alloc: Global, call: &[u8]) -> Result<Octets, NoReply>
        requires { rests self.old }
        ensures rests { rests self.new }
        ensures same { (first : Self) → same first self.old → same first self.new }
        ensures ok { IfOk result (AnswersOne did self.old self.new call.now) }
        ensures limit { IfOk result (λ reply. length reply < 2 ^ 31) }
        ensures err { IfErr result (AnswersNone did self.old self.new call.now) };
}

/// Answers a call, and writes its reply as a record.
pub(crate) fn answer<A: Answers, O: Sink>(
    answers: &mut A,
    alloc: Global,
    sink: &mut O,
    call: &[u8],
) -> Result<(), Stop>
    requires { A.rests answers.old }
    ensures rests { A.rests answers.new }
    ensures same { (first : A) → A.same first answers.old → A.same first answers.new }
    ensures ok { OnOk result (AnswersCall A.did call.now (O.taken sink.old) (O.taken sink.new) answers.old answers.new) }
    ensures err { IfErr result (λ stop. StopsAt A.did stop call.now (O.taken sink.old) (O.taken sink.new) answers.old answers.new) }
    ensures counted { MatchResult result
        (λ _. O.faults sink.new ≡ O.faults sink.old) (λ stop. CountAt stop (O.faults sink.old) (O.faults sink.new)) }
{
    let reply = match answers.reply(alloc, call) {
        Ok(reply) => reply,
        Err(NoReply::NotCall) => return Err(Stop::NotCall),
        Err(NoReply::Memory) => return Err(Stop::Memory),
        Err(NoReply::Other) => return Err(Stop::Other),
    };
    let header = record_header(reply.len());
    match write_whole_vectored(sink, &header, reply.as_slice()) {
        Ok(()) => Ok(()),
        Err(_) => Err(Stop::LinkWrite),
    }
}
