//! What an end has to write.

ghost use Rattle.std.specs.Prelude.{◌≡◌, ◌∷◌, ◌++◌, IfOk, OnOk, []};
ghost use Rattle.nr_endpoint.specs.FedBytes.{fed_bytes};
ghost use Rattle.nr_reduce.specs.declared.mark.Mark.TheVariants as mark_kinds;
ghost use Rattle.nr_requester.specs.Fed.{fed_bytes as client_fed_bytes};
ghost use Rattle.nr_requester.specs.OpenCalls.{KeepsTickets};
ghost use Rattle.nr_world.specs.Steps.{ClientWrites, ServerWrites};

use crate::transit::Transit;
use nr_marks::MarkLog;
use nr_outside::MemSink;
use nr_reduce::{Boxed, Call, Form, Mark, Outcome, Submission};
use nr_requester::Requester;
use nr_responder::Responder;
use nr_wire::Side;
use nr_xdr::{Memory, Octets};
use std::alloc::Global;

/// All that a client has to write.
pub(crate) fn client_output(alloc: Global, client: &mut Requester) -> Result<Octets, Memory>
    ensures writes { IfOk result (λ bytes. ClientWrites client.old client.new bytes) }
    ensures fed { client_fed_bytes client.new ≡ client_fed_bytes client.old }
    ensures tickets { KeepsTickets client.old.state client.new.state }
{
    let mut sink = MemSink::new(alloc, Vec::new(alloc));
    match client.drain_into(&mut sink) {
        Ok(()) => Octets::from_slice(alloc, sink.bytes()),
        Err(_) => Err(Memory),
    }
}

/// All that a server has to write.
pub(crate) fn server_output(alloc: Global, server: &mut Responder) -> Result<Octets, Memory>
    ensures writes { IfOk result (λ bytes. ServerWrites server.old.side server.new.side bytes) }
    ensures fed { fed_bytes server.new.side.link ≡ fed_bytes server.old.side.link }
{
    let mut sink = MemSink::new(alloc, Vec::new(alloc));
    match server.drain_into(&mut sink) {
        Ok(()) => Octets::from_slice(alloc, sink.bytes()),
        Err(_) => Err(Memory),
    }
}

/// Adds a mark to those of the drill.
pub(crate) fn add_mark(marks: &mut MarkLog, mark: Mark) -> Result<(), Memory>
    ensures { OnOk result (marks.new ≡ marks.old ++ mark ∷ []) }
{
    match marks.push(mark) {
        Ok(()) => Ok(()),
        Err(failed) => {
            drop(failed);
            Err(Memory)
        }
    }
}

/// Adds the mark of a call line: its call, how it was to be sent, and the client's answer.
pub(crate) fn add_submit(
    alloc: Global,
    marks: &mut MarkLog,
    link: u32,
    call: Call,
    form: Form,
    answer: Submission,
) -> Result<(), Memory>
    ensures { OnOk result (marks.new ≡ marks.old ++ mark_kinds.Submit link call form answer ∷ []) }
{
    let Ok(call) = Boxed::new(alloc, call) else {
        drop(form);
        return Err(Memory);
    };
    match Boxed::new(alloc, form) {
        Ok(form) => add_mark(
            marks,
            Mark::Submit {
                link,
                call,
                form,
                answer,
            },
        ),
        Err(memory) => {
            drop(call);
            Err(memory)
        }
    }
}

/// Puts what an end wrote after the bytes that wait in its pipe, and adds the mark of it.
pub(crate) fn put_output(
    pipe: &mut Transit,
    marks: &mut MarkLog,
    link: u32,
    side: Side,
    bytes: Octets,
) -> Result<(), Memory>
    ensures { OnOk result ((pipe.new.waiting ≡ pipe.old.waiting ++ bytes) × (marks.new ≡ marks.old ++ mark_kinds.Wrote link side bytes ∷ [])) }
{
    match pipe.put(bytes.as_slice()) {
        Ok(()) => add_mark(marks, Mark::Wrote { link, side, bytes }),
        Err(memory) => Err(memory),
    }
}
