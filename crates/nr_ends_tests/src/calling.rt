//! Calls of a script that submit calls of NFS version 3, and answer them.

ghost use Rattle.std.specs.Prelude.{◌≡◌};
ghost use Rattle.nr_requester.specs.OpenCalls.{KeepsTickets};

use crate::answers::show;
use crate::compare::same;
use crate::line::{Line, piece};
use crate::link::TestLink;
use crate::looking::looked;
use crate::words::{call, payload, reply};
use nr_reduce::{Form, Lengths, Offer, Outcome};
use nr_requester::Take;
use nr_responder::Sent;
use std::alloc::Global;
use std::process::Abort;

/// Lengths, with commas between them.
fn put_lengths(rt: &impl Abort, lengths: &mut Vec<u32>, text: &str) {
    for length in text.split(',') {
        let length = length.parse::<u32>().expect(rt, "a length");
        lengths.push(length).expect(rt, "memory");
    }
}

/// The lengths of the segments of a chunk; none of `-`.
fn lengths(rt: &impl Abort, alloc: Global, text: &str) -> Option<Lengths> {
    if text == "-" {
        return None;
    }
    let mut lengths = Vec::new(alloc);
    if !text.is_empty() {
        put_lengths(rt, &mut lengths, text);
    }
    Some(Lengths::from_vec(lengths))
}

/// An offer as `AT/READ/WRITE/REPLY`: the position of its read chunk, and the lengths of the segments of each chunk.
fn offer(rt: &impl Abort, alloc: Global, text: &str) -> Offer {
    let at = piece(rt, text, '/', 0);
    Offer {
        read_at: at.parse::<u32>().expect(rt, "a position"),
        read: lengths(rt, alloc, piece(rt, text, '/', 1)),
        write: lengths(rt, alloc, piece(rt, text, '/', 2)),
        reply: lengths(rt, alloc, piece(rt, text, '/', 3)),
    }
}

/// A form by its name, or by its offer.
pub fn form(rt: &impl Abort, alloc: Global, text: &str) -> Form {
    match text {
        "auto" => Form::Auto,
        "inline" => Form::Inline,
        "chunk" => Form::Chunk,
        "long" => Form::Long,
        _ => Form::Given(offer(rt, alloc, text)),
    }
}

/// Ends the test if a call wasn't answered by this reply, which the server sent so.
pub fn is_answered(rt: &impl Abort, row: usize, take: &Take, reply: &[u8], sent: Sent) {
    match take {
        Take::Done(done) => is_outcome(rt, row, &done.outcome, reply, sent),
        _ => panic!(rt; "row {row}: no answer"),
    }
}

/// Ends the test if the outcome of a call is another.
fn is_outcome(rt: &impl Abort, row: usize, outcome: &Outcome, reply: &[u8], sent: Sent) {
    match outcome {
        Outcome::Reply(bytes) => same(rt, row, bytes.as_slice() == reply, true),
        Outcome::Chunk => same(rt, row, sent, Sent::Chunk),
        Outcome::Version { .. } => panic!(rt; "row {row}: another version"),
    }
}

/// What the server executes and how it answers: the call that is complete after some exchanges.
fn served(
    rt: &impl Abort,
    alloc: Global,
    link: &mut TestLink,
    line: &Line<'_>,
    payload: &[u8],
    reply: &[u8],
) -> Sent
    ensures { KeepsTickets link.old.state link.new.state }
{
    let size = line.size;
    let _sent = link.up(rt, alloc, size);
    // The data of some calls is read: by at most nine Read Requests, of which eight go first.
    let _eight = link.down(rt, alloc, size);
    let _read = link.up(rt, alloc, size);
    let _ninth = link.down(rt, alloc, size);
    let _rest = link.up(rt, alloc, size);
    let sent = link.answer_to(rt, alloc, line.row, payload, reply);
    let _answer = link.down(rt, alloc, size);
    sent
}

/// The server executes the call under this xid.
fn call_served(
    rt: &impl Abort,
    alloc: Global,
    link: &mut TestLink,
    line: &Line<'_>,
    xid: u32,
    reply: &[u8],
) -> Sent
    ensures { KeepsTickets link.old.state link.new.state }
{
    let payload = payload(rt, alloc, xid, line.number(rt, 1), line.bytes);
    served(rt, alloc, link, line, payload.as_slice(), reply)
}

/// `exchange FORM PROCEDURE`: one call with the first bytes as its arguments, and the others as its results. Gives how the server answers.
fn exchange(rt: &impl Abort, alloc: Global, link: &mut TestLink, line: &Line<'_>) -> Sent {
    let xid = link.next_xid();
    let reply = reply(rt, alloc, xid, line.more);
    let asked = call(rt, alloc, line.number(rt, 1), line.bytes);
    let ticket = link.submit(rt, asked, form(rt, alloc, line.part(rt, 0)));
    let begun = (ticket.xid(), link.has_outcome(&ticket));
    same(rt, line.row, begun, (xid, false));
    let sent = call_served(rt, alloc, link, line, xid, reply.as_slice());
    same(rt, line.row, link.has_outcome(&ticket), true);
    is_answered(rt, line.row, &link.take(ticket), reply.as_slice(), sent);
    sent
}

/// `submit FORM PROCEDURE`: a call with the bytes as its arguments, whose ticket is dropped.
fn submit(rt: &impl Abort, alloc: Global, link: &mut TestLink, line: &Line<'_>) {
    let asked = call(rt, alloc, line.number(rt, 1), line.bytes);
    drop(link.submit(rt, asked, form(rt, alloc, line.part(rt, 0))));
}

/// `forget FORM PROCEDURE`: a call that is sent and forgotten.
fn forget(rt: &impl Abort, alloc: Global, link: &mut TestLink, line: &Line<'_>) {
    let xid = link.next_xid();
    let asked = call(rt, alloc, line.number(rt, 1), line.bytes);
    let ticket = link.submit(rt, asked, form(rt, alloc, line.part(rt, 0)));
    same(rt, line.row, ticket.xid(), xid);
    let _sent = link.up(rt, alloc, line.size);
    link.forget(ticket);
}

/// The server executes the next call, whose reply has xid 1 and these results, and answers it in a Send.
fn executed(rt: &impl Abort, alloc: Global, link: &mut TestLink, line: &Line<'_>, results: &[u8])
    ensures { link.new ≡ link.old }
{
    let reply = reply(rt, alloc, 1, results);
    let (_len, sent) = link.answer_len(rt, alloc, reply.as_slice());
    same(rt, line.row, sent, Sent::Inline);
}

/// The results of a READ of `hello`.
pub const HELLO_READ: &[u8] = b"\0\0\0\0\0\0\0\0\0\0\0\x05\0\0\0\x01\0\0\0\x05hello\0\0\0";

/// A call is sent in one step, and executed in two.
fn proceed(rt: &impl Abort, alloc: Global, link: &mut TestLink, line: &Line<'_>, steps: u32)
    ensures { KeepsTickets link.old.state link.new.state }
{
    if steps == 0 {
        return;
    }
    let _sent = link.up(rt, alloc, line.size);
    if steps == 1 {
        return;
    }
    executed(rt, alloc, link, line, HELLO_READ);
}

/// `revoke FORM PROCEDURE REPLY STEPS`: a call that is revoked after these steps. REPLY is 1 if a buffer for a reply chunk goes back; one for a
/// write chunk has the other bytes, if there are some.
fn revoke(rt: &impl Abort, alloc: Global, link: &mut TestLink, line: &Line<'_>) {
    let proc = line.number(rt, 1);
    let write = if line.more.is_empty() {
        None
    } else {
        Some(line.more)
    };
    let asked = call(rt, alloc, proc, line.bytes);
    let ticket = link.submit(rt, asked, form(rt, alloc, line.part(rt, 0)));
    proceed(rt, alloc, link, line, line.number(rt, 3));
    link.revoke(rt, line.row, ticket, proc, write, line.flag(rt, 2));
}

/// `executes`: the server answers the next call by the first bytes, if its payload ends with the others.
fn executes(rt: &impl Abort, alloc: Global, link: &mut TestLink, line: &Line<'_>) -> Sent {
    let (payload, sent) = link.answer(rt, alloc, line.bytes);
    same(rt, line.row, payload.as_slice().ends_with(line.more), true);
    sent
}

/// Makes the call of a line, and puts what it gives at the end. `answer` answers the next call by the bytes, and gives the length of its payload,
/// and how.
pub fn called(
    rt: &impl Abort,
    alloc: Global,
    link: &mut TestLink,
    line: &Line<'_>,
    out: &mut String,
) {
    match line.name {
        "submit" => submit(rt, alloc, link, line),
        "forget" => forget(rt, alloc, link, line),
        "revoke" => revoke(rt, alloc, link, line),
        "exchange" => show(rt, alloc, out, &exchange(rt, alloc, link, line)),
        "executes" => show(rt, alloc, out, &executes(rt, alloc, link, line)),
        "answer" => show(rt, alloc, out, &link.answer_len(rt, alloc, line.bytes)),
        _ => looked(rt, alloc, link, line, out),
    }
}
