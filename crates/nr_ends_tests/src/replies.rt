//! Replies that an offer holds, and how they are sent back.

ghost use Rattle.std.specs.Prelude.{IfOk};
ghost use Rattle.nr_header.specs.WithinLimits.{CanRead, ListsWithin, stream_after};

use crate::compare::same;
use crate::given::{NFS, lists_of, put_text, put_words};
use nr_header::{Body, ChunkLists, Header, HeaderFault, read_header};
use nr_reduce::{
    Answer, answer_for, answer_header, answer_lists, answer_message, answers_convey_replies, holds,
};
use nr_xdr::Octets;
use std::alloc::Global;
use std::process::Abort;

/// A reply to READ with `len` bytes of data and no attributes: 24 bytes of head, status, flag, count, end, length: 44 bytes
/// before the data.
fn read_reply(rt: &impl Abort, alloc: Global, len: u32) -> Vec<u8> {
    let mut out = Vec::new(alloc);
    put_words(rt, &mut out, &[9, 1, 0, 0, 0, 0, 0, 0, len, 1]);
    put_text(rt, &mut out, len);
    out
}

/// The length of a READ's data, the write chunks, the reply chunk, and what is sent back: whether in the reply chunk, the
/// length of the stream and of what moves.
struct Row(
    u32,
    &'static [&'static [u32]],
    Option<&'static [u32]>,
    Option<(bool, usize, usize)>,
);

static TABLE: [Row; 14] = [
    // 28 + 44 + 952 = 1024
    Row(952, &[], None, Some((false, 996, 0))),
    Row(953, &[], None, None),
    Row(953, &[], Some(&[999]), None),
    Row(953, &[], Some(&[999, 1]), Some((true, 1000, 0))),
    // the item moves into the first write chunk, or must be refused
    Row(5, &[&[5]], None, Some((false, 44, 5))),
    Row(5, &[&[3, 2]], None, Some((false, 44, 5))),
    Row(5, &[&[4]], None, None),
    Row(5, &[&[4]], Some(&[1000]), None),
    Row(0, &[&[4]], None, Some((false, 44, 0))),
    // a write chunk without segments asks for none of it
    Row(5, &[&[]], None, Some((false, 52, 0))),
    Row(5, &[&[], &[5]], None, Some((false, 52, 0))),
    // 28 + 4 * 8 + 16 * 16 = 316 bytes of header leave 708
    Row(664, &[&[], &[1; 16], &[], &[]], None, Some((false, 708, 0))),
    Row(665, &[&[], &[1; 16], &[], &[]], None, None),
    Row(40000, &[&[40000]], Some(&[1]), Some((false, 44, 40000))),
];

/// How a reply is sent back to a call of a procedure.
fn answer_of(
    offer: &ChunkLists,
    proc: u32,
    bytes: &[u8],
    down: u32,
) -> Option<(bool, usize, usize)> {
    match answer_for(offer.as_slices(), NFS, 3, proc, bytes, down) {
        Some(answer) => Some((answer.long, answer.stream.len(), answer.moved.len())),
        None => None,
    }
}

/// Ends the test if the reply to a READ is not sent back so to a call of a procedure, or its offer doesn't say so.
fn row_answers(rt: &impl Abort, alloc: Global, number: usize, proc: u32, row: &Row, down: u32) {
    let bytes = read_reply(rt, alloc, row.0);
    let offer = lists_of(rt, alloc, row.1, row.2);
    same(rt, number, answer_of(&offer, proc, &bytes, down), row.3);
    let held = holds(&offer, NFS, 3, proc, &bytes, down);
    same(rt, number, held, row.3.is_some());
    drop(offer);
}

#[test]
fn each_row_is_answered(rt: HostRuntime) {
    answers_convey_replies();
    for (number, row) in TABLE.iter().enumerate() {
        row_answers(&rt, rt.alloc(), number, 6, row, 1024);
    }
}

/// A reply to another procedure has no item, and a larger Send back leaves more room.
static OTHERS: [(Row, u32, u32); 4] = [
    (Row(5, &[&[4]], None, None), 6, 1024),
    (Row(5, &[&[4]], None, Some((false, 52, 0))), 7, 1024),
    (Row(953, &[], None, None), 6, 1027),
    (Row(953, &[], None, Some((false, 1000, 0))), 6, 1028),
];

#[test]
fn answers_go_by_procedure_and_room(rt: HostRuntime) {
    for (number, (row, proc, down)) in OTHERS.iter().enumerate() {
        row_answers(&rt, rt.alloc(), number, *proc, row, *down);
    }
}

/// The length of a READ's data, the words of a call's header with its offer, and those of the message that answers it. Each
/// segment of its lists has as many bytes as were written into it, and a stream that isn't in the reply chunk follows. Then the
/// length of its header, the number of its write chunks, and whether it has a reply chunk.
static MESSAGES: [(u32, &[u32], &[u32], (usize, usize, bool)); 2] = [
    (
        5,
        &[
            9, 1, 32, 0, 0, 1, 2, 1, 3, 0, 0, 1, 4, 0, 3, 1, 1, 2, 2, 0, 0, 0, 0,
        ],
        &[
            9, 1, 16, 0, 0, 1, 2, 1, 3, 0, 0, 1, 2, 0, 3, 1, 1, 2, 0, 0, 0, 0, 0, 9, 1, 0, 0, 0, 0,
            0, 0, 5, 1, 5,
        ],
        (92, 2, false),
    ),
    (
        953,
        &[9, 1, 32, 0, 0, 0, 1, 2, 1, 999, 0, 0, 2, 9, 0, 0],
        &[9, 1, 16, 1, 0, 0, 1, 2, 1, 999, 0, 0, 2, 1, 0, 0],
        (64, 0, true),
    ),
];

/// The message of an answer, and the length of its header, the number of its write chunks, and whether it has a reply chunk.
type Parts = Option<(Octets, (usize, usize, bool))>;

/// The number of the write chunks of an answer, and whether it has a reply chunk.
fn counts_of(
    rt: &impl Abort,
    alloc: Global,
    offer: &ChunkLists,
    answer: Answer<'_>,
) -> (usize, bool) {
    let lists = answer_lists(alloc, offer.as_slices(), answer).expect(rt, "memory");
    let counts = (lists.write.len(), lists.reply.is_some());
    drop(lists);
    counts
}

/// The message that answers a call with this offer by a reply to READ, and its parts.
fn message_of(rt: &impl Abort, alloc: Global, offer: &ChunkLists, reply: &[u8]) -> Parts
    requires { ListsWithin offer.now }
{
    let slices = offer.as_slices();
    let Some(answer) = answer_for(slices, NFS, 3, 6, reply, 1024) else {
        return None;
    };
    let (chunks, has_reply) = counts_of(rt, alloc, offer, answer);
    let header = answer_header(alloc, 9, 16, slices, answer)
        .expect(rt, "memory")
        .len();
    let message = answer_message(alloc, 9, 16, slices, answer).expect(rt, "memory");
    Some((message, (header, chunks, has_reply)))
}

/// The same for the header of a call.
fn answer_to(
    rt: &impl Abort,
    alloc: Global,
    read: &Result<Header, HeaderFault>,
    call: &[u8],
    reply: &[u8],
) -> Parts
    requires { IfOk read.now (λ header. CanRead header.body (stream_after header.body call.now)) }
{
    match read {
        Ok(
            Header {
                body: Body::Msg { lists, .. },
                ..
            },
        ) => message_of(rt, alloc, lists, reply),
        _ => None,
    }
}

/// Whether the message that answers a call is this one, and its parts.
fn is_answered_by(
    rt: &impl Abort,
    alloc: Global,
    call: &[u8],
    reply: &[u8],
    message: &[u8],
) -> (bool, (usize, usize, bool)) {
    let read = read_header(call);
    let answer = answer_to(rt, alloc, &read, call, reply);
    drop(read);
    match answer {
        Some((octets, parts)) => (octets.as_slice() == message, parts),
        None => (false, (0, 0, false)),
    }
}

fn bytes_of(rt: &impl Abort, alloc: Global, words: &[u32]) -> Vec<u8> {
    let mut out = Vec::new(alloc);
    put_words(rt, &mut out, words);
    out
}

#[test]
fn messages_of_answers(rt: HostRuntime) {
    for (row, (len, call, message, parts)) in MESSAGES.iter().enumerate() {
        let call = bytes_of(&rt, rt.alloc(), call);
        let message = bytes_of(&rt, rt.alloc(), message);
        let reply = read_reply(&rt, rt.alloc(), *len);
        let got = is_answered_by(&rt, rt.alloc(), &call, &reply, &message);
        same(&rt, row, got, (true, *parts));
    }
}
