//! What came in untagged messages, and the receives.

ghost use Rattle.std.specs.Prelude.{◌≡◌, ◌+◌, ◌-◌, ◌^◌, ◌<◌, ◌≤◌, [], length, take, drop, nat_lt, None, Some, IfOk, OnOk, IfSome, is_some, All, not, vec_len, vec_capacity, option_map, option_to_list, true, false, if◌then◌else◌, ◌++◌};
ghost use Rattle.std.specs.VecDeque.{deque_len, deque_capacity};
ghost use Rattle.nr_wire.specs.Segment.Segment.{Untagged};
ghost use Rattle.nr_wire.specs.Constants.{OPCODE_SEND, OPCODE_SEND_INVALIDATE, OPCODE_READ_REQUEST};
ghost use Rattle.nr_link.specs.KeptSends.{kept_within};
ghost use Rattle.nr_link.specs.ReceiveState.{begun_bytes};
ghost use Rattle.nr_link.specs.SegmentFaults.{is_begun};
ghost use Rattle.nr_endpoint.specs.ReceiveQueue.{initial_receives, named_by, send_segment, with_segment, with_read_done, delivered, posted, receives_kept};
ghost use Rattle.nr_endpoint.specs.Views.{delivery, reads_first, without_first_read, begun_send, begun as begun_bytes_of};
ghost use Rattle.nr_endpoint.specs.Receives.{IsReceive, HasBuffer};

use crate::event::Event;
use nr_wire::constants::OPCODE_SEND_INVALIDATE;
use nr_xdr::{Memory, Octets};
use std::alloc::Global;
use std::collections::VecDeque;
use std::marker::Model;

/// A Send that is begun: its receive buffer, and how many bytes came. Those beyond the buffer are counted and not kept.
#[derive(Drop)]
pub struct BegunSend {
    /// The receive buffer.
    pub buf: Octets,
    /// How many bytes of its payload came, also beyond the buffer.
    pub len: u64,
}

/// A complete Send with its number, from 1 on: the first `len` bytes of its receive buffer. Between the message before it and this one, the
/// responses to `reads_done` Read Requests were completed that were not yet delivered to the owner.
#[derive(Drop)]
pub struct ReceivedMessage {
    /// How many Read Requests were completed between the message before it and this one.
    pub reads_done: u64,
    /// Its message sequence number, from 1 on (RFC 5041 section 5.2).
    pub number: u64,
    /// The STag that it names, if it is a Send with Invalidate (RFC 5040 section 4.7).
    pub invalidated: Option<u32>,
    /// The receive buffer, whose first `len` bytes are the message.
    pub buf: Octets,
    /// The length of the message in bytes.
    pub len: usize,
}

/// The receives, each of `receive_length` bytes, and what came in untagged messages. Of the `receives`, `lent` are with the owner. What
/// wasn't delivered yet takes no memory: there is room for a message of each receive, and the Read Requests that are done are counted,
/// `reads_done` of them after the last message.
#[derive(Drop)]
pub struct ReceiveQueue {
    sends: u64,
    requests: u64,
    begun: Option<BegunSend>,
    free: Vec<Octets>,
    lent: usize,
    receives: usize,
    receive_length: usize,
    messages: VecDeque<ReceivedMessage>,
    reads_done: u64,
}

impl Model for ReceiveQueue {
    ghost use Rattle.std.specs.Prelude.{length, vec_capacity};
    ghost use Rattle.std.specs.VecDeque.{deque_capacity};
    ghost use Rattle.nr_endpoint.specs.ReceiveQueue.{ReceiveQueue};
    ghost use Rattle.nr_endpoint.specs.Codes.{receive_queue_code};

    ghost Value = { ReceiveQueue };

    ghost coded = { receive_queue_code };

    ghost use Rattle.nr_endpoint.specs.Views.{begun as begun_bytes_of, deliveries};
    ghost use Rattle.nr_endpoint.specs.Receives.{AreReceives};

    ghost view = { λ q. record { receives = q.receives; receive_length = q.receive_length; received = record { sends = q.sends; begun = begun_bytes_of q.receive_length q.begun; requests = q.requests }; free = length q.free.items; lent = q.lent; deliveries = deliveries q.messages.items q.reads_done } };

    ghost invariant = { λ q. AreReceives q.receive_length q.free.items q.begun q.messages.items q.lent q.receives (vec_capacity q.free) (deque_capacity q.messages) };
}

/// What a Send names whose last segment has this opcode and this word: an STag, if it is a Send with Invalidate (RFC 5040 section 4.7).
pub fn named_by(opcode: u8, word: u32) -> Option<u32>
    ensures { result ≡ named_by opcode word }
{
    if opcode == OPCODE_SEND_INVALIDATE {
        Some(word)
    } else {
        None
    }
}

/// A receive buffer of `receive_length` zeros.
fn receive_buffer(alloc: Global, receive_length: usize) -> Result<Octets, Memory>
    ensures { IfOk result (λ buf. length buf ≡ receive_length) }
{
    Ok(Octets::from_vec(vec![in alloc; 0u8; receive_length]?))
}

/// Puts this number of receive buffers of this length into a vector with room for them.
fn fill(
    free: &mut Vec<Octets>,
    alloc: Global,
    receives: usize,
    receive_length: usize,
) -> Result<(), Memory>
    requires room { vec_len free.old + receives ≤ vec_capacity free.old }
    ensures count { OnOk result (length free.new.items ≡ length free.old.items + receives) }
    ensures each { All (IsReceive receive_length) free.old.items → All (IsReceive receive_length) free.new.items }
    ensures capacity { vec_capacity free.new ≡ vec_capacity free.old }
{
    for _ in 0..receives {
        free.push_reserved(receive_buffer(alloc, receive_length)?);
    }
    Ok(())
}

/// A Send that is begun in a free receive of this length.
fn begin_send(buf: Octets, receive_length: usize) -> BegunSend
    ensures bytes { begun_send receive_length result ≡ [] }
    ensures buf { result.buf ≡ buf }
    ensures len { result.len ≡ 0 }
{
    let _ = receive_length;
    BegunSend { buf, len: 0 }
}

/// Takes the receive of the begun Send, or else a free one. Each has this length.
fn take_receive(
    begun: &mut Option<BegunSend>,
    free: &mut Vec<Octets>,
    receive_length: usize,
) -> BegunSend
    requires receive { is_begun (begun_bytes_of receive_length begun.old) ≡ false → 0 < length free.old.items }
    requires begun_buf { IfSome begun.old (λ b. IsReceive receive_length b.buf) }
    requires free_bufs { All (IsReceive receive_length) free.old.items }
    ensures bytes { begun_send receive_length result ≡ begun_bytes (begun_bytes_of receive_length begun.old) }
    ensures len { result.len ≡ length (begun_bytes (begun_bytes_of receive_length begun.old)) }
    ensures buf { IsReceive receive_length result.buf }
    ensures taken { begun.new ≡ None }
    ensures free { length free.new.items ≡ (if not (is_begun (begun_bytes_of receive_length begun.old)) then length free.old.items - 1 else length free.old.items) }
    ensures bufs { All (IsReceive receive_length) free.new.items }
    ensures capacity { vec_capacity free.new ≡ vec_capacity free.old }
{
    match begun.take() {
        Some(begun) => begun,
        None => match free.pop() {
            Some(buf) => begin_send(buf, receive_length),
            None => unreachable!(),
        },
    }
}

/// Writes some bytes into a receive buffer of this length from byte `at` on, as far as it goes.
fn write_from(buf: &mut Octets, receive_length: usize, at: usize, bytes: &[u8])
    requires buf { IsReceive receive_length buf.old }
    requires within { at < receive_length }
    ensures buf { IsReceive receive_length buf.new }
    ensures bytes { buf.new ≡ take receive_length (take at buf.old ++ (bytes.now ++ drop (at + length bytes.now) buf.old)) }
{
    if bytes.len() <= receive_length - at {
        buf.overwrite(at, bytes);
    } else {
        buf.overwrite(at, &bytes[..receive_length - at]);
    }
}

/// Writes a segment's payload after what a begun Send has, as far as its buffer goes.
fn extend(begun: &mut BegunSend, receive_length: usize, payload: &[u8])
    requires buf { IsReceive receive_length begun.old.buf }
    requires count { begun.old.len + length payload.now < 2 ^ 63 }
    ensures buf { IsReceive receive_length begun.new.buf }
    ensures bytes { begun_send receive_length begun.new ≡ kept_within receive_length (begun_send receive_length begun.old ++ payload.now) }
    ensures len { begun.new.len ≡ begun.old.len + length payload.now }
{
    if begun.len < receive_length as u64 {
        write_from(&mut begun.buf, receive_length, begun.len as usize, payload);
    }
    begun.len += payload.len() as u64;
}

/// Takes one of the reads that were done before the first message; false if there is none.
fn take_first_read(messages: &mut VecDeque<ReceivedMessage>) -> bool
    ensures some { result ≡ nat_lt 0 (reads_first messages.old.items) }
    ensures left { messages.new.items ≡ (if result then without_first_read messages.old.items else messages.old.items) }
    ensures len { deque_len messages.new ≡ deque_len messages.old }
    ensures capacity { deque_capacity messages.new ≡ deque_capacity messages.old }
{
    match messages.front_mut() {
        None => false,
        Some(message) => {
            if message.reads_done == 0 {
                return false;
            }
            message.reads_done -= 1;
            true
        }
    }
}

impl ReceiveQueue {
    /// This number of receives of this length, all free, and room for the message of each.
    pub fn new(alloc: Global, receives: u32, receive_length: usize) -> Result<ReceiveQueue, Memory>
        ensures { IfOk result (λ q. q ≡ initial_receives receives receive_length) }
    {
        let receives = receives as usize;
        let messages = VecDeque::with_capacity(alloc, receives)?;
        let mut free = Vec::with_capacity(alloc, receives)?;
        fill(&mut free, alloc, receives, receive_length)?;
        Ok(ReceiveQueue {
            sends: 0,
            requests: 0,
            begun: None,
            free,
            lent: 0,
            receives,
            receive_length,
            messages,
            reads_done: 0,
        })
    }

    /// Whether a receive is free.
    pub fn has_free(&self) -> bool
        ensures { result ≡ nat_lt 0 self.now.free }
    {
        !self.free.is_empty()
    }

    /// How many receives are free.
    pub fn free(&self) -> usize
        ensures { result ≡ self.now.free }
    {
        self.free.len()
    }

    /// How many Sends were completed.
    pub fn sends(&self) -> u64
        ensures { result ≡ self.now.received.sends }
    {
        self.sends
    }

    /// How many Read Requests were received.
    pub fn requests(&self) -> u64
        ensures { result ≡ self.now.received.requests }
    {
        self.requests
    }

    /// Whether a Send is begun and incomplete.
    pub fn is_begun(&self) -> bool
        ensures { result ≡ is_begun self.now.received.begun }
    {
        self.begun.is_some()
    }

    /// How many bytes of a begun Send were received; 0 if none is begun.
    pub fn begun_len(&self) -> u64
        ensures { result ≡ length (begun_bytes self.now.received.begun) }
    {
        match &self.begun {
            None => 0,
            Some(begun) => begun.len,
        }
    }

    /// One more segment of a Send, which is begun or finds a receive, and fits it if it becomes complete. If it is the last, the Send names this
    /// STag, or none. Takes no memory.
    #[tactic(auto, using(crate::proofs::ReceiveQueueSteps::not_last_alike))]
    pub fn receive(&mut self, named: Option<u32>, last: bool, payload: &[u8])
        requires receive { is_begun self.old.received.begun ≡ false → 0 < self.old.free }
        requires fits { last ≡ true → length (begun_bytes self.old.received.begun) + length payload.now ≤ self.old.receive_length }
        requires enough { last ≡ true → 16 ≤ length (begun_bytes self.old.received.begun) + length payload.now }
        requires count { self.old.received.sends < 2 ^ 63 }
        requires bytes { length (begun_bytes self.old.received.begun) + length payload.now < 2 ^ 63 }
        ensures { self.new ≡ with_segment (send_segment named last payload.now) self.old }
    {
        if last {
            self.complete(named, payload);
            return;
        }
        self.continue_send(payload);
    }

    /// The last segment of a Send. Its message has room, since its receive is neither free nor lent.
    fn complete(&mut self, named: Option<u32>, payload: &[u8])
        requires receive { is_begun self.old.received.begun ≡ false → 0 < self.old.free }
        requires fits { length (begun_bytes self.old.received.begun) + length payload.now ≤ self.old.receive_length }
        requires enough { 16 ≤ length (begun_bytes self.old.received.begun) + length payload.now }
        requires count { self.old.received.sends < 2 ^ 63 }
        ensures { self.new ≡ with_segment (send_segment named true payload.now) self.old }
    {
        let mut begun = take_receive(&mut self.begun, &mut self.free, self.receive_length);
        extend(&mut begun, self.receive_length, payload);
        self.messages.push_back_reserved(ReceivedMessage {
            reads_done: self.reads_done,
            number: self.sends + 1,
            invalidated: named,
            buf: begun.buf,
            len: begun.len as usize,
        });
        self.reads_done = 0;
        self.sends += 1;
    }

    /// A segment of a Send that is not its last.
    #[tactic(auto, unfolding(crate::specs::ReceiveQueue::with_segment))]
    fn continue_send(&mut self, payload: &[u8])
        requires receive { is_begun self.old.received.begun ≡ false → 0 < self.old.free }
        requires bytes { length (begun_bytes self.old.received.begun) + length payload.now < 2 ^ 63 }
        ensures { self.new ≡ with_segment (Untagged false OPCODE_SEND 0 0 0 0 payload.now) self.old }
    {
        let mut begun = take_receive(&mut self.begun, &mut self.free, self.receive_length);
        extend(&mut begun, self.receive_length, payload);
        self.begun = Some(begun);
    }

    /// One more Read Request.
    pub fn count_request(&mut self)
        requires { self.old.received.requests < 2 ^ 63 }
        ensures { self.new ≡ with_segment (Untagged true OPCODE_READ_REQUEST 0 0 0 0 []) self.old }
    {
        self.requests += 1;
    }

    /// The response to the Read Request that was open longest is complete. Takes no memory.
    pub fn read_done(&mut self)
        requires { length self.old.deliveries < 2 ^ 63 }
        ensures { self.new ≡ with_read_done self.old }
    {
        self.reads_done += 1;
    }

    /// The next event; `None` if and only if none waits. Takes no memory.
    pub fn next_event(&mut self) -> Option<Event>
        ensures waits { is_some result ≡ nat_lt 0 (length self.old.deliveries) }
        ensures event { self.old.deliveries ≡ option_to_list (option_map delivery result) ++ self.new.deliveries }
        ensures after { self.new ≡ (if is_some result then delivered self.old else self.old) }
        ensures buffer { IfSome result (HasBuffer self.old.receive_length) }
    {
        if take_first_read(&mut self.messages) {
            return Some(Event::ReadDone);
        }
        if let Some(message) = self.messages.pop_front() {
            self.lent += 1;
            return Some(Event::Message {
                number: message.number,
                invalidated: message.invalidated,
                buf: message.buf,
                len: message.len,
            });
        }
        if self.reads_done == 0 {
            return None;
        }
        self.reads_done -= 1;
        Some(Event::ReadDone)
    }

    /// A buffer is a receive again. Takes no memory.
    pub fn post(&mut self, buf: Octets)
        requires lent { 0 < self.old.lent }
        requires len { length buf ≡ self.old.receive_length }
        ensures { self.new ≡ posted self.old }
    {
        self.lent -= 1;
        self.free.push_reserved(buf);
    }

    /// Each receive is free, has a begun Send or a message that wasn't delivered to the owner yet, or is lent.
    pub fn sum(&self)
        ensures { receives_kept self.now + self.now.lent ≡ self.now.receives }
    {
        let _ = &self.lent;
    }

    /// The length of each receive.
    pub fn receive_length(&self) -> usize
        ensures { result ≡ self.now.receive_length }
    {
        self.receive_length
    }

    /// How many receive buffers are kept: all but those that are lent.
    pub fn buffers(&self) -> usize
        ensures kept { result ≡ receives_kept self.now }
        ensures most { result ≤ self.now.receives }
    {
        self.receives - self.lent
    }
}
