//! What a side has to write.

ghost use Rattle.std.specs.Prelude.{◌≡◌, ℕ, ◌+◌, ◌-◌, ◌^◌, ◌<◌, ◌≤◌, [], ◌++◌, if◌then◌else◌, length, take, drop, All, IfOk, OnOk, OnErr, MatchResult, min};
ghost use Rattle.std.specs.Io.KnownBytes.{Appends};
ghost use Rattle.std.specs.VecDeque.{deque_capacity};
ghost use Rattle.nr_wire.specs.Constants.{PRIVATE_MAX};
ghost use Rattle.nr_wire.specs.Hello.{hello_encoding};
ghost use Rattle.nr_link.specs.Output.{refusing_hello, terminate_message};
ghost use Rattle.nr_endpoint.specs.Judging.{reply_hello};
ghost use Rattle.nr_outside.specs.Faults.{Rises};
ghost use Rattle.nr_endpoint.specs.Offering.{FitsRegion, FitsSharedRegion, shared_output, writes_output};
ghost use Rattle.nr_endpoint.specs.SendQueue.{initial_queue, output_len, with_hello, with_fpdus, with_send_by, with_write, with_response, with_end, writable, written, ends_left, ends_passed};

use crate::constants::SEGMENT_MAX;
use crate::ending::{is_rejection, terminate_word};
use crate::framing::{
    Operation, RemoteWrite, joined, push_answer, push_cut, push_long_answer, push_send,
    push_terminate, sender, terminate,
};
use crate::output::{Output, write_run};
use crate::sharing::{SharedWrite, push_shared_answer};
use bytes::BytesMut;
use nr_link::End;
use nr_link::constants::REASON_SIZES;
use nr_outside::{Failed, Sink};
use nr_wire::constants::FLAG_REJECT;
use nr_wire::{Hello, Side, write_hello, write_segment};
use nr_xdr::{Memory, Octets};
use std::alloc::Global;
use std::collections::VecDeque;
use std::marker::Model;

/// What a side has to write, in order: its hello, and after it FPDUs.
#[derive(Drop)]
pub struct SendQueue {
    alloc: Global,
    hello: BytesMut,
    pub(crate) fpdus: Output,
    pub(crate) send_ends: VecDeque<usize>,
    response_ends: VecDeque<usize>,
    sends_left: u64,
    pub(crate) last_send: u32,
    pub(crate) last_request: u32,
    // The messages of Sends that are held back. There is room for their FPDUs, and for the ends of their Sends.
    pub(crate) held: VecDeque<Octets>,
    // The sum of their lengths.
    pub(crate) held_len: usize,
}

impl Model for SendQueue {
    ghost use Rattle.nr_endpoint.specs.SendQueue.{SendQueue};
    ghost use Rattle.nr_endpoint.specs.Codes.{send_queue_code};

    ghost Value = { SendQueue };

    ghost coded = { send_queue_code };

    ghost view = { λ q. record { hello = q.hello.items; fpdus = q.fpdus.items; send_ends = q.send_ends.items; response_ends = q.response_ends.items; sends_left = q.sends_left; last_send = q.last_send; last_request = q.last_request; held = q.held.items } };

    ghost use Rattle.std.specs.VecDeque.{deque_capacity};
    ghost use Rattle.nr_endpoint.specs.private.HeldSends.{HasRoomFor};

    ghost invariant = { λ q. HasRoomFor q.held.items q.held_len q.fpdus.kept q.send_ends.items (deque_capacity q.send_ends) };
}

/// Puts a side's hello at the end. An `Err` leaves the bytes as they were.
fn push_hello(
    out: &mut BytesMut,
    alloc: Global,
    side: Side,
    flags: u8,
    private: &[u8],
) -> Result<(), Memory>
    requires { length private.now ≤ PRIVATE_MAX }
    ensures ok { OnOk result (out.new.items ≡ out.old.items ++ hello_encoding (record { side = side; flags = flags; private = private.now })) }
    ensures err { OnErr result (out.new.items ≡ out.old.items) }
{
    let hello = write_hello(
        alloc,
        &Hello {
            side,
            flags,
            private,
        },
    )?;
    out.extend_from_slice(hello.as_slice())?;
    Ok(())
}

/// Drops the first end if `n` more written bytes reach it, and answers 1. Else it goes to the back, counted from there on.
fn retire_first(ends: &mut VecDeque<usize>, n: usize) -> usize
    ensures left { ends.new.items ≡ drop 1 ends.old.items ++ ends_left n (take 1 ends.old.items) }
    ensures passed { result ≡ ends_passed n (take 1 ends.old.items) }
    ensures capacity { deque_capacity ends.new ≡ deque_capacity ends.old }
{
    match ends.pop_front() {
        None => 0,
        Some(end) => {
            if end > n {
                ends.push_back_reserved(end - n);
                0
            } else {
                1
            }
        }
    }
}

/// Drops the ends that `n` more written bytes reach, and answers how many those were. The others are counted from there on.
fn retire_ends(ends: &mut VecDeque<usize>, n: usize) -> usize
    ensures left { ends.new.items ≡ ends_left n ends.old.items }
    ensures passed { result ≡ ends_passed n ends.old.items }
    ensures capacity { deque_capacity ends.new ≡ deque_capacity ends.old }
{
    let mut passed = 0;
    for _i in 0..ends.len() {
        passed += retire_first(ends, n);
    }
    passed
}

/// Makes room for one end more, beside those of some Sends that are held back.
pub fn reserve_ends(ends: &mut VecDeque<usize>, held: usize) -> Result<(), Memory>
    ensures items { ends.new.items ≡ ends.old.items }
    ensures room { OnOk result (length ends.old.items + (held + 1) ≤ deque_capacity ends.new) }
    ensures never_falls { deque_capacity ends.old ≤ deque_capacity ends.new }
{
    let Some(more) = held.checked_add(1) else {
        return Err(Memory);
    };
    ends.reserve(more)?;
    Ok(())
}

/// Writes a hello to a sink, and after it FPDUs if these may be written, and drops from the front what the sink took. It answers
/// how many bytes of the FPDUs those were.
fn write_queue<K: Sink>(
    hello: &mut BytesMut,
    fpdus: &mut Output,
    has_hello: bool,
    sink: &mut K,
) -> (usize, Result<(), Failed>)
    ensures written { (n : ℕ) × (result.0 ≡ n - length hello.old.items)
        × (n ≤ length (hello.old.items ++ (if has_hello then fpdus.old.items else [])))
        × (hello.new.items ≡ drop n hello.old.items) × (fpdus.new.items ≡ drop (n - length hello.old.items) fpdus.old.items)
        × Appends (K.taken sink.old) (K.taken sink.new) (take n (hello.old.items ++ (if has_hello then fpdus.old.items else [])))
        × OnOk result.1 (n ≡ length (hello.old.items ++ (if has_hello then fpdus.old.items else []))) }
    ensures kept { fpdus.new.kept ≡ fpdus.old.kept }
    ensures counted { MatchResult result.1
        (λ _. K.faults sink.new ≡ K.faults sink.old) (λ _. Rises (K.faults sink.old) (K.faults sink.new)) }
    ensures never_falls { K.faults sink.old ≤ K.faults sink.new }
{
    let (_, greeted) = write_run(hello, sink);
    if greeted.is_err() || !has_hello {
        return (0, greeted);
    }
    fpdus.write_out(sink)
}

impl SendQueue {
    /// A side's queue as the link is opened: an initiator has its hello to write, with this private data.
    #[tactic(auto, unfolding(nr_link::specs::Output::hello_with))]
    pub fn new(alloc: Global, side: Side, private: &[u8]) -> Result<SendQueue, Memory>
        requires { length private.now ≤ PRIVATE_MAX }
        ensures { IfOk result (λ q. q ≡ initial_queue side private.now) }
    {
        let mut hello = BytesMut::new(alloc);
        if side == Side::Initiator {
            push_hello(&mut hello, alloc, side, 0, private)?;
        }
        Ok(SendQueue {
            alloc,
            hello,
            fpdus: Output::new(alloc),
            send_ends: VecDeque::new(alloc),
            response_ends: VecDeque::new(alloc),
            sends_left: 0,
            last_send: 0,
            last_request: 0,
            held: VecDeque::new(alloc),
            held_len: 0,
        })
    }

    /// A responder's hello with this private data, which answers the initiator's; an initiator's own was queued before. An `Err` changes
    /// nothing.
    #[tactic(auto, unfolding(nr_link::specs::Output::hello_with))]
    pub fn queue_hello(&mut self, side: Side, private: &[u8]) -> Result<(), Memory>
        requires { length private.now ≤ PRIVATE_MAX }
        ensures ok { OnOk result (self.new ≡ with_hello (reply_hello side private.now) self.old) }
        ensures err { OnErr result (self.new ≡ self.old) }
        ensures queued { OnErr result (output_len self.old < output_len (with_hello (reply_hello side private.now) self.old)) }
    {
        match side {
            Side::Initiator => Ok(()),
            Side::Responder => push_hello(&mut self.hello, self.alloc, side, 0, private),
        }
    }

    /// A Send, with Invalidate if it names an STag. An `Err` changes nothing.
    #[tactic(auto, using(crate::proofs::Cuts::carried_by))]
    pub fn send(&mut self, named: Option<u32>, message: &[u8]) -> Result<(), Memory>
        requires { length message.now < 2 ^ 32 }
        ensures ok { OnOk result (self.new ≡ with_send_by named message.now self.old) }
        ensures err { OnErr result (self.new ≡ self.old) }
    {
        let msn = self.last_send.wrapping_add(1);
        reserve_ends(&mut self.send_ends, self.held.len())?;
        push_cut(&mut self.fpdus, sender(named, msn), message)?;
        self.send_ends.push_back_reserved(self.fpdus.len());
        self.last_send = msn;
        Ok(())
    }

    /// The Send of a message in two parts, which are not joined before if they take one segment. An `Err` changes nothing.
    pub fn send_parts(
        &mut self,
        named: Option<u32>,
        front: &[u8],
        stream: &[u8],
    ) -> Result<(), Memory>
        requires { length front.now + length stream.now < 2 ^ 32 }
        ensures ok { OnOk result (self.new ≡ with_send_by named (front.now ++ stream.now) self.old) }
        ensures err { OnErr result (self.new ≡ self.old) }
    {
        if front.len() + stream.len() <= SEGMENT_MAX {
            return self.send_short(named, front, stream);
        }
        let message = joined(self.alloc, front, stream)?;
        self.send(named, message.as_slice())
    }

    /// The Send of a message in two parts, which is one segment. An `Err` changes nothing.
    #[tactic(auto, using(crate::proofs::Cuts::carried_by))]
    fn send_short(&mut self, named: Option<u32>, front: &[u8], stream: &[u8]) -> Result<(), Memory>
        requires { length front.now + length stream.now ≤ SEGMENT_MAX }
        ensures ok { OnOk result (self.new ≡ with_send_by named (front.now ++ stream.now) self.old) }
        ensures err { OnErr result (self.new ≡ self.old) }
    {
        let msn = self.last_send.wrapping_add(1);
        reserve_ends(&mut self.send_ends, self.held.len())?;
        push_send(&mut self.fpdus, named, msn, front, stream)?;
        self.send_ends.push_back_reserved(self.fpdus.len());
        self.last_send = msn;
        Ok(())
    }

    /// An RDMA Write. An `Err` changes nothing.
    #[tactic(auto, using(crate::proofs::Cuts::carried_write))]
    pub fn write(&mut self, stag: u32, to: u64, bytes: &[u8]) -> Result<(), Memory>
        requires { to + length bytes.now ≤ 2 ^ 64 }
        ensures ok { OnOk result (self.new ≡ with_write stag to bytes.now self.old) }
        ensures err { OnErr result (self.new ≡ self.old) }
    {
        push_cut(&mut self.fpdus, Operation::Write { stag, to }, bytes)
    }

    /// RDMA Writes and then the Send of a message in two parts. An `Err` changes nothing.
    pub fn answer(
        &mut self,
        writes: &[RemoteWrite<'_>],
        named: Option<u32>,
        front: &[u8],
        stream: &[u8],
    ) -> Result<(), Memory>
        requires size { length front.now + length stream.now < 2 ^ 32 }
        requires fits { All FitsRegion writes.now }
        ensures ok { OnOk result (self.new ≡ with_send_by named (front.now ++ stream.now) (with_fpdus (writes_output writes.now) self.old)) }
        ensures err { OnErr result (self.new ≡ self.old) }
    {
        if front.len() + stream.len() <= SEGMENT_MAX {
            return self.answer_short(writes, named, front, stream);
        }
        let message = joined(self.alloc, front, stream)?;
        self.answer_long(writes, named, message.as_slice())
    }

    /// RDMA Writes and then the Send of a message in two parts, which is one segment. An `Err` changes nothing.
    #[tactic(auto, using(crate::proofs::Cuts::carried_by))]
    fn answer_short(
        &mut self,
        writes: &[RemoteWrite<'_>],
        named: Option<u32>,
        front: &[u8],
        stream: &[u8],
    ) -> Result<(), Memory>
        requires size { length front.now + length stream.now ≤ SEGMENT_MAX }
        requires fits { All FitsRegion writes.now }
        ensures ok { OnOk result (self.new ≡ with_send_by named (front.now ++ stream.now) (with_fpdus (writes_output writes.now) self.old)) }
        ensures err { OnErr result (self.new ≡ self.old) }
    {
        let msn = self.last_send.wrapping_add(1);
        reserve_ends(&mut self.send_ends, self.held.len())?;
        push_answer(&mut self.fpdus, writes, named, msn, front, stream)?;
        self.send_ends.push_back_reserved(self.fpdus.len());
        self.last_send = msn;
        Ok(())
    }

    /// RDMA Writes and then a Send. An `Err` changes nothing.
    #[tactic(auto, using(crate::proofs::Cuts::carried_by))]
    fn answer_long(
        &mut self,
        writes: &[RemoteWrite<'_>],
        named: Option<u32>,
        message: &[u8],
    ) -> Result<(), Memory>
        requires size { length message.now < 2 ^ 32 }
        requires fits { All FitsRegion writes.now }
        ensures ok { OnOk result (self.new ≡ with_send_by named message.now (with_fpdus (writes_output writes.now) self.old)) }
        ensures err { OnErr result (self.new ≡ self.old) }
    {
        let msn = self.last_send.wrapping_add(1);
        reserve_ends(&mut self.send_ends, self.held.len())?;
        push_long_answer(&mut self.fpdus, writes, named, msn, message)?;
        self.send_ends.push_back_reserved(self.fpdus.len());
        self.last_send = msn;
        Ok(())
    }

    /// RDMA Writes of shared bytes and then the Send of a message in two parts. An `Err` changes nothing.
    #[tactic(auto, using(crate::proofs::Cuts::carried_by))]
    pub fn answer_shared(
        &mut self,
        writes: &[SharedWrite],
        named: Option<u32>,
        front: &[u8],
        stream: &[u8],
    ) -> Result<(), Memory>
        requires size { length front.now + length stream.now < 2 ^ 32 }
        requires fits { All FitsSharedRegion writes.now }
        ensures ok { OnOk result (self.new ≡ with_send_by named (front.now ++ stream.now) (with_fpdus (shared_output writes.now) self.old)) }
        ensures err { OnErr result (self.new ≡ self.old) }
    {
        let msn = self.last_send.wrapping_add(1);
        reserve_ends(&mut self.send_ends, self.held.len())?;
        push_shared_answer(
            &mut self.fpdus,
            self.alloc,
            writes,
            named,
            msn,
            front,
            stream,
        )?;
        self.send_ends.push_back_reserved(self.fpdus.len());
        self.last_send = msn;
        Ok(())
    }

    /// A Read Response. An `Err` changes nothing.
    #[tactic(auto, using(crate::proofs::Cuts::carried_response))]
    pub fn respond(&mut self, stag: u32, to: u64, bytes: &[u8]) -> Result<(), Memory>
        requires { to + length bytes.now ≤ 2 ^ 64 }
        ensures ok { OnOk result (self.new ≡ with_response stag to bytes.now self.old) }
        ensures err { OnErr result (self.new ≡ self.old) }
    {
        self.response_ends.reserve(1)?;
        push_cut(&mut self.fpdus, Operation::Response { stag, to }, bytes)?;
        self.response_ends.push_back_reserved(self.fpdus.len());
        Ok(())
    }

    /// What a side writes last, if it ends. `Err` only if it writes something; it changes nothing.
    #[tactic(auto, unfolding(crate::specs::SendQueue::with_end, nr_link::specs::Output::refusing_hello))]
    pub fn finish(&mut self, side: Side, end: End) -> Result<(), Memory>
        ensures ok { OnOk result (self.new ≡ with_end side end self.old) }
        ensures err { OnErr result (self.new ≡ self.old) }
        ensures queued { OnErr result (output_len self.old < output_len (with_end side end self.old)) }
    {
        if is_rejection(side, end) {
            return push_hello(
                &mut self.hello,
                self.alloc,
                Side::Responder,
                FLAG_REJECT,
                &[],
            );
        }
        match terminate_word(end) {
            None => Ok(()),
            Some(word) => push_terminate(&mut self.fpdus, word),
        }
    }

    /// The Terminate of an initiator that refuses what the peer's hello agrees on: it follows the own hello, since FPDUs wait until the peer's
    /// was accepted. An `Err` changes nothing.
    #[tactic(auto, unfolding(nr_link::specs::Output::terminate_message, nr_xdr::specs::Item::word), using(crate::proofs::Queued::sizes_queue, crate::proofs::Queued::on_any_err))]
    pub fn refuse_sizes(&mut self) -> Result<(), Memory>
        ensures ok { OnOk result (self.new ≡ with_hello (terminate_message REASON_SIZES) self.old) }
        ensures err { OnErr result (self.new ≡ self.old) }
        ensures queued { OnErr result (output_len self.old < output_len (with_hello (terminate_message REASON_SIZES) self.old)) }
    {
        let word = REASON_SIZES.to_be_bytes();
        let bytes = write_segment(self.alloc, &terminate(&word))?;
        self.hello.extend_from_slice(bytes.as_slice())?;
        Ok(())
    }

    /// How many Read Responses were not written completely.
    pub fn responses(&self) -> usize
        ensures { result ≡ length self.now.response_ends }
    {
        self.response_ends.len()
    }

    /// How many Sends were written completely.
    pub fn sends_left(&self) -> u64
        ensures { result ≡ self.now.sends_left }
    {
        self.sends_left
    }

    /// The number of Sends that haven't completely left.
    pub fn sends_waiting(&self) -> usize
        ensures { result ≡ length self.now.send_ends }
    {
        self.send_ends.len()
    }

    /// How many bytes the queue has.
    pub fn len(&self) -> u128
        ensures value { result ≡ length self.now.hello + length self.now.fpdus }
        ensures most { result ≤ 2 ^ 65 }
    {
        self.hello.len() as u128 + self.fpdus.len() as u128
    }

    /// In how many pieces the bytes of the queue are kept.
    pub fn pieces(&self) -> usize
        ensures most { result ≤ output_len self.now }
        ensures some { 0 < output_len self.now → 0 < result }
    {
        let count = self.fpdus.pieces();
        if self.hello.is_empty() {
            count
        } else {
            count + 1
        }
    }

    /// Drops the ends of Sends and Read Responses that the first `n` bytes of the FPDUs reach, which were written. The Sends are
    /// counted.
    #[tactic(auto, using(crate::proofs::SendQueues::ends_left_fewer))]
    fn retire_written(&mut self, n: usize)
        ensures { self.new ≡ record self.old {
          send_ends = ends_left n self.old.send_ends;
          response_ends = ends_left n self.old.response_ends;
          sends_left = min (self.old.sends_left + ends_passed n self.old.send_ends) (2 ^ 64 - 1);
        } }
    {
        let passed = retire_ends(&mut self.send_ends, n);
        retire_ends(&mut self.response_ends, n);
        self.sends_left = self.sends_left.saturating_add(passed as u64);
    }

    /// Hands the bytes that may be written to a sink, in order: for `Ok` all of them, else some from the front, and the rest stays.
    #[tactic(auto, unfolding(crate::specs::SendQueue::written))]
    pub fn drain_into<K: Sink>(&mut self, has_hello: bool, sink: &mut K) -> Result<(), Failed>
        ensures written { (n : ℕ) × (n ≤ length (writable has_hello self.old)) × (self.new ≡ written n self.old)
            × Appends (K.taken sink.old) (K.taken sink.new) (take n (writable has_hello self.old))
            × OnOk result (n ≡ length (writable has_hello self.old)) }
        ensures counted { MatchResult result
            (λ _. K.faults sink.new ≡ K.faults sink.old) (λ _. Rises (K.faults sink.old) (K.faults sink.new)) }
        ensures never_falls { K.faults sink.old ≤ K.faults sink.new }
    {
        let (count, done) = write_queue(&mut self.hello, &mut self.fpdus, has_hello, sink);
        self.retire_written(count);
        done
    }
}
