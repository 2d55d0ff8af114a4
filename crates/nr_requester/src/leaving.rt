//! A requester leaves its connection and begins the next one.

ghost use Rattle.std.specs.Prelude.{◌≡◌, ℕ, ◌+◌, ◌^◌, ◌<◌, ◌≤◌, [], ◌++◌, length, map, take, drop, option_map, Some, None, IfOk, IfErr, OnOk, OnErr, List, ◌≢◌};
ghost use Rattle.nr_reduce.specs.declared.call.Refused.TheVariants as refusals;
ghost use Rattle.nr_reduce.specs.Plans.{has_segment, one_if};
ghost use Rattle.nr_reduce.specs.Limits.{credits_max};
ghost use Rattle.nr_reduce.specs.PlansByLists.{plan_by_lists, segment_lengths, write_lengths};
ghost use Rattle.nr_requester.specs.Fed.{fed_bytes};
ghost use Rattle.nr_requester.specs.HeldBytes.{receive_max};
ghost use Rattle.nr_requester.specs.HeldClaims.{OffersOwn};
ghost use Rattle.nr_requester.specs.OpenCalls.{KeepsTickets};
ghost use Rattle.nr_requester.specs.RequesterState.{awaited_call};
ghost use Rattle.nr_requester.specs.Reopening.{stags_for_call, stags_for_calls, reopen_refusal, after_reopen, NextIsOpened, ReopenStands};
ghost use Rattle.nr_requester.specs.Views.{stored_view};
ghost use Rattle.nr_requester.specs.private.Resuming.{AreLeft, AreResuming, IsMadeAgain, IsNextLink, RiseBy, awaited_calls, with_calls};

use crate::again::resume_call;
use crate::outstanding::{OutstandingCall, given_by};
use crate::requester::Requester;
use crate::submitting::{NUMBERS_END, Sent, SentCall};
use nr_endpoint::Endpoint;
use nr_reduce::{Call, Refused};
use nr_xdr::Memory;
use std::alloc::Global;

/// The call, if its owner awaits the answer.
fn awaited(stored: &OutstandingCall) -> Option<&Call>
    ensures { option_map (λ call. call.now) result ≡ awaited_call (stored_view stored.now) }
{
    if stored.is_forgotten {
        return None;
    }
    match &stored.call {
        Some(call) => Some(call),
        None => None,
    }
}

// ---- How many STags the calls need

fn region_if(len: usize) -> u64
    ensures is { (lengths : List ℕ) → length lengths ≡ len → result ≡ one_if (has_segment (Some lengths)) }
    ensures one { result ≤ 1 }
{
    if len == 0 { 0 } else { 1 }
}

/// How many regions the read chunk of a call has.
fn read_regions(stored: &OutstandingCall) -> u64
    ensures is { (payload : List ℕ) → result ≡ one_if (has_segment (Some (plan_by_lists payload stored.now.read_at stored.now.offered).read)) }
    ensures one { result ≤ 1 }
{
    match stored.read_at {
        Some(_) => region_if(stored.offered.as_slices().read.len()),
        None => 0,
    }
}

/// How many regions its write chunk has.
fn write_regions(stored: &OutstandingCall) -> u64
    ensures is { result ≡ one_if (has_segment (write_lengths stored.now.offered.write)) }
    ensures one { result ≤ 1 }
{
    match stored.offered.as_slices().write.first() {
        Some(chunk) => region_if(chunk.len()),
        None => 0,
    }
}

/// How many regions its reply chunk has.
fn reply_regions(stored: &OutstandingCall) -> u64
    ensures is { result ≡ one_if (has_segment (option_map segment_lengths stored.now.offered.reply)) }
    ensures one { result ≤ 1 }
{
    match stored.offered.as_slices().reply {
        Some(segments) => region_if(segments.len()),
        None => 0,
    }
}

/// How many STags a call needs to be sent again.
fn stags_for_call(stored: &OutstandingCall) -> u64
    ensures is { result ≡ stags_for_call (stored_view stored.now) (awaited_call (stored_view stored.now)) }
    ensures few { result ≤ 3 }
{
    match awaited(stored) {
        Some(_) => read_regions(stored) + write_regions(stored) + reply_regions(stored),
        None => 0,
    }
}

fn stags_for_calls(calls: &[OutstandingCall]) -> u64
    requires { length calls.now ≤ credits_max }
    ensures { result ≡ stags_for_calls (map stored_view calls.now) }
{
    let mut sum: u64 = 0;
    'calls: for i in 0..calls.len() {
        sum += stags_for_call(&calls[i]);
    }
    sum
}

// ---- The calls are made again

/// Makes a call again, if its owner awaits the answer, without the call itself. After an `Err` the endpoint may have more.
fn resume_one(
    alloc: Global,
    endpoint: &mut Endpoint,
    credit: u32,
    receive_length: u32,
    stored: &OutstandingCall,
    made: &mut Vec<OutstandingCall>,
) -> Result<(), Memory>
    requires receive { receive_length ≤ receive_max }
    requires live { endpoint.old.link.state.ended ≡ None }
    requires offers { OffersOwn stored.now }
    requires stags { endpoint.old.link.state.memory.next + stags_for_call (stored_view stored.now) (awaited_call (stored_view stored.now)) ≤ 2 ^ 32 }
    ensures { OnOk result (IsMadeAgain credit receive_length stored.now (awaited_call (stored_view stored.now)) endpoint.old endpoint.new made.old.items made.new.items) }
{
    let call = match awaited(stored) {
        Some(call) => call,
        None => return Ok(()),
    };
    let SentCall {
        sent: Sent { lists, claims },
        room,
    } = resume_call(alloc, endpoint, credit, receive_length, call, stored)?;
    let given = given_by(&claims);
    let send = made.as_slice().len() as u64;
    made.push(OutstandingCall {
        xid: stored.xid,
        send,
        call: None,
        is_forgotten: false,
        read_at: stored.read_at,
        offered: lists,
        given,
        claims,
        room,
    })?;
    Ok(())
}

/// Makes all calls again that go on, in their order, without the calls themselves.
fn resume_all(
    alloc: Global,
    endpoint: &mut Endpoint,
    credit: u32,
    receive_length: u32,
    calls: &[OutstandingCall],
    made: &mut Vec<OutstandingCall>,
) -> Result<(), Memory>
    requires receive { receive_length ≤ receive_max }
    requires none { made.old.items ≡ [] }
    requires begun { (next : ℕ) × AreResuming credit receive_length next endpoint.old endpoint.old calls.now 0 [] }
    ensures { OnOk result ((next : ℕ) → AreResuming credit receive_length next endpoint.old endpoint.old calls.now 0 [] → AreResuming credit receive_length next endpoint.old endpoint.new calls.now (length calls.now) made.new.items) }
{
    'calls: for i in 0..calls.len() {
        resume_one(alloc, endpoint, credit, receive_length, &calls[i], made)?;
    }
    Ok(())
}

/// Takes a call out of what is kept of it, if its owner awaits the answer.
fn take_awaited(stored: &mut OutstandingCall) -> Option<Call>
    ensures { result ≡ awaited_call (stored_view stored.old) }
{
    if stored.is_forgotten {
        return None;
    }
    stored.call.take()
}

/// Moves the calls that go on to what was made again of them.
fn move_calls(calls: &mut Vec<OutstandingCall>, made: &mut Vec<OutstandingCall>)
    requires { length made.old.items ≡ length (awaited_calls calls.old.items) }
    ensures { made.new.items ≡ with_calls (awaited_calls calls.old.items) made.old.items }
{
    let mut at = 0;
    'calls: for i in 0..calls.len() {
        if let Some(call) = take_awaited(&mut calls[i]) {
            made[at].call = Some(call);
            at += 1;
        }
    }
}

/// The endpoint of the connection that follows on one, and what is made again of the calls that go on, without the calls themselves.
fn next_link(
    alloc: Global,
    left: &Endpoint,
    credit: u32,
    calls: &[OutstandingCall],
) -> Result<(Endpoint, Vec<OutstandingCall>), Memory>
    requires calls { (next : ℕ) × AreLeft left.now.link.state.receive_queue.receive_length next calls.now }
    requires first { 0 < left.now.link.state.memory.next }
    requires stags { left.now.link.state.memory.next + stags_for_calls (map stored_view calls.now) ≤ 2 ^ 32 }
    ensures { IfOk result (λ r. (next : ℕ) → AreLeft left.now.link.state.receive_queue.receive_length next calls.now → IsNextLink credit left.now.link.state next r.0 calls.now r.1.items) }
{
    let first = NUMBERS_END - left.regions().stags_left();
    let receive_length = left.receive_length() as u32;
    let mut endpoint = Endpoint::open_again(alloc, 1, first, left.terms(), left.last_agreed())?;
    let mut made = Vec::new(alloc);
    match resume_all(
        alloc,
        &mut endpoint,
        credit,
        receive_length,
        calls,
        &mut made,
    ) {
        Ok(()) => Ok((endpoint, made)),
        Err(memory) => {
            drop(endpoint);
            drop(made);
            Err(memory)
        }
    }
}

impl Requester {
    /// Why it doesn't leave its connection, if it doesn't.
    fn reopen_refusal(&self) -> Option<Refused>
        ensures refusal { result ≡ reopen_refusal self.now.state }
        ensures live { result ≡ None → self.now.state.side.ended ≡ None }
        ensures left { result ≡ None → self.now.state.side.memory.next + stags_for_calls self.now.state.outstanding ≤ 2 ^ 32 }
    {
        if let Some(end) = self.end() {
            return Some(Refused::Ended(end));
        }
        let left = self.endpoint.regions().stags_left();
        let need = stags_for_calls(self.outstanding.as_slice());
        if left < need {
            return Some(Refused::Spent { left, need });
        }
        None
    }

    /// Begins the next connection, unless memory runs out.
    fn begin_next(&mut self) -> Result<(), Memory>
        requires { self.old.state.side.memory.next + stags_for_calls self.old.state.outstanding ≤ 2 ^ 32 }
        ensures state { OnOk result (self.new ≡ after_reopen self.old self.new.staging) }
        ensures rising { RiseBy self.old.state.outstanding }
        ensures err { OnErr result (self.new ≡ self.old) }
    {
        let (endpoint, mut made) = next_link(
            self.alloc,
            &self.endpoint,
            self.wished,
            self.outstanding.as_slice(),
        )?;
        move_calls(&mut self.outstanding, &mut made);
        self.outstanding = made;
        self.endpoint = endpoint;
        self.sent = 0;
        self.sends = 0;
        self.grant = 1;
        Ok(())
    }

    /// Leaves the present connection and begins the next one, with a hello. Forgotten and revoked calls are dropped; each other outstanding
    /// call's buffers are registered under new STags, those that the server fills as zeros, and its Send waits to be sent again under its xid
    /// as soon as the new connection's grant allows it (`feed`). Answers that came and were not taken stay. Refused, in this order: the link
    /// has ended; too few STags are left. Or memory ran out. A refused requester doesn't change. Its output has to go to the new connection,
    /// whose server has to agree on the lengths of Sends that the earlier ones did.
    pub fn reopen(&mut self) -> Result<(), Refused>
        requires { 0 < self.old.state.side.terms.number }
        ensures accepted { OnOk result (reopen_refusal self.old.state ≡ None) }
        ensures reopened { OnOk result (self.new ≡ after_reopen self.old self.new.staging) }
        ensures refused { IfErr result (λ e. e ≢ refusals.Memory → reopen_refusal self.old.state ≡ Some e) }
        ensures err { OnErr result (self.new ≡ self.old) }
        ensures stands { OnOk result (ReopenStands self.old self.new) }
        ensures opens { OnOk result (NextIsOpened self.old) }
        ensures tickets { OnOk result (KeepsTickets self.old.state self.new.state) }
        ensures fed { OnOk result (fed_bytes self.new ≡ 0) }
    {
        self.facts();
        if let Some(refused) = self.reopen_refusal() {
            return Err(refused);
        }
        match self.begin_next() {
            Ok(()) => Ok(()),
            Err(_) => Err(Refused::Memory),
        }
    }
}
