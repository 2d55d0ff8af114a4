//! How many calls and receives a responder has, and how many bytes it keeps.

ghost use Rattle.std.specs.Prelude.{◌≡◌, ◌≢◌, ℕ, ◌+◌, ◌*◌, ◌^◌, ◌≤◌, List, length, sum_by, None, Some};
ghost use Rattle.nr_link.specs.declared.end.End.TheVariants as ends;
ghost use Rattle.nr_wire.specs.Constants.{UNITS_MAX};
ghost use Rattle.nr_link.specs.Agreement.{IsSendLimit};
ghost use Rattle.nr_link.specs.Limits.{send_unit};
ghost use Rattle.nr_link.specs.SegmentFaults.{is_begun};
ghost use Rattle.nr_reduce.specs.declared.mark.LinkParameters.{LinkParameters};
ghost use Rattle.nr_reduce.specs.declared.mark.Mark.{Mark};
ghost use Rattle.nr_reduce.specs.Plans.{one_if};
ghost use Rattle.nr_reduce.specs.Run.{server};
ghost use Rattle.nr_reduce.specs.ServerState.{receives_in_use};
ghost use Rattle.nr_responder.specs.HeldBytes.{held_unit, IsBounded, ListsFit};
ghost use Rattle.nr_responder.specs.ResponderState.{bytes_held_by, end_of, lists_held, unsent};
ghost use Rattle.nr_responder.specs.Rooms.{payload_room};
ghost use Rattle.nr_responder.specs.Sound.{payload_len, room_len, state_of, with_staging, ServerEndInvariant};
ghost use Rattle.nr_responder.specs.Standing.{CountsCalls, RepresentsSome, ResponderRepresents};

use crate::call::{OpenSink, Pending, ReadEntry, Ready};
use crate::room::{Payload, Room};
use crate::server_end::ServerEnd;
use nr_xdr::Octets;
use std::collections::VecDeque;
use std::mem::size_of;

/// The bytes of a room, if there is one.
fn room_len(room: &Option<Room>) -> usize
    ensures is { result ≡ room_len room.now }
    ensures most { result ≤ payload_room }
{
    match room {
        Some(room) => room.len(),
        None => 0,
    }
}

/// The bytes of a payload, if there is one.
fn payload_len(payload: &Option<Payload>) -> usize
    ensures is { result ≡ payload_len payload.now }
    ensures most { result ≤ payload_room }
{
    match payload {
        Some(payload) => payload.len(),
        None => 0,
    }
}

/// The bytes of `count` receives of a length.
fn receives_len(each: usize, count: usize) -> u128
    requires each { each ≤ send_unit * UNITS_MAX }
    ensures is { result ≡ each * count }
    ensures most { result ≤ send_unit * UNITS_MAX * count }
{
    each as u128 * count as u128
}

/// One room more, after `count` rooms.
fn add_room(total: u128, room: usize, count: usize) -> u128
    requires total { total ≤ payload_room * count }
    requires room { room ≤ payload_room }
    ensures sum { result ≡ total + room }
    ensures most { result ≤ payload_room * (count + 1) }
{
    total + room as u128
}

/// The bytes of the rooms of calls that are read.
fn rooms_len(calls: &[Pending]) -> u128
    ensures sum { result ≡ sum_by (λ c. room_len c.room) calls.now }
    ensures most { result ≤ payload_room * length calls.now }
{
    let mut total: u128 = 0;
    'calls: for i in 0..calls.len() {
        let room = room_len(&calls[i].room);
        total = add_room(total, room, i);
    }
    total
}

/// The bytes of the payloads of calls that are ready, if they were read.
fn payloads_len(ready: &VecDeque<Ready>) -> u128
    ensures sum { result ≡ sum_by (λ q. payload_len q.payload) ready.now.items }
    ensures most { result ≤ payload_room * length ready.now.items }
{
    let mut total: u128 = 0;
    'ready: for i in 0..ready.len() {
        match ready.get(i) {
            Some(first) => {
                let room = payload_len(&first.payload);
                total = add_room(total, room, i);
            }
            None => unreachable!(),
        }
    }
    total
}

fn one_if(condition: bool) -> usize
    ensures { result ≡ one_if condition }
{
    if condition { 1 } else { 0 }
}

/// The sizes of items of lists: a call that isn't answered, one that is ready, the receive of a message whose answer hasn't left and the end of its
/// Send, a Read Request, and a sink.
const CALL_SIZE: u128 = 184;

const _: () = prove!(size_of::<Pending>() == 184);

const READY_SIZE: u128 = 72;

const _: () = prove!(size_of::<Ready>() == 72);

const UNSENT_SIZE: u128 = 32;

const _: () = prove!(size_of::<(Octets, usize)>() == 32);

const READ_SIZE: u128 = 40;

const _: () = prove!(size_of::<ReadEntry>() == 40);

const SINK_SIZE: u128 = 32;

const _: () = prove!(size_of::<OpenSink>() == 32);

impl ServerEnd {
    /// How many calls are pending.
    pub fn unanswered(&self) -> usize
        ensures exact { result ≡ length self.now.calls.items }
        ensures of_run { end_of (state_of self.now) ≢ Some ends.Memory → CountsCalls (state_of self.now) result }
    {
        self.calls.len()
    }

    /// How many receives are in use.
    pub fn in_use(&self) -> usize
        requires sound { ServerEndInvariant self.now }
        ensures of_run { end_of (state_of self.now) ≡ None → (opened : LinkParameters) (link : ℕ) (run : List Mark) → ResponderRepresents opened link run (state_of self.now) → result ≡ receives_in_use (server opened link run).state }
        ensures exact { result ≡ length self.now.calls.items + (unsent self.now.endpoint.link.state + one_if (is_begun self.now.endpoint.link.state.receive_queue.received.begun)) }
    {
        self.in_use_inner()
    }

    fn in_use_inner(&self) -> usize
        requires sound { ServerEndInvariant self.now }
        ensures { result ≡ length self.now.calls.items + (unsent self.now.endpoint.link.state + one_if (is_begun self.now.endpoint.link.state.receive_queue.received.begun)) }
    {
        self.endpoint.facts();
        let begun = one_if(self.endpoint.is_send_begun());
        self.calls.len() + self.used.len() + begun
    }

    /// The maximum length of a Send in bytes: from the client, and from this side.
    pub fn agreed(&self) -> (u32, u32)
        ensures up { result.0 ≡ self.now.endpoint.link.state.agreed.up }
        ensures down { result.1 ≡ self.now.endpoint.link.state.agreed.down }
        ensures limits { RepresentsSome (state_of self.now) → IsSendLimit result.0 × IsSendLimit result.1 }
        ensures of_run { end_of (state_of self.now) ≢ Some ends.Memory → (opened : LinkParameters) (link : ℕ) (run : List Mark) → ResponderRepresents opened link run (state_of self.now) →
            (result.0 ≡ (server opened link run).state.up_max) × (result.1 ≡ (server opened link run).state.down_max) }
    {
        self.endpoint.agreed()
    }

    /// Whether a reply may be a Send with Invalidate.
    pub fn invalidates(&self) -> bool
        ensures exact { result ≡ self.now.endpoint.link.state.agreed.invalidates }
        ensures of_run { end_of (state_of self.now) ≢ Some ends.Memory → (opened : LinkParameters) (link : ℕ) (run : List Mark) → ResponderRepresents opened link run (state_of self.now) →
            result ≡ (server opened link run).state.invalidates }
    {
        self.endpoint.invalidates()
    }

    /// How many bytes the lists have.
    fn lists_len(&self) -> u128
        requires sound { ServerEndInvariant self.now }
        ensures is { result ≡ lists_held (state_of self.now) }
        ensures small { result ≤ 2 ^ 80 }
    {
        CALL_SIZE * self.calls.len() as u128
            + (READY_SIZE * self.ready.len() as u128
                + (UNSENT_SIZE * self.used.len() as u128
                    + (READ_SIZE * self.reads.len() as u128
                        + SINK_SIZE * self.sinks.len() as u128)))
    }

    /// How many bytes are kept: those of all byte buffers, and of the lists.
    pub fn held(&self) -> u128
        requires sound { ServerEndInvariant self.now }
        requires bounded { IsBounded (with_staging self.now) }
        ensures is { result ≡ bytes_held_by (with_staging self.now) }
        ensures bound { result ≤ held_unit * (self.now.credits.receives + 4) }
        ensures rooms { (with_staging self.now).rooms ≤ payload_room * (2 * length (with_staging self.now).side.calls) }
        ensures lists { ListsFit (state_of self.now) }
    {
        self.endpoint.facts();
        let lent = self.calls.len() + self.used.len();
        let rooms = rooms_len(self.calls.as_slice()) + payloads_len(&self.ready);
        let each = self.endpoint.receive_length();
        self.endpoint.held() + receives_len(each, lent) + rooms + self.lists_len()
    }
}
