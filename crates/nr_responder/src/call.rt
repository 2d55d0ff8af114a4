//! The calls that a responder has not answered.

ghost use Rattle.std.specs.Prelude.{◌≡◌, ◌≢◌, ℕ, ◌==◌, ◌<◌, ◌≤◌, length, drop, take, get_or, map, None, Some, IfSome, true, vec_capacity};
ghost use Rattle.std.specs.List.{list_any, remove};
ghost use Rattle.nr_reduce.specs.ServerReads.{is_read};
ghost use Rattle.nr_header.specs.Header.{no_lists};
ghost use Rattle.nr_reduce.specs.declared.item.Item.{Item};
ghost use Rattle.nr_responder.specs.Sound.{InBuffer};
ghost use Rattle.nr_responder.specs.Views.{call_view, read_view};

use crate::room::{Payload, Room};
use nr_header::{ListsRoom, read_header_into};
use nr_reduce::Item;
use nr_regions::Registration;
use nr_rpc::CallTarget;
use nr_xdr::Octets;
use std::marker::Model;

/// A call whose Send is complete, and which isn't answered. Its message is the first `len` bytes of its receive buffer, and has its chunk
/// lists. If its stream is `inline`, it stands in the message from `stream_at` on; else it is read.
#[derive(Drop)]
pub struct Pending {
    /// The number of its Send, from 1 on.
    pub number: u64,
    /// Its transaction ID (XID).
    pub xid: u32,
    /// The receive buffer of its Send.
    pub buf: Octets,
    /// The length of its message in bytes.
    pub len: usize,
    /// The offset of its stream in the message.
    pub stream_at: usize,
    /// Whether its stream stands in the message.
    pub inline: bool,
    /// The room of its payload, while its chunks are read.
    pub room: Option<Room>,
    /// How many bytes the buffer of its sink has outside the region, if its payload is completed in that buffer; else 0.
    pub around: usize,
    /// What the head of its inline stream asks for, once that was read: `Some(None)` if it is of another RPC version.
    pub target: Option<Option<CallTarget>>,
    /// The item of its inline stream, once that was looked for: `Some(None)` if it has none.
    pub item: Option<Option<Item>>,
}

/// A call that waits to be executed, with its payload if that was read with its chunks; else it is the stream of its Send.
#[derive(Drop)]
pub struct Ready {
    /// Its transaction ID (XID).
    pub xid: u32,
    /// Its payload, if that was put together of its chunks.
    pub payload: Option<Payload>,
}

/// A Read Request that is open, or waits until fewer are: `size` bytes of the client's region `stag`, from offset `to` on, into the region
/// `sink`, from offset `at` on; for the call whose Send has this number, at a position of its read list.
#[derive(Clone, Copy)]
pub struct ReadEntry {
    /// The number of the Send of its call.
    pub number: u64,
    /// The position of the read list to which it belongs (RFC 8166 section 3.4.4).
    pub position: u32,
    /// The STag of the own region into which is read.
    pub sink: u32,
    /// The offset in that region of its first byte.
    pub at: u32,
    /// How many bytes are read.
    pub size: u32,
    /// The client's region.
    pub stag: u32,
    /// The offset in the client's region of its first byte.
    pub to: u64,
}

/// The region into which the entries of a read list at a position are read, for the call whose Send has this number.
#[derive(Drop)]
pub struct OpenSink {
    /// The number of the Send of its call.
    pub number: u64,
    /// The position of the entries that are read into it (RFC 8166 section 3.4.4).
    pub position: u32,
    /// The region.
    pub registration: Registration,
}

/// A call that waits to be executed. It goes back to the responder that delivered it, and can't be copied. Contracts see it as its
/// transaction ID (XID).
#[derive(Drop)]
pub struct CallId {
    xid: u32,
}

impl Model for CallId {
    ghost use Rattle.std.specs.Prelude.{ℕ};
    ghost use Rattle.std.specs.Coded.{coded_ℕ};

    ghost Value = { ℕ };

    ghost coded = { coded_ℕ };

    ghost view = { λ c. c.xid };
}

impl CallId {
    pub(crate) fn new(xid: u32) -> CallId
        ensures { result ≡ xid }
    {
        CallId { xid }
    }

    /// The transaction ID (XID) of the call.
    pub fn xid(&self) -> u32
        ensures { result ≡ self.now }
    {
        self.xid
    }
}

/// How a call was answered.
#[derive(Clone, Copy, Debug, PartialEq, Eq)]
pub enum Sent {
    /// By RDMA_MSG: the stream of the reply is in the message.
    Inline,
    /// By RDMA_NOMSG: the stream of the reply is in the reply chunk (RFC 8166 section 3.5.3).
    Long,
    /// By ERR_CHUNK: the offer of the call doesn't hold the reply (RFC 8166 section 4.5.3).
    Chunk,
}

/// Whether one of the calls has this xid.
pub(crate) fn has_xid(calls: &[Pending], xid: u32) -> bool
    ensures { result ≡ list_any (λ c. c.xid == xid) calls.now }
{
    calls.iter().any(|c| c.xid == xid)
}

/// Whether the Send of one of the calls has this number.
pub(crate) fn has_number(calls: &[Pending], number: u64) -> bool
    ensures { result ≡ list_any (λ c. c.number == number) calls.now }
{
    calls.iter().any(|c| c.number == number)
}

/// Takes a call out of the list, and gives the receive buffer of its Send.
pub(crate) fn take_receive(calls: &mut Vec<Pending>, at: usize) -> Octets
    requires { at < length calls.old.items }
    ensures items { calls.new.items ≡ remove calls.old.items at }
    ensures buffer { (d : Pending) → result ≡ (get_or calls.old.items at d).buf }
    ensures capacity { vec_capacity calls.new ≡ vec_capacity calls.old }
{
    calls.remove(at).buf
}

fn has_read(reads: &[ReadEntry], number: u64) -> bool
    ensures { result ≡ list_any (λ r. r.number == number) reads.now }
{
    reads.iter().any(|r| r.number == number)
}

/// Whether nothing is left to be read for the call whose Send has this number.
pub(crate) fn is_read(reads: &[ReadEntry], number: u64) -> bool
    ensures { result ≡ is_read (map read_view reads.now) number }
{
    !has_read(reads, number)
}

/// The place of the first call with this xid.
pub(crate) fn place_of(calls: &[Pending], xid: u32) -> Option<usize>
    ensures some { IfSome result (λ at. (at < length calls.now) × ((d : Pending) → (get_or calls.now at d).xid ≡ xid)) }
    ensures none { result ≡ None → (k : ℕ) (d : Pending) → k < length calls.now → (get_or calls.now k d).xid ≢ xid }
{
    'calls: for i in 0..calls.len() {
        if calls[i].xid == xid {
            return Some(i);
        }
    }
    None
}

/// The item of a call whose stream stands in its message, if it was found there.
pub(crate) fn inline_item(call: &Pending) -> Option<Item>
    ensures some { IfSome result (λ i. (call.now.inline ≡ true) × (call.now.item ≡ Some (Some i))) }
    ensures none { result ≡ None → (i : Item) → call.now.inline ≡ true → call.now.item ≡ Some (Some i) → ⊥ }
{
    if !call.inline {
        return None;
    }
    match call.item {
        Some(item) => item,
        None => None,
    }
}

/// Puts the lists of a call's message into a room: that message was read before.
pub(crate) fn lists_again(call: &Pending, room: &mut ListsRoom)
    requires call { InBuffer call.now }
    requires room { room.old ≡ no_lists }
    ensures { room.new ≡ (call_view call.now).lists }
{
    match read_header_into(stream_of(&call.buf, call.len, 0), room) {
        Ok(_) => (),
        Err(_) => unreachable!(),
    }
}

/// The bytes of a message from a place on.
pub(crate) fn stream_of(buf: &Octets, len: usize, at: usize) -> &[u8]
    requires len { len ≤ length buf.now }
    requires at { at ≤ len }
    ensures { result.now ≡ drop at (take len buf.now) }
{
    let (message, _) = buf.as_slice().split_at(len);
    let (_, stream) = message.split_at(at);
    stream
}
