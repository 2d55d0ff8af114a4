//! Read Requests at the end of the output (RFC 5040 section 4.4).

ghost use Rattle.std.specs.Prelude.{◌≡◌, ◌+◌, ◌*◌, ◌^◌, ◌<◌, ◌≤◌, ◌++◌, length, OnOk, OnErr};
ghost use Rattle.arrayvec.specs.ArrayVec.{array_vec_len};
ghost use Rattle.nr_xdr.specs.Item.{word, hyper};
ghost use Rattle.nr_link.specs.Output.{read_request};
ghost use Rattle.nr_endpoint.specs.SendQueue.{with_request, with_send};
ghost use Rattle.nr_endpoint.specs.Requesting.{last_request_after, requests_output, with_read_requests};

use crate::constants::{FRAMING_MAX, OPEN_READS_MAX, READ_REQUEST_LEN};
use crate::framing::{Operation, append_segment, append_segments, cut_room};
use crate::output::Output;
use crate::send_queue::{SendQueue, reserve_ends};
use arrayvec::ArrayVec;
use nr_wire::Segment;
use nr_wire::constants::{OPCODE_READ_REQUEST, QUEUE_READ_REQUEST};
use nr_xdr::Memory;

/// The room that a Read Request takes at most.
pub const REQUEST_ROOM: usize = READ_REQUEST_LEN + FRAMING_MAX;

/// A Read Request (RFC 5040 section 4.4): `len` bytes of the peer's region `stag`, from byte `to` on, into the own region `sink`,
/// from byte `at` on.
#[derive(Clone, Copy)]
pub struct RemoteRead {
    /// The own region.
    pub sink: u32,
    /// The offset of the first byte in the own region. Offset and length are below 2^64 in sum.
    pub at: u64,
    /// How many bytes are read.
    pub len: u32,
    /// The peer's region.
    pub stag: u32,
    /// The offset of the first byte in the peer's region.
    pub to: u64,
}

/// Puts some bytes at the end. There is room for them.
fn append(out: &mut ArrayVec<u8, READ_REQUEST_LEN>, bytes: &[u8])
    requires { array_vec_len out.old + length bytes.now ≤ READ_REQUEST_LEN }
    ensures bytes { out.new.items ≡ out.old.items ++ bytes.now }
    ensures len { array_vec_len out.new ≡ array_vec_len out.old + length bytes.now }
{
    if out.try_extend_from_slice(bytes).is_err() {
        unreachable!();
    }
}

/// Puts an address in a region at the end: its STag and an offset.
#[tactic(auto, unfolding(nr_xdr::specs::Item::word, nr_xdr::specs::Item::hyper))]
fn append_address(out: &mut ArrayVec<u8, READ_REQUEST_LEN>, stag: u32, to: u64)
    requires { array_vec_len out.old + 12 ≤ READ_REQUEST_LEN }
    ensures bytes { out.new.items ≡ out.old.items ++ (word stag ++ hyper to) }
    ensures len { array_vec_len out.new ≡ array_vec_len out.old + 12 }
{
    append(out, &stag.to_be_bytes());
    append(out, &to.to_be_bytes());
}

/// The payload of a Read Request.
#[tactic(auto, unfolding(nr_xdr::specs::Item::word))]
fn request_payload(read: &RemoteRead) -> ArrayVec<u8, READ_REQUEST_LEN>
    ensures { result.items ≡ word read.now.sink ++ (hyper read.now.at ++ (word read.now.len ++ (word read.now.stag ++ hyper read.now.to))) }
{
    let mut out = ArrayVec::new();
    append_address(&mut out, read.sink, read.at);
    append(&mut out, &read.len.to_be_bytes());
    append_address(&mut out, read.stag, read.to);
    out
}

/// Puts a Read Request at the end, for which there is room.
#[tactic(auto, unfolding(nr_link::specs::Output::read_request))]
pub fn append_request(out: &mut Output, msn: u32, read: &RemoteRead)
    requires room { REQUEST_ROOM ≤ out.old.spare }
    ensures bytes { out.new.items ≡ out.old.items ++ read_request msn read.now.sink read.now.at read.now.len read.now.stag read.now.to }
    ensures spare { out.old.spare ≤ out.new.spare + REQUEST_ROOM }
    ensures kept { out.new.kept ≡ out.old.kept }
{
    let payload = request_payload(read);
    let segment = Segment::Untagged {
        last: true,
        opcode: OPCODE_READ_REQUEST,
        word: 0,
        queue: QUEUE_READ_REQUEST,
        msn,
        offset: 0,
        payload: payload.as_slice(),
    };
    append_segment(out, &segment);
}

/// Puts Read Requests at the end, for which there is room, numbered from the one after `last` on; answers the last number.
pub fn append_requests(out: &mut Output, last: u32, reads: &[RemoteRead]) -> u32
    requires room { REQUEST_ROOM * length reads.now ≤ out.old.spare }
    ensures bytes { out.new.items ≡ out.old.items ++ requests_output last reads.now }
    ensures last { result ≡ last_request_after last reads.now }
    ensures kept { out.new.kept ≡ out.old.kept }
{
    let mut msn = last;
    for read in reads {
        msn = msn.wrapping_add(1);
        append_request(out, msn, read);
    }
    msn
}

impl SendQueue {
    /// A Read Request. An `Err` changes nothing.
    pub fn request(&mut self, read: &RemoteRead) -> Result<(), Memory>
        ensures ok { OnOk result (self.new ≡ with_request read.now.sink read.now.at read.now.len read.now.stag read.now.to self.old) }
        ensures err { OnErr result (self.new ≡ self.old) }
    {
        self.fpdus.reserve(REQUEST_ROOM)?;
        let msn = self.last_request.wrapping_add(1);
        append_request(&mut self.fpdus, msn, read);
        self.last_request = msn;
        Ok(())
    }

    /// Read Requests. An `Err` changes nothing.
    pub fn request_all(&mut self, reads: &[RemoteRead]) -> Result<(), Memory>
        requires count { length reads.now ≤ OPEN_READS_MAX }
        ensures ok { OnOk result (self.new ≡ with_read_requests reads.now self.old) }
        ensures err { OnErr result (self.new ≡ self.old) }
    {
        self.fpdus.reserve(REQUEST_ROOM * reads.len())?;
        self.last_request = append_requests(&mut self.fpdus, self.last_request, reads);
        Ok(())
    }

    /// A Send, and then Read Requests. An `Err` changes nothing.
    #[tactic(auto, using(crate::proofs::Cuts::carried_send))]
    pub fn send_and_request_all(
        &mut self,
        message: &[u8],
        reads: &[RemoteRead],
    ) -> Result<(), Memory>
        requires size { length message.now < 2 ^ 32 }
        requires count { length reads.now ≤ OPEN_READS_MAX }
        ensures ok { OnOk result (self.new ≡ with_read_requests reads.now (with_send message.now self.old)) }
        ensures err { OnErr result (self.new ≡ self.old) }
    {
        let msn = self.last_send.wrapping_add(1);
        reserve_ends(&mut self.send_ends, self.held.len())?;
        self.fpdus
            .reserve(cut_room(message) + REQUEST_ROOM * reads.len())?;
        append_segments(&mut self.fpdus, Operation::Send { msn }, message);
        self.send_ends.push_back_reserved(self.fpdus.len());
        self.last_send = msn;
        self.last_request = append_requests(&mut self.fpdus, self.last_request, reads);
        Ok(())
    }
}
