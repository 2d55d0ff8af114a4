//! What a segment does that doesn't end the side.

ghost use Rattle.std.specs.Prelude.{◌≡◌, ◌+◌, ◌^◌, ◌<◌, ◌≤◌, ◌==◌, if◌then◌else◌, length, true, None, OnOk, OnErr};
ghost use Rattle.nr_wire.specs.Segment.{IsSupported, payload_in};
ghost use Rattle.nr_wire.specs.Segment.Segment.{Tagged, Untagged};
ghost use Rattle.nr_wire.specs.View.{segment as plain};
ghost use Rattle.nr_link.specs.SegmentFaults.{is_expected};
ghost use Rattle.nr_endpoint.specs.Judging.{expected_response, segment_end, with_effect, with_read_response, next_frame, after_frame};
ghost use Rattle.nr_endpoint.specs.SegmentEnds.{IsUntagged, with_next_tagged, RequestIsFine, SendIsFine};
ghost use Rattle.nr_endpoint.specs.ReceiveQueue.{send_segment};
ghost use Rattle.nr_endpoint.specs.SendQueue.{output_len};

use crate::faults::{kind_of, read_request};
use crate::link::LinkSide;
use crate::reads::{advance, is_expected};
use crate::receive_queue::named_by;
use nr_link::End;
use nr_wire::Segment;
use nr_wire::constants::{OPCODE_READ_REQUEST, OPCODE_READ_RESPONSE};
use nr_xdr::Memory;

impl LinkSide {
    /// The effect of a frame's untagged segment that doesn't end the side. `Err` only for a Read Request, whose response takes memory; it changes nothing.
    pub fn take(&mut self, segment: &Segment, frame: &[u8]) -> Result<(), Memory>
        requires untagged { IsUntagged (plain segment.now) }
        requires supported { IsSupported (plain segment.now) }
        requires size { length (payload_in (plain segment.now)) + 1 ≤ length frame.now }
        requires within { self.old.state.place + length frame.now ≤ 2 ^ 62 }
        requires lives { segment_end self.old.state (next_frame self.old.state frame.now) (plain segment.now) ≡ None }
        ensures ok { OnOk result (self.new ≡ record self.old { state = after_frame (next_frame self.old.state frame.now) (with_effect (plain segment.now) self.old.state) }) }
        ensures err { OnErr result (self.new ≡ self.old) }
        ensures queued { OnErr result (output_len self.old.state.send_queue < output_len (with_effect (plain segment.now) self.old.state).send_queue) }
    {
        match *segment {
            Segment::Tagged { .. } => unreachable!(),
            Segment::Untagged {
                last,
                opcode,
                word,
                payload,
                ..
            } => {
                if opcode == OPCODE_READ_REQUEST {
                    return self.apply_request(payload, frame);
                }
                self.apply_send(named_by(opcode, word), last, payload, frame);
                Ok(())
            }
        }
    }

    /// A tagged segment ends the side, or its payload goes into its region, which is looked up once: whether a Read Response is expected
    /// needs no region. `Err` only if the side writes something last; it changes nothing.
    #[tactic(auto, unfolding(crate::specs::Judging::with_effect, crate::specs::SegmentEnds::tagged_end))]
    pub fn receive_tagged(
        &mut self,
        last: bool,
        opcode: u8,
        stag: u32,
        to: u64,
        payload: &[u8],
        frame: &[u8],
    ) -> Result<(), Memory>
        requires some { 0 < length frame.now }
        requires within { self.old.state.place + length frame.now ≤ 2 ^ 62 }
        ensures ok { OnOk result (self.new ≡ record self.old { state = with_next_tagged self.old.state frame.now last opcode stag to payload.now }) }
        ensures err { OnErr result (self.new ≡ self.old) }
        ensures queued { OnErr result (output_len self.old.state.send_queue < output_len (with_next_tagged self.old.state frame.now last opcode stag to payload.now).send_queue) }
    {
        let len = payload.len() as u64;
        if opcode == OPCODE_READ_RESPONSE && !is_expected(&self.reads, last, stag, to, len) {
            let end = self.unexpected(opcode, stag, to, len);
            return self.end_with(end);
        }
        let placed = self.regions.place(kind_of(opcode), stag, to, payload);
        if let Err(why) = placed {
            return self.end_with(End::Denied {
                stag,
                offset: to,
                why,
            });
        }
        self.count_tagged(last, opcode, stag, to, len, frame);
        Ok(())
    }

    /// The frame of a tagged segment whose payload was placed. The last segment of a Read Response ends the Read Request that was open
    /// longest.
    fn count_tagged(&mut self, last: bool, opcode: u8, stag: u32, to: u64, len: u64, frame: &[u8])
        requires expected { opcode ≡ OPCODE_READ_RESPONSE → is_expected (expected_response self.old.state.reads) last stag to len ≡ true }
        requires some { 0 < length frame.now }
        requires within { self.old.state.place + length frame.now ≤ 2 ^ 62 }
        ensures state { self.new ≡ record self.old { state = after_frame (next_frame self.old.state frame.now) (if opcode == OPCODE_READ_RESPONSE then with_read_response last len self.old.state else self.old.state) } }
    {
        if opcode == OPCODE_READ_RESPONSE {
            if last {
                self.receive_queue.read_done();
            }
            advance(&mut self.reads, last, stag, to, len);
        }
        self.last = self.place;
        self.place += frame.len() as u64;
    }

    /// A Read Request is answered with the present bytes (RFC 5040 section 5.2). An `Err` changes nothing.
    fn apply_request(&mut self, payload: &[u8], frame: &[u8]) -> Result<(), Memory>
        requires fine { RequestIsFine self.old.state payload.now }
        requires some { 0 < length frame.now }
        requires within { self.old.state.place + length frame.now ≤ 2 ^ 62 }
        ensures ok { OnOk result (self.new ≡ record self.old { state = after_frame (next_frame self.old.state frame.now) (with_effect (Untagged true OPCODE_READ_REQUEST 0 0 0 0 payload.now) self.old.state) }) }
        ensures err { OnErr result (self.new ≡ self.old) }
    {
        let request = read_request(payload);
        match self
            .regions
            .fetch(request.stag, request.to, u64::from(request.size))
        {
            Ok(bytes) => self
                .send_queue
                .respond(request.sink, request.sink_to, bytes)?,
            Err(_) => unreachable!(),
        }
        self.receive_queue.count_request();
        self.last = self.place;
        self.place += frame.len() as u64;
        Ok(())
    }

    /// One more segment of a Send, which names this STag, or none, if it is the last. Takes no memory.
    fn apply_send(&mut self, named: Option<u32>, last: bool, payload: &[u8], frame: &[u8])
        requires fine { SendIsFine self.old.state last payload.now }
        requires size { length payload.now + 1 ≤ length frame.now }
        requires within { self.old.state.place + length frame.now ≤ 2 ^ 62 }
        ensures state { self.new ≡ record self.old { state = after_frame (next_frame self.old.state frame.now) (with_effect (send_segment named last payload.now) self.old.state) } }
    {
        self.receive_queue.receive(named, last, payload);
        self.last = self.place;
        self.place += frame.len() as u64;
    }
}
