//! One side of a link: what each frame of the peer makes of it.

ghost use Rattle.std.specs.Prelude.{◌≡◌, ◌≢◌, ◌+◌, ◌^◌, ◌<◌, ◌≤◌, [], if◌then◌else◌, length, Some, OnOk, OnErr, IfOk};
ghost use Rattle.std.specs.Bool.{OnFalse};
ghost use Rattle.std.specs.FinMap.{empty};
ghost use Rattle.nr_wire.specs.Stream.{IsFrame};
ghost use Rattle.nr_wire.specs.Segment.{IsSupported, payload_in};
ghost use Rattle.nr_wire.specs.View.{segment as plain};
ghost use Rattle.nr_wire.specs.Hello.{hello_of};
ghost use Rattle.nr_regions.specs.RegisteredMemory.{initial_memory};
ghost use Rattle.nr_link.specs.declared.end.End.TheVariants as ends;
ghost use Rattle.nr_endpoint.specs.LinkState.{initial_state};
ghost use Rattle.nr_endpoint.specs.SendQueue.{output_len};
ghost use Rattle.nr_endpoint.specs.SegmentEnds.{IsUntagged};
ghost use Rattle.nr_endpoint.specs.Judging.{with_end_of, with_next_segment, with_fpdu, with_hello_from, has_other_sizes, with_other_sizes, with_agreement, with_frame, after_frame, next_frame, next_segment};
ghost use Rattle.nr_endpoint.specs.Hellos.{own_private};

use crate::frames::{hello_in_frame, segment_in_frame};
use crate::hellos::{
    Private, client_heard, first_client, first_private, has_same_sizes, own_private,
    receive_length, received_max, side_agreement, takes_invalidate,
};
use crate::reads::Reads;
use crate::receive_queue::ReceiveQueue;
use crate::send_queue::SendQueue;
use nr_link::constants::{REASON_SIZES, SEND_UNIT};
use nr_link::{Agreement, End, SideTerms};
use nr_regions::{Regions, Right};
use nr_wire::{Awaited, Segment, Side};
use nr_xdr::{Memory, Octets};
use std::alloc::Global;
use std::marker::Model;

/// One side of a link.
#[derive(Drop)]
pub struct LinkSide {
    pub(crate) side: Side,
    pub(crate) has_hello: bool,
    pub(crate) last: u64,
    pub(crate) place: u64,
    pub(crate) ended: Option<End>,
    pub(crate) receive_queue: ReceiveQueue,
    pub(crate) reads: Reads,
    pub(crate) regions: Regions,
    pub(crate) send_queue: SendQueue,
    pub(crate) terms: SideTerms,
    pub(crate) private: Private,
    pub(crate) agreed: Agreement,
    pub(crate) message_max: u64,
    // The number of the link's client, or 0.
    pub(crate) client: u64,
    // What the last hello on an earlier link agreed on.
    pub(crate) earlier: Option<Agreement>,
}

impl Model for LinkSide {
    ghost use Rattle.std.specs.Prelude.{map};
    ghost use Rattle.nr_endpoint.specs.EndpointState.{LinkView};
    ghost use Rattle.nr_endpoint.specs.Codes.{link_view_code};

    ghost Value = { LinkView };

    ghost coded = { link_view_code };

    ghost use Rattle.nr_endpoint.specs.Views.{expected};
    ghost use Rattle.nr_endpoint.specs.Counted.{IsCounted};

    ghost view = { λ l. record { state = record { side = l.side; has_hello = l.has_hello; last = l.last; place = l.place; ended = l.ended; receive_queue = l.receive_queue; reads = map expected l.reads.items; memory = l.regions.memory; send_queue = l.send_queue; terms = l.terms; private = l.private.items; agreed = l.agreed; message_max = l.message_max; client = l.client; earlier = l.earlier }; room = l.regions.room; outside = l.regions.outside } };

    ghost invariant = { λ l. IsCounted l.terms l.has_hello l.receive_queue l.place l.message_max };
}

/// No regions. The first one that is registered gets this STag, from 1 on; 2^32 means that none is left.
fn fresh_regions(alloc: Global, first_stag: u64) -> Result<Regions, Memory>
    requires some { 0 < first_stag }
    requires most { first_stag ≤ 2 ^ 32 }
    ensures memory { IfOk result (λ r. r.memory ≡ initial_memory first_stag) }
    ensures outside { IfOk result (λ r. r.outside ≡ empty) }
{
    if first_stag <= u64::from(u32::MAX) {
        return Ok(Regions::new(alloc, first_stag as u32));
    }
    // The last STag is given to a region that is released at once.
    let mut regions = Regions::new(alloc, u32::MAX);
    match regions.register(Octets::new(alloc), Right::Fetch) {
        Ok(registration) => {
            regions.release(registration);
            Ok(regions)
        }
        Err(_) => Err(Memory),
    }
}

impl LinkSide {
    /// A side as the link is opened, with what its hello says and what was agreed on an earlier link. The first region gets this STag, from 1
    /// on; 2^32 means that none is left.
    pub fn new(
        alloc: Global,
        side: Side,
        receives: u32,
        first_stag: u64,
        terms: SideTerms,
        earlier: Option<Agreement>,
    ) -> Result<LinkSide, Memory>
        requires some { 0 < first_stag }
        requires most { first_stag ≤ 2 ^ 32 }
        ensures state { IfOk result (λ l. l.state ≡ initial_state side receives first_stag terms earlier) }
        ensures outside { IfOk result (λ l. l.outside ≡ empty) }
    {
        let private = first_private(terms, side);
        let send_queue = SendQueue::new(alloc, side, private.as_slice())?;
        let receive_queue = ReceiveQueue::new(alloc, receives, receive_length(terms))?;
        Ok(LinkSide {
            side,
            has_hello: false,
            last: 0,
            place: 0,
            ended: None,
            receive_queue,
            reads: Reads::new(),
            regions: fresh_regions(alloc, first_stag)?,
            send_queue,
            terms,
            private,
            agreed: Agreement::default_agreement(),
            message_max: u64::from(SEND_UNIT),
            client: first_client(terms, side),
            earlier,
        })
    }

    /// The next frame, which is complete, ends the side or has its effect. False if memory ran out for what it queues: the side has then ended
    /// in its state before the frame. A frame that queues nothing takes no memory.
    pub fn receive_frame(&mut self, awaited: Awaited, frame: &[u8]) -> bool
        requires frame { IsFrame awaited frame.now }
        requires within { self.old.state.place + length frame.now ≤ 2 ^ 62 }
        ensures state { self.new ≡ record self.old { state = (if result then with_frame self.old.state awaited frame.now else record self.old.state { ended = Some ends.Memory }) } }
        ensures queued { OnFalse result (output_len self.old.state.send_queue < output_len (with_frame self.old.state awaited frame.now).send_queue) }
    {
        let judged = match awaited {
            Awaited::Hello(side) => self.receive_hello(side, frame),
            Awaited::Fpdu => self.receive_fpdu(frame),
        };
        if judged.is_err() {
            self.ended = Some(End::Memory);
            return false;
        }
        true
    }

    /// The side ends, and queues what it writes last. An `Err` changes nothing.
    pub fn end_with(&mut self, end: End) -> Result<(), Memory>
        ensures ok { OnOk result (self.new ≡ record self.old { state = with_end_of end self.old.state }) }
        ensures err { OnErr result (self.new ≡ self.old) }
        ensures queued { OnErr result (output_len self.old.state.send_queue < output_len (with_end_of end self.old.state).send_queue) }
    {
        self.send_queue.finish(self.side, end)?;
        self.ended = Some(end);
        Ok(())
    }

    /// The side ends for this, or out of memory; answers which.
    pub fn stop(&mut self, end: End) -> End
        requires { end ≢ ends.Memory }
        ensures ended { self.new.state.ended ≡ Some result }
        ensures end { result ≢ ends.Memory → (result ≡ end) × (self.new.state ≡ with_end_of end self.old.state) }
        ensures memory { result ≡ ends.Memory → self.new.state ≡ record self.old.state { ended = Some ends.Memory } }
        ensures room { self.new.room ≡ self.old.room }
        ensures outside { self.new.outside ≡ self.old.outside }
    {
        if self.end_with(end).is_err() {
            self.ended = Some(End::Memory);
            return End::Memory;
        }
        end
    }

    /// The peer's hello (RFC 5044 section 7.1). It is accepted, or refused.
    #[tactic(auto, unfolding(crate::specs::Judging::with_peer_hello), using(crate::proofs::HellosFrom::refused_from, crate::proofs::HellosFrom::accepted_from, crate::proofs::HellosFrom::other_from))]
    fn receive_hello(&mut self, side: Side, frame: &[u8]) -> Result<(), Memory>
        requires frame { IsFrame (Awaited.Hello side) frame.now }
        requires within { self.old.state.place + length frame.now ≤ 2 ^ 62 }
        ensures ok { OnOk result (self.new ≡ record self.old { state = with_hello_from side (next_frame self.old.state frame.now) (hello_of side frame.now) self.old.state }) }
        ensures err { OnErr result (self.new ≡ self.old) }
        ensures queued { OnErr result (output_len self.old.state.send_queue < output_len (with_hello_from side (next_frame self.old.state frame.now) (hello_of side frame.now) self.old.state).send_queue) }
    {
        match hello_in_frame(side, frame) {
            Ok(hello) => {
                if self.has_other_sizes(side, hello.private) {
                    return self.refuse_sizes();
                }
                self.accept_hello(hello.private, frame)
            }
            Err(reason) => self.end_with(End::Bad {
                at: self.place,
                reason,
            }),
        }
    }

    /// Whether other lengths of Sends are agreed on with a responder whose hello has this private data than on an earlier link.
    fn has_other_sizes(&self, side: Side, peer_private: &[u8]) -> bool
        ensures { result ≡ has_other_sizes side self.now.state peer_private.now }
    {
        match side {
            Side::Initiator => false,
            Side::Responder => {
                let own = own_private(self.terms, self.side, peer_private);
                let agreed = side_agreement(self.side, own.as_slice(), peer_private);
                !has_same_sizes(self.earlier, agreed)
            }
        }
    }

    /// The side ends for the lengths of Sends that the peer's hello agrees on. An `Err` changes nothing.
    fn refuse_sizes(&mut self) -> Result<(), Memory>
        ensures ok { OnOk result (self.new ≡ record self.old { state = with_other_sizes (next_frame self.old.state []) self.old.state }) }
        ensures err { OnErr result (self.new ≡ self.old) }
        ensures queued { OnErr result (output_len self.old.state.send_queue < output_len (with_other_sizes (next_frame self.old.state []) self.old.state).send_queue) }
    {
        self.send_queue.refuse_sizes()?;
        self.ended = Some(End::Bad {
            at: self.place,
            reason: REASON_SIZES,
        });
        Ok(())
    }

    /// The peer's hello, which this frame holds and which has this private data, is accepted. A responder answers it.
    fn accept_hello(&mut self, peer_private: &[u8], frame: &[u8]) -> Result<(), Memory>
        requires some { 0 < length frame.now }
        requires within { self.old.state.place + length frame.now ≤ 2 ^ 62 }
        ensures ok { OnOk result (self.new ≡ record self.old { state = after_frame (next_frame self.old.state frame.now) (with_agreement (own_private self.old.state.terms self.old.state.side peer_private.now) peer_private.now self.old.state) }) }
        ensures err { OnErr result (self.new ≡ self.old) }
        ensures queued { OnErr result (output_len self.old.state.send_queue < output_len (with_agreement (own_private self.old.state.terms self.old.state.side peer_private.now) peer_private.now self.old.state).send_queue) }
    {
        let own = own_private(self.terms, self.side, peer_private);
        self.send_queue.queue_hello(self.side, own.as_slice())?;
        self.agreed = side_agreement(self.side, own.as_slice(), peer_private);
        self.message_max = u64::from(received_max(self.side, self.agreed));
        self.client = client_heard(self.terms, self.side, peer_private);
        self.private = own;
        self.has_hello = true;
        self.last = self.place;
        self.place += frame.len() as u64;
        Ok(())
    }

    /// An FPDU of the peer.
    #[tactic(auto, unfolding(crate::specs::Judging::with_fpdu))]
    fn receive_fpdu(&mut self, frame: &[u8]) -> Result<(), Memory>
        requires frame { IsFrame Awaited.Fpdu frame.now }
        requires within { self.old.state.place + length frame.now ≤ 2 ^ 62 }
        ensures ok { OnOk result (self.new ≡ record self.old { state = with_fpdu (next_frame self.old.state frame.now) (next_segment self.old.state frame.now) self.old.state }) }
        ensures err { OnErr result (self.new ≡ self.old) }
        ensures queued { OnErr result (output_len self.old.state.send_queue < output_len (with_fpdu (next_frame self.old.state frame.now) (next_segment self.old.state frame.now) self.old.state).send_queue) }
    {
        match segment_in_frame(takes_invalidate(self.side, self.agreed), frame) {
            Ok(segment) => self.receive(&segment, frame),
            Err(reason) => self.end_with(End::Bad {
                at: self.place,
                reason,
            }),
        }
    }

    /// A segment of the peer, which this frame holds.
    #[tactic(auto, using(crate::proofs::FaultList::tagged_end_lem))]
    fn receive(&mut self, segment: &Segment, frame: &[u8]) -> Result<(), Memory>
        requires supported { IsSupported (plain segment.now) }
        requires payload { length (payload_in (plain segment.now)) < 2 ^ 16 }
        requires size { length (payload_in (plain segment.now)) + 1 ≤ length frame.now }
        requires within { self.old.state.place + length frame.now ≤ 2 ^ 62 }
        ensures ok { OnOk result (self.new ≡ record self.old { state = with_next_segment self.old.state frame.now (plain segment.now) }) }
        ensures err { OnErr result (self.new ≡ self.old) }
        ensures queued { OnErr result (output_len self.old.state.send_queue < output_len (with_next_segment self.old.state frame.now (plain segment.now)).send_queue) }
    {
        match *segment {
            Segment::Tagged {
                last,
                opcode,
                stag,
                to,
                payload,
            } => self.receive_tagged(last, opcode, stag, to, payload, frame),
            Segment::Untagged { .. } => self.receive_untagged(segment, frame),
        }
    }

    /// An untagged segment of the peer, which this frame holds.
    fn receive_untagged(&mut self, segment: &Segment, frame: &[u8]) -> Result<(), Memory>
        requires untagged { IsUntagged (plain segment.now) }
        requires supported { IsSupported (plain segment.now) }
        requires payload { length (payload_in (plain segment.now)) < 2 ^ 16 }
        requires size { length (payload_in (plain segment.now)) + 1 ≤ length frame.now }
        requires within { self.old.state.place + length frame.now ≤ 2 ^ 62 }
        ensures ok { OnOk result (self.new ≡ record self.old { state = with_next_segment self.old.state frame.now (plain segment.now) }) }
        ensures err { OnErr result (self.new ≡ self.old) }
        ensures queued { OnErr result (output_len self.old.state.send_queue < output_len (with_next_segment self.old.state frame.now (plain segment.now)).send_queue) }
    {
        match self.fault(segment) {
            Some(end) => self.end_with(end),
            None => self.take(segment, frame),
        }
    }
}
