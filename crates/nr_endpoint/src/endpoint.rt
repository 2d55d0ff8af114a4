//! The endpoint: the peer's stream in pieces, and the calls of its owner.

ghost use Rattle.std.specs.Prelude.{◌≡◌, ◌≢◌, ℕ, ◌+◌, ◌-◌, ◌^◌, ◌<◌, ◌≤◌, [], ◌∷◌, length, drop, take, None, Some, is_some, Ok, Err, IfOk, nat_lt, true, false, if◌then◌else◌};
ghost use Rattle.std.specs.Result.{result_err};
ghost use Rattle.std.specs.FinMap.{empty};
ghost use Rattle.nr_wire.specs.Feeding.{bytes_taken};
ghost use Rattle.nr_wire.specs.Stream.{bytes_needed, IsPartial};
ghost use Rattle.nr_wire.specs.declared.hello.Side.TheVariants.{Initiator};
ghost use Rattle.nr_link.specs.declared.end.End.TheVariants as ends;
ghost use Rattle.nr_endpoint.specs.LinkState.{initial_link, has_ended};
ghost use Rattle.nr_endpoint.specs.Calls.{after_call, after_calls, RepresentsCalls, StandsOn, StandsOnAll, IsStep, RanOutAt, QueuesOutput, makes_whole};
ghost use Rattle.nr_endpoint.specs.Calls.Call.{Feed, FeedOne, OutOfMemory};
ghost use Rattle.nr_endpoint.specs.EndpointState.{KeepsStaging};
ghost use Rattle.nr_endpoint.specs.ReceiveQueue.{receives_kept};
ghost use Rattle.nr_endpoint.specs.KeptLists.{ListsFit};
ghost use Rattle.nr_link.specs.Limits.{open_reads_max};

use crate::link::LinkSide;
use crate::staging::{stage_frame, whole_in_piece};
use nr_link::{Agreement, End, SideTerms};
use nr_wire::constants::FPDU_MAX;
use nr_wire::{Awaited, Side, bytes_needed, whole_frame};
use nr_xdr::Memory;
use std::alloc::Global;
use std::marker::Model;

/// The endpoint of a link.
#[derive(Drop)]
pub struct Endpoint {
    pub(crate) link: LinkSide,
    pub(crate) awaited: Awaited,
    pub(crate) staging: Vec<u8>,
    pub(crate) staged: usize,
}

impl Model for Endpoint {
    ghost use Rattle.std.specs.Prelude.{take};
    ghost use Rattle.nr_endpoint.specs.EndpointState.{EndpointState};
    ghost use Rattle.nr_endpoint.specs.Codes.{endpoint_code};

    ghost Value = { EndpointState };

    ghost coded = { endpoint_code };

    ghost use Rattle.nr_endpoint.specs.Staged.{IsStaged};

    ghost view = { λ e. record { link = record { awaited = e.awaited; rest = take e.staged e.staging.items; state = e.link.state }; staging = e.staging.items; room = e.link.room; outside = e.link.outside } };

    ghost invariant = { λ e. IsStaged e.awaited e.link.state.ended e.link.state.has_hello e.staging.items e.staged };
}

impl Endpoint {
    /// A side of a link, with this number of receives, each of the units of its terms. The first region gets this STag, which isn't 0.
    /// Its hello says its terms: an initiator's unless they are the default, a responder's if the initiator's hello said some.
    pub fn open(
        alloc: Global,
        side: Side,
        receives: u32,
        first_stag: u32,
        terms: SideTerms,
    ) -> Result<Endpoint, Memory>
        requires { 0 < first_stag }
        ensures state { IfOk result (λ e. e.link ≡ initial_link side receives first_stag terms None) }
        ensures staging { IfOk result (λ e. length e.staging ≡ FPDU_MAX) }
        ensures outside { IfOk result (λ e. e.outside ≡ empty) }
        ensures stands { IfOk result (λ e. RepresentsCalls (initial_link side receives first_stag terms None) [] e.link) }
    {
        let first_stag = u64::from(first_stag);
        Endpoint::with_earlier(alloc, side, receives, first_stag, terms, None)
    }

    /// An initiator of a next link, with what the last hello to it on an earlier link agreed on, if there was one
    /// ([`Endpoint::last_agreed`]): a hello by which other lengths of Sends are agreed on ends it, with reason 31 (own). Its first region gets
    /// this STag, from 1 on; 2^32 means that none is left.
    pub fn open_again(
        alloc: Global,
        receives: u32,
        first_stag: u64,
        terms: SideTerms,
        earlier: Option<Agreement>,
    ) -> Result<Endpoint, Memory>
        requires some { 0 < first_stag }
        requires most { first_stag ≤ 2 ^ 32 }
        ensures state { IfOk result (λ e. e.link ≡ initial_link Initiator receives first_stag terms earlier) }
        ensures staging { IfOk result (λ e. length e.staging ≡ FPDU_MAX) }
        ensures outside { IfOk result (λ e. e.outside ≡ empty) }
        ensures stands { IfOk result (λ e. RepresentsCalls (initial_link Initiator receives first_stag terms earlier) [] e.link) }
    {
        Endpoint::with_earlier(alloc, Side::Initiator, receives, first_stag, terms, earlier)
    }

    fn with_earlier(
        alloc: Global,
        side: Side,
        receives: u32,
        first_stag: u64,
        terms: SideTerms,
        earlier: Option<Agreement>,
    ) -> Result<Endpoint, Memory>
        requires some { 0 < first_stag }
        requires most { first_stag ≤ 2 ^ 32 }
        ensures state { IfOk result (λ e. e.link ≡ initial_link side receives first_stag terms earlier) }
        ensures staging { IfOk result (λ e. length e.staging ≡ FPDU_MAX) }
        ensures outside { IfOk result (λ e. e.outside ≡ empty) }
        ensures stands { IfOk result (λ e. RepresentsCalls (initial_link side receives first_stag terms earlier) [] e.link) }
    {
        Ok(Endpoint {
            link: LinkSide::new(alloc, side, receives, first_stag, terms, earlier)?,
            awaited: Awaited::Hello(side.peer()),
            staging: vec![in alloc; 0u8; FPDU_MAX]?,
            staged: 0,
        })
    }

    /// Takes a piece of the peer's stream. `Err` if the side has ended, with why. It takes memory only for a frame that queues output: a
    /// responder's hello, a Read Response, or what the side writes last. If memory runs out, the side ends in its state before such a frame,
    /// which the piece completes; the piece was taken up to that frame.
    pub fn feed(&mut self, piece: &[u8]) -> Result<(), End>
        requires { self.old.link.state.place + length self.old.link.rest + length piece.now ≤ 2 ^ 62 }
        ensures ended { result_err result ≡ self.new.link.state.ended }
        ensures state { result ≢ Err ends.Memory → self.new.link ≡ after_call self.old.link (Feed piece.now) }
        ensures stands { result ≢ Err ends.Memory → StandsOn self.old.link (Feed piece.now) self.new.link }
        ensures memory { result ≡ Err ends.Memory → (n : ℕ) × (self.new.link ≡ after_calls self.old.link (Feed (take n piece.now) ∷ OutOfMemory ∷ []))
            × StandsOnAll self.old.link (Feed (take n piece.now) ∷ OutOfMemory ∷ []) self.new.link
            × (has_ended self.old.link.state ≡ false → RanOutAt self.old.link piece.now n) }
        ensures kept { has_ended self.old.link.state ≡ true → self.new ≡ self.old }
        ensures room { self.new.room ≡ self.old.room }
        ensures outside { self.new.outside ≡ self.old.outside }
        ensures staging { KeepsStaging self.old self.new piece.now }
    {
        self.facts();
        if let Some(end) = self.link.end() {
            return Err(end);
        }
        let mut left = piece;
        while !left.is_empty() {
            left = self.advance(left);
        }
        if let Some(end) = self.link.end() {
            return Err(end);
        }
        Ok(())
    }

    /// What holds of every endpoint, for the proofs of its owner. It does nothing.
    pub fn facts(&self)
        // What is kept of the stream is less than a frame, and nothing once the side has ended.
        ensures partial { IsPartial self.now.link.awaited self.now.link.rest }
        ensures ended { has_ended self.now.link.state ≡ true → self.now.link.rest ≡ [] }
        // Each receive is free, has a begun Send or a message that wasn't delivered to the owner yet, or is lent.
        ensures receives { receives_kept self.now.link.state.receive_queue + self.now.link.state.receive_queue.lent ≡ self.now.link.state.receive_queue.receives }
        // An event waits, or the hello was accepted, only after some bytes came: `stop` requires this.
        ensures waiting { length self.now.link.state.receive_queue.deliveries ≤ self.now.link.state.place }
        ensures greeted { self.now.link.state.has_hello ≡ true → 0 < self.now.link.state.place }
        // An FPDU is awaited only after the peer's hello was accepted.
        ensures awaits { self.now.link.state.ended ≡ None → self.now.link.awaited ≡ Awaited.Fpdu → self.now.link.state.has_hello ≡ true }
        ensures reads { length self.now.link.state.reads ≤ open_reads_max }
        // STags are numbers of four bytes.
        ensures stags { self.now.link.state.memory.next ≤ 2 ^ 32 }
    {
        let _ = &self.staged;
        self.link.facts();
    }

    /// How long the lists are that an endpoint keeps beside its byte buffers, for the proofs of its owner. It does nothing.
    pub fn list_facts(&self)
        ensures { ListsFit self.now.link.state }
    {
        self.facts();
    }

    /// Takes the next frame of a piece, or all of it; answers what is left, which is nothing once the side has ended.
    fn advance<'a>(&mut self, left: &'a [u8]) -> &'a [u8]
        requires { self.old.link.state.ended ≡ None → self.old.link.state.place + length self.old.link.rest + length left.now ≤ 2 ^ 62 }
        ensures live { self.old.link.state.ended ≡ None → IsStep self.old.link left.now self.new.link }
        ensures ended { has_ended self.old.link.state ≡ true → self.new ≡ self.old }
        ensures left { result.now ≡ (if has_ended self.new.link.state then [] else drop (bytes_taken self.old.link.awaited self.old.link.rest left.now) left.now) }
        ensures staging { KeepsStaging self.old self.new left.now }
        ensures partial { IsPartial self.new.link.awaited self.new.link.rest }
        ensures ended_rest { has_ended self.new.link.state ≡ true → self.new.link.rest ≡ [] }
        ensures room { self.new.room ≡ self.old.room }
        ensures outside { self.new.outside ≡ self.old.outside }
    {
        self.facts();
        let (_, none) = left.split_at(left.len());
        if self.link.end().is_some() {
            return none;
        }
        let taken = self.step(left);
        self.facts();
        if self.link.end().is_some() {
            return none;
        }
        let (_, rest) = left.split_at(taken);
        rest
    }

    /// Takes a piece up to the end of the frame that it completes, else all of it. `Ok` has the number of bytes taken. `Err` if the side has
    /// ended, with why. It takes memory only for a frame that queues output, as [`Endpoint::feed`] does; if memory runs out, the side ends in
    /// its state before the frame, which the piece completes.
    pub fn feed_one(&mut self, piece: &[u8]) -> Result<usize, End>
        requires { self.old.link.state.place + length self.old.link.rest + length piece.now ≤ 2 ^ 62 }
        ensures ended { result_err result ≡ self.new.link.state.ended }
        ensures taken { IfOk result (λ n. n ≡ bytes_taken self.old.link.awaited self.old.link.rest piece.now) }
        ensures state { result ≢ Err ends.Memory → self.new.link ≡ after_call self.old.link (FeedOne piece.now) }
        ensures stands { result ≢ Err ends.Memory → StandsOn self.old.link (FeedOne piece.now) self.new.link }
        ensures memory { result ≡ Err ends.Memory → self.new.link ≡ after_call self.old.link OutOfMemory }
        ensures stands_memory { result ≡ Err ends.Memory → StandsOn self.old.link OutOfMemory self.new.link }
        ensures frame { result ≡ Err ends.Memory → has_ended self.old.link.state ≡ false → (makes_whole self.old.link piece.now ≡ true) × QueuesOutput self.old.link piece.now }
        ensures kept { has_ended self.old.link.state ≡ true → self.new ≡ self.old }
        ensures room { self.new.room ≡ self.old.room }
        ensures outside { self.new.outside ≡ self.old.outside }
        ensures staging { KeepsStaging self.old self.new piece.now }
    {
        if let Some(end) = self.link.end() {
            return Err(end);
        }
        let taken = self.step(piece);
        if let Some(end) = self.link.end() {
            return Err(end);
        }
        Ok(taken)
    }

    /// Takes a piece up to the end of the frame that it completes, else all of it, if the side hasn't ended; answers the bytes taken. A frame
    /// that lies completely in the piece is judged in it, without a copy. If memory runs out, the side ends in its state before the frame.
    fn step(&mut self, piece: &[u8]) -> usize
        requires live { self.old.link.state.ended ≡ None }
        requires within { self.old.link.state.place + length self.old.link.rest + length piece.now ≤ 2 ^ 62 }
        ensures taken { result ≡ bytes_taken self.old.link.awaited self.old.link.rest piece.now }
        ensures state { IsStep self.old.link piece.now self.new.link }
        ensures staging { KeepsStaging self.old self.new piece.now }
        ensures room { self.new.room ≡ self.old.room }
        ensures outside { self.new.outside ≡ self.old.outside }
    {
        if let Some(len) = whole_in_piece(self.staged, self.awaited, piece) {
            let (frame, _) = piece.split_at(len);
            if self.link.receive_frame(self.awaited, frame) {
                self.awaited = Awaited::Fpdu;
            }
            return len;
        }
        let taken = stage_frame(&mut self.staging, self.staged, self.awaited, piece);
        let end = self.staged + taken;
        let (frame, _) = self.staging.as_slice().split_at(end);
        if whole_frame(self.awaited, frame).is_none() {
            self.staged = end;
            return taken;
        }
        self.staged = 0;
        if self.link.receive_frame(self.awaited, frame) {
            self.awaited = Awaited::Fpdu;
        }
        taken
    }

    /// How many bytes the frame that is begun still needs, as far as its length fields are there; if none is begun, those up to the end of the
    /// next one's length fields. At least 1.
    pub fn wants(&self) -> usize
        ensures exact { result ≡ bytes_needed self.now.link.awaited self.now.link.rest }
        ensures some { 0 < result }
    {
        bytes_needed(self.awaited, &self.staging[..self.staged])
    }

    /// Whether a frame is begun and incomplete.
    pub fn begun(&self) -> bool
        ensures { result ≡ nat_lt 0 (length self.now.link.rest) }
    {
        self.staged > 0
    }

    /// The staging buffer, of which the first bytes are those of the incomplete frame.
    pub fn staging(&self) -> &[u8]
        ensures bytes { result.now ≡ self.now.staging }
        ensures begins { take (length self.now.link.rest) result.now ≡ self.now.link.rest }
    {
        self.staging.as_slice()
    }

    /// How many bytes of the incomplete frame are staged. 0 once the side has ended.
    pub fn staged(&self) -> usize
        ensures rest { result ≡ length self.now.link.rest }
        ensures ended { is_some self.now.link.state.ended ≡ true → result ≡ 0 }
    {
        self.staged
    }
}
