//! The client end of a link: a value, how it is opened and drained.

ghost use Rattle.std.specs.Prelude.{◌≡◌, ℕ, ◌^◌, ◌<◌, ◌≤◌, Bool, true, is_some, [], length, take, List, None, IfOk, OnOk, MatchResult};
ghost use Rattle.std.specs.Io.KnownBytes.{Appends};
ghost use Rattle.nr_outside.specs.Faults.{Rises};
ghost use Rattle.nr_wire.specs.declared.hello.Side.TheVariants.{Initiator};
ghost use Rattle.nr_wire.specs.Constants.{FPDU_MAX};
ghost use Rattle.nr_wire.specs.Stream.{IsPartial};
ghost use Rattle.nr_link.specs.Agreement.{IsSendLimit, default_terms, terms_with};
ghost use Rattle.nr_endpoint.specs.Hellos.{receive_length_for};
ghost use Rattle.nr_endpoint.specs.declared.fault.DrainFault.TheVariants as drains;
ghost use Rattle.nr_reduce.specs.Opening.{ClientOpened};
ghost use Rattle.nr_reduce.specs.Limits.{credits_max};
ghost use Rattle.nr_reduce.specs.declared.mark.LinkParameters.{LinkParameters};
ghost use Rattle.nr_reduce.specs.declared.mark.Mark.{Mark};
ghost use Rattle.nr_reduce.specs.declared.mark.Mark.TheVariants as marks;
ghost use Rattle.nr_reduce.specs.Run.{client};
ghost use Rattle.nr_requester.specs.RequesterState.{queue_of};
ghost use Rattle.nr_requester.specs.Standing.{RequesterRepresents, StandsOn, StaysOut};
ghost use Rattle.nr_requester.specs.Fed.{fed_bytes};
ghost use Rattle.nr_requester.specs.ReopenedLinks.{KeepsOn, RequesterKeeps, StopsOn};
ghost use Rattle.nr_requester.specs.KeptLists.{ListsFit};
ghost use Rattle.nr_requester.specs.OpenCalls.{found_call, found_answer, IsFresh, KeepsTickets};
ghost use Rattle.nr_endpoint.specs.LinkState.{has_ended};
ghost use Rattle.nr_requester.specs.AfterCalls.{numbered_terms, opened_as, after_drain, sent_unless};
ghost use Rattle.nr_requester.specs.CountedMarks.{marks_if};

use crate::answer::AnsweredCall;
use crate::outstanding::OutstandingCall;
use nr_endpoint::{DrainFault, Endpoint};
use nr_link::constants::SEND_UNIT;
use nr_link::{End, SideTerms};
use nr_outside::Sink;
use nr_wire::Side;
use nr_wire::constants::UNITS_MAX;
use nr_xdr::Memory;
use std::alloc::Global;
use std::marker::Model;

/// The client end of a link.
#[derive(Drop)]
pub struct Requester {
    pub(crate) alloc: Global,
    pub(crate) endpoint: Endpoint,
    // The length of its receive in bytes.
    pub(crate) receive_length: u32,
    // The number of Sends that had completely left when the link ended, or have by now.
    pub(crate) sent: u64,
    pub(crate) wished: u32,
    // How many Sends have a number: those that were queued.
    pub(crate) sends: u64,
    pub(crate) next_xid: u64,
    pub(crate) grant: u32,
    pub(crate) outstanding: Vec<OutstandingCall>,
    // The answers that weren't handed over, with room for those of the outstanding calls.
    pub(crate) answered: Vec<AnsweredCall>,
    pub(crate) marks: u64,
    // How many of the regions that it released the server could still reach.
    pub(crate) local_releases: u64,
}

impl Model for Requester {
    ghost use Rattle.nr_requester.specs.RequesterState.{RequesterSide};
    ghost use Rattle.nr_requester.specs.Views.{requester_view, side_view};
    ghost use Rattle.std.specs.Coded.{codes};
    ghost use Rattle.nr_endpoint.specs.Codes.{state_code};

    ghost Value = { RequesterSide };

    ghost coded = { Prim.hlevel (codes, state_code) };

    ghost view = { λ r. side_view r.endpoint.staging r.marks (requester_view r.endpoint.link r.sent r.wished r.sends r.next_xid r.grant r.outstanding.items r.answered.items r.local_releases) };

    ghost use Rattle.nr_requester.specs.Views.{RequesterInvariant};
    ghost use Rattle.nr_requester.specs.HeldBytes.{IsBounded};
    ghost use Rattle.std.specs.Prelude.{vec_capacity};

    ghost invariant = { λ r. RequesterInvariant r.receive_length r.endpoint.link r.next_xid r.grant r.outstanding.items r.answered.items (vec_capacity r.answered) × IsBounded r.receive_length r.sent r.sends r.next_xid r.endpoint r.outstanding.items r.answered.items };
}

impl Requester {
    /// A client end whose first call has this xid and whose first region has this STag, which isn't 0. It wishes for this many
    /// credits. A Send in either direction has at most 1,024 bytes. Its hello waits to be drained.
    pub fn open_at(
        alloc: Global,
        first_xid: u32,
        first_stag: u32,
        credits: u32,
    ) -> Result<Requester, Memory>
        requires { 0 < first_stag }
        ensures state { IfOk result (λ r. r ≡ opened_as first_xid first_stag credits default_terms r.staging) }
        ensures staging { IfOk result (λ r. length r.staging ≡ FPDU_MAX) }
        ensures fed { IfOk result (λ r. fed_bytes r ≡ 0) }
        ensures stands { IfOk result (λ r. (opened : LinkParameters) (link : ℕ) → opened.first_xid ≡ first_xid → opened.first_stag ≡ first_stag → ClientOpened opened credits default_terms → RequesterRepresents opened link r []) }
    {
        Requester::new(
            alloc,
            first_xid,
            first_stag,
            credits,
            SideTerms::default_terms(),
        )
    }

    /// A client end whose first xid and first STag are 1. A Send in either direction has at most 1,024 bytes.
    pub fn open(alloc: Global, credits: u32) -> Result<Requester, Memory>
        ensures state { IfOk result (λ r. r ≡ opened_as 1 1 credits default_terms r.staging) }
        ensures staging { IfOk result (λ r. length r.staging ≡ FPDU_MAX) }
        ensures fed { IfOk result (λ r. fed_bytes r ≡ 0) }
        ensures stands { IfOk result (λ r. (opened : LinkParameters) (link : ℕ) → opened.first_xid ≡ 1 → opened.first_stag ≡ 1 → ClientOpened opened credits default_terms → RequesterRepresents opened link r []) }
    {
        Requester::open_sized(alloc, credits, 1, false)
    }

    /// The same, if a Send in either direction may have this many units of 1,024 bytes: 0 counts as 1, and more than 16 as 16. If `invalidates`,
    /// it takes Sends with Invalidate (RFC 5040 section 4.7). Its hello says both, unless it has one unit and takes none (RFC 5044 section
    /// 7.1, private data). What the server says in its hello decides, too: see `agreed` and `invalidates`. If it agrees, a reply may name one
    /// STag of its call: that region dies before the rest of the reply is judged, and its release isn't counted (see `local_releases`).
    pub fn open_sized(
        alloc: Global,
        credits: u32,
        units: u8,
        invalidates: bool,
    ) -> Result<Requester, Memory>
        ensures state { IfOk result (λ r. r ≡ opened_as 1 1 credits (terms_with units invalidates) r.staging) }
        ensures staging { IfOk result (λ r. length r.staging ≡ FPDU_MAX) }
        ensures fed { IfOk result (λ r. fed_bytes r ≡ 0) }
        ensures stands { IfOk result (λ r. (opened : LinkParameters) (link : ℕ) → opened.first_xid ≡ 1 → opened.first_stag ≡ 1 → ClientOpened opened credits (terms_with units invalidates) → RequesterRepresents opened link r []) }
    {
        Requester::new(
            alloc,
            1,
            1,
            credits,
            SideTerms::unnumbered(units, invalidates),
        )
    }

    /// The same of a client with a number, which isn't 0: its hello says it. Then `submit` accepts no call whose xid is 64 or more above the
    /// least one of a call that is outstanding. A server that keeps the replies of numbered clients executes none of its calls twice.
    pub fn open_numbered(
        alloc: Global,
        client: u64,
        credits: u32,
        units: u8,
        invalidates: bool,
    ) -> Result<Requester, Memory>
        requires { 0 < client }
        ensures state { IfOk result (λ r. r ≡ opened_as 1 1 credits (numbered_terms client units invalidates) r.staging) }
        ensures staging { IfOk result (λ r. length r.staging ≡ FPDU_MAX) }
        ensures fed { IfOk result (λ r. fed_bytes r ≡ 0) }
        ensures stands { IfOk result (λ r. (opened : LinkParameters) (link : ℕ) → opened.first_xid ≡ 1 → opened.first_stag ≡ 1 → ClientOpened opened credits (numbered_terms client units invalidates) → RequesterRepresents opened link r []) }
    {
        Requester::new(
            alloc,
            1,
            1,
            credits,
            SideTerms {
                units,
                number: client,
                invalidates,
            },
        )
    }

    #[tactic(auto, unfolding(crate::specs::AfterCalls::opened_as, nr_endpoint::specs::LinkState::initial_link))]
    fn new(
        alloc: Global,
        first_xid: u32,
        first_stag: u32,
        credits: u32,
        terms: SideTerms,
    ) -> Result<Requester, Memory>
        requires { 0 < first_stag }
        ensures state { IfOk result (λ r. r ≡ opened_as first_xid first_stag credits terms r.staging) }
        ensures staging { IfOk result (λ r. length r.staging ≡ FPDU_MAX) }
        ensures fed { IfOk result (λ r. fed_bytes r ≡ 0) }
    {
        let endpoint = Endpoint::open(alloc, Side::Initiator, 1, first_stag, terms)?;
        Ok(Requester {
            alloc,
            endpoint,
            receive_length: receive_length(terms),
            sent: 0,
            wished: credits,
            sends: 0,
            next_xid: u64::from(first_xid),
            grant: 1,
            outstanding: Vec::new(alloc),
            answered: Vec::new(alloc),
            marks: 0,
            local_releases: 0,
        })
    }

    /// Why it takes no more input, once it has ended.
    pub fn end(&self) -> Option<End>
        ensures { result ≡ self.now.state.side.ended }
    {
        self.endpoint.end()
    }

    /// The number of the client, which its hello says; 0 if it has none. Takes no memory.
    pub fn client(&self) -> u64
        ensures { result ≡ self.now.state.side.terms.number }
    {
        self.endpoint.terms().number
    }

    /// How many calls are outstanding: accepted, and no message of their xid was received.
    pub fn outstanding(&self) -> usize
        ensures { result ≡ length self.now.state.outstanding }
    {
        self.outstanding.len()
    }

    /// How many of them wait to be sent again: they were outstanding when the last connection was left (`reopen`), and the grant of this one
    /// didn't allow it yet. Takes no memory.
    pub fn waiting(&self) -> usize
        ensures { result ≡ length self.now.state.side.send_queue.held }
    {
        self.endpoint.sends_held()
    }

    /// How many credits the server grants: 1 before its first message.
    pub fn grant(&self) -> u32
        ensures { result ≡ self.now.state.grant }
    {
        self.grant
    }

    /// The maximum length of a Send in bytes: towards the server, and from it. The hellos of both sides agree on it: 1,024 times the lesser of
    /// the units that one side says it writes and the other says it takes. Until the server's hello was accepted, and if one of both has
    /// no terms, it is 1,024 in both directions. Takes no memory.
    pub fn agreed(&self) -> (u32, u32)
        ensures up { result.0 ≡ self.now.state.side.agreed.up }
        ensures down { result.1 ≡ self.now.state.side.agreed.down }
        ensures stands { (opened : LinkParameters) (link : ℕ) (run : List Mark) → RequesterRepresents opened link self.now run →
            (result.0 ≡ (client opened link run).state.up_max) × (result.1 ≡ (client opened link run).state.down_max) }
        ensures keeps { (is_own : ℕ → Bool) (earlier : ℕ) (opened : LinkParameters) (link : ℕ) (run : List Mark) → RequesterKeeps is_own earlier opened link self.now run →
            (result.0 ≡ (client opened link run).state.up_max) × (result.1 ≡ (client opened link run).state.down_max) }
    {
        self.endpoint.agreed()
    }

    /// Whether a reply may be a Send with Invalidate (RFC 5040 section 4.7), as the hellos of both sides agree. Takes no memory.
    pub fn invalidates(&self) -> bool
        ensures agreed { result ≡ self.now.state.side.agreed.invalidates }
        ensures stands { (opened : LinkParameters) (link : ℕ) (run : List Mark) → RequesterRepresents opened link self.now run → result ≡ (client opened link run).state.invalidates }
        ensures keeps { (is_own : ℕ → Bool) (earlier : ℕ) (opened : LinkParameters) (link : ℕ) (run : List Mark) → RequesterKeeps is_own earlier opened link self.now run →
            result ≡ (client opened link run).state.invalidates }
    {
        self.endpoint.invalidates()
    }

    /// How many marks it made: calls that were accepted, drains that moved bytes, pieces that have bytes (also after an End other than
    /// Memory), outcomes that were handed over, and calls that were given up. It stands still at 2^64 - 1. Takes no memory.
    pub fn marks(&self) -> u64
        ensures { result ≡ self.now.marks }
    {
        self.marks
    }

    /// How many of the regions that it released the server could still reach: those of calls that were answered, revoked, or lost. A region that
    /// a reply named is not counted (RFC 5040 section 4.7). It stands still at 2^64 - 1. Takes no memory.
    pub fn local_releases(&self) -> u64
        ensures { result ≡ self.now.state.local_releases }
    {
        self.local_releases
    }

    /// How many bytes of the server's frame that isn't complete are staged. 0 once it has ended.
    pub fn staged(&self) -> usize
        ensures rest { result ≡ length self.now.rest }
        ensures ended { is_some self.now.state.side.ended ≡ true → result ≡ 0 }
    {
        self.endpoint.staged()
    }

    /// The staging buffer, which begins with the bytes of the server's frame that isn't complete.
    pub fn staging(&self) -> &[u8]
        ensures bytes { result.now ≡ self.now.staging }
        ensures begins { take (length self.now.rest) result.now ≡ self.now.rest }
        ensures len { length result.now ≡ FPDU_MAX }
    {
        self.endpoint.staging()
    }

    /// What holds of each requester, for the proofs of its owner. It does nothing.
    pub fn facts(&self)
        // At most credits_max calls are outstanding, and 1 to credits_max credits are granted. A next xid of 2 ^ 32 is none.
        ensures outstanding { length self.now.state.outstanding ≤ credits_max }
        ensures granted { (1 ≤ self.now.state.grant) × (self.now.state.grant ≤ credits_max) }
        ensures xid { self.now.state.next_xid ≤ 2 ^ 32 }
        // What is agreed for a Send is from one unit to UNITS_MAX of them, in each direction.
        ensures agreed { IsSendLimit self.now.state.side.agreed.up × IsSendLimit self.now.state.side.agreed.down }
        // What is kept of the stream is less than a frame, and nothing once the side has ended.
        ensures partial { IsPartial self.now.awaited self.now.rest }
        ensures ended { is_some self.now.state.side.ended ≡ true → self.now.rest ≡ [] }
        // An outstanding call has no answer yet. No call has an xid that was not given yet.
        ensures apart { (xid : ℕ) → is_some (found_call xid self.now.state) ≡ true → found_answer xid self.now.state ≡ None }
        ensures fresh { (xid : ℕ) → self.now.state.next_xid ≤ xid → IsFresh self.now.state xid }
    {
        let _ = &self.grant;
        self.endpoint.facts();
    }

    /// How long the lists are that a requester keeps beside its byte buffers, for the proofs of its owner. It does nothing.
    pub fn list_facts(&self)
        ensures { ListsFit self.now.state }
    {
        let _ = &self.grant;
    }

    /// Hands the output to a sink, in order: for `Ok` all that may be written, else the first bytes of it, and the rest stays. Takes no
    /// memory: the only fault is the sink's.
    pub fn drain_into<K: Sink>(&mut self, sink: &mut K) -> Result<(), DrainFault>
        ensures taken { (n : ℕ) × (n ≤ length (queue_of self.old.state))
            × Appends (K.taken sink.old) (K.taken sink.new) (take n (queue_of self.old.state))
            × (self.new ≡ after_drain n self.old)
            × StandsOn self.old (λ link. marks.Wrote link Initiator (take n (queue_of self.old.state))) self.new
            × StaysOut self.old (λ link. marks.Wrote link Initiator (take n (queue_of self.old.state))) self.new
            × OnOk result (n ≡ length (queue_of self.old.state))
            × KeepsOn self.old (λ link. marks.Wrote link Initiator (take n (queue_of self.old.state))) self.new
            × StopsOn self.old (λ link. marks.Wrote link Initiator (take n (queue_of self.old.state))) self.new }
        ensures tickets { KeepsTickets self.old.state self.new.state }
        ensures fed { fed_bytes self.new ≡ fed_bytes self.old }
        ensures counted { MatchResult result
            (λ _. K.faults sink.new ≡ K.faults sink.old) (λ e. (e ≡ drains.LinkWrite) × Rises (K.faults sink.old) (K.faults sink.new)) }
        ensures never_falls { K.faults sink.old ≤ K.faults sink.new }
    {
        let before = self.endpoint.output_len();
        let drained = self.endpoint.drain_into(sink);
        self.sent = sent_by_now(&self.endpoint, self.sent);
        self.marks = marks_if(self.endpoint.output_len() < before, self.marks);
        drained
    }
}

/// The length of a receive of a side with these terms, in bytes.
fn receive_length(terms: SideTerms) -> u32
    ensures { result ≡ receive_length_for terms }
{
    SEND_UNIT * u32::from(terms.units.max(1).min(UNITS_MAX))
}

/// The count of marks after one mark more, if that is counted.
pub(crate) fn marks_if(counted: bool, marks: u64) -> u64
    ensures { result ≡ marks_if counted marks }
{
    if counted && marks < u64::MAX {
        return marks + 1;
    }
    marks
}

/// The number of Sends that have completely left, or had when the link ended.
fn sent_by_now(endpoint: &Endpoint, sent: u64) -> u64
    ensures { result ≡ sent_unless (has_ended endpoint.now.link.state) sent endpoint.now.link.state.send_queue.sends_left }
{
    match endpoint.end() {
        Some(_) => sent,
        None => endpoint.sends_left(),
    }
}
