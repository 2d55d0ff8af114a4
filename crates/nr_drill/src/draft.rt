//! A report that is being made, mark by mark.

ghost use Rattle.std.specs.Prelude.{◌≡◌, ℕ, ◌-◌, ◌++◌, ◌==◌, ◌&&◌, ◌<◌, [], length, get_or, IfOk, OnOk, MatchOption, Option, slice_get, slice_set};
ghost use Rattle.nr_reduce.specs.declared.mark.Mark.{Mark};
ghost use Rattle.nr_marks.specs.Views.{mark_seen};
ghost use Rattle.nr_drill.specs.Reports.{submitted_state, becomes, is_open_as, place_shown};
ghost use Rattle.nr_drill.specs.Drill.{Setting};
ghost use Rattle.nr_drill.specs.private.Drafts.{AddsPlace, AreEmpty, AreNumbered, IsDraft, is_again, is_submit_of, submits_of, Ended, Executed, Noted, Submitted, SubmittedIf, entries_if, index_of, place_of, state_done};

use crate::call_table::{CallTable, Execution, client_in, index};
use crate::report::{CallReport, CallState};
use nr_marks::{MarkList, MarkView};
use nr_outside::Moment;
use nr_plain::entry_of_call;
use nr_reduce::{Entry, Mark, Outcome, Submission};
use nr_xdr::{Memory, Octets};
use std::alloc::Global;

/// A report after some marks.
#[derive(Drop)]
pub(crate) struct Draft {
    /// The call lines.
    pub(crate) calls: Vec<CallReport>,
    /// The entries of the journal.
    pub(crate) journal: Vec<Entry>,
    /// The table of each client.
    pub(crate) tables: Vec<CallTable>,
}

/// What is said of a call when it is submitted.
fn submitted_state(answer: Submission) -> CallState
    ensures { result ≡ submitted_state answer }
{
    match answer {
        Submission::Accepted { xid } => CallState::Open { xid },
        Submission::Refused(why) => CallState::Refused(why),
        Submission::Dropped => CallState::Dropped,
    }
}

/// Whether a call is open under an xid.
fn is_open_as(xid: u32, state: &CallState) -> bool
    ensures { result ≡ is_open_as xid state.now }
{
    match state {
        CallState::Open { xid: own } => *own == xid,
        _ => false,
    }
}

/// A copy of an outcome.
fn copy_of(alloc: Global, outcome: &Outcome) -> Result<Outcome, Memory>
    ensures { IfOk result (λ copy. copy ≡ outcome.now) }
{
    match outcome {
        Outcome::Reply(payload) => Ok(Outcome::Reply(Octets::from_slice(
            alloc,
            payload.as_slice(),
        )?)),
        Outcome::Chunk => Ok(Outcome::Chunk),
        Outcome::Version { low, high } => Ok(Outcome::Version {
            low: *low,
            high: *high,
        }),
    }
}

/// The place that is shown for an outcome, by the journal's length and the place of the last execution of its xid.
fn place_shown(len: u64, place: Option<u64>, outcome: &Outcome) -> Option<u64>
    ensures { result ≡ place_shown len place outcome.now }
{
    match outcome {
        Outcome::Reply(_) => match place {
            Some(place) => Some(place),
            None => Some(len),
        },
        Outcome::Chunk => place,
        Outcome::Version { .. } => None,
    }
}

/// Whether a call line is that of a call that is open under an xid of a client.
fn is_open_at(report: &CallReport, client: u32, xid: u32) -> bool
    ensures { result ≡ (report.now.client == client && is_open_as xid report.now.state) }
{
    report.client == client && is_open_as(xid, &report.state)
}

/// Sets the state of the call line with this index, if it is that of a call that is open under an xid of a client.
fn set_state(calls: &mut Vec<CallReport>, at: usize, client: u32, xid: u32, state: CallState)
    ensures { MatchOption (slice_get calls.old.items at) (calls.new.items ≡ calls.old.items) (λ r. calls.new.items ≡ slice_set calls.old.items at (becomes client xid state r)) }
{
    if let Some(report) = calls.get_mut(at) {
        if is_open_at(report, client, xid) {
            report.state = state;
        }
    }
}

impl Draft {
    /// Whether a call of a client is sent again.
    #[tactic(auto, unfolding(crate::specs::private::Drafts::is_again))]
    fn is_again(&self, client: u32, answer: Submission) -> bool
        ensures { result ≡ is_again client answer self.now }
    {
        match self.tables.get(index(client)) {
            Some(table) => table.is_earlier(answer),
            None => false,
        }
    }

    /// Notes a call line.
    fn add_line(&mut self, client: u32, answer: Submission) -> Result<(), Memory>
        ensures { OnOk result (MatchOption (slice_get self.old.tables.items (client - 1)) (Unit {0}) (Submitted client answer self.old self.new)) }
    {
        let at = self.calls.as_slice().len();
        if let Some(table) = self.tables.get_mut(index(client)) {
            let number = table.add_line(at, answer)?;
            self.calls.push(CallReport {
                client,
                number,
                state: submitted_state(answer),
            })?;
        }
        Ok(())
    }

    /// Notes that a call was submitted: if it wasn't sent again, it has a call line.
    fn submit(&mut self, client: u32, answer: Submission) -> Result<(), Memory>
        ensures { OnOk result (SubmittedIf (is_again client answer self.old) client answer self.old self.new) }
    {
        if self.is_again(client, answer) {
            return Ok(());
        }
        self.add_line(client, answer)
    }

    /// Notes that a call was executed.
    fn add_place(&mut self, client: u32, xid: u32, execution: Execution)
        ensures tables { MatchOption (slice_get self.old.tables.items (client - 1)) (Unit {0}) (λ table. (changed : CallTable) × AddsPlace xid execution table changed × (self.new.tables.items ≡ slice_set self.old.tables.items (client - 1) changed)) }
        ensures calls { self.new.calls.items ≡ self.old.calls.items }
        ensures journal { self.new.journal.items ≡ self.old.journal.items }
    {
        if let Some(table) = self.tables.get_mut(index(client)) {
            table.add_place(xid, execution);
        }
    }

    /// The index of the report of the call of an xid.
    #[tactic(auto, unfolding(crate::specs::private::Drafts::index_of))]
    fn index_of(&self, client: u32, xid: u32) -> Option<usize>
        ensures { result ≡ index_of client xid self.now }
    {
        match self.tables.get(index(client)) {
            Some(table) => table.index_of(xid),
            None => None,
        }
    }

    /// The place of the last execution of an xid of a client on a link.
    #[tactic(auto, unfolding(crate::specs::private::Drafts::place_of))]
    fn place_of(&self, client: u32, link: u32, xid: u32) -> Option<u64>
        ensures { result ≡ place_of client link xid self.now }
    {
        match self.tables.get(index(client)) {
            Some(table) => table.place_of(link, xid),
            None => None,
        }
    }

    /// Sets the state of a call, if it is open.
    fn end(&mut self, client: u32, xid: u32, state: CallState)
        ensures { Ended client xid state self.old self.new }
    {
        if let Some(at) = self.index_of(client, xid) {
            set_state(&mut self.calls, at, client, xid, state);
        }
    }

    /// What is said of a call with this outcome.
    #[tactic(auto, unfolding(crate::specs::private::Drafts::state_done))]
    fn state_done(&self, client: u32, link: u32, xid: u32, outcome: Outcome) -> CallState
        ensures { result ≡ state_done client link xid outcome self.now }
    {
        let len = self.journal.len() as u64;
        let place = place_shown(len, self.place_of(client, link, xid), &outcome);
        CallState::Done { place, outcome }
    }

    /// Whether a place is the journal's end.
    fn is_at_end(&self, place: u64) -> bool
        ensures { result ≡ (place == length self.now.journal.items) }
    {
        place == self.journal.len() as u64
    }

    /// Notes what an execution adds to the journal: the entry of its call, if the call was executed at the journal's end, and adds one.
    fn add_entry(
        &mut self,
        alloc: Global,
        is_new: bool,
        moment: Moment,
        payload: &[u8],
        reply: &[u8],
    ) -> Result<(), Memory>
        ensures journal { OnOk result (self.new.journal.items ≡ self.old.journal.items ++ entries_if is_new moment payload.now reply.now) }
        ensures tables { self.new.tables.items ≡ self.old.tables.items }
        ensures calls { self.new.calls.items ≡ self.old.calls.items }
    {
        if !is_new {
            return Ok(());
        }
        match entry_of_call(alloc, moment, payload, reply)? {
            Some(entry) => {
                self.journal.push(entry)?;
                Ok(())
            }
            None => Ok(()),
        }
    }

    /// Notes an execution: its place, and its entry, if it adds one.
    fn execute(
        &mut self,
        alloc: Global,
        call: (u32, u32, u32, u64),
        moment: Moment,
        payload: &[u8],
        reply: &[u8],
    ) -> Result<(), Memory>
        ensures { OnOk result (MatchOption (slice_get self.old.tables.items (call.0 - 1)) (Unit {0}) (Executed call.0 call.1 call.2 call.3 moment payload.now reply.now self.old self.new)) }
    {
        let (client, link, xid, place) = call;
        let is_new = self.is_at_end(place);
        self.add_place(client, xid, Execution { link, place });
        self.add_entry(alloc, is_new, moment, payload, reply)?;
        Ok(())
    }

    /// Notes a mark that is read, by the clients of all links in order.
    pub(crate) fn note(
        &mut self,
        alloc: Global,
        clients: &[u32],
        mark: MarkView<'_>,
    ) -> Result<(), Memory>
        ensures { OnOk result (Noted clients.now (mark_seen mark.entry) self.old self.new) }
    {
        match mark {
            MarkView::Submit { link, xid, .. } => {
                self.submit(client_in(clients, link), Submission::Accepted { xid })
            }
            MarkView::Execute {
                link,
                xid,
                moment,
                payload,
                place,
                reply,
            } => self.execute(
                alloc,
                (client_in(clients, link), link, xid, place),
                moment,
                payload,
                reply,
            ),
            MarkView::Done { link, xid, reply } => {
                let reply = Octets::from_slice(alloc, reply)?;
                self.complete(client_in(clients, link), link, xid, Outcome::Reply(reply));
                Ok(())
            }
            MarkView::Wrote { .. } | MarkView::Fed { .. } => Ok(()),
            MarkView::Other(mark) => self.note_mark(alloc, clients, mark),
        }
    }

    /// Notes a mark.
    fn note_mark(&mut self, alloc: Global, clients: &[u32], mark: &Mark) -> Result<(), Memory>
        ensures { OnOk result (Noted clients.now mark.now self.old self.new) }
    {
        match mark {
            Mark::Submit { link, answer, .. } => self.submit(client_in(clients, *link), *answer),
            Mark::Execute {
                link,
                xid,
                moment,
                payload,
                place,
                reply,
            } => self.execute(
                alloc,
                (client_in(clients, *link), *link, *xid, *place),
                *moment,
                payload.as_slice(),
                reply.as_slice(),
            ),
            Mark::Done { link, xid, outcome } => {
                let outcome = copy_of(alloc, outcome)?;
                self.complete(client_in(clients, *link), *link, *xid, outcome);
                Ok(())
            }
            Mark::Lost { link, xid } => {
                self.end(client_in(clients, *link), *xid, CallState::Lost);
                Ok(())
            }
            Mark::Forget { link, xid } => {
                self.end(client_in(clients, *link), *xid, CallState::Forgotten);
                Ok(())
            }
            Mark::Revoke { link, xid, bytes } => {
                self.revoke(alloc, client_in(clients, *link), *xid, bytes.as_slice())
            }
            Mark::Wrote { .. } | Mark::Fed { .. } | Mark::Drop { .. } | Mark::Told { .. } => Ok(()),
        }
    }

    /// Notes that the outcome of a call was handed over.
    fn complete(&mut self, client: u32, link: u32, xid: u32, outcome: Outcome)
        ensures { Ended client xid (state_done client link xid outcome self.old) self.old self.new }
    {
        let state = self.state_done(client, link, xid, outcome);
        self.end(client, xid, state);
    }

    /// Notes that the memory of a call was taken back, which held these bytes.
    fn revoke(&mut self, alloc: Global, client: u32, xid: u32, bytes: &[u8]) -> Result<(), Memory>
        ensures { OnOk result (Ended client xid (CallState.Revoked bytes.now) self.old self.new) }
    {
        let bytes = Octets::from_slice(alloc, bytes)?;
        self.end(client, xid, CallState::Revoked(bytes));
        Ok(())
    }
}

/// Notes all marks, in order, by the clients of all links in order.
fn note_all(
    alloc: Global,
    clients: &[u32],
    draft: &mut Draft,
    marks: &MarkList,
) -> Result<(), Memory>
    ensures { OnOk result ((s : Setting) (count : ℕ) → AreNumbered s clients.now count marks.now → IsDraft s clients.now count marks.now [] draft.old → IsDraft s clients.now count marks.now marks.now draft.new) }
{
    for at in 0..marks.len() {
        draft.note(alloc, clients, marks.mark(at))?;
    }
    Ok(())
}

/// Whether the mark at an index is that of a call of a client.
fn is_submit_of(clients: &[u32], client: u32, marks: &MarkList, at: usize) -> bool
    requires { at < length marks.now }
    ensures { (d : Mark) → result ≡ is_submit_of clients.now client (get_or marks.now at d) }
{
    match marks.submit_link(at) {
        Some(own) => client_in(clients, own) == client,
        None => false,
    }
}

/// How often calls of a client are submitted.
fn submits_of(clients: &[u32], client: u32, marks: &MarkList) -> usize
    ensures { result ≡ submits_of clients.now client marks.now }
{
    let mut count: usize = 0;
    for at in 0..marks.len() {
        if is_submit_of(clients, client, marks, at) {
            count += 1;
        }
    }
    count
}

/// The tables of this many clients, before the first mark.
fn empty_tables(
    alloc: Global,
    clients: &[u32],
    count: u32,
    marks: &MarkList,
) -> Result<Vec<CallTable>, Memory>
    ensures { IfOk result (λ tables. AreEmpty clients.now count marks.now tables.items) }
{
    let mut tables = Vec::new(alloc);
    for i in 0..count {
        tables.push(CallTable::new(alloc, submits_of(clients, i + 1, marks))?)?;
    }
    Ok(tables)
}

/// The report after all marks of this many clients, but for what becomes of open calls in the end.
pub(crate) fn draft_of(
    alloc: Global,
    clients: &[u32],
    count: u32,
    marks: &MarkList,
) -> Result<Draft, Memory>
    ensures { IfOk result (λ draft. (s : Setting) → AreNumbered s clients.now count marks.now → IsDraft s clients.now count marks.now marks.now draft) }
{
    let mut draft = Draft {
        calls: Vec::new(alloc),
        journal: Vec::new(alloc),
        tables: empty_tables(alloc, clients, count, marks)?,
    };
    note_all(alloc, clients, &mut draft, marks)?;
    Ok(draft)
}
