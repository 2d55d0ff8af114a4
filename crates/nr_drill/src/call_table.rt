//! What is known of the calls of a client after some marks.

ghost use Rattle.std.specs.Prelude.{◌≡◌, ◌+◌, ◌-◌, [], length, replicate, IfOk, OnOk, None, slice_get, slice_index_or};
ghost use Rattle.nr_drill.specs.private.Drafts.{AddsLine, AddsPlace, client_in, is_earlier, place_on};

use nr_reduce::Submission;
use nr_xdr::Memory;
use std::alloc::Global;

/// An execution of a call: on which link, and at which place.
#[derive(Clone, Copy)]
pub(crate) struct Execution {
    /// The number of the link.
    pub(crate) link: u32,
    /// The number of journal entries before it.
    pub(crate) place: u64,
}

/// What is known of the calls of a client after some marks.
#[derive(Drop)]
pub(crate) struct CallTable {
    /// How many call lines there were.
    lines: u32,
    /// The index of the report of each accepted call, in the order of their xids, from 1.
    reports: Vec<usize>,
    /// The last execution of each xid, from 1 up to how often the client's calls were submitted, on whichever of its links.
    places: Vec<Option<Execution>>,
}

/// The index of what has a number from 1.
pub(crate) fn index(number: u32) -> usize
    ensures { result ≡ number - 1 }
{
    number.saturating_sub(1) as usize
}

/// The client of a link, by the clients of all links in order.
pub(crate) fn client_in(clients: &[u32], link: u32) -> u32
    ensures { result ≡ client_in clients.now link }
{
    match clients.get(index(link)) {
        Some(client) => *client,
        None => 0,
    }
}

/// The place of an execution, if it was on a link.
fn place_on(link: u32, execution: Option<Execution>) -> Option<u64>
    ensures { result ≡ place_on link execution }
{
    match execution {
        Some(execution) => {
            if execution.link == link {
                Some(execution.place)
            } else {
                None
            }
        }
        None => None,
    }
}

impl CallTable {
    /// The table of a client whose calls are submitted this many times, before the first of them.
    pub(crate) fn new(alloc: Global, count: usize) -> Result<CallTable, Memory>
        ensures { IfOk result (λ t. (t.lines ≡ 0) × (t.reports.items ≡ []) × (t.places.items ≡ replicate count None)) }
    {
        Ok(CallTable {
            lines: 0,
            reports: Vec::new(alloc),
            places: vec![in alloc; None; count]?,
        })
    }

    /// Notes a call line, whose report has this index, and gives its number.
    pub(crate) fn add_line(&mut self, at: usize, answer: Submission) -> Result<u32, Memory>
        ensures number { IfOk result (λ number. number ≡ self.old.lines + 1) }
        ensures adds { OnOk result (AddsLine at answer self.old self.new) }
    {
        let Some(number) = self.lines.checked_add(1) else {
            return Err(Memory);
        };
        if let Submission::Accepted { .. } = answer {
            self.reports.push(at)?;
        }
        self.lines = number;
        Ok(number)
    }

    /// Notes that the call of an xid was executed.
    pub(crate) fn add_place(&mut self, xid: u32, execution: Execution)
        ensures { AddsPlace xid execution self.old self.new }
    {
        if xid == 0 {
            return;
        }
        if let Some(slot) = self.places.get_mut(index(xid)) {
            *slot = Some(execution);
        }
    }

    /// Whether a call is sent again: it has the xid of an earlier one.
    pub(crate) fn is_earlier(&self, answer: Submission) -> bool
        ensures { result ≡ is_earlier answer (length self.now.reports.items) }
    {
        match answer {
            Submission::Accepted { xid } => xid as usize <= self.reports.as_slice().len(),
            _ => false,
        }
    }

    /// The index of the report of the call of an xid.
    pub(crate) fn index_of(&self, xid: u32) -> Option<usize>
        ensures { result ≡ slice_get self.now.reports.items (xid - 1) }
    {
        self.reports.get(index(xid)).copied()
    }

    /// The place of the last execution of an xid, if it was on this link.
    pub(crate) fn place_of(&self, link: u32, xid: u32) -> Option<u64>
        ensures { result ≡ place_on link (slice_index_or self.now.places.items (xid - 1) None) }
    {
        match self.places.get(index(xid)) {
            Some(execution) => place_on(link, *execution),
            None => None,
        }
    }
}
