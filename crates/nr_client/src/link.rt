//! A link over which calls are made.

ghost use Rattle.std.specs.Prelude.{◌≡◌, ◌≤◌, IfOk, IfErr};
ghost use Rattle.nr_link.specs.Agreement.{terms_with};
ghost use Rattle.nr_links.specs.Limits.{read_max};
ghost use Rattle.nr_requester.specs.AfterCalls.{opened_as};
ghost use Rattle.nr_requester.specs.Fed.{fed_bytes};
ghost use Rattle.nr_client.specs.LinkParts.{RepresentsNewLink};

use crate::calling::{call_over, complete, submit_over};
use crate::link_calls::Calls;
use crate::unnumbered::{UnnumberedSink, UnnumberedSource};
use nr_links::PIECE_MAX;
use nr_outside::{Sink, Source};
use nr_reduce::{Call, Outcome};
use nr_requester::{Requester, Ticket};
use nr_shared::CallEnd;
use std::alloc::Global;
use std::marker::Model;

/// The client end of a link with its source and its sink. Contracts see these, and the number of bytes read.
pub struct Link<I, O> {
    requester: Requester,
    source: I,
    sink: O,
    read: u64,
    // What is read is put into it.
    buf: Vec<u8>,
}

/// What a link leaves: its requester, its source and its sink, and how many bytes were read of the source.
pub(crate) struct LinkEnds<I, O> {
    pub(crate) requester: Requester,
    pub(crate) source: I,
    pub(crate) sink: O,
    pub(crate) read: u64,
}

impl<I, O> Model for Link<I, O> {
    ghost use Rattle.nr_client.specs.LinkParts.{LinkParts};
    ghost use Rattle.nr_client.specs.Steps.{Fits};
    ghost use Rattle.std.specs.Prelude.{length};
    ghost use Rattle.std.specs.Coded.{codes};
    ghost use Rattle.nr_endpoint.specs.Codes.{state_code};

    ghost Value = { LinkParts I O };

    ghost coded = { Prim.hlevel (codes, state_code) };

    ghost view = { λ c. record { requester = c.requester; source = c.source; sink = c.sink; read = c.read } };

    ghost invariant = { λ c. Fits c.requester c.read (length c.buf.items) };
}

impl<I: Source, O: Sink> Link<I, O> {
    /// The client end of a new link. It wishes for this many credits, has this many units for its Sends in each direction, of 1,024 bytes
    /// each, 1 to 16 (0 counts as 1, and more than 16 as 16), and says whether it takes Sends with Invalidate (RFC 5040 section 4.7). After out
    /// of memory the source and the sink come back.
    pub fn open(
        alloc: Global,
        source: I,
        sink: O,
        credits: u32,
        units: u8,
        invalidates: bool,
    ) -> Result<Link<I, O>, (I, O)>
        ensures state { IfOk result (λ c. c ≡ record { requester = opened_as 1 1 credits (terms_with units invalidates) c.requester.staging; source = source; sink = sink; read = 0 }) }
        ensures stands { IfOk result (λ c. RepresentsNewLink c.requester credits (terms_with units invalidates)) }
        ensures returned { IfErr result (λ link. (link.0 ≡ source) × (link.1 ≡ sink)) }
    {
        let Ok(buf) = vec![in alloc; 0u8; PIECE_MAX] else {
            return Err((source, sink));
        };
        let Ok(requester) = Requester::open_sized(alloc, credits, units, invalidates) else {
            drop(buf);
            return Err((source, sink));
        };
        Ok(Link {
            requester,
            source,
            sink,
            read: 0,
            buf,
        })
    }

    /// What it leaves, for a requester that is shared. Its link isn't dialled again, so the source and the sink need no number.
    pub(crate) fn into_ends(self) -> LinkEnds<UnnumberedSource<I>, UnnumberedSink<O>>
        ensures requester { result.requester ≡ self.requester }
        ensures rest { (result.source.source ≡ self.source) × ((result.sink.sink ≡ self.sink) × (result.read ≡ self.read)) }
        ensures fed { fed_bytes result.requester ≤ read_max }
        ensures within { result.read ≤ read_max }
    {
        let Link {
            requester,
            source,
            sink,
            read,
            buf,
        } = self;
        drop(buf);
        LinkEnds {
            requester,
            source: UnnumberedSource { source },
            sink: UnnumberedSink { sink },
            read,
        }
    }

    /// The source and the sink. The requester is dropped.
    pub fn into_link(self) -> (I, O)
        ensures { (result.0 ≡ self.source) × (result.1 ≡ self.sink) }
    {
        let Link {
            requester,
            source,
            sink,
            read: _read,
            buf,
        } = self;
        drop(requester);
        drop(buf);
        (source, sink)
    }
}

impl<I: Source, O: Sink> Calls for Link<I, O> {
    ghost use Rattle.nr_client.specs.Calls.{link_relations};
    ghost use Rattle.nr_client.specs.Views.{LinkView, link_view};

    ghost View = { LinkView };

    ghost relations = { link_relations };

    ghost at = { λ c. link_view (I.left c.source) (I.given c.source) (O.taken c.sink) c.read c.requester (I.faults c.source) (O.faults c.sink) };

    fn call(&mut self, call: Call) -> Result<Outcome, CallEnd> {
        call_over(
            &mut self.requester,
            &mut self.source,
            &mut self.sink,
            &mut self.read,
            self.buf.as_mut_slice(),
            call,
        )
    }

    fn submit(&mut self, call: Call) -> Result<Ticket, CallEnd> {
        submit_over(
            &mut self.requester,
            &mut self.source,
            &mut self.sink,
            &mut self.read,
            self.buf.as_mut_slice(),
            call,
        )
    }

    fn wait(&mut self, ticket: Ticket) -> Result<Outcome, CallEnd> {
        complete(
            &mut self.requester,
            &mut self.source,
            &mut self.sink,
            &mut self.read,
            self.buf.as_mut_slice(),
            ticket,
        )
    }

    fn forget(&mut self, ticket: Ticket) {
        self.requester.forget(ticket);
    }

    fn has_credit(&mut self) -> bool {
        self.requester.may_submit()
    }
}
