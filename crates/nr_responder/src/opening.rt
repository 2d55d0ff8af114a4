//! The Read Requests that open, as many as may be open at a time (RFC 5040 section 4.4).

ghost use Rattle.std.specs.Prelude.{◌≡◌, ◌≢◌, ◌+◌, ◌<◌, min, map, None, All, IfOk, OnOk, OnErr, []};
ghost use Rattle.nr_link.specs.Limits.{open_reads_max};
ghost use Rattle.nr_endpoint.specs.Requesting.{FitsSink};
ghost use Rattle.nr_responder.specs.private.Reading.{opening, remote_of, with_opened, with_opened_after};
ghost use Rattle.nr_responder.specs.Views.{read_view};

use crate::answering::SENDABLE;
use crate::call::ReadEntry;
use nr_endpoint::{Endpoint, OPEN_READS_MAX, RemoteRead};
use nr_xdr::{Memory, Octets};
use std::alloc::Global;

/// How many reads are open if there are this many.
pub(crate) fn open_count(reads: usize) -> usize
    ensures { result ≡ min reads open_reads_max }
{
    if reads < OPEN_READS_MAX {
        return reads;
    }
    OPEN_READS_MAX
}

fn remote_read(sink: u32, at: u32, len: u32, stag: u32, to: u64) -> RemoteRead
    ensures read { result ≡ record { sink = sink; at = at; len = len; stag = stag; to = to } }
    ensures fits { FitsSink result }
{
    RemoteRead {
        sink,
        at: u64::from(at),
        len,
        stag,
        to,
    }
}

/// The Read Requests of the reads that open if `kept` are open. `Err`: some open, and memory ran out.
fn opening_reads(alloc: Global, reads: &[ReadEntry], kept: usize) -> Result<Vec<RemoteRead>, Memory>
    ensures reads { IfOk result (λ r. r.items ≡ map remote_of (opening kept (map read_view reads.now))) }
    ensures fits { IfOk result (λ r. All FitsSink r.items) }
    ensures err { OnErr result (opening kept (map read_view reads.now) ≢ []) }
{
    let mut opened = Vec::new(alloc);
    let end = open_count(reads.len());
    'opened: for i in kept..end {
        let read = reads[i];
        opened.push(remote_read(read.sink, read.at, read.size, read.stag, read.to))?;
    }
    Ok(opened)
}

/// Opens the reads that may open if `kept` are open. `Err`: some may, and memory ran out; nothing changed.
pub(crate) fn open_reads(
    endpoint: &mut Endpoint,
    alloc: Global,
    reads: &[ReadEntry],
    kept: usize,
) -> Result<(), Memory>
    requires live { endpoint.old.link.state.ended ≡ None }
    ensures ok { OnOk result (endpoint.new.link ≡ with_opened (opening kept (map read_view reads.now)) endpoint.old.link) }
    ensures err { OnErr result (endpoint.new.link ≡ endpoint.old.link) }
    ensures some { OnErr result (opening kept (map read_view reads.now) ≢ []) }
    ensures room { endpoint.new.room ≡ endpoint.old.room }
    ensures outside { endpoint.new.outside ≡ endpoint.old.outside }
    ensures staging { endpoint.new.staging ≡ endpoint.old.staging }
{
    endpoint.facts();
    let opened = opening_reads(alloc, reads, kept)?;
    if opened.is_empty() {
        return Ok(());
    }
    if endpoint.reads_open() + opened.len() > OPEN_READS_MAX {
        return Err(Memory);
    }
    endpoint.read_all(opened.as_slice())?;
    Ok(())
}

/// Queues a message, and opens the reads that may open then. An `Err` changes nothing.
pub(crate) fn send_and_open(
    endpoint: &mut Endpoint,
    alloc: Global,
    message: &Octets,
    reads: &[ReadEntry],
    kept: usize,
) -> Result<(), Memory>
    requires live { endpoint.old.link.state.ended ≡ None }
    ensures ok { OnOk result (endpoint.new.link ≡ with_opened_after message.now (opening kept (map read_view reads.now)) endpoint.old.link) }
    ensures err { OnErr result (endpoint.new.link ≡ endpoint.old.link) }
    ensures outside { endpoint.new.outside ≡ endpoint.old.outside }
    ensures staging { endpoint.new.staging ≡ endpoint.old.staging }
{
    endpoint.facts();
    if message.len() > SENDABLE {
        return Err(Memory);
    }
    let opened = opening_reads(alloc, reads, kept)?;
    if endpoint.reads_open() + opened.len() > OPEN_READS_MAX {
        return Err(Memory);
    }
    endpoint.send_and_read_all(message.as_slice(), opened.as_slice())
}
