//! A benchmark, run by hand against `nfsrdma serve`: GETATTRs of the root, or READs or WRITEs of file 2, over TCP, with at most n
//! outstanding. It prints how many calls, or how many bytes, the replies confirm, and the microseconds that they took. The
//! arguments are the address; `getattr`, `read` or `write`; the number of calls; how many may be outstanding; how many bytes a READ or a
//! WRITE moves, at most 1,048,576; and the client's units of 1,024 bytes for a Send.

ghost use Rattle.std.specs.Prelude.{◌≡◌};

use crate::links_client::Client;
use crate::links_work::Work;
use crate::words::number;
use nr_links::{Dialer, LinkNumber, NumberedSink, NumberedSource, PIECE_MAX, TcpDialer};
use nr_outside::{Sink, Source};
use nr_reduce::Outcome;
use nr_xdr::Octets;
use std::alloc::Global;
use std::env::Args;
use std::io;
use std::marker::Brand;
use std::time::Instant;

/// How many credits the client wishes for.
const CREDITS: u32 = 64;

/// What is done: calls of a kind, their number, how many may be outstanding, and the units of the client.
#[derive(Clone, Copy)]
struct Plan {
    work: Work,
    rounds: u32,
    outstanding: u32,
    units: u8,
}

/// Submits calls while one may be sent, with arguments that came back or that are made. Gives how many were submitted.
fn submit_all(
    alloc: Global,
    client: &mut Client,
    spare: &mut Option<Octets>,
    plan: Plan,
    left: u32,
) -> Option<u32> {
    let mut count: u32 = 0;
    for _ in 0..left {
        if !client.can_submit(plan.outstanding) {
            break;
        }
        let args = match spare.take() {
            Some(args) => args,
            None => plan.work.args(alloc).ok()?,
        };
        client.submit(alloc, plan.work.procedure(), args)?;
        count = count.saturating_add(1);
    }
    Some(count)
}

/// What a reply confirms; none if it is no success.
fn confirmed(work: Work, outcome: &Outcome) -> Option<u64> {
    match outcome {
        Outcome::Reply(reply) => work.confirmed(reply.as_slice()),
        Outcome::Chunk => None,
        Outcome::Version { .. } => None,
    }
}

/// Makes all calls over a link. Gives how many calls or bytes are confirmed.
fn call_all<I: Source, O: Sink>(
    alloc: Global,
    client: &mut Client,
    source: &mut I,
    sink: &mut O,
    piece: &mut [u8],
    plan: Plan,
) -> Option<u64> {
    let mut left = plan.rounds;
    let mut done: u32 = 0;
    let mut total: u64 = 0;
    let mut spare = None;
    for _ in 0..u64::MAX {
        if done >= plan.rounds {
            break;
        }
        match client.take() {
            Some((args, outcome)) => {
                total = total.saturating_add(confirmed(plan.work, &outcome)?);
                drop(outcome);
                spare = Some(args);
                done = done.saturating_add(1);
            }
            None => client.exchange(source, sink, piece)?,
        }
        left = left.saturating_sub(submit_all(alloc, client, &mut spare, plan, left)?);
    }
    Some(total)
}

/// Makes all calls over a link to an address.
fn linked<N: LinkNumber, D: Dialer>(
    alloc: Global,
    dialer: &mut D,
    addr: &str,
    plan: Plan,
) -> Option<u64>
    requires { D.next dialer.old ≡ N.number }
{
    let Ok(mut client) = Client::open(alloc, CREDITS, plan.units) else {
        return None;
    };
    let Ok(mut piece) = vec![in alloc; 0u8; PIECE_MAX] else {
        return None;
    };
    let Ok((source, sink)) = dialer.dial(addr) else {
        return None;
    };
    let mut source = NumberedSource::<D::Source, N>::new(source);
    let mut sink = NumberedSink::<D::Sink, N>::new(sink);
    let total = call_all(alloc, &mut client, &mut source, &mut sink, &mut piece, plan);
    dialer.hang_up(source.into_inner(), sink.into_inner());
    total
}

/// The plan of the words after the address.
fn plan_of(words: &mut Args) -> Option<Plan> {
    let what = words.next()?;
    let rounds = number(words)?;
    let outstanding = number(words)?;
    let size = number(words)?;
    let units = u8::try_from(number(words)?).ok()?;
    let work = Work::of(what.as_str(), size)?;
    Some(Plan {
        work,
        rounds,
        outstanding,
        units,
    })
}

/// Runs the plan, and gives what is confirmed and the microseconds.
fn measured(rt: HostRuntime, addr: &str, plan: Plan) -> io::Result<Option<(u64, u128)>> {
    let mut dialer = TcpDialer::new(rt);
    let start = Instant::now(&rt)?;
    let total = linked::<Brand, TcpDialer<HostRuntime>>(rt.alloc(), &mut dialer, addr, plan);
    let micros = start.elapsed(&rt)?.as_micros();
    Ok(total.map(|total| (total, micros)))
}

/// Takes the words, and gives how many calls or bytes are confirmed, and the microseconds.
pub fn measure(rt: HostRuntime, words: &mut Args) -> Option<(u64, u128)> {
    let addr = words.next()?;
    let plan = plan_of(words)?;
    measured(rt, addr.as_str(), plan).ok()?
}
