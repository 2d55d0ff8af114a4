//! `get` by several jobs.

ghost use Rattle.std.specs.Prelude.{◌≡◌, ◌<◌, ◌≤◌};
ghost use Rattle.nr_outside.specs.Streams.{sink_at};
ghost use Rattle.nr_links.specs.Links.{CountsLost, EndsLink, HasOpenLink, ended_link};
ghost use Rattle.nr_words.specs.Lines.{plain_get};
ghost use Rattle.nr_client.specs.Dialing.{dialer_at};
ghost use Rattle.nr_client.specs.Jobs.{jobs_max};
ghost use Rattle.nr_commands.specs.ByJobs.{GetsByJobs, ReadsAndHangsUp};
ghost use Rattle.nr_commands.specs.Sessions.{session_at};

use crate::files::keep_pieces;
use crate::finding::find;
use nr_client::{ClientEnd, Link, Session};
use nr_links::{Dialer, LinkNumber, LinkSink, LinkSource, NumberedSink, NumberedSource};
use nr_nfs_base::Handle;
use nr_outside::Sink;
use nr_words::GetByJobs;
use std::alloc::Global;
use std::marker::Brand;
use std::sync::Wait;
use std::thread::Threads;

/// Hangs up the link of this number.
fn hang_up<N: LinkNumber, P: LinkSource, Q: LinkSink, D: Dialer<Source = P, Sink = Q>>(
    source: NumberedSource<P, N>,
    sink: NumberedSink<Q, N>,
    dial: &mut D,
)
    requires { HasOpenLink (D.ended dial.old) }
    ensures ended { EndsLink (D.ended dial.old) (D.ended dial.new)
        (ended_link N.number (P.given source.source) (P.left source.source) (Q.taken sink.sink)) }
    ensures lost { CountsLost (P.faults source.source) (Q.faults sink.sink) (D.lost dial.old) (D.lost dial.new) }
    ensures asked { D.asked dial.new ≡ D.asked dial.old }
    ensures faults { D.faults dial.new ≡ D.faults dial.old }
{
    dial.hang_up(source.into_inner(), sink.into_inner());
}

/// Reads a file over a session by jobs, and hangs the link up, whose number this is.
fn read_and_close<
    N: LinkNumber,
    P: LinkSource,
    Q: LinkSink,
    D: Dialer<Source = P, Sink = Q>,
    R: Threads + Wait + Sync,
    K: Sink,
>(
    rt: &R,
    session: Session<Link<NumberedSource<P, N>, NumberedSink<Q, N>>>,
    file: &Handle,
    jobs: usize,
    dial: &mut D,
    out: &mut K,
) -> Result<(), ClientEnd>
where
    N: Drop + Send,
    P: Drop + Send,
    Q: Drop + Send,
    requires jobs { (0 < jobs) × (jobs ≤ jobs_max) }
    requires made { HasOpenLink (D.ended dial.old) }
    ensures { ReadsAndHangsUp session.uid session.gid file.now N.number
        (session_at (P.left session.link.source.source) (P.given session.link.source.source) (Q.taken session.link.sink.sink) session.link.read session.link.requester (P.faults session.link.source.source) (Q.faults session.link.sink.sink))
        (dialer_at (D.asked dial.old) (D.ended dial.old) (D.lost dial.old) (D.faults dial.old))
        (dialer_at (D.asked dial.new) (D.ended dial.new) (D.lost dial.new) (D.faults dial.new))
        (sink_at (K.taken out.old) (K.faults out.old)) (sink_at (K.taken out.new) (K.faults out.new)) result }
{
    let (result, source, sink) = session.read_file_by_jobs(rt, file, jobs, out);
    hang_up(source, sink, dial);
    result
}

/// Runs a `get` by jobs over the next link of a dialer, whose number this is.
fn get_at<
    N: LinkNumber,
    P: LinkSource,
    Q: LinkSink,
    D: Dialer<Source = P, Sink = Q>,
    R: Threads + Wait + Sync,
    K: Sink,
>(rt: &R, alloc: Global, get: &GetByJobs<&str>, dial: &mut D, out: &mut K) -> Result<(), ClientEnd>
where
    N: Drop + Send,
    P: Drop + Send,
    Q: Drop + Send,
    requires number { D.next dial.old ≡ N.number }
    requires jobs { (0 < get.now.jobs) × (get.now.jobs ≤ jobs_max) }
    ensures { GetsByJobs (plain_get get.now)
        (dialer_at (D.asked dial.old) (D.ended dial.old) (D.lost dial.old) (D.faults dial.old))
        (dialer_at (D.asked dial.new) (D.ended dial.new) (D.lost dial.new) (D.faults dial.new))
        (sink_at (K.taken out.old) (K.faults out.old)) (sink_at (K.taken out.new) (K.faults out.new)) result }
{
    let opened = Session::<Link<NumberedSource<P, N>, NumberedSink<Q, N>>>::open(
        alloc,
        dial,
        get.addr,
        get.uid,
        get.gid,
        get.units,
        get.invalidates,
    );
    let mut session = match opened {
        Ok(session) => session,
        Err(end) => return Err(end),
    };
    let file = match find(alloc, &mut session, get.export, get.path) {
        Ok(file) => file,
        Err(end) => {
            session.close(dial);
            return Err(end);
        }
    };
    keep_pieces(alloc);
    read_and_close(rt, session, &file, get.jobs as usize, dial, out)
}

/// Runs a `get` by several jobs, 1 to 16: opens a session, finds the file, reads it by the jobs, each in a thread of its own if there is one,
/// and hangs the link up. The bytes of the file are written to `out` in order of offset, those of one piece of each job at a time.
///
/// # Errors
///
/// [`ClientEnd`] says why it was not done; `OutputFault` if a write to `out` failed.
pub fn get_by_jobs<
    P: LinkSource,
    Q: LinkSink,
    D: Dialer<Source = P, Sink = Q>,
    R: Threads + Wait + Sync,
    K: Sink,
>(rt: &R, alloc: Global, get: &GetByJobs<&str>, dial: &mut D, out: &mut K) -> Result<(), ClientEnd>
where
    P: Drop + Send,
    Q: Drop + Send,
    requires { (0 < get.now.jobs) × (get.now.jobs ≤ jobs_max) }
    ensures { GetsByJobs (plain_get get.now)
        (dialer_at (D.asked dial.old) (D.ended dial.old) (D.lost dial.old) (D.faults dial.old))
        (dialer_at (D.asked dial.new) (D.ended dial.new) (D.lost dial.new) (D.faults dial.new))
        (sink_at (K.taken out.old) (K.faults out.old)) (sink_at (K.taken out.new) (K.faults out.new)) result }
{
    get_at::<Brand, P, Q, D, R, K>(rt, alloc, get, dial, out)
}
