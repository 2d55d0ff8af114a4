//! READs of several threads over one link, run by hand against `nfsrdma serve`: each is of four bytes of file 2 at an offset of its own, which is
//! four times the number that they hold, and all threads share a requester. It prints how many READs gave their own number, and how many
//! had no answer, since the link had ended; or nothing, if one gave another number. The arguments are the address, the number of threads, 1 to
//! 16, and how many READs each makes.

ghost use Rattle.std.specs.Prelude.{◌<◌, [], ◌∷◌, None, IfOk, IfSome, All};
ghost use Rattle.nr_rpc.specs.Credential.{CanWriteCred};
ghost use Rattle.nr_shared.specs.Opening.{IsInitialHistory};
ghost use Rattle.nr_shared.specs.Sharing.{SharedRests};

use crate::words::number;
use nr_links::{Dialer, LinkSink, LinkSource, TcpDialer};
use nr_nfs_base::{NFS_PROGRAM, NFS_VERSION, NfsProcedure, Numbered};
use nr_reduce::{Call, Form, Outcome};
use nr_requester::Requester;
use nr_rpc::Cred;
use nr_shared::{AnyCall, Appended, InitialHistory, Pass, SharedRequester};
use nr_xdr::{Memory, Octets};
use std::alloc::{AllocError, Global};
use std::env::Args;
use std::marker::Brand;
use std::sync::Wait;
use std::thread;
use std::thread::Threads;

/// How many credits the client wishes for.
const CREDITS: u32 = 16;

/// The handle of file 2.
static FILE: [u8; 12] = [0, 0, 0, 8, 0, 0, 0, 0, 0, 0, 0, 2];

/// What a READ came to.
enum Answer {
    Own,
    Other,
    None,
}

/// A caller: its pass, the first number that it reads, and how many it reads; what these READs came to.
#[derive(Drop)]
struct Reader<I: LinkSource + Drop, O: LinkSink + Drop> {
    pass: Pass<I, O, AnyCall>,
    first: u32,
    count: u32,
    own: u32,
    other: u32,
    unanswered: u32,
}

/// The READ of a number.
fn read_call(alloc: Global, number: u32) -> Result<Call, Memory>
    ensures { IfOk result (λ c. CanWriteCred c.cred) }
{
    let mut args = Octets::from_slice(alloc, &FILE)?;
    let offset = u64::from(number).saturating_mul(4);
    args.extend_from_slice(&offset.to_be_bytes())?;
    args.extend_from_slice(&[0, 0, 0, 4])?;
    Ok(Call {
        prog: NFS_PROGRAM,
        vers: NFS_VERSION,
        proc: NfsProcedure::Read.number(),
        cred: Cred::None,
        args,
    })
}

/// Whether a reply ends with this number: the data are the last of a READ's results (RFC 1813 section 3.3.6).
fn ends_with(reply: &[u8], number: u32) -> bool {
    match reply.get(reply.len().saturating_sub(4)..) {
        Some(data) => data == number.to_be_bytes().as_slice(),
        None => false,
    }
}

fn answer_of(outcome: &Outcome, number: u32) -> Answer {
    match outcome {
        Outcome::Reply(reply) => {
            if ends_with(reply.as_slice(), number) {
                Answer::Own
            } else {
                Answer::Other
            }
        }
        _ => Answer::Other,
    }
}

/// Reads a number.
fn read_number<R: Wait, I: LinkSource + Drop, O: LinkSink + Drop>(
    rt: &R,
    alloc: Global,
    shared: &SharedRequester<I, O, AnyCall>,
    pass: &mut Pass<I, O, AnyCall>,
    number: u32,
) -> Answer
    requires { SharedRests shared.now pass.old }
    ensures { SharedRests shared.now pass.new }
{
    let call = match read_call(alloc, number) {
        Ok(call) => call,
        Err(_) => return Answer::Other,
    };
    match shared.call(rt, pass, call, Form::Auto) {
        Ok(done) => answer_of(&done.outcome, number),
        Err(_) => Answer::None,
    }
}

/// Reads the numbers of a caller, one after another.
fn read_numbers<R: Wait, I: LinkSource + Drop, O: LinkSink + Drop>(
    rt: &R,
    alloc: Global,
    shared: &SharedRequester<I, O, AnyCall>,
    reader: &mut Reader<I, O>,
)
    requires { SharedRests shared.now reader.old.pass }
    ensures { SharedRests shared.now reader.new.pass }
{
    let mut next = reader.first;
    let mut left = reader.count;
    'numbers: while left > 0 {
        match read_number(rt, alloc, shared, &mut reader.pass, next) {
            Answer::Own => reader.own = reader.own.saturating_add(1),
            Answer::Other => reader.other = reader.other.saturating_add(1),
            Answer::None => reader.unanswered = reader.unanswered.saturating_add(1),
        }
        next = next.saturating_add(1);
        left -= 1;
    }
}

/// Each caller reads its numbers, in a thread of its own if there is one.
fn read_all<R: Threads + Wait + Sync, I: LinkSource + Send + Drop, O: LinkSink + Send + Drop>(
    rt: &R,
    alloc: Global,
    shared: &SharedRequester<I, O, AnyCall>,
    threads: usize,
    readers: &mut [Reader<I, O>],
)
    requires threads { 0 < threads }
    requires rests { All (λ r. SharedRests shared.now r.pass) readers.old }
{
    let run = |_: usize, reader: &mut Reader<I, O>|
        requires { SharedRests shared.now reader.now.pass }
    { read_numbers(rt, alloc, shared, reader) };
    thread::for_each_mut(rt, readers, threads, &run);
}

/// A caller of each thread, with a pass of its own. Their numbers follow one another.
fn readers_of<I: LinkSource + Drop, O: LinkSink + Drop>(
    alloc: Global,
    shared: &SharedRequester<I, O, AnyCall>,
    pass: &mut Pass<I, O, AnyCall>,
    threads: usize,
    count: u32,
) -> Result<Vec<Reader<I, O>>, AllocError>
    requires { SharedRests shared.now pass.old }
    ensures rests { SharedRests shared.now pass.new }
    ensures ok { IfOk result (λ v. All (λ r. SharedRests shared.now r.pass) v.items) }
{
    let mut readers = Vec::with_capacity(alloc, threads)?;
    let mut first = 0u32;
    'readers: while readers.len() < threads {
        readers.push(Reader {
            pass: shared.split(pass),
            first,
            count,
            own: 0,
            other: 0,
            unanswered: 0,
        })?;
        first = first.saturating_add(count);
    }
    Ok(readers)
}

/// How many READs gave their own number, and how many had no answer; none if one gave another number.
fn totals<I: LinkSource + Drop, O: LinkSink + Drop>(
    readers: &[Reader<I, O>],
) -> Option<(u64, u64)> {
    let mut own = 0u64;
    let mut unanswered = 0u64;
    for reader in readers {
        if reader.other > 0 {
            return None;
        }
        own = own.saturating_add(u64::from(reader.own));
        unanswered = unanswered.saturating_add(u64::from(reader.unanswered));
    }
    Some((own, unanswered))
}

/// Shares a requester. `K` is the entry of its initial state, for the proof.
fn share<K: Appended, R: Wait, I: LinkSource + Drop, O: LinkSink + Drop>(
    rt: &R,
    alloc: Global,
    requester: Requester,
    source: I,
    sink: O,
) -> Option<(SharedRequester<I, O, AnyCall>, Pass<I, O, AnyCall>)>
    requires { IsInitialHistory O.link O.taken O.faults requester sink None (K.entry ∷ []) }
    ensures { IfSome result (λ t. SharedRests t.0 t.1) }
{
    SharedRequester::new::<InitialHistory<K>, R>(rt, alloc, requester, source, sink, 0).ok()
}

/// Makes all READs over a link.
fn read_over<R: Threads + Wait + Sync, I: LinkSource + Drop, O: LinkSink + Drop>(
    rt: &R,
    alloc: Global,
    source: I,
    sink: O,
    threads: usize,
    count: u32,
) -> Option<(u64, u64)>
where
    I: Send,
    O: Send,
    requires { 0 < threads }
{
    let requester = match Requester::open(alloc, CREDITS) {
        Ok(requester) => requester,
        Err(_) => return None,
    };
    let (shared, mut pass) = share::<Brand, R, I, O>(rt, alloc, requester, source, sink)?;
    let Ok(mut readers) = readers_of(alloc, &shared, &mut pass, threads, count) else {
        return None;
    };
    read_all(rt, alloc, &shared, threads, readers.as_mut_slice());
    let total = totals(readers.as_slice());
    drop(readers);
    drop(shared.close(rt, pass));
    total
}

/// Makes all READs over a link to an address.
fn linked<R: Threads + Wait + Sync, P: LinkSource, Q: LinkSink, D: Dialer<Source = P, Sink = Q>>(
    rt: &R,
    alloc: Global,
    dialer: &mut D,
    addr: &str,
    threads: usize,
    count: u32,
) -> Option<(u64, u64)>
where
    P: Drop + Send,
    Q: Drop + Send,
    requires { 0 < threads }
{
    let Ok((source, sink)) = dialer.dial(addr) else {
        return None;
    };
    read_over(rt, alloc, source, sink, threads, count)
}

/// Takes the words, and gives how many READs gave their own number, and how many had no answer. The threads are those of this runtime.
pub fn measure<R: Threads + Wait + Sync>(
    rt: HostRuntime,
    runtime: &R,
    words: &mut Args,
) -> Option<(u64, u64)> {
    let addr = words.next()?;
    let threads = number(words)? as usize;
    let count = number(words)?;
    if threads == 0 || threads > 16 {
        return None;
    }
    let mut dialer = TcpDialer::new(rt);
    linked(
        runtime,
        rt.alloc(),
        &mut dialer,
        addr.as_str(),
        threads,
        count,
    )
}
