//! A link that breaks: the calls that are left, and their buffers, after the requester is given back.

ghost use Rattle.nr_rpc.specs.Credential.{CanWriteCred};
ghost use Rattle.nr_shared.specs.Sharing.{SharedRests};

use crate::compare::same;
use crate::sharing::{Answer, Caller, Link, Shared, answer_of, append_words, good, null, share};
use nr_reduce::{Call, Form};
use nr_requester::{Buffers, Remains};
use nr_rpc::Cred;
use nr_xdr::Octets;
use std::alloc::Global;
use std::process::Abort;
use std::sync::Wait;

/// NFS.
const NFS: u32 = 100003;

/// The arguments of a WRITE of 5 bytes into the file with handle 2 (RFC 1813 section 3.3.7).
static WRITE: [u32; 10] = [8, 0, 2, 0, 0, 5, 2, 5, 0x68656c6c, 0x6f000000];

/// Those bytes.
static DATA: [u8; 5] = [0x68, 0x65, 0x6c, 0x6c, 0x6f];

/// A WRITE.
fn write(rt: &impl Abort, alloc: Global) -> Call
    ensures { CanWriteCred result.cred }
{
    let mut args = Vec::new(alloc);
    append_words(rt, &mut args, &WRITE);
    Call {
        prog: NFS,
        vers: 3,
        proc: 7,
        cred: Cred::None,
        args: Octets::from_vec(args),
    }
}

/// Whether these are the arguments of the WRITE, and the buffers have its data in a read chunk, and nothing else.
fn is_write(rt: &impl Abort, alloc: Global, call: &Call, buffers: &Buffers) -> bool {
    let mut args = Vec::new(alloc);
    append_words(rt, &mut args, &WRITE);
    let read = match &buffers.read {
        Some(data) => data.as_slice() == DATA.as_slice(),
        None => false,
    };
    read && call.args.as_slice() == args.as_slice()
        && buffers.write.is_none()
        && buffers.reply.is_none()
}

/// The procedure of the next call that comes back, and whether it is the WRITE with its data.
fn next_back(rt: &impl Abort, alloc: Global, remains: &mut Remains) -> Option<(u32, bool)> {
    let (call, buffers) = remains.next()?;
    Some((call.proc, is_write(rt, alloc, &call, &buffers)))
}

/// Ends the test if other calls come back than a NULL call that nobody took, and a WRITE that was forgotten.
fn come_back(rt: &(impl Abort + Wait), alloc: Global, shared: Shared, pass: Caller)
    requires { SharedRests shared pass }
{
    let (requester, link, _) = shared.close(rt, pass);
    drop(link);
    let mut remains = requester.dismantle();
    same(rt, 2, next_back(rt, alloc, &mut remains), Some((0, false)));
    same(rt, 3, next_back(rt, alloc, &mut remains), Some((7, true)));
    same(rt, 4, next_back(rt, alloc, &mut remains), None);
}

/// After a NULL call was answered there are 16 credits. The read fails that the replies to the next two calls need.
#[test]
fn calls_come_back(rt: HostRuntime) {
    let link = Link {
        reads: &[2],
        ..good(&[1])
    };
    let (shared, mut pass) = share(&rt, rt.alloc(), &link);
    let got = shared.call(&rt, &mut pass, null(rt.alloc(), NFS), Form::Auto);
    same(&rt, 0, answer_of(&got, NFS, 1), Answer::Reply);
    drop(shared.try_submit(&mut pass, null(rt.alloc(), NFS), Form::Auto));
    let got = shared.call(&rt, &mut pass, write(&rt, rt.alloc()), Form::Chunk);
    same(&rt, 1, answer_of(&got, NFS, 3), Answer::LinkRead);
    come_back(&rt, rt.alloc(), shared, pass);
}
