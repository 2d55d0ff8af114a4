//! Callers of a shared requester, each for a thread of its own.

ghost use Rattle.nr_shared.specs.Sharing.{SharedRests};

use crate::held::Peer;
use crate::sharing::{Answer, Caller, Shared, answer_of, end_of, null};
use nr_reduce::{Call, Form};
use nr_shared::{TryRevoke, TrySubmit};
use std::alloc::Global;
use std::sync::Wait;

/// How often a caller that doesn't wait tries.
const TRIES: u32 = 20_000_000;

/// What a NULL call of this program is answered.
pub fn called(rt: &impl Wait, alloc: Global, shared: &Shared, mut pass: Caller, prog: u32) -> Answer
    requires { SharedRests shared.now pass }
{
    let ticket = match shared.submit(rt, &mut pass, null(alloc, prog), Form::Auto) {
        Ok(ticket) => ticket,
        Err(end) => return end_of(&end),
    };
    let xid = ticket.xid();
    answer_of(&shared.wait(rt, &mut pass, ticket), prog, xid)
}

/// The same of a call that is submitted without waiting, while another caller reads.
pub fn called_beside_a_read(
    rt: &impl Wait,
    alloc: Global,
    shared: &Shared,
    mut pass: Caller,
    peer: &Peer,
    prog: u32,
) -> Answer
    requires { SharedRests shared.now pass }
{
    peer.wait_for_read();
    let ticket = match shared.try_submit(&mut pass, null(alloc, prog), Form::Auto) {
        TrySubmit::Submitted(ticket) => ticket,
        TrySubmit::Refused(..) => return Answer::Other,
        TrySubmit::Busy(..) => return Answer::Busy,
    };
    let xid = ticket.xid();
    answer_of(&shared.wait(rt, &mut pass, ticket), prog, xid)
}

fn is_of(call: &Call, prog: u32) -> bool {
    call.prog == prog
}

/// A NULL call of this program is submitted, and revoked once the turn is free.
pub fn revoked(
    rt: &impl Wait,
    alloc: Global,
    shared: &Shared,
    mut pass: Caller,
    prog: u32,
) -> Answer
    requires { SharedRests shared.now pass }
{
    let mut kept = match shared.submit(rt, &mut pass, null(alloc, prog), Form::Auto) {
        Ok(ticket) => ticket,
        Err(end) => return end_of(&end),
    };
    for _ in 0..TRIES {
        match shared.try_revoke(&mut pass, kept) {
            TryRevoke::Revoked(call, _) => {
                if is_of(&call, prog) {
                    return Answer::Revoked;
                }
                return Answer::Other;
            }
            TryRevoke::Busy(ticket) => kept = ticket,
        }
    }
    Answer::Busy
}

/// What a call of this program finds that doesn't wait, once the peer was sent these many bytes. Then it says that it has looked.
pub fn looked(
    alloc: Global,
    shared: &Shared,
    mut pass: Caller,
    peer: &Peer,
    sent: u64,
    prog: u32,
) -> Answer
    requires { SharedRests shared.now pass }
{
    peer.wait(sent);
    let tried = shared.try_submit(&mut pass, null(alloc, prog), Form::Long);
    peer.look();
    match tried {
        TrySubmit::Busy(call, Form::Long) => {
            if is_of(&call, prog) {
                Answer::Busy
            } else {
                Answer::Other
            }
        }
        _ => Answer::Other,
    }
}
