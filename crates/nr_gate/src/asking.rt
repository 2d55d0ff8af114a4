//! What a record asks for.

ghost use Rattle.std.specs.Prelude.{◌≡◌, IfSome, Ok};
ghost use Rattle.nr_rpc.specs.Call.{BeginsCall};
ghost use Rattle.nr_rpc.specs.Reading.{call_of};
ghost use Rattle.nr_gate.specs.private.Forwarded.{IsAsked};

use nr_record_loop::NoReply;
use nr_reduce::Call;
use nr_rpc::{CallHead, HeadFault, read_call};
use nr_xdr::Octets;
use std::alloc::Global;

/// A record that begins with a call head.
#[derive(Drop)]
pub(crate) enum RecordCall {
    /// A call of RPC version 2.
    Version2 { xid: u32, asked: Call },
    /// A call of another version.
    Other { xid: u32 },
}

/// What a record with this head asks for. `None` if memory ran out.
fn asked_by(alloc: Global, bytes: &[u8], head: CallHead) -> Option<RecordCall>
    requires begins { BeginsCall head bytes.now }
    requires is { call_of bytes.now ≡ Ok head }
    ensures { IfSome result (λ call. IsAsked (Ok call) bytes.now) }
{
    match head {
        CallHead::Other {
            xid,
            rpcvers: _version,
        } => Some(RecordCall::Other { xid }),
        CallHead::Version2 {
            xid,
            prog,
            vers,
            proc,
            cred,
            args_at,
        } => {
            let (_, rest) = bytes.split_at(args_at);
            let Ok(args) = Octets::from_slice(alloc, rest) else {
                drop(cred);
                return None;
            };
            let asked = Call {
                prog,
                vers,
                proc,
                cred,
                args,
            };
            Some(RecordCall::Version2 { xid, asked })
        }
    }
}

/// Reads a record as a call.
pub(crate) fn read_record(alloc: Global, bytes: &[u8]) -> Result<RecordCall, NoReply>
    ensures { IsAsked result bytes.now }
{
    match read_call(alloc, bytes) {
        Ok(head) => match asked_by(alloc, bytes, head) {
            Some(call) => Ok(call),
            None => Err(NoReply::Memory),
        },
        Err(HeadFault::NotCall { .. }) => Err(NoReply::NotCall),
        Err(_) => Err(NoReply::Memory),
    }
}
