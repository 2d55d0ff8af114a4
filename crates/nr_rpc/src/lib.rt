//! Call and reply heads of RPC version 2 (RFC 5531 section 9), read and written exactly.
//!
//! The crate stands on `nr_xdr`. A head precedes the arguments of a call or the results of a reply: it says who calls which
//! procedure, or how the call went. [`read_call`] and [`read_reply`] read the head at the front of some bytes and give the
//! offset of the rest. [`call_target`] and [`call_xid`] answer single questions about a call without memory.
//! [`write_call`], [`write_call_of`] and [`write_reply`] write a head followed by arguments or results.
//!
//! Verifiers, and the bodies of credentials other than AUTH_SYS, are dropped when read and written empty. The crates above
//! give programs, procedures and results their meaning, and decide how a call is answered.
#![tactic(auto)]

mod call;
mod constants;
mod cred;
mod fault;
mod head;
mod item;
mod laws;
mod put;
mod reply;
mod sys;

pub use call::{call_target, call_xid, read_call, write_call, write_call_head, write_call_of};
pub use constants::{
    AUTH_BODY_MAX, AUTH_NONE, AUTH_SYS, GIDS_MAX, MACHINE_MAX, PROG_MISMATCH, RPC_VERSION,
};
pub use cred::{Cred, Gids, cred_fits};
pub use fault::HeadFault;
pub use head::{CallHead, CallTarget, ReplyHead};
pub use laws::{call_round_trip, one_call_head, one_reply_head, reply_round_trip};
pub use reply::{read_reply, write_reply, write_reply_head};
