//! A call of a procedure.

use nr_nfs_base::{Caller, Time};
use nr_outside::Moment;
use nr_rpc::Cred;
use nr_tree::Space;
use nr_xdr::Octets;

/// What the server has of a call, beside its tree.
#[derive(Clone, Copy)]
pub(crate) struct Call<'a> {
    pub(crate) xid: u32,
    /// When the call is executed.
    pub(crate) time: Time,
    pub(crate) caller: &'a Caller,
    pub(crate) space: Space,
    pub(crate) arguments: &'a [u8],
}

/// The reply to a call of a procedure that may change the tree, and whether the call is an entry of the journal.
#[derive(Drop)]
pub(crate) struct Change {
    pub(crate) reply: Octets,
    pub(crate) is_entry: bool,
}

/// A call, as its head and its arguments say it.
#[derive(Clone, Copy)]
pub(crate) struct Request<'a> {
    pub(crate) xid: u32,
    /// When the call is executed.
    pub(crate) moment: Moment,
    pub(crate) cred: &'a Cred,
    pub(crate) proc: u32,
    pub(crate) arguments: &'a [u8],
}
