//! A call that was answered.

ghost use Rattle.std.specs.Prelude.{◌≡◌};

use nr_reduce::{Call, Outcome};
use nr_xdr::Octets;

/// The buffers of a call's regions, which go back to its owner: those of its read chunk, its write chunk and its reply chunk, each if it
/// had one with a segment.
#[derive(Drop)]
pub struct Buffers {
    /// That of the read chunk.
    pub read: Option<Octets>,
    /// That of the write chunk.
    pub write: Option<Octets>,
    /// That of the reply chunk.
    pub reply: Option<Octets>,
}

/// A call whose outcome came and wasn't handed over yet: the call, the buffers of its regions, and what it was answered by.
#[derive(Drop)]
pub struct AnsweredCall {
    /// The xid under which it was accepted.
    pub xid: u32,
    /// The call.
    pub call: Call,
    /// The buffers of its regions.
    pub buffers: Buffers,
    /// What it was answered by.
    pub outcome: Outcome,
}

impl AnsweredCall {
    /// The call and its buffers. The answer is dropped.
    pub(crate) fn into_call(self) -> (Call, Buffers)
        ensures { (result.0 ≡ self.call) × (result.1 ≡ self.buffers) }
    {
        let AnsweredCall { call, buffers, .. } = self;
        (call, buffers)
    }
}
