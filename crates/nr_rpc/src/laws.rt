//! Laws of heads.

ghost use Rattle.std.specs.Prelude.{◌≡◌, ℕ, List, ◌++◌, Ok};
ghost use Rattle.nr_xdr.specs.Item.{IsBytes};
ghost use Rattle.nr_rpc.specs.declared.head.CallHead.{CallHead};
ghost use Rattle.nr_rpc.specs.declared.head.ReplyHead.{ReplyHead};
ghost use Rattle.nr_rpc.specs.Call.{ReadsCall, CanWriteCall, CallFits, call_encoding, call_again};
ghost use Rattle.nr_rpc.specs.Reply.{ReadsReply, CanWriteReply, ReplyFits, reply_encoding, reply_again};
ghost use Rattle.nr_rpc.specs.Reading.{call_of, reply_of};

/// The encoding of a call is read as its head, whatever the arguments are.
pub fn call_round_trip()
    ensures { (head : CallHead) (args : List ℕ) → CanWriteCall head → CallFits head →
        call_of (call_encoding head args) ≡ Ok (call_again head) }
{}

/// The encoding of a reply is read as its head, whatever the results are.
pub fn reply_round_trip()
    ensures { (head : ReplyHead) (results : List ℕ) → CanWriteReply head → ReplyFits head →
        reply_of (reply_encoding head results) ≡ Ok (reply_again head) }
{}

/// No call head is a proper prefix of another: if bytes begin with two call heads, the heads are equal and end at the same
/// offset.
pub fn one_call_head()
    ensures { (a b : CallHead) (x y more others : List ℕ) → IsBytes (x ++ more) → ReadsCall a x → ReadsCall b y →
        x ++ more ≡ y ++ others → (a ≡ b) × (more ≡ others) }
{}

/// No reading of a reply head begins another.
pub fn one_reply_head()
    ensures { (a b : ReplyHead) (x y more others : List ℕ) → ReadsReply a x → ReadsReply b y →
        x ++ more ≡ y ++ others → (a ≡ b) × (more ≡ others) }
{}
