//! Which calls callers may make.

ghost use Rattle.std.specs.Prelude.{⊤};

use std::marker::Brand;

/// Which calls callers of a shared requester may make, for the proof. It is a part of the requester's type, so it is the same for all of them.
pub trait CallRule {
    ghost use Rattle.nr_reduce.specs.declared.call.Call.{Call};
    ghost use Rattle.nr_reduce.specs.declared.call.Form.{Form};

    ghost allows: { Call → Form → Type 0 };
}

impl CallRule for Brand {
    ghost allows = { λ call form. ⊤ };
}

/// Each call.
pub struct AnyCall;

impl CallRule for AnyCall {
    ghost allows = { λ call form. ⊤ };
}
