//! What is found after replies were kept.

ghost use Rattle.nr_cache.specs.Laws.{KeptCallsAreFound, OthersStay};

/// A new call of a client that is kept is found, with its place and its reply, until its xid is 64 below the largest xid of
/// its client.
pub fn kept_calls_are_found()
    ensures { KeptCallsAreFound }
{}

/// What is known of the calls of other clients stays the same.
pub fn others_stay()
    ensures { OthersStay }
{}
