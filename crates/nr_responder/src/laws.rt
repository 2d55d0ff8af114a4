//! Laws of a responder.

ghost use Rattle.nr_responder.specs.Laws.{OthersLeaveIt, LawBegins, OthersKeepLaw, PieceKeepsLaw, ExecuteKeepsLaw, ToldKeepsLaw, DrainKeepsLaw, FullBegins, OthersKeepFull, PieceKeepsFull, ExecuteKeepsFull, ToldKeepsFull, QueueIsAllDue, AllMayBeWritten, DrainKeepsFull};

/// A responder keeps the law of its side, so far, from no marks on: by a piece that it is fed, the answer to its next call with that call's
/// payload, what it is told to grant, a drain, also if it ran out of memory, and each mark of others, which leaves it as it is.
pub fn responders_keep_their_law()
    ensures begins { LawBegins }
    ensures others_leave { OthersLeaveIt }
    ensures others { OthersKeepLaw }
    ensures piece { PieceKeepsLaw }
    ensures execute { ExecuteKeepsLaw }
    ensures told { ToldKeepsLaw }
    ensures drain { DrainKeepsLaw }
{}

/// If each drain takes all that may be written, a responder that doesn't run out of memory keeps the law of each mark in full: all that is
/// due and isn't written is in its queue, and all of that may be written.
pub fn responders_keep_it_in_full()
    ensures begins { FullBegins }
    ensures others { OthersKeepFull }
    ensures piece { PieceKeepsFull }
    ensures execute { ExecuteKeepsFull }
    ensures told { ToldKeepsFull }
    ensures queue { QueueIsAllDue }
    ensures writable { AllMayBeWritten }
    ensures drain { DrainKeepsFull }
{}
