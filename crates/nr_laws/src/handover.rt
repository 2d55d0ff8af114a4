//! What callers are handed.

ghost use Rattle.nr_laws.specs.HandedOver.{RepliesHavePlans, ExecutedRepliesAreHandedOver};
ghost use Rattle.nr_laws.specs.PlainReplies.{RepliesArePlain, RepliesArePlainAtPlaces};
ghost use Rattle.nr_laws.specs.PlainLinks.{JournaledLinksAreAtPlaces, PlacedLinksHavePlainReplies, PlainLinksHavePlainReplies};

/// On a matched link a call whose reply is handed over was accepted before, and goes out by a plan. Its reply is the one with which the
/// call was executed before, byte for byte: whatever it offers for its reply (RFC 8166 section 3.4.6) and whichever way its payload goes.
/// The payload with which it was executed is the call's own; for an offer that is given it is what that offer conveys of the call's own.
pub fn replies_handed_over()
    ensures planned { RepliesHavePlans }
    ensures executed { ExecutedRepliesAreHandedOver }
{}

/// On a matched link whose calls are answered as a plain server answers, each at its place in a journal, the reply that is handed over of a call is
/// what that server replies to the call's own payload (for an offer that is given, to what that offer conveys of it), over the entries before that
/// place; what it adds stands there. The journal may have the entries of links of which the run has no marks.
pub fn replies_are_plain()
    ensures at_places { RepliesArePlainAtPlaces }
    // So it is if each call is answered over the journal of its moment, and the journal is what the run's Executes of all links add.
    ensures journaled { RepliesArePlain }
{}

/// What laws ask of a link whose calls are answered as a plain server answers: from the journal of its run, that each is answered at its place; from
/// either, that each has a reply of that server over some entries, which all laws but those of places ask for.
pub fn plain_links()
    ensures at_places { JournaledLinksAreAtPlaces }
    ensures replies { PlacedLinksHavePlainReplies }
    ensures journaled { PlainLinksHavePlainReplies }
{}
