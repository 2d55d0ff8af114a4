//! Laws of replies: whose they are, and how long they may be.

ghost use Rattle.nr_plain.specs.ReplyLaws.{RepliesBeginWithTheXid, PlacedRepliesBeginWithTheXid, CallsAloneHaveReplies, RepliesAreWithinTheirLimit, ChangesAreShort, ChangesFitEveryOffer, PlacedChangesFitEveryOffer, AutoOffersHoldTheirReplies, ServerFitsChanges, ServerIsPlain, ServerKeepsCalls};

/// A reply begins with a reply head whose xid is that of its call (RFC 5531 section 9), and there is one if and only if
/// the payload begins with a call head.
pub fn replies_begin_with_the_xid()
    ensures answers { RepliesBeginWithTheXid }
    ensures placed { PlacedRepliesBeginWithTheXid }
    ensures calls { CallsAloneHaveReplies }
{}

/// A reply at any place of a journal is at most as long as [`nr_reduce::largest_reply`] says of its call, if a server
/// was opened with a sane tree.
pub fn replies_are_within_their_limit()
    ensures { RepliesAreWithinTheirLimit }
{}

/// The reply of a call that adds an entry to the journal is short, so every offer within the limits of a header holds
/// it: no change is made whose reply can't be sent.
pub fn changes_fit_every_offer()
    ensures short { ChangesAreShort }
    ensures holds { ChangesFitEveryOffer }
    ensures placed { PlacedChangesFitEveryOffer }
{}

/// A call in the form Auto offers enough: its offer holds its reply at any place of a journal, if a server was opened
/// with a sane tree.
pub fn auto_offers_hold_their_replies()
    ensures { AutoOffersHoldTheirReplies }
{}

/// A server that was opened with a sane tree keeps all that a run asks of a plain server.
pub fn server_is_plain()
    ensures { ServerIsPlain }
{}

/// The call that is made of an entry has the reply of the call that added it.
pub fn server_keeps_calls()
    ensures { ServerKeepsCalls }
{}

/// The reply to the call of an entry can be sent back to each call that would add an entry by it: also to another call,
/// if a client sends that under the xid of the entry.
pub fn server_fits_changes()
    ensures { ServerFitsChanges }
{}
