//! Laws of calls that are forwarded with another xid.

ghost use Rattle.nr_gate_laws.specs.GatedReplies.{GatedLinksArePlain, GatedRepliesArePlain, PlainInLongerJournals};
ghost use Rattle.nr_gate_laws.specs.Forwarded.{ForwardedAnswersAreAlike, ForwardedCallsAreNoLonger, ForwardedCallsHavePlans, ForwardedRepliesAreAlike, RepliesComeBack};
ghost use Rattle.nr_gate_laws.specs.NeverTooLarge.{ConnectionsNeverEndTooLarge, LinksNeverEndTooLarge};

/// Over every state the plain server answers a forwarded call of RPC version 2 (RFC 5531 section 9) as the call itself: both
/// add the same entry to the journal, or none, and the replies differ in the xid alone. So the reply to the forwarded call
/// is, with the xid of the call, the reply to the call.
pub fn forwarded_calls_are_answered_alike()
    ensures answers { ForwardedAnswersAreAlike }
    ensures replies { ForwardedRepliesAreAlike }
    ensures back { RepliesComeBack }
{}

/// A forwarded call has at most as many bytes as the call. If that is a record within the limit, it has a plan in the form Auto
/// (RFC 8166 section 3.5), whatever sizes of a Send its link has agreed on.
pub fn forwarded_calls_are_no_longer()
    ensures no_longer { ForwardedCallsAreNoLonger }
    ensures planned { ForwardedCallsHavePlans }
{}

/// No connection of a gateway ends since the remote call of a record is too large for the remote link.
pub fn remote_calls_are_never_too_large<O, C>()
    ensures connections { ConnectionsNeverEndTooLarge O C }
    ensures links { LinksNeverEndTooLarge O C }
{}

/// If the remote link of a gateway is matched and served, each record that a connection of the gateway answered has the reply of the plain server to
/// the record's own call, with its own xid, at a place of the server's one journal; the places don't fall within the connection.
/// The remote link may be seen at any later time: so one journal can be that of all connections.
pub fn gated_replies_are_plain<O, C>()
    ensures { GatedRepliesArePlain O C }
{}

/// The same of each link that a gateway served itself, by a pass of its own.
pub fn gated_links_are_plain<O, C>()
    ensures { GatedLinksArePlain O C }
{}

/// What has the plain server's replies at places of a journal has them at the same places of each journal that goes on from it.
pub fn plain_in_longer_journals()
    ensures { PlainInLongerJournals }
{}
