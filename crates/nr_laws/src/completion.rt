//! What a link that stays gives to its callers.

ghost use Rattle.nr_laws.specs.Completion.{CallsComplete};
ghost use Rattle.nr_laws.specs.EndCauses.{ServerEndsForCalls, ClientEndsForReplies, LawsKeptBefore};
ghost use Rattle.nr_laws.specs.Stays.{MatchedLinksStayOpen, MatchedCallsComplete, NoAccessIsDenied, ClientsStayOpen};

/// On a matched link of which no side has ended, if each side wrote all its output whenever it wrote, each side received all that the other sent,
/// and no complete call waits to be executed, then no call is outstanding, since a message of each accepted call was received. It brought an outcome
/// of each call that wasn't given up; and once all outcomes that are due are handed over, each of these calls has its Done.
pub fn calls_complete()
    ensures { CallsComplete }
{}

/// Of a matched link that was opened with numbers and credits in range, and on which each side wrote all its output whenever it wrote, the side that
/// ends first ends for what the payload of a message is: a server if it has no RPC call head (RFC 5531 section 9); a client if it has no such reply
/// head, or one with another xid, or if an access to its memory is denied. Up to that end no segment of either side breaks a rule of the link
/// (RFC 5041 section 7; RFC 5040 section 7): its message number and offset, its form and its length are right, a Send finds a receive, a Read
/// Response is expected and reaches a sink, and no side has more Read Requests open than it may. A server has an STag for each read chunk, and a
/// call head has the xid of its message. Each message of the server has a header that can be read (RFC 8166 section 4), answers a call that is
/// outstanding, and has chunks that suit what that call offered.
pub fn segments_keep_the_rules()
    ensures server { ServerEndsForCalls }
    ensures client { ClientEndsForReplies }
    // If both sides have ended, the first end is that of a run which stops before the other's.
    ensures before { LawsKeptBefore }
{}

/// Neither side of a matched link ends, if: it was opened with numbers and credits in range; each side wrote all its output whenever it wrote; no
/// memory of a call is taken back; each offer that is given conveys a payload with an RPC call head (RFC 5531 section 9), or its message is refused
/// by ERR_CHUNK (RFC 8166 section 4.5); and calls are answered as a plain server answers, each of whose replies has the head of a reply to its call.
/// So if nothing waits on such a link, no call is outstanding, and each that wasn't given up has its outcome, and its Done once all outcomes that
/// are due are handed over. A mark that the link was dropped changes nothing here.
pub fn matched_links_stay()
    ensures stays { MatchedLinksStayOpen }
    ensures allowed { NoAccessIsDenied }
    ensures clients { ClientsStayOpen }
    ensures complete { MatchedCallsComplete }
{}
