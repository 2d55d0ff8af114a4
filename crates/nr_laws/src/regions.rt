//! What the sides of a link offer, and what becomes of it.

ghost use Rattle.nr_laws.specs.PlacedBytes.{ClientBytesAreAllowed, ServerBytesAreAllowed, ReadsAreAllowed, NothingElseIsDisclosed};
ghost use Rattle.nr_laws.specs.ClientRegions.{CallsAddChunks, ClientRegionsAreChunks, ClientRegionsCloseWithCalls, LiveClientRegionsAreOutstanding};
ghost use Rattle.nr_laws.specs.HandedBack.{ClosedRegionsStand, EndedRegionsStand, ClosedRegionsHoldWhatStood, DoneHandsBack, LostHandsBack};
ghost use Rattle.nr_laws.specs.Invalidated.{NamedStagsAreDead, NamedStagsAreJudged};
ghost use Rattle.nr_laws.specs.Sent.{ClientSendsWhatIsDue, ServerSendsWhatIsDue, SentBytesAreAllowed};
ghost use Rattle.nr_laws.specs.ServerRegions.{ServerRegionsAreChunks, SendsAddChunks, NothingElseAddsRegions, ClosedRegionsStay, LiveServerRegionsAreRead, ServerRegionsCloseWhenRead};

/// Which regions a side offers, and how long, whatever the peer sends. An accepted call adds a region at its client for each chunk of its plan
/// (RFC 8166 section 3.4). A region is live only while its call is outstanding and its memory isn't taken back, and is closed by the message of the
/// call or by a Revoke. A Send that makes a call pending adds a sink at its server for each read chunk with bytes (RFC 8166 section 3.4.5), which
/// is closed once, when nothing is left to be read for it. Nothing else adds a region.
pub fn offered_regions()
    ensures client_chunks { ClientRegionsAreChunks }
    ensures calls { CallsAddChunks }
    ensures client_live { LiveClientRegionsAreOutstanding }
    ensures client_closed { ClientRegionsCloseWithCalls }
    ensures server_chunks { ServerRegionsAreChunks }
    ensures sends { SendsAddChunks }
    ensures nothing_else { NothingElseAddsRegions }
    ensures server_live { LiveServerRegionsAreRead }
    ensures server_closed { ServerRegionsCloseWhenRead }
    ensures closed_stay { ClosedRegionsStay }
{}

/// What regions hold, and what of them is disclosed, whatever the peer sends. Each byte of a region is the one that was registered, or that of an
/// allowed segment. A Read Request is answered with exactly the bytes of a region that it is allowed to read, and nothing else that a client writes
/// is read from its regions.
pub fn offered_memory()
    ensures client_bytes { ClientBytesAreAllowed }
    ensures server_bytes { ServerBytesAreAllowed }
    ensures reads { ReadsAreAllowed }
    ensures nothing_else { NothingElseIsDisclosed }
{}

/// What buffers hold that a client hands back, whatever the server sends. A region that was closed holds the same in every longer run, and after
/// the client has ended all its regions do. The message of a call leaves its regions as they were at the end of its frame. So what is handed back
/// at a Done, or of a call that is lost, doesn't change from then on.
pub fn regions_handed_back()
    ensures closed { ClosedRegionsStand }
    ensures ended { EndedRegionsStand }
    ensures messages { ClosedRegionsHoldWhatStood }
    ensures done { DoneHandsBack }
    ensures lost { LostHandsBack }
{}

/// What a Send with Invalidate does to a client's regions, whatever the server sends (RFC 5040 section 4.7; which STag it names is own). Its message
/// ends the client, and changes nothing else, or answers a call to which that STag was given: all regions under it are of that call, and are closed
/// after it, and the regions of other calls are as they were. Where no rule of the link ends the client first, it ends with reason 29 exactly if the
/// message answers a call that wasn't given the STag, and else as a message does that names none.
pub fn named_stags()
    ensures dead { NamedStagsAreDead }
    ensures judged { NamedStagsAreJudged }
{}

/// What has been sent, whatever the peer sends: the first of the output that is due, in order. Each byte that a client has sent is of its hello, of
/// the Send of an accepted call, of its last output, or of the response to a Read Request that it allowed, with exactly the bytes that were asked
/// for.
pub fn sent_bytes()
    ensures client { ClientSendsWhatIsDue }
    ensures server { ServerSendsWhatIsDue }
    ensures allowed { SentBytesAreAllowed }
{}
