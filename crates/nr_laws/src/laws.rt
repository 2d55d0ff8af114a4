//! The laws, each by its statement in `specs/`.

ghost use Rattle.nr_laws.specs.Touches.{ClientAccessesAreAllowed, ServerAccessesAreAllowed, ServerRefusesRequests, RevokedMemoryIsFinal};
ghost use Rattle.nr_laws.specs.Grant.{SubmitsWithinGrant, ServerGrantsInRange, ServerGrantsWhatIsSet};
ghost use Rattle.nr_laws.specs.Agreed.{SidesAgree, ClientGoesByAgreement, ServerGoesByAgreement};
ghost use Rattle.nr_laws.specs.Bounds.{ClientOffersFewSegments, ClientOwesFewResponses, ServerReadsFew, ServerUsesItsReceives};
ghost use Rattle.nr_laws.specs.Places.{PlacesFollow};
ghost use Rattle.nr_laws.specs.Once.{NoSendTwice, NoCallTwice, NoXidTwice};
ghost use Rattle.nr_laws.specs.OnceEach.{NoEntryTwice, NumbersAreHeard, CompletedChangesHaveEntries, NumberedLinksAreAtPlaces, LinksAreAtPlacesUntilLeft, PlacesFollowByNumber, NoOutcomeTwice, NoCallIsOld, NumberedChangesAreAnswered, ChangesTakeEffectOnce};
ghost use Rattle.nr_laws.specs.Reopened.{ReopenedLinksAreOpened, ReopenedLinksAgree, NoCallIsLeftOver, EarlierStagsAreDead};
ghost use Rattle.nr_laws.specs.ChunkOutcomes.{ChunkHasCause, OthersHaveNoCause, CausedCallsComplete, NoOtherVersion, OffersArePlanned, NoOwnPlanIsRefused, AutoHasReplies, ChangesAreAnswered, ChunkAddsNothing};

/// No Send is executed twice, whatever a client sends, and no accepted call completes twice. On a matched link no xid is executed
/// twice.
pub fn once()
    ensures sends { NoSendTwice }
    ensures calls { NoCallTwice }
    ensures xids { NoXidTwice }
{}

/// Over any number of links, whatever was sent on them, no two entries of the one journal are of one call of a client with a number: its xid is
/// executed anew only if it has no entry, and isn't old. On a matched link a server that executed a call heard its client's number. If a call of
/// such a client completes on a link that is matched, as its earlier links are, with a reply that adds an entry, it has one: what its form conveys
/// of its own call adds just that entry, and the reply is the one of that entry. On such links each call, new or sent again, has the plain server's
/// reply at its place in the journal, and places follow what callers see.
pub fn once_each()
    ensures entries { NoEntryTwice }
    ensures heard { NumbersAreHeard }
    ensures completed { CompletedChangesHaveEntries }
    ensures plain { NumberedLinksAreAtPlaces }
    ensures until_left { LinksAreAtPlacesUntilLeft }
    ensures places { PlacesFollowByNumber }
    // An outcome of a call is handed over once, on one link of its client.
    ensures outcomes { NoOutcomeTwice }
    // No call is old until its client leaves the link.
    ensures old { NoCallIsOld }
    // On every link an executed call that adds an entry is answered by its reply, new or sent again.
    ensures answered { NumberedChangesAreAnswered }
    // So each change takes effect once at most, and once if its reply is handed over on matched links.
    ensures each { ChangesTakeEffectOnce }
{}

/// A client leaves its link, and the next one goes on from it. It is opened in range, as the old one was, if STags are left. If the hellos of the
/// old link agree on what an earlier hello did, those of the next link do; and of each call that wasn't given up an outcome came, or the next link
/// sends it again. An access by an STag of an earlier link ends the client.
pub fn reopening()
    ensures opened { ReopenedLinksAreOpened }
    ensures agree { ReopenedLinksAgree }
    ensures calls { NoCallIsLeftOver }
    ensures stags { EarlierStagsAreDead }
{}

/// On matched links a call that is submitted after another's outcome was handed over has a place that isn't smaller.
pub fn places()
    ensures { PlacesFollow }
{}

/// On every link an access of a frame is allowed by a live region that is offered for that access, or the frame ends the side. A Read Request ends
/// a server. What a Revoke gives back is what the region held then, and nothing later changes it.
pub fn touches()
    ensures client { ClientAccessesAreAllowed }
    ensures server { ServerAccessesAreAllowed }
    ensures requests { ServerRefusesRequests }
    ensures revoked { RevokedMemoryIsFinal }
{}

/// On every link whose client accepts by its rule each accepted call is submitted while fewer calls are outstanding than are granted.
pub fn grant()
    ensures { SubmitsWithinGrant }
{}

/// On every link a server grants from 1 to the credits that the link was opened with (RFC 8166 section 3.3). Until it ends it grants what its owner
/// set last, but at most `low` while more than half of its receives are in use.
pub fn server_credits()
    ensures range { ServerGrantsInRange }
    ensures set { ServerGrantsWhatIsSet }
{}

/// On a matched link a call completes with Chunk (ERR_CHUNK, RFC 8166 section 4.5) if and only if its Send is refused, or it was executed before
/// with a reply that what its plan offers doesn't hold. A Send is refused if its header can't be read, if it is RDMA_NOMSG without a read chunk at
/// position 0, or if its read chunk isn't that of its item (RFC 8166 sections 3.4.5, 3.5.3).
pub fn chunk_outcomes()
    ensures causes { ChunkHasCause }
    ensures others { OthersHaveNoCause }
    // If nothing is left to do, and all outcomes that are due are handed over, each such call that wasn't given up completed with Chunk.
    ensures completed { CausedCallsComplete }
    // No call completes with another version.
    ensures version { NoOtherVersion }
    // The offer by which the server answers an executed call is what the plan of the call offers.
    ensures offers { OffersArePlanned }
    // On every link whose client keeps its law, a Send is refused only of a call whose offer is given.
    ensures own_plans { NoOwnPlanIsRefused }
    // If calls are answered as a plain server answers, a call in form Auto that completes has a reply.
    ensures auto { AutoHasReplies }
    // On every link, whatever its client sends, an executed call that adds an entry to the journal is then answered by its reply.
    ensures changes { ChangesAreAnswered }
    // So on a matched link a call that was executed and completes with Chunk added no entry.
    ensures nothing_added { ChunkAddsNothing }
{}

/// On every link, whatever the peer sends, a side holds little for it at a time. A client owes at most 8 Read Responses that haven't completely
/// left, and a server has at most 8 Read Requests open. A server that keeps its law uses no more receives than it granted credits: those of pending
/// calls, of a Send that is begun, and of answers that haven't completely left. The lists of each call that a client which keeps its law has outstanding
/// have at most the segments for which a Send of the agreed length has room.
pub fn sides_stay_bounded()
    ensures responses { ClientOwesFewResponses }
    ensures reads { ServerReadsFew }
    ensures receives { ServerUsesItsReceives }
    ensures segments { ClientOffersFewSegments }
{}

/// On a matched link on which each side received the other's hello, both have agreed on the same lengths of Sends, and on whether a reply is a Send
/// with Invalidate (RFC 5044 section 7.1; the terms in its private data are own). From then on each side plans calls, answers them and takes Sends
/// by what is agreed on.
pub fn sides_agree()
    ensures same { SidesAgree }
    ensures client { ClientGoesByAgreement }
    ensures server { ServerGoesByAgreement }
{}
