//! Laws of an endpoint, over the calls that it stands for.

ghost use Rattle.nr_endpoint.specs.ReceivedLaws.{EventsOfReceivedBytes, ReceivedBytes};
ghost use Rattle.nr_endpoint.specs.AgreedLaws.{AgreesByHellos, KeepsSizes};
ghost use Rattle.nr_endpoint.specs.KeptLists.{HeldRegionsAreRegistered, WaitingSendsHaveBytes};
ghost use Rattle.nr_endpoint.specs.OutputLaws.{AllowedCallsJoin, FpdusFollowHello, OutputIsItems, SendsGoByItems, SendsWaitByItems, ResponsesGoByItems, SidesStayBounded};
ghost use Rattle.nr_endpoint.specs.DeliveryLaws.{EventsAreDelivered, EventsAreInOrder, EventsFollowAccesses, OneFrameDeliversAtItsEnd, OneFrameDeliversOnce};
ghost use Rattle.nr_endpoint.specs.Laws.{PiecesJoin, StepsReach, StepsFeed, EndStays, KeepsLessThanFrame, EndedKeepsNothing, StreamIsKept, PlaceIsFed, MemoryFollowsEvents, PlacesAreAllowed, PlacesAreInOrder, ArrivalsRise, ReadsAreAllowed, NothingElseIsRead, OtherFramesQueueNothing, OpenRegionHolds, ReleasedBufferHolds, ReleasedStaysClosed, InvalidatedStaysClosed, ClaimsStay, NoFpduBeforeHello, FramesEndForThese, GrantsEndAlike, OffersDenyAlike, NoFrameStops, OthersComeFromStop, MemoryComesFromOutOfMemory, EndedQueuesNothing, EndIsKept, StopQueuesLast, OutOfMemoryQueuesNothing};

/// The state of a side after some bytes does not depend on how they were split: to feed two pieces is to feed both joined, and one step on a
/// piece and then the rest of it equals a feed of the complete piece. A side that has ended doesn't change.
pub fn however_cut()
    ensures pieces { PiecesJoin }
    ensures steps { StepsReach }
    ensures step { StepsFeed }
    ensures end_stays { EndStays }
    // What is asked of a link above holds of every link that is reached.
    ensures partial { KeepsLessThanFrame }
    ensures ended_empty { EndedKeepsNothing }
{}

/// A side keeps of its peer's stream what the bytes that were fed leave after their complete frames (RFC 5044 section 4). Its offset and what
/// it keeps are no more than those bytes: a caller that feeds at most 2^62 bytes in all stays within the limit of a feed.
pub fn stream_is_kept()
    ensures kept { StreamIsKept }
    ensures within { PlaceIsFed }
{}

/// Against any peer, the memory of a side is that of its registrations, its releases, and the tagged segments of the frames that did not
/// end it, in the order of the stream (RFC 5040 section 5). The regions allowed each of them, and each byte that was read, at that very
/// frame.
pub fn memory_follows_accesses()
    ensures follows { MemoryFollowsEvents }
    ensures places { PlacesAreAllowed }
    ensures order { PlacesAreInOrder }
    ensures rise { ArrivalsRise }
    ensures reads { ReadsAreAllowed }
    ensures nothing_else { NothingElseIsRead }
    // So a feed takes no memory for a Send, an RDMA Write or a Read Response that doesn't end the side.
    ensures others { OtherFramesQueueNothing }
    ensures while_open { OpenRegionHolds }
    ensures released { ReleasedBufferHolds }
    ensures dead { ReleasedStaysClosed }
    ensures invalidated { InvalidatedStaysClosed }
{}

/// The bytes that came, those of an incomplete frame among them, divide the tagged segments and the events: those so far end within these
/// bytes, and those of later calls end after them.
pub fn accesses_follow_bytes()
    ensures accesses { ReceivedBytes }
    ensures events { EventsOfReceivedBytes }
{}

/// Each message and each read that a frame completes is delivered to the owner, once and in the order of the stream. When it is delivered, all
/// tagged segments of the frames up to that one have been placed, and the later ones end after it (RFC 5040 section 5.5).
pub fn events_follow_accesses()
    ensures delivered { EventsAreDelivered }
    ensures order { EventsAreInOrder }
    ensures follow { EventsFollowAccesses }
    ensures one_frame { OneFrameDeliversAtItsEnd }
    ensures once { OneFrameDeliversOnce }
{}

/// A region that was registered stays registered until it is released, whatever is called between: `release` may be called with it.
pub fn claims_stay()
    ensures { ClaimsStay }
{}

/// Before the peer's hello was accepted, a side writes its hello alone, and after it the Terminate by which an initiator refuses the lengths of
/// Sends that the peer's agrees on (RFC 5044 section 7.1).
pub fn no_fpdu_before_hello()
    ensures { NoFpduBeforeHello }
{}

/// What a side writes is its hello and items, in order: Sends, RDMA Writes, Read Requests, Read Responses, and the output with which it
/// ends. The Sends that have left the queue, those that wait, and the Read Responses that are owed, are counts of these items by the
/// bytes that were written.
pub fn output_in_items()
    ensures items { OutputIsItems }
    ensures sends { SendsGoByItems }
    ensures waiting { SendsWaitByItems }
    ensures responses { ResponsesGoByItems }
    ensures join { AllowedCallsJoin }
{}

/// Every side that calls reach has bounds: at most eight Read Requests are open and at most eight Read Responses owed, and each receive
/// is free, has a begun Send or a message that waits, or is lent. A side that awaits an FPDU and hasn't ended has accepted the
/// peer's hello.
pub fn sides_stay_bounded()
    ensures bounds { SidesStayBounded }
    ensures greeted { FpdusFollowHello }
{}

/// What a side agrees with its peer: one unit for a Send in each direction until the peer's hello was accepted, and then what its own hello and
/// the peer's say, with which the bytes that were fed begin, from 1,024 to 16,384 bytes. The limit of a message is what is agreed for its direction,
/// and a message
/// within it fits a receive.
pub fn agrees_by_hellos()
    ensures by_hellos { AgreesByHellos }
    // If an earlier link agreed on other lengths of Sends, the hello ends an initiator.
    ensures sizes { KeepsSizes }
{}

/// The lists of a side that only its calls bound: at most as many Sends wait as there are bytes of FPDUs to write, and as many regions are held as were
/// registered and not released.
pub fn lists_stay_bounded()
    ensures sends { WaitingSendsHaveBytes }
    ensures regions { HeldRegionsAreRegistered }
{}

/// A hello ends a side only for the reasons 1 to 4, and a responder's for 31, if an earlier link agreed on other lengths of Sends; an FPDU only for
/// the reasons 5 to 16 and 22, a denied access, a Send without a receive, or a Terminate. For any other reason the layer above stopped it. Once a side has ended, it queues nothing: it sends one Terminate at most
/// (RFC 5040 section 4.8).
pub fn reasons_of_frames()
    ensures frames { FramesEndForThese }
    ensures no_stop { NoFrameStops }
    ensures stops { OthersComeFromStop }
    ensures memory { MemoryComesFromOutOfMemory }
    ensures ended { EndedQueuesNothing }
    ensures kept { EndIsKept }
    // What a frame queues that ends a side is a clause of the law on memory.
    ensures stop_queues { StopQueuesLast }
    ensures no_memory { OutOfMemoryQueuesNothing }
{}

/// If grants deny exactly the accesses that the memory denies, as they do if both offer the same under every STag, an FPDU ends a side if and
/// only if it ends a side that offered these grants, and for the same reason (RFC 5040 section 7; RFC 5041 section 7).
pub fn ends_by_grants()
    ensures ends { GrantsEndAlike }
    ensures offers { OffersDenyAlike }
{}
