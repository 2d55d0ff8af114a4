//! With which payloads calls are executed.

ghost use Rattle.nr_laws.specs.AnswersConvey.{AnswersConvey};
ghost use Rattle.nr_laws.specs.SendsConvey.{SendsConvey, OwnSendsConvey};
ghost use Rattle.nr_laws.specs.MessageSegments.{SendIsItsSegments, SegmentsReadBack, LastSegmentNames, MessageIsReceived, MessagesAreReceived, SegmentsBreakNoRule};
ghost use Rattle.nr_laws.specs.Payloads.{ExecutesHavePlans, PayloadsAreOwn};

/// On a matched link a call that is executed was accepted before that, and goes out by a plan. The payload is exactly what the call's form
/// conveys of its own: all of it, but for an offer that is given with a read chunk (RFC 8166 section 3.4.5).
pub fn executed_payloads()
    ensures planned { ExecutesHavePlans }
    ensures own { PayloadsAreOwn }
{}

/// On every link, whatever the server sends, the Send of an accepted call whose header can be read (RFC 8166 section 4) is read under the call's xid,
/// and conveys what the call's form conveys of its payload: by its stream and the regions that its client offers to be read. The header can be read
/// unless the call's offer is given.
pub fn sends_convey()
    ensures read { SendsConvey }
    ensures own { OwnSendsConvey }
{}

/// On every link, whatever the client offered, the answer of an executed call conveys the call's reply: by its inline stream and the payloads of its
/// RDMA Writes, cut by the lengths that it returns (RFC 8166 sections 3.4.6 and 3.5).
pub fn answers_convey()
    ensures { AnswersConvey }
{}

/// A message of any length goes as segments of at most 4096 bytes each (RFC 5041 section 5.2), each read as it was written. A side that has no Send
/// begun receives from them exactly that message, complete with the last; and no segment breaks a rule of the link (RFC 5041 section 7), if the
/// message has the next number, finds a receive and is no longer than a message may be. All of this is so of a Send with Invalidate, too, which names
/// its STag in its last segment alone (RFC 5040 section 4.7).
pub fn messages_in_segments()
    ensures sent { SendIsItsSegments }
    ensures read { SegmentsReadBack }
    ensures names { LastSegmentNames }
    ensures received { MessageIsReceived }
    ensures in_order { MessagesAreReceived }
    ensures allowed { SegmentsBreakNoRule }
{}
