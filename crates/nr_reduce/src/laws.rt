//! Laws of payloads: what is cut, planned and answered conveys what it was made of.

ghost use Rattle.nr_reduce.specs.PayloadLaws.{CutIsRebuilt, CutConveys, RefusedHasNoPayload, PlanReadsBack, PlanHasItsSize, MessageReadsBack, RegionBringsChunks, OfferConveys, OfferMessageConveys, AnswerConveysReply, AnswerWritesSegments, AnswerSuitsOffer, AnswerHasItsSize, AnswerReadsBack};

/// What is cut of a payload is put together to that payload again, and conveys it (RFC 8166 section 3.4). A chunk that is
/// refused, other than by its position, conveys no payload with its stream.
pub fn rebuild_undoes_cut()
    ensures rebuilt { CutIsRebuilt }
    ensures conveys { CutConveys }
    ensures refused { RefusedHasNoPayload }
{}

/// The message of a plan of any form has the size that was tested. For Auto, Inline, Chunk and Long it reads back as its
/// header and stream, and conveys the payload over the plan's region. For Given, if its lists are within the limits of a
/// header, it reads back so and conveys what its offer conveys, if anything.
pub fn plans_convey_payloads()
    ensures message { PlanReadsBack }
    ensures size { PlanHasItsSize }
    ensures memory { RegionBringsChunks }
    ensures lists { MessageReadsBack }
    ensures given { OfferConveys }
    ensures given_message { OfferMessageConveys }
{}

/// An answer for an offer that holds the reply, of at most one write chunk, with one region for each chunk, of the chunk's
/// length: what its Writes leave in these regions, its lists and its stream convey that reply. The Writes are segments in
/// the order of the lists, and the lists are those offered. The message has the size that was tested, and reads back as
/// the lists and the stream.
pub fn answers_convey_replies()
    ensures conveys { AnswerConveysReply }
    ensures writes { AnswerWritesSegments }
    ensures lists { AnswerSuitsOffer }
    ensures size { AnswerHasItsSize }
    ensures message { AnswerReadsBack }
{}
