//! Laws of runs: what both ends of a link cite, and what holds of every run.

ghost use Rattle.nr_reduce.specs.OutputLaws.{ClientOutputIsItems, ClientBytes, ServerBytes, ClientCountsItems, WroteAddsNothing};
ghost use Rattle.nr_reduce.specs.RunLaws.{ClientAfterMark, ServerAfterMark, ClientOutputAfterMark, ServerOutputAfterMark, EndedClientStays, EndedServerStays, FullHoldsSoFar, SoFarHoldsBefore, AskedWithMark, ServedWithMark, GrantsHaveOwnStags, ClientAllows, ServerAllows, StagsAreNumbers, AcceptedKeepsLaw, SubmitIsSent, HelloSendsCalls, AcceptedCallsWait, ReadChunkStays, PayloadHasItsXid, ReadyIsConveyed, PayloadIsConveyed, ExecuteIsAnswered, RefusedSendIsAnswered, BadMessageIsRefused, RefusedCallIsAnswered, RefusedIsNotExecuted, OpenReadsAreFew, PlanIsAccepted, SendIsExecutedOnce, CallCompletesOnce, XidsRise, PlacesRise};
ghost use Rattle.nr_reduce.specs.Resending.{ResendsKeepLaw};
ghost use Rattle.nr_reduce.specs.ReopenedLinks.{LeftLinksStay, ReopenedStagsAreNew, ReopenedCallsGoOn};

/// One mark more: the state of an end, and the output due, are those before with the events of the mark.
pub fn one_mark_more()
    ensures client { ClientAfterMark }
    ensures client_output { ClientOutputAfterMark }
    ensures server { ServerAfterMark }
    ensures server_output { ServerOutputAfterMark }
{}

/// An end that has ended doesn't change, and writes nothing more.
pub fn ended_ends_stay()
    ensures client { EndedClientStays }
    ensures server { EndedServerStays }
{}

/// The laws of a link so far hold of each first part of a run of which they hold, in full or so far, and of one mark more
/// that keeps them.
pub fn laws_so_far()
    ensures full { FullHoldsSoFar }
    ensures before { SoFarHoldsBefore }
    ensures asked { AskedWithMark }
    ensures served { ServedWithMark }
{}

/// No two regions that a side offers have one STag. Whatever bytes a peer sends, an access that isn't allowed ends the
/// side: a frame that doesn't end it accesses only what the side offers as the frame is received.
pub fn accesses_are_allowed()
    ensures stags { GrantsHaveOwnStags }
    ensures client { ClientAllows }
    ensures server { ServerAllows }
{}

/// Of a client that was opened with numbers in range and kept its law so far: the STag that it gives next is at most
/// 2 ^ 32, and a call that it accepts keeps the law. It goes under the next xid by its plan, with numbers that are left,
/// while fewer calls are outstanding than are granted.
pub fn accepted_calls_keep_the_law()
    ensures stags { StagsAreNumbers }
    ensures accepted { AcceptedKeepsLaw }
{}

/// Of a client that was opened with numbers in range and kept its law so far: the Submits by which it sends again the calls that it can, under
/// their xids and in their order, keep the law, each while fewer calls are outstanding than are granted. After them no call can be sent again.
pub fn calls_are_sent_again()
    ensures { ResendsKeepLaw }
{}

/// An accepted call is sent by its plan: at its Submit, once the server's hello was received, else with that hello. Until
/// that hello is received, a client that kept its law so far has outstanding all calls that it accepted, in order, and no
/// Send of them is written; for the hello, if it doesn't end the client, a Send of each is due. From its Submit on the
/// region of a call's read chunk holds what the plan put there.
pub fn submits_are_sent()
    ensures submit { SubmitIsSent }
    ensures hello { HelloSendsCalls }
    ensures waiting { AcceptedCallsWait }
    ensures chunk { ReadChunkStays }
{}

/// An executed call's payload begins with a call head of its xid. A call becomes ready with the payload that its lists, its
/// stream and the server's memory convey at that frame. So the payload of an executed call is what a message that was
/// received before conveys: by its lists, its stream, and the bytes that the call's sink regions held at that frame. An
/// executed call is answered by RDMA Writes into what it offered and then one Send, or by ERR_CHUNK if its offer doesn't
/// hold the reply. A Send that is refused is answered by one error message, and makes no call pending or ready: by
/// ERR_CHUNK if and only if its header is bad, or its stream is there and its read chunk isn't its item's. A call whose
/// stream is read and whose read chunk isn't its item's is answered by ERR_CHUNK, and is pending no longer. A Send that is
/// refused in either way is never executed. At most eight Read Requests are open, and a read waits only while eight are.
pub fn sends_are_answered()
    ensures head { PayloadHasItsXid }
    ensures ready { ReadyIsConveyed }
    ensures conveyed { PayloadIsConveyed }
    ensures executed_call { ExecuteIsAnswered }
    ensures refused_send { RefusedSendIsAnswered }
    ensures bad_message { BadMessageIsRefused }
    ensures refused_call { RefusedCallIsAnswered }
    ensures refused { RefusedIsNotExecuted }
    ensures open_reads { OpenReadsAreFew }
{}

/// The message of a plan whose form isn't given, of a payload that isn't empty, makes its call pending at a server to which
/// its xid isn't pending, with the lists of the plan; or it ends the link, with reason 30, if too few STags are left for
/// its reads.
pub fn plans_are_accepted()
    ensures { PlanIsAccepted }
{}

/// No Send is executed twice, whatever the peer sends; no call completes twice; no xid is given twice.
pub fn nothing_twice()
    ensures executes { SendIsExecutedOnce }
    ensures completes { CallCompletesOnce }
    ensures xids { XidsRise }
{}

/// A client that went on over another link offers nothing there under an STag of the link that it left: its STags are larger. Of a
/// client that was opened with numbers in range and kept its law so far, the next link sends each call again that was outstanding or
/// waited, and wasn't given up, by its plan. A call of the link that was left, whose answer came there, may still be given up, and its
/// memory given back.
pub fn reopened_links_go_on()
    ensures stags { ReopenedStagsAreNew }
    ensures stays { LeftLinksStay }
    ensures calls { ReopenedCallsGoOn }
{}

/// Places in the one journal rise along a run: what is executed later has a place that isn't smaller.
pub fn places_rise()
    ensures { PlacesRise }
{}

/// All output of a client that is due is its hello, and then items: a Send for each call, the Read Responses, and the last
/// output. The bytes are their encodings, in order.
pub fn output_is_items()
    ensures { ClientOutputIsItems }
{}

/// While a side hasn't ended, its state counts the bytes of output that were due and those that were written. The Sends of
/// a client that have left are the Send items of which all bytes were written, and the Read Responses that it owes are the
/// Read Response items of which some weren't. A Wrote, of a drain, makes nothing due: the items are the same after it, and
/// its bytes are sent.
pub fn counts_go_by_bytes_sent()
    ensures client_written { ClientBytes }
    ensures server_written { ServerBytes }
    ensures client { ClientCountsItems }
    ensures wrote { WroteAddsNothing }
{}
