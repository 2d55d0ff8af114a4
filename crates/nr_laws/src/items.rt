//! What the sides of a link write, as items.

ghost use Rattle.nr_laws.specs.SentCalls.{SentCallsAreWritten};
ghost use Rattle.nr_laws.specs.ServerItems.{ServerOutputIsItems, ServerCountsItems, ReceivesFollowSends};

/// All output of a server that keeps its law so far is its hello, or the hello by which it rejects its client, and then items: Read Requests, RDMA
/// Writes, Sends and the last output. While it hasn't ended, the messages that haven't left are the Send items of which some bytes weren't written.
/// The receives in use are those of the Sends that are begun or complete and whose answers aren't completely written.
pub fn server_output_is_items()
    ensures output { ServerOutputIsItems }
    ensures counts { ServerCountsItems }
    ensures receives { ReceivesFollowSends }
{}

/// While a client hasn't ended, a message may answer an outstanding call if and only if the call's Send is complete in the bytes that the client has
/// sent. Its Sends are those of its calls, in the order of their Submits.
pub fn sent_calls_are_written()
    ensures { SentCallsAreWritten }
{}
