//! Laws of sessions and of commands.

ghost use Rattle.nr_service_laws.specs.CommandEnds.{RepliesExcludeEnds};
ghost use Rattle.nr_service_laws.specs.CommandRuns.{CommandsHaveARun};
ghost use Rattle.nr_service_laws.specs.CompleteCommands.{ServedCommandsComplete, ServedCommandsHaveCauses};
ghost use Rattle.nr_service_laws.specs.EndCauses.{EndsHaveCauses, ServedCommandsEndForMemory};
ghost use Rattle.nr_service_laws.specs.PeerEnds.{EndsSay};
ghost use Rattle.nr_service_laws.specs.ServedCommands.{ServedClientsHaveReplies, ServedCommandsExcludeEnds};
ghost use Rattle.nr_service_laws.specs.ServedLinks.{ServedClientsStayOpen, ServedCommandsAreNotClosed, ServedCommandsHaveNotEnded, ServedCommandsKeepLaws, ServedCommandsStayOpen};
ghost use Rattle.nr_service_laws.specs.TypedCommands.{CommandsAreTyped, SidesAreTyped};
ghost use Rattle.nr_service_laws.specs.SessionMarks.{AsksHaveMarks, FollowsHaveMarks, FollowsOutcomes, MarksGoOn, ReadsHaveMarks, ReadsInOrder, SessionsBegin, WritesHaveMarks};

/// A session that was opened stands for the empty list of marks, whatever its server is opened with.
pub fn sessions_begin()
    ensures { SessionsBegin }
{}

/// Each request of a session adds marks to those of its link, whatever marks its requester stood for: its calls are submitted and their outcomes handed
/// over in the order of the request, bytes move between, and the client keeps its law and the last grant. So do two requests, one after the other,
/// unless a write failed in the first, or memory ran out for a frame.
pub fn requests_have_marks<A, B>()
    ensures asks { AsksHaveMarks A }
    ensures follows { FollowsHaveMarks A }
    ensures outcomes { FollowsOutcomes A }
    ensures goes_on { MarksGoOn A B }
{}

/// So it is if a file is read, with several READs outstanding, or written.
pub fn files_have_marks()
    ensures reads { ReadsHaveMarks }
    ensures in_order { ReadsInOrder }
    ensures writes { WritesHaveMarks }
{}

/// A command that opened a session is one run of its link, which has all that its requests did one after another: the client keeps its law and the
/// last grant, calls are submitted and outcomes handed over in the order of the requests, and the bytes are those of the link that was hung up.
pub fn commands_have_a_run()
    ensures { CommandsHaveARun }
{}

/// A command that opened a session doesn't end for its dialer, and the fault counts of its link rise if and only if a call has no answer for that,
/// whatever its server does. If each outcome is a reply, it ends neither for ERR_CHUNK (RFC 8166 section 4.5.3) nor for ERR_VERS (section 4.5.1).
pub fn replies_exclude_ends()
    ensures { RepliesExcludeEnds }
{}

/// If the run of a command is the client's side of a link that is matched so far (`MatchedSoFar` of nr_laws), whose calls are answered as a plain
/// server answers within the limits of replies, each outcome that the command handed over is a reply. So the command ends neither for ERR_CHUNK nor
/// for ERR_VERS.
pub fn served_commands_have_replies()
    ensures outcomes { ServedClientsHaveReplies }
    ensures ends { ServedCommandsExcludeEnds }
{}

/// If both sides of such a link keep their laws with each Wrote in full, the client's side of it has not ended, nor has the requester of the command
/// when the link is hung up, unless memory ran out for a frame.
pub fn served_commands_stay_open()
    ensures clients { ServedClientsStayOpen }
    ensures requesters { ServedCommandsStayOpen }
{}

/// A command over a matched link whose plain server keeps its law with each Wrote in full: `laws` gives that the client keeps its own so far, and with
/// each Wrote in full unless a write failed. So its requester has not ended when the link is hung up, unless memory ran out for a frame or a write failed
/// (`open`). If the server owes nothing (`OwesNothing`: it wrote all its output and executed each complete call, and all that either side wrote
/// arrived), the command doesn't end with `Closed` (`not_closed`).
pub fn commands_keep_the_law()
    ensures laws { ServedCommandsKeepLaws }
    ensures open { ServedCommandsHaveNotEnded }
    ensures not_closed { ServedCommandsAreNotClosed }
{}

/// A command that opened a session, and ends since a call has no answer, has the cause of that end when its link is hung up, whatever its server
/// replies: at `Closed` no known byte of the source is left, a call is outstanding, all output is written, and the requester hasn't ended; at `Ended` it
/// has ended for this reason, or memory ran out; at `Spent` and `TooLarge` it refuses a call for that (`causes`). Each other end has its cause too
/// (`says`): a call was answered with an outcome that is read as this end, and whose bytes say so; a path of the command is bad; a limit of the command
/// was passed; or a fault count rose.
pub fn ends_have_causes()
    ensures causes { EndsHaveCauses }
    ensures says { EndsSay }
{}

/// So a command over a matched link whose plain server keeps its law with each Wrote in full ends with `Ended` only if memory ran out.
pub fn served_commands_end_for_memory()
    ensures { ServedCommandsEndForMemory }
{}

/// A command over a link of which `served_commands_end_for_memory` speaks, whose calls a plain server answers that was opened with a sane tree, is
/// done or ends for a cause: `causes` gives that of each end. So if no fault count rises, it is done, or ends for a refusal of the server, a bad path, a
/// limit or out of memory, or its server ended its stream; and not for the last if the server owes nothing (`complete`).
pub fn served_commands_complete()
    ensures causes { ServedCommandsHaveCauses }
    ensures complete { ServedCommandsComplete }
{}

/// The marks of a command are of their types (`IsTyped` of nr_laws) if the bytes that its link's source had left are known and are bytes, its user and its
/// group are 32-bit words, and what it names are bytes, with what `put` reads (`IsOfBytes`). Nothing is asked of its calls: the file handles in them come
/// from replies, which are made of what the client was fed (`commands`). A run of both sides is of its types if the marks of the client are, and the
/// others (`sides`).
pub fn commands_are_typed()
    ensures commands { CommandsAreTyped }
    ensures sides { SidesAreTyped }
{}
