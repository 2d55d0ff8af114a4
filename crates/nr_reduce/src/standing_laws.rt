//! Laws of what an end keeps: the marks that it stands for, and that it is enough.

ghost use Rattle.nr_reduce.specs.KeptReopening.{KeptReopens, CallsUncompleted};
ghost use Rattle.nr_reduce.specs.StandingLaws.{ClientBegins, ServerBegins, EventsOfInput, ClientStandsOn, ServerStandsOn, ClientGoesByInput, ServerGoesByInput, ClientRunsOutAt, ServerRunsOutAt, ClientStaysOut, ServerStaysOut, ClientQueueIsDue, ServerQueueIsDue, KeptJudges, KeptResponds, KeptAnswers, KeptCounts, KeptStays, KeptRevokes, KeptHandsBack, KeptCompletes, KeptPlaces, KeptTakes, KeptEnds, KeptWrites, KeptGreets, KeptResends, KeptSubmits, NextXidFollows, XidsFollow, OutcomesStay, RevokeStands, RevokeStaysOut, WroteStands, OtherMarkStands, NoCallBeforeHello, NothingDueBeforeHello, InputInParts, ClientStagsInOrder, ServerStagsInOrder, PlanStagsInOrder};

/// What an end keeps stands for the marks of its link: as it is opened, and from mark to mark. A client keeps its calls and its
/// registered memory, and of an end that has ended neither input nor calls count. By its input alone an end knows what a mark
/// makes of its state and of what is due, whatever else is kept of it. An end that runs out of memory writes what is
/// left of its queue and no more. What an end writes from its queue is due.
pub fn ends_stand_for_marks()
    ensures client_begins { ClientBegins }
    ensures server_begins { ServerBegins }
    ensures events { EventsOfInput }
    ensures client { ClientStandsOn }
    ensures server { ServerStandsOn }
    ensures client_by_input { ClientGoesByInput }
    ensures server_by_input { ServerGoesByInput }
    ensures client_runs_out { ClientRunsOutAt }
    ensures server_runs_out { ServerRunsOutAt }
    ensures client_stays_out { ClientStaysOut }
    ensures server_stays_out { ServerStaysOut }
    ensures client_queue { ClientQueueIsDue }
    ensures server_queue { ServerQueueIsDue }
{}

/// What a client keeps is enough: by it a message is judged, a Read Request is answered and a call is answered as the client of a
/// run does, and it gives the calls that are outstanding and the credits that are granted. It stays enough while bytes are
/// received, after a revoke, after a call is handed back once it has ended, after a message, an access, a frame, also one that
/// ends it, a write, the server's hello and a call that it accepts.
pub fn clients_keep_enough()
    ensures message { KeptJudges }
    ensures response { KeptResponds }
    ensures submit { KeptAnswers }
    ensures counts { KeptCounts }
    ensures stays { KeptStays }
    ensures revoked { KeptRevokes }
    ensures handed_back { KeptHandsBack }
    ensures completed { KeptCompletes }
    ensures placed { KeptPlaces }
    ensures taken { KeptTakes }
    ensures ended { KeptEnds }
    ensures written { KeptWrites }
    ensures greeted { KeptGreets }
    ensures resent { KeptResends }
    ensures submitted { KeptSubmits }
{}

/// What a client that keeps its law so far keeps of its calls is enough to go on over another link: those that weren't given up are sent again, in
/// their order, each under its xid by the plan that is made again of what is kept. None that is outstanding or waits was completed.
pub fn kept_calls_go_on()
    ensures reopens { KeptReopens }
    ensures uncompleted { CallsUncompleted }
{}

/// What a client keeps stands for one mark more: after a revoke, also if it ran out of memory, after a write of a part of its
/// queue, and after a mark that is no event of it.
pub fn kept_clients_stand_on()
    ensures revoke { RevokeStands }
    ensures revoke_out { RevokeStaysOut }
    ensures wrote { WroteStands }
    ensures other { OtherMarkStands }
{}

/// Xids and the numbers of Sends go by the order of Submits: the next xid of a client is the first one and as many more as Sends
/// have a number, and while it keeps its law the xid of an outstanding call is the first one and as many more as Sends come before its own.
pub fn xids_follow_sends()
    ensures next { NextXidFollows }
    ensures outstanding { XidsFollow }
{}

/// The client of a run keeps each outcome.
pub fn clients_keep_outcomes()
    ensures { OutcomesStay }
{}

/// Until a server has received its client's hello it hasn't ended, no call is pending, read for or ready, and nothing is due
/// while it keeps its law.
pub fn no_call_before_hello()
    ensures calls { NoCallBeforeHello }
    ensures output { NothingDueBeforeHello }
{}

/// A piece of a stream may be fed in parts: they complete the same frames, and leave the same input.
pub fn pieces_in_parts()
    ensures { InputInParts }
{}

/// STags are given in the order of registration: those of a side one after the other, and those of a plan's regions in the order
/// read chunk, write chunk, reply chunk, as many as the plan needs.
pub fn stags_go_in_order()
    ensures client { ClientStagsInOrder }
    ensures server { ServerStagsInOrder }
    ensures plan { PlanStagsInOrder }
{}
