//! Laws of a requester.

ghost use Rattle.nr_requester.specs.Reopening.{CallsGoOn, NextBegins, NextLinksAreOpened};
ghost use Rattle.nr_requester.specs.ReopenedLinks.{AlikeAreKept, FirstLinksAreKept, FirstLinksStop};
ghost use Rattle.nr_requester.specs.Resends.{FeedIsMarks, FirstLinksResendNone};
ghost use Rattle.nr_requester.specs.EarlierLinks.{EarlierGoes, EarlierCounts, EarlierCountsStopped, EarlierStays, EarlierSubmits, EarlierDrains, EarlierFeeds, EarlierRunsOut, EarlierReopens, EarlierBeside, EarlierDoneLaw, EarlierForgetLaw, EarlierRevokeLaw};
ghost use Rattle.nr_requester.specs.KeptLaw.{NoMarksLaw, PieceLaw, SubmitLaw, DrainLaw, QueueLaw, OpenLaw, AwaitedLaw, RevokeLaw, ForgetLaw, DoneLaw, LostLaw};
ghost use Rattle.nr_requester.specs.KeptOn.{SubmitKeepsOn, DrainKeepsOn, RevokeKeepsOn, ForgetKeepsOn, DoneKeepsOn, LostKeepsOn, OthersKeepOn, FeedKeepsTerms, AnswersAsKept, MemoryAsKept, CountsAsKept, AgreesAsKept, EndAsKept, AnswersAreKept, ReleasesAsKept, BuffersAreKept, FirstIsKept};
ghost use Rattle.nr_requester.specs.StoppedLinks.{PieceStops, DrainStopsOn, RevokeStopsOn, ForgetStopsOn, DoneStopsOn, OthersStopOn, RefusesStopped, PieceStaysStopped, MemoryStopped, CountsStopped, AgreesStopped, BuffersStopped, AnswersStopped, FirstStopped, OpenStopped, AwaitedStopped, DrainStoppedLaw, RevokeStoppedLaw, ForgetStoppedLaw, DoneStoppedLaw};
ghost use Rattle.nr_requester.specs.Laws.{Begins, AnswersAsClient, AgreesAsClient, AgreesOut, CountsAsClient, CountsMarks, SubmitIsAMark, PieceIsAMark, PieceRunsOut, DrainIsAMark, RevokeIsAMark, RevokeStaysOut, ForgetIsAMark, DoneIsAMark, AnswersAreDue, AnswersOut, EndAsClient, FirstIsDueFirst, FirstOut, OthersLeaveIt, MemoryAsClient, MemoryOut, CountsOut, CountsMarksOut, RefusesOut, PieceStaysOut, OthersStayOut, LawBegins, OthersKeepLaw, RevokeKeepsLaw, BuffersArePlaced, RevokedOut, SubmitKeepsLaw, DrainKeepsLaw, DrainOutKeepsLaw, QueueIsAllDue, RefusedKeepsLaw, PieceKeepsLaw, DrainKeepsGrant, OpenIsAwaited, OpenOut, AwaitedIsOpen, AwaitedOut, ForgetKeepsLaw, ForgetOutKeepsLaw, DoneKeepsLaw, DoneOutKeepsLaw, LostKeepsLaw, NamedRegionIsNotCounted};

/// A requester stands for the marks of its link, from its opening on: what it keeps is what the client of the run asks for, and what it
/// may write is what is due and not yet written. It answers a call as that client does, and knows how many calls are outstanding and
/// granted, and how long a Send may be in each direction; the regions of its calls hold what that client's hold; its answers are the
/// outcomes that are due. After it ran out of memory nothing but a drain and what is handed over or given up changes it.
pub fn requesters_stand_for_marks()
    ensures begins { Begins }
    ensures answer { AnswersAsClient }
    ensures counts { CountsAsClient }
    ensures agrees { AgreesAsClient }
    ensures marks { CountsMarks }
    ensures end { EndAsClient }
    ensures submit { SubmitIsAMark }
    ensures piece { PieceIsAMark }
    ensures piece_out { PieceRunsOut }
    ensures drain { DrainIsAMark }
    ensures revoke { RevokeIsAMark }
    ensures revoke_out { RevokeStaysOut }
    ensures forget { ForgetIsAMark }
    ensures done { DoneIsAMark }
    ensures answers { AnswersAreDue }
    ensures answers_out { AnswersOut }
    ensures first { FirstIsDueFirst }
    ensures first_out { FirstOut }
    ensures others { OthersLeaveIt }
    ensures memory { MemoryAsClient }
    ensures memory_out { MemoryOut }
    ensures counts_out { CountsOut }
    ensures agrees_out { AgreesOut }
    ensures marks_out { CountsMarksOut }
    ensures refused_out { RefusesOut }
    ensures piece_stays_out { PieceStaysOut }
    ensures others_out { OthersStayOut }
{}

/// A requester keeps the law of its side, so far, and the last grant, from no marks on: by a call that it accepts or refuses, a piece that
/// it is fed, a drain, also if it ran out of memory, a revoke of a call that is awaited, an answer that is taken or given up, and each mark
/// of others. All that it may write is all that is due.
pub fn requesters_keep_their_law()
    ensures begins { LawBegins }
    ensures others { OthersKeepLaw }
    ensures submit { SubmitKeepsLaw }
    ensures drain { DrainKeepsLaw }
    ensures drain_out { DrainOutKeepsLaw }
    ensures queue { QueueIsAllDue }
    ensures refused { RefusedKeepsLaw }
    ensures piece { PieceKeepsLaw }
    ensures drain_grant { DrainKeepsGrant }
    ensures revoke { RevokeKeepsLaw }
    ensures buffers { BuffersArePlaced }
    ensures revoked_out { RevokedOut }
    ensures awaited { OpenIsAwaited }
    ensures awaited_out { OpenOut }
    ensures open { AwaitedIsOpen }
    ensures open_out { AwaitedOut }
    ensures forget { ForgetKeepsLaw }
    ensures forget_out { ForgetOutKeepsLaw }
    ensures done { DoneKeepsLaw }
    ensures done_out { DoneOutKeepsLaw }
    ensures lost { LostKeepsLaw }
{}

/// Until its link has ended, the server reaches all regions of each outstanding call, and once a message has named one of them all but that
/// one: so many are counted when they are released (RFC 5040 section 4.7).
pub fn releases_are_counted()
    ensures { NamedRegionIsNotCounted }
{}

/// A requester that stands for the marks of its link, has kept the client's law and hasn't ended, keeps what its next link is opened with: each
/// call whose answer is awaited, under its xid, by the plan by which it was sent, with its regions under STags that are new; and the messages of
/// their Sends. So it stands for no marks of the next link, and keeps the answers of the link that it left. If the link that it leaves was opened in
/// range, and enough STags are left, so is the next one.
pub fn calls_go_on()
    ensures next { CallsGoOn }
    ensures begins { NextBegins }
    ensures opens { NextLinksAreOpened }
{}

/// A requester that stands for the marks of its link, which may be one that was reopened, goes on from mark to mark: through a call that it
/// accepts, a drain, a revoke, an answer that is given up or handed over, a call that is lost, and each mark that is no event of it. Through a piece
/// of the server's stream it goes on with the Submits of all calls that can be sent again then. It answers a call as the client of the run
/// does, and knows how many calls are outstanding and granted, what was agreed on, and why the link ended. The regions of its calls hold what that
/// client's hold, and a revoke hands that back; the answers that belong to the link are the outcomes that are due. Which xids belong to the link
/// matters for the answers that it keeps, the outstanding calls and those to come alone.
pub fn reopened_links_go_on()
    ensures submit { SubmitKeepsOn }
    ensures drain { DrainKeepsOn }
    ensures feed { FeedIsMarks }
    ensures revoke { RevokeKeepsOn }
    ensures forget { ForgetKeepsOn }
    ensures done { DoneKeepsOn }
    ensures lost { LostKeepsOn }
    ensures others { OthersKeepOn }
    ensures terms { FeedKeepsTerms }
    ensures answer { AnswersAsKept }
    ensures counts { CountsAsKept }
    ensures agrees { AgreesAsKept }
    ensures end { EndAsKept }
    ensures memory { MemoryAsKept }
    ensures answers { AnswersAreKept }
    ensures releases { ReleasesAsKept }
    ensures buffers { BuffersAreKept }
    ensures first { FirstIsKept }
    ensures alike { AlikeAreKept }
{}

/// On such a link it keeps the client's law and the last grant, from no marks on: by a call that it accepts, a drain, a piece that it is fed with all
/// that is sent again then, a revoke, an answer that is given up or handed over, and a call that is lost. All that it may write is all that is due, and a ticket of the link is open if and only if
/// its call is awaited or waits to be sent again.
pub fn reopened_links_keep_their_law()
    ensures begins { NoMarksLaw }
    ensures piece { PieceLaw }
    ensures submit { SubmitLaw }
    ensures drain { DrainLaw }
    ensures queue { QueueLaw }
    ensures open { OpenLaw }
    ensures awaited { AwaitedLaw }
    ensures revoke { RevokeLaw }
    ensures forget { ForgetLaw }
    ensures done { DoneLaw }
    ensures lost { LostLaw }
{}

/// A requester that ran out of memory on such a link, while it was fed, goes on from mark to mark: through a drain, a revoke, an answer that is given
/// up or handed over, and each mark that is no event of it. It sends no call again, refuses each new one, and a later piece changes nothing of it.
/// Its memory, its calls and its grant stay as they were when it stopped, and what a revoke hands back is what the regions of the call held then.
pub fn stopped_requesters_go_on()
    ensures piece { PieceStops }
    ensures drain { DrainStopsOn }
    ensures revoke { RevokeStopsOn }
    ensures forget { ForgetStopsOn }
    ensures done { DoneStopsOn }
    ensures others { OthersStopOn }
    ensures refused { RefusesStopped }
    ensures later { PieceStaysStopped }
    ensures memory { MemoryStopped }
    ensures counts { CountsStopped }
    ensures agrees { AgreesStopped }
    ensures buffers { BuffersStopped }
    ensures answers { AnswersStopped }
    ensures first { FirstStopped }
{}

/// Then it keeps the client's law and the last grant still: by a drain, a revoke, and an answer that is given up or handed over. A ticket of the link
/// is open if and only if its call is awaited or waits to be sent again.
pub fn stopped_requesters_keep_their_law()
    ensures open { OpenStopped }
    ensures awaited { AwaitedStopped }
    ensures drain { DrainStoppedLaw }
    ensures revoke { RevokeStoppedLaw }
    ensures forget { ForgetStoppedLaw }
    ensures done { DoneStoppedLaw }
{}

/// A requester that stands for the marks of its first link keeps what one keeps of a link that may be one of several, and sends nothing again. So does
/// one that ran out of memory.
pub fn first_links_are_kept()
    ensures kept { FirstLinksAreKept }
    ensures none { FirstLinksResendNone }
    ensures stopped { FirstLinksStop }
{}

/// What a requester keeps of a link that it left stays while the links that follow go on: through a call that it accepts, a drain, a feed with all that
/// is sent again then, a feed for which memory runs out, a call of another link that is handed over, given up, revoked or lost, and a `reopen`. It goes on
/// through an answer of that link that is handed over, given up or revoked; the present link counts such a mark with those before it.
pub fn earlier_links_are_kept()
    ensures goes { EarlierGoes }
    ensures counts { EarlierCounts }
    ensures counts_stopped { EarlierCountsStopped }
    ensures stays { EarlierStays }
    ensures submit { EarlierSubmits }
    ensures drain { EarlierDrains }
    ensures feed { EarlierFeeds }
    ensures runs_out { EarlierRunsOut }
    ensures reopen { EarlierReopens }
    ensures beside { EarlierBeside }
{}

/// The law of the client of a link that was left, and its last grant, are kept by an answer of it that is handed over, given up or revoked. A revoke
/// hands back what the regions of the call held when the answer came.
pub fn earlier_links_keep_their_law()
    ensures done { EarlierDoneLaw }
    ensures forget { EarlierForgetLaw }
    ensures revoke { EarlierRevokeLaw }
{}
