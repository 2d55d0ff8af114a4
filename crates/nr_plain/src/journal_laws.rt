//! Laws of the journal: what a reply depends on, which entry it means, and which trees there are.

ghost use Rattle.nr_plain.specs.History.{CallsAddOneEntryAtMost};
ghost use Rattle.nr_plain.specs.JournalLaws.{RepliesStay, RepliesTellEntries, RepliesAreThoseOfAnswers, UnchangingRepliesDoNotDependOnTheMoment, ProceduresKeepTreesSane, TreesStaySane, FailuresLeaveTheTree};

/// The reply over the first entries of a journal stays the same when entries follow.
pub fn replies_stay()
    ensures { RepliesStay }
{}

/// A call adds an entry to the journal if and only if it is one of the ten procedures that change the tree and its
/// reply has status 0.
pub fn replies_tell_entries()
    ensures { RepliesTellEntries }
{}

/// A call adds one entry to the journal, or none.
pub fn calls_add_one_entry_at_most()
    ensures { CallsAddOneEntryAtMost }
{}

/// The reply at a place of a journal is that of an answer over the entries before it, so what the laws say of answers
/// holds of the replies of a server.
pub fn replies_are_those_of_answers()
    ensures { RepliesAreThoseOfAnswers }
{}

/// An answer that adds no entry to the journal is the same at every moment: no rule, no results of a failure and no
/// procedure that only reads looks at the time.
pub fn unchanging_replies_do_not_depend_on_the_moment()
    ensures { UnchangingRepliesDoNotDependOnTheMoment }
{}

/// Each procedure leaves a sane tree sane, so the tree at each place of a journal is sane if a server was opened with a
/// sane one.
pub fn trees_stay_sane()
    ensures step { ProceduresKeepTreesSane }
    ensures tree { TreesStaySane }
{}

/// A procedure of NFS whose results have a status other than 0 leaves the tree, and so does each of the twelve
/// procedures that only read.
pub fn failures_leave_the_tree()
    ensures { FailuresLeaveTheTree }
{}
