//! The laws of drills, each by its statement in `specs/`.

ghost use Rattle.nr_drill.specs.Laws.{DrillsAreRuns, OneRun, ScriptsHaveRuns, DrillsHaveRuns, DrillTreesAreSane, DrillTreesAreInBytes, PlainRunsReplyInBytes, ReportsTellRuns, PlainServersAnswer, PlainServersAnswerInBytes, PlainDrainsEnd};
ghost use Rattle.nr_drill.specs.Drains.{StepsLeaveLess, StepsKeepTypes, DrainsEnd};

/// Whatever made the marks: if they are those that a script makes over a sane first tree, and each reply is bytes, then the run is that of a
/// drill. Each end of each link keeps its laws; each access to memory is allowed, or ends the side; a call that completes has the plain
/// server's reply at its place in the one journal, or ends with Chunk if and only if it has one of its causes; and on a link that stays all
/// calls complete after a last drain.
pub fn drill_is_run()
    ensures { DrillsAreRuns }
{}

/// A script has one run at most. With the plain server of a drill a script without `raw` lines has one, and it is that of a drill.
pub fn runs()
    ensures one { OneRun }
    // Over any first tree in bytes.
    ensures some { ScriptsHaveRuns }
    ensures drills { DrillsHaveRuns }
    // The first tree of a drill is sane and in bytes.
    ensures sane { DrillTreesAreSane }
    ensures tree { DrillTreesAreInBytes }
    // Over a first tree in bytes each reply of a run is bytes, whatever the script.
    ensures bytes { PlainRunsReplyInBytes }
{}

/// On a link that runs each step of a drain that moves something leaves less work, so a drain of a script without `raw` lines
/// ends.
pub fn drains_end()
    ensures steps { StepsLeaveLess }
    // A step keeps the types of marks, if the server replies in bytes.
    ensures types { StepsKeepTypes }
    ensures end { DrainsEnd }
    // The plain server has a reply to each call that waits.
    ensures answers { PlainServersAnswer }
    // It replies in bytes over a first tree in bytes, as that of a drill is. So with it drains end.
    ensures bytes { PlainServersAnswerInBytes }
    ensures plain { PlainDrainsEnd }
{}

/// What is printed of a run, and its sums, are determined by its report alone.
pub fn reports_tell_runs()
    ensures { ReportsTellRuns }
{}
