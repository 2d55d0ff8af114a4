//! Laws of a command and a connection on one link.

ghost use Rattle.nr_pair_laws.specs.AnyInputs.{PairsOverAnyInputAreTyped};
ghost use Rattle.nr_pair_laws.specs.FirstTrees.{RootsAreSane};
ghost use Rattle.nr_pair_laws.specs.Getting.{GetsReadTheFile};
ghost use Rattle.nr_pair_laws.specs.Interleaving.{CommandsMakeClientMarks, JobsMakeClientMarks, SidesAreInterleaved};
ghost use Rattle.nr_pair_laws.specs.JobPairs.{JobsAreServed, JobsAreTyped, JobsGiveTheFile, JobsReadTheFile};
ghost use Rattle.nr_pair_laws.specs.JobRuns.{JobsHaveARun};
ghost use Rattle.nr_pair_laws.specs.Numbers.{NumbersOfCallsFit, RootsAreBelow};
ghost use Rattle.nr_pair_laws.specs.Pairs.{AnsweredInLongerJournals, ConnectionsHaveARun, PairsAreServed, PairsAreTyped};
ghost use Rattle.nr_pair_laws.specs.PutCommands.{CommandsPutTheirInput};
ghost use Rattle.nr_pair_laws.specs.PutThenGet.{FilesInLongerJournals, GetsGiveTheFile, GetsGiveWhatWasPut, OtherEntriesKeepTheFile, PutsLeaveTheFile, ReadsGiveTheFile};
ghost use Rattle.nr_pair_laws.specs.ReadResults.{ResultsAreRead};
ghost use Rattle.nr_pair_laws.specs.RecordReads.{RecordReadsGiveTheFile};
ghost use Rattle.nr_pair_laws.specs.RefusedCalls.{GetsAreRefusedForRights};
ghost use Rattle.nr_pair_laws.specs.RefusedGets.{GetsEndForACause};
ghost use Rattle.nr_pair_laws.specs.Refusals.{FilesRefuseForRights};

/// A connection that doesn't run out of memory has one run of its link, which keeps the law of a link's server with each Wrote in full, and whose calls
/// are answered at their places in a journal that goes on from the one that its pass had seen.
pub fn connections_have_a_run()
    ensures { ConnectionsHaveARun }
{}

/// A command's run and a connection's run that are the sides of one matched list meet all premises of the laws on served commands, if the marks are of
/// their types: the server keeps its law with each Wrote in full, and each call is answered by the plain server that was opened so, at its place in the
/// server's journal. Each outcome of the command is the reply at such a place, which is after the entry of each call whose outcome the command had when
/// it made this call. The connection doesn't end with `Protocol`, unless a write of the command failed (`served`). The marks are of their types if what
/// the command names are bytes, the first tree holds bytes, and the entries of the journal are those of calls (`typed`). Of a `put` whose input tells nothing
/// of what it has, as standard input, it is enough that the bytes that the `put` read and left of it are bytes (`typed_over_any_input`).
pub fn pairs_are_served()
    ensures served { PairsAreServed }
    ensures typed { PairsAreTyped }
    ensures typed_over_any_input { PairsOverAnyInputAreTyped }
{}

/// Of a client's marks and a server's, each of which received a beginning of what the other sent, either there is a list that has both as its sides, in
/// which each receives only what the other has sent before, or there are two marks, one of each, that wait for each other, and never both (`lists`). The
/// marks of a command are marks of its link's client (`of_commands`), and so are those of a `get` by several jobs (`of_jobs`).
pub fn sides_are_interleaved()
    ensures lists { SidesAreInterleaved }
    ensures of_commands { CommandsMakeClientMarks }
    ensures of_jobs { JobsMakeClientMarks }
{}

/// What was answered at a place of a journal was answered at that place of each journal that goes on from it (`answered`), and a file to which a path
/// leads at that place is there too (`files`).
pub fn answered_in_longer_journals()
    ensures answered { AnsweredInLongerJournals }
    ensures files { FilesInLongerJournals }
{}

/// What a client reads of the reply to a call of NFS that was answered at a place of a journal is exactly what the procedure answers over the tree at
/// that place: all parts of a value, or the status and what comes with it (RFC 1813 section 3.3), if the arguments and the results
/// fit their fields.
pub fn results_are_read()
    ensures { ResultsAreRead }
{}

/// The first tree of a server of a configuration, a root alone, is sane and holds bytes: so the premises of `pairs_are_served` on the first tree hold of
/// each such server.
pub fn roots_are_sane()
    ensures { RootsAreSane }
{}

/// The number of each node fits in the eight bytes of a handle, in the tree at each place of a journal whose entries are those of calls, if the numbers of
/// the first tree are below 2^62 and the journal may cost less than 2^63 (`of_calls`). Those of a root alone are (`of_roots`).
pub fn numbers_fit_in_handles()
    ensures of_calls { NumbersOfCallsFit }
    ensures of_roots { RootsAreBelow }
{}

/// A `get` after a `put` of the same path reads the input of the `put`, if both were done, both are answered by one server
/// at places of its journal, those of the `get` after those of the `put`, and no other entry of the journal between the
/// calls changes what the path leads to.
pub fn put_then_get()
    ensures left { PutsLeaveTheFile }
    ensures kept { OtherEntriesKeepTheFile }
    ensures given { GetsGiveTheFile }
    ensures both { GetsGiveWhatWasPut }
    ensures read { ReadsGiveTheFile }
{}

/// After the last call of a `put` command that was done, and whose calls are answered as `pairs_are_served` says, its
/// path leads to a file with exactly the bytes that its input gave, which had no more, if no entry of others between its
/// calls changes what the path leads to.
pub fn commands_put_their_input()
    ensures { CommandsPutTheirInput }
{}

/// A `get` of a command that is done, whose outcomes are replies at places of a journal as `pairs_are_served` gives them, read the file of its path, if no
/// entry from there on changes what the path leads to; and its output took the bytes of the replies.
pub fn commands_get_the_file()
    ensures { GetsReadTheFile }
{}

/// A READ that came as a record of a connection with record marks (RFC 5531 section 11), of a file to which a path leads, is answered with what READ
/// answers to its caller over the tree at its place, with status 0 the bytes of the file, if no entry up to its place changes what the path leads to; and
/// the places of the calls of such a connection are those of its pass.
pub fn record_reads_give_the_file()
    ensures { RecordReadsGiveTheFile }
{}

/// Where a path leads to a regular file, LOOKUPs along it and READs of the file are refused for the caller's rights (NFS3ERR_ACCES), and a GETATTR of it is
/// not refused (RFC 1813 sections 3.3.1, 3.3.3 and 3.3.6). A LOOKUP is also refused if the path goes on with `.` or `..` after a file (NFS3ERR_NOTDIR), or
/// if the name has a byte 0 or a slash (NFS3ERR_ACCES). So `results` says of the server's results, and `calls` of what a client reads of the replies to the
/// calls of a `get`.
pub fn files_refuse_for_rights()
    ensures results { FilesRefuseForRights }
    ensures calls { GetsAreRefusedForRights }
{}

/// A `get` of a path that leads to a regular file, whose calls are answered as `pairs_are_served` says, ends with a status of NFS only if a LOOKUP of a name of
/// the path or a READ of the file was answered with this status, and has a cause in the tree at its place: the caller's rights, or one of those that
/// `files_refuse_for_rights` lists, if no entry changes what the path leads to.
pub fn gets_end_for_a_cause()
    ensures { GetsEndForACause }
{}

/// A `get` by several jobs that opened a session is one run of its link: the marks of its calls up to GETATTR, and then those of the history of the
/// requester that the jobs shared. The client keeps its law in it, and its bytes are those of the link that was hung up.
pub fn jobs_have_a_run()
    ensures { JobsHaveARun }
{}

/// If that run and a connection's run are the sides of one matched list, and the marks are of their types, each outcome of the `get` is the plain
/// server's reply to its call, at a place of the server's journal from the one on that the connection's pass had seen (`served`). The marks are of their
/// types if what the `get` names are bytes, the first tree holds bytes, and the entries of the journal are those of calls (`typed`).
pub fn jobs_are_served()
    ensures served { JobsAreServed }
    ensures typed { JobsAreTyped }
{}

/// A `get` by several jobs that is done, and whose outcomes are replies at places of a journal as `jobs_are_served` gives them, read the file of its
/// path, if no entry from there on changes what the path leads to; and its output took the bytes of the replies (`reads`). These are exactly the bytes
/// of the file to which the path led before, as after a `put` (`gives`).
pub fn jobs_get_the_file()
    ensures reads { JobsReadTheFile }
    ensures gives { JobsGiveTheFile }
{}
