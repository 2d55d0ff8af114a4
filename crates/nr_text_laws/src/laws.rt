//! Laws of the texts that commands print.

ghost use Rattle.nr_text_laws.specs.CommandTexts.{FoundFilesAreThere, FoundParentsAreThere, LinksAreOfTheNode, PathsInOneTree, StatsAreOfTheNode, TextsAreOfTheTrees, TextsInOneTree};
ghost use Rattle.nr_text_laws.specs.EndedGets.{EndsOfGetsHaveCauses};
ghost use Rattle.nr_text_laws.specs.EndedJobs.{EndsOfJobsHaveCauses};
ghost use Rattle.nr_text_laws.specs.Fitting.{AttributesOfCallsFit, EntriesOfCallsFit, RootsAreInWords};
ghost use Rattle.nr_text_laws.specs.Listings.{ListsAreOfTheDirectory, ListsAreOfTheTrees};
ghost use Rattle.nr_text_laws.specs.NamesAfter.{MadeDirectoriesAreThere, MadeLinksAreThere, RemovedNamesAreGone};

/// What a command prints, or the refusal with its status, is a function of the server's trees at the places of its calls, unless a call has no answer or
/// memory ran out: of `mount`, `stat`, `readlink`, `mkdir`, `rm` and `ln`. For the last three the tree after the entry of a change that was done is the
/// one that the procedure makes (RFC 1813 section 3.3).
pub fn texts_are_of_the_trees()
    ensures { TextsAreOfTheTrees }
{}

/// If the trees are one (`same`), or no entry between the calls changes the tree (`kept`), what is found along a path is a function of that one tree.
pub fn paths_in_one_tree()
    ensures same { PathsInOneTree }
    ensures kept { TextsInOneTree }
{}

/// If no entry between the calls changes what the path leads to, the file (`file`), or the directory that has the last name (`parent`), is the one to
/// which the path leads in the tree at the place of the last call.
pub fn found_files_are_there()
    ensures file { FoundFilesAreThere }
    ensures parent { FoundParentsAreThere }
{}

/// So what `stat` and `readlink` printed is of the node to which the path leads: its attributes, and the path that the symbolic link holds.
pub fn texts_are_of_the_node()
    ensures stat { StatsAreOfTheNode }
    ensures link { LinksAreOfTheNode }
{}

/// What `ls` prints, or the refusal with its status, is a function of the trees at the places of its calls (`trees`). If no entry between them changes
/// what its path leads to, it prints the name of each entry of that directory, in order (`names`).
pub fn lists_are_of_the_trees()
    ensures trees { ListsAreOfTheTrees }
    ensures names { ListsAreOfTheDirectory }
{}

/// After a `mkdir` or an `ln` that was done the last name of its path leads, in the directory that was found, to a directory without entries
/// (`directory`), or to a symbolic link with the target (`link`); after an `rm` it leads to nothing (`removed`).
pub fn changed_names_lead_there()
    ensures directory { MadeDirectoriesAreThere }
    ensures link { MadeLinksAreThere }
    ensures removed { RemovedNamesAreGone }
{}

/// At each place of a journal whose entries are those of calls, the attributes of each node (`attributes`), and the cookies and the numbers of the entries
/// of each directory (`entries`), fit their fields (RFC 1813 sections 2.5 and 3.3.16), if those of the first tree are small. Those of a root alone are
/// (`roots`).
pub fn numbers_fit_in_fields()
    ensures attributes { AttributesOfCallsFit }
    ensures entries { EntriesOfCallsFit }
    ensures roots { RootsAreInWords }
{}

/// If the path of a `get` leads to a regular file, and no entry of the journal changes that, and it ends without its value, then a call has no answer or
/// memory ran out, the output failed, its export is not the server's or too long, or a call was refused with a status of NFS for a cause in the tree at a
/// place at which the server answers it so.
pub fn ends_of_gets_have_causes()
    ensures { EndsOfGetsHaveCauses }
{}

/// So it is of a `get` by several jobs, whose path leads to a regular file, if no entry of the journal changes that, and it opened a session: a READ of a
/// job that was refused with a status of NFS has its cause too, in the tree at a place at which the server answers it so.
pub fn ends_of_jobs_have_causes()
    ensures { EndsOfJobsHaveCauses }
{}
