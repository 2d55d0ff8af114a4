//! Laws of the captures of drills.

ghost use Rattle.nr_capture_laws.specs.ReadBack.{RunsAreReadBack, RunsAreWritable};

/// The text of the capture of a drill's run says all of that capture (`writable`), so it is read back as the capture of the run
/// (`read`), if the script was read from a text of at most 16777216 bytes or made from a seed, and its clients have no numbers: a
/// capture has no lines for further links of a client. It doesn't matter which bytes the script puts into the links.
pub fn runs_are_read_back()
    ensures writable { RunsAreWritable }
    ensures read { RunsAreReadBack }
{}
