//! Laws of words.

ghost use Rattle.std.specs.Prelude.{codes};
ghost use Rattle.nr_words.specs.Reads.{Asks, LinesArePossible};

/// The command of a line has positionals that are not empty and do not begin with `-`, and clients and calls in their ranges.
/// Its other numbers have the ranges of their types.
pub fn lines_are_possible()
    ensures { LinesArePossible }
{}

/// `--help` and `--version` ask, whatever the program's name: [`read_words`](crate::read_words) answers them with `Asked`, or
/// memory ran out.
pub fn options_that_ask()
    ensures help { Asks (codes "--help") }
    ensures version { Asks (codes "--version") }
{}
