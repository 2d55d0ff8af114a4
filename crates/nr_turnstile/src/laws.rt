//! Laws of passes.

ghost use Rattle.nr_turnstile.specs.Passes.{BeginsOpen, StaysOpen};

use crate::machine::Machine;

/// The place of an entry that the pass appends at its turn is open: no entry of the history closes it.
pub fn begins_open<M: Machine>()
    ensures { BeginsOpen M.stands M.closes }
{}

/// A place that is the pass's own and that no entry closes is so still when the pass gets its next turn: no other pass can append
/// the entry that closes it.
pub fn stays_open<M: Machine>()
    ensures { StaysOpen M.stands M.closes }
{}
