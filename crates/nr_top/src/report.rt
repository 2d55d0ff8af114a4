//! What is reported, and the status with it.

ghost use Rattle.std.specs.Prelude.{◌≡◌, true, false, codes};
ghost use Rattle.nr_outside.specs.Streams.{sink_at};
ghost use Rattle.nr_top.specs.Ends.{Reported, memory_text};
ghost use Rattle.nr_top.specs.RunEnds.{WordsEnd};
ghost use Rattle.nr_top.specs.Statuses.{bad_arguments, no_memory};

use crate::status::{BAD_ARGUMENTS, DONE, FAULT, NO_MEMORY};
use nr_outside::{Sink, write_whole};
use nr_words::WordsFault;

/// Writes a text to `err`, and gives this status, or that of a fault.
pub(crate) fn write_error<E: Sink>(err: &mut E, text: &[u8], status: u8) -> u8
    ensures { Reported status text.now result (sink_at (E.taken err.old) (E.faults err.old)) (sink_at (E.taken err.new) (E.faults err.new)) }
{
    match write_whole(err, text) {
        Ok(()) => status,
        Err(_) => FAULT,
    }
}

/// Reports on `err` why the words can't be had, and gives the status: memory ran out for them, or one of them isn't UTF-8.
pub fn refuse<E: Sink>(err: &mut E, memory: bool) -> u8
    ensures memory { memory ≡ true → Reported no_memory memory_text result (sink_at (E.taken err.old) (E.faults err.old)) (sink_at (E.taken err.new) (E.faults err.new)) }
    ensures words { memory ≡ false → Reported bad_arguments (codes "bad words\n") result (sink_at (E.taken err.old) (E.faults err.old)) (sink_at (E.taken err.new) (E.faults err.new)) }
{
    if memory {
        write_error(err, b"memory\n", NO_MEMORY)
    } else {
        write_error(err, b"bad words\n", BAD_ARGUMENTS)
    }
}

/// Answers words that give no command, and gives the status: help and the version go to `out`, and else the reason to `err`.
pub(crate) fn answer_words<O: Sink, E: Sink>(fault: WordsFault, out: &mut O, err: &mut E) -> u8
    ensures { WordsEnd fault result (sink_at (O.taken out.old) (O.faults out.old)) (sink_at (O.taken out.new) (O.faults out.new))
        (sink_at (E.taken err.old) (E.faults err.old)) (sink_at (E.taken err.new) (E.faults err.new)) }
{
    match fault {
        WordsFault::Asked { text } => match write_whole(out, text.as_bytes()) {
            Ok(()) => DONE,
            Err(_) => write_error(err, b"output fault\n", FAULT),
        },
        WordsFault::Refused { text } => write_error(err, text.as_bytes(), BAD_ARGUMENTS),
        WordsFault::Bad => write_error(err, b"bad words\n", BAD_ARGUMENTS),
        WordsFault::Memory => write_error(err, b"memory\n", NO_MEMORY),
    }
}
