//! Reading of scripts.

ghost use Rattle.std.specs.Prelude.{◌≡◌, ◌+◌, ◌<◌, ◌≤◌, ◌^◌, ◌==◌, [], length, true, None, Some, Ok, Err, IfOk, if◌then◌else◌};
ghost use Rattle.nr_outside.specs.Whole.{input_max};
ghost use Rattle.nr_texts.specs.Pieces.{texts};
ghost use Rattle.nr_script.specs.Script.{GivesScript, followed_by, is_ascii, is_skipped, script_from, script_of, with_text};
ghost use Rattle.nr_script.specs.private.Steps.{GivesOpening, GivesLines, with_opening};
ghost use Rattle.nr_script.specs.Lines.{line_in};
ghost use Rattle.nr_texts.specs.Words.{newline, parts};

use crate::draft::Draft;
use crate::lines::line_in;
use crate::script::{Script, ScriptFault};
use nr_texts::{Opening, cut, opening_in, words_of};
use nr_xdr::Memory;
use std::alloc::Global;

fn is_ascii(line: &[u8]) -> bool
    ensures { result ≡ is_ascii line.now }
{
    line.iter().all(|c| *c < 128)
}

fn is_skipped(line: &[u8]) -> bool
    ensures { result ≡ is_skipped line.now }
{
    match line {
        [] => true,
        [first, ..] => *first == b'#',
    }
}

/// What a line says before the first line was read: `None` of an invalid one, and `Some(None)` of one that is skipped.
#[tactic(auto, unfolding(crate::specs::Script::with_text))]
fn first_line(alloc: Global, line: &[u8]) -> Result<Option<Option<Opening>>, Memory>
    ensures { IfOk result (λ read. with_text None line.now ≡ with_opening read) }
{
    if !is_ascii(line) {
        return Ok(None);
    }
    if is_skipped(line) {
        return Ok(Some(None));
    }
    let words = words_of(alloc, line)?;
    match opening_in(words.as_slice()) {
        Some(opening) => Ok(Some(Some(opening))),
        None => Ok(None),
    }
}

/// The first line of a script, with the number of the line after it and the text from there on.
fn opening_from(alloc: Global, text: &[u8]) -> Result<(Opening, u64, &[u8]), ScriptFault>
    requires { length text.now ≤ input_max }
    ensures { GivesOpening text.now result }
{
    let mut rest = text;
    let mut number: u64 = 1;
    loop {
        let (line, more) = cut(b'\n', rest);
        let Some(next) = more else {
            return Err(ScriptFault::BadLine { line: number });
        };
        match first_line(alloc, line)? {
            None => return Err(ScriptFault::BadLine { line: number }),
            Some(Some(opening)) => return Ok((opening, number + 1, next)),
            Some(None) => {
                rest = next;
                number += 1;
            }
        }
    }
}

/// Adds what the words of a line say, if the line is valid.
fn add_words(alloc: Global, draft: &mut Draft, words: &[&[u8]]) -> Result<bool, Memory>
    ensures { IfOk result (λ added. followed_by draft.old (line_in (texts words.now)) ≡ (if added then Some draft.new else None)) }
{
    let Some(line) = line_in(alloc, words)? else {
        return Ok(false);
    };
    if !draft.may_follow(&line) {
        drop(line);
        return Ok(false);
    }
    draft.push(line)?;
    Ok(true)
}

/// Adds a line, if it is valid.
#[tactic(auto, unfolding(crate::specs::Script::with_text))]
fn add_line(alloc: Global, draft: &mut Draft, line: &[u8]) -> Result<bool, Memory>
    ensures { IfOk result (λ added. with_text (Some draft.old) line.now ≡ (if added then Some (Some draft.new) else None)) }
{
    if !is_ascii(line) {
        return Ok(false);
    }
    if is_skipped(line) {
        return Ok(true);
    }
    let words = words_of(alloc, line)?;
    add_words(alloc, draft, words.as_slice())
}

/// Adds the lines of a text, of which the first has this number.
fn add_lines(alloc: Global, draft: &mut Draft, first: u64, text: &[u8]) -> Result<(), ScriptFault>
    requires { first + length text.now < 2 ^ 63 }
    ensures { GivesLines result draft.new (script_from first (Some draft.old) (parts newline text.now)) }
{
    let mut rest = text;
    let mut number = first;
    loop {
        let (line, more) = cut(b'\n', rest);
        let Some(next) = more else {
            return if line.is_empty() {
                Ok(())
            } else {
                Err(ScriptFault::BadLine { line: number })
            };
        };
        if !add_line(alloc, draft, line)? {
            return Err(ScriptFault::BadLine { line: number });
        }
        rest = next;
        number += 1;
    }
}

/// Reads the text of a script. Its first line is `clients N credits G` and then, each if it is given and in this order,
/// ` capacity B`, ` sizes A B`, ` numbered` and ` invalidate`; the other lines follow.
///
/// Each line ends with a newline, and words are separated by one space. Empty lines and lines that begin with `#` are
/// skipped. All is ASCII. The text may have at most `nr_outside::INPUT_MAX` bytes.
///
/// # Errors
///
/// [`ScriptFault::BadLine`] with the number of the first line that is outside the grammar, from 1;
/// [`ScriptFault::Memory`] if memory ran out.
#[tactic(auto, unfolding(crate::specs::Script::script_of))]
pub fn read_script(alloc: Global, text: &[u8]) -> Result<Script, ScriptFault>
    requires { length text.now ≤ input_max }
    ensures { GivesScript result (script_of text.now) }
{
    let (opening, number, rest) = opening_from(alloc, text)?;
    let mut draft = Draft::new(alloc, opening);
    add_lines(alloc, &mut draft, number, rest)?;
    Ok(draft.into_script())
}
