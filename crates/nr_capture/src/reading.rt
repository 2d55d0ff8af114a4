//! Reading of captures.

ghost use Rattle.std.specs.Prelude.{◌≡◌, ◌+◌, ◌<◌, ◌≤◌, ◌^◌, length, true, None, Some, IfOk, ◌&&◌, if◌then◌else◌};
ghost use Rattle.nr_outside.specs.Whole.{input_max};
ghost use Rattle.nr_texts.specs.Words.{newline, parts};
ghost use Rattle.nr_capture.specs.Capture.{GivesCapture, capture_of, is_link, marks_from, with_first_line, with_line};
ghost use Rattle.nr_capture.specs.private.Steps.{GivesMarks};

use crate::capture::{Capture, CaptureFault, link_of};
use crate::marks::mark_in;
use nr_texts::{Opening, cut, opening_in, words_of};
use nr_xdr::Memory;
use std::alloc::Global;

fn is_link(opening: &Opening, link: u32) -> bool
    ensures { result ≡ is_link opening.now link }
{
    1 <= link && link <= opening.clients
}

/// The first line, as a capture without marks.
#[tactic(auto, unfolding(crate::specs::Capture::with_first_line))]
fn first_line(alloc: Global, line: &[u8]) -> Result<Option<Capture>, Memory>
    ensures { IfOk result (λ read. with_first_line line.now ≡ read) }
{
    let words = words_of(alloc, line)?;
    match opening_in(words.as_slice()) {
        Some(opening) => Ok(Some(Capture::new(alloc, opening))),
        None => Ok(None),
    }
}

/// Adds a line, if it is valid.
#[tactic(auto, unfolding(crate::specs::Capture::with_line))]
fn add_line(alloc: Global, capture: &mut Capture, line: &[u8]) -> Result<bool, Memory>
    ensures { IfOk result (λ added. with_line capture.old line.now ≡ (if added then Some capture.new else None)) }
{
    let words = words_of(alloc, line)?;
    let Some(mark) = mark_in(alloc, words.as_slice())? else {
        return Ok(false);
    };
    let opening = capture.opening();
    if !is_link(&opening, link_of(&mark)) {
        drop(mark);
        return Ok(false);
    }
    capture.push(mark)?;
    Ok(true)
}

/// Adds the lines of a text, of which the first has this number.
fn add_lines(
    alloc: Global,
    capture: &mut Capture,
    first: u64,
    text: &[u8],
) -> Result<(), CaptureFault>
    requires { first + length text.now < 2 ^ 63 }
    ensures { GivesMarks result capture.new (marks_from first capture.old (parts newline text.now)) }
{
    let mut rest = text;
    let mut number = first;
    loop {
        let (line, more) = cut(b'\n', rest);
        let Some(next) = more else {
            return if line.is_empty() {
                Ok(())
            } else {
                Err(CaptureFault::BadLine { line: number })
            };
        };
        if !add_line(alloc, capture, line)? {
            return Err(CaptureFault::BadLine { line: number });
        }
        rest = next;
        number += 1;
    }
}

/// A capture without marks, with those of a text whose first line has number 2.
fn with_lines(alloc: Global, capture: Capture, text: &[u8]) -> Result<Capture, CaptureFault>
    requires { length text.now < 2 ^ 62 }
    ensures { GivesCapture result (marks_from 2 capture (parts newline text.now)) }
{
    let mut capture = capture;
    add_lines(alloc, &mut capture, 2, text)?;
    Ok(capture)
}

/// Reads the text of a capture: the first line of a script, and then a line for each mark. Each line ends with a newline,
/// and words are separated by one space. The text may have at most `nr_outside::INPUT_MAX` bytes.
///
/// # Errors
///
/// [`CaptureFault::BadLine`] with the number of the first line that is outside the grammar, from 1;
/// [`CaptureFault::Memory`] if memory ran out.
#[tactic(auto, unfolding(crate::specs::Capture::capture_of))]
pub fn read_capture(alloc: Global, text: &[u8]) -> Result<Capture, CaptureFault>
    requires { length text.now ≤ input_max }
    ensures { GivesCapture result (capture_of text.now) }
{
    let (line, more) = cut(b'\n', text);
    let Some(rest) = more else {
        return Err(CaptureFault::BadLine { line: 1 });
    };
    let Some(capture) = first_line(alloc, line)? else {
        return Err(CaptureFault::BadLine { line: 1 });
    };
    with_lines(alloc, capture, rest)
}
