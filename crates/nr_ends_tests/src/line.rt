//! A line of a script.

use std::process::Abort;

/// What a line asks for: a call by its name, what follows it up to `:`, and two runs of bytes. Bytes are fed in pieces of the length `size`.
/// `row` is the number of the line in its script.
#[derive(Clone, Copy)]
pub struct Line<'a> {
    pub row: usize,
    pub size: usize,
    pub name: &'a str,
    pub parts: &'a str,
    pub bytes: &'a [u8],
    pub more: &'a [u8],
}

/// The parts of a text before and after a character, without spaces around them.
pub fn parted<'a>(text: &'a str, by: char) -> (&'a str, &'a str) {
    match text.split_once(by) {
        Some((before, after)) => (before.trim(), after.trim()),
        None => (text.trim(), ""),
    }
}

/// The piece of a text at a place, between pieces that a character parts.
pub fn piece<'a>(rt: &impl Abort, text: &'a str, by: char, place: usize) -> &'a str {
    for (at, part) in text.split(by).enumerate() {
        if at == place {
            return part.trim();
        }
    }
    panic!(rt; "no piece {place} in {text}")
}

impl<'a> Line<'a> {
    /// The part at a place.
    pub fn part(&self, rt: &impl Abort, place: usize) -> &'a str {
        piece(rt, self.parts, ' ', place)
    }

    /// The decimal number at a place.
    pub fn number(&self, rt: &impl Abort, place: usize) -> u32 {
        self.part(rt, place).parse::<u32>().expect(rt, "a number")
    }

    /// The same, of a count in memory.
    pub fn count(&self, rt: &impl Abort, place: usize) -> usize {
        self.part(rt, place).parse::<usize>().expect(rt, "a count")
    }

    /// The same, of units.
    pub fn units(&self, rt: &impl Abort, place: usize) -> u8 {
        self.part(rt, place).parse::<u8>().expect(rt, "units")
    }

    /// Whether the number at a place is 1.
    pub fn flag(&self, rt: &impl Abort, place: usize) -> bool {
        self.number(rt, place) == 1
    }
}
