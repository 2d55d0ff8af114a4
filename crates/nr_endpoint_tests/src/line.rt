//! A line of a script.

use crate::script::Setting;
use std::process::Abort;

/// What a line asks for: a call by its name, its numbers, and the bytes of its words. `row` is the number of the line in its script.
#[derive(Clone, Copy)]
pub struct Line<'a> {
    pub row: usize,
    pub setting: Setting,
    pub name: &'a str,
    pub numbers: &'a str,
    pub bytes: &'a [u8],
}

/// The parts of a text before and after a character, without spaces around them.
pub fn parted<'a>(text: &'a str, by: char) -> (&'a str, &'a str) {
    match text.split_once(by) {
        Some((before, after)) => (before.trim(), after.trim()),
        None => (text.trim(), ""),
    }
}

impl<'a> Line<'a> {
    /// The text of the number at a place.
    fn digits(&self, rt: &impl Abort, place: usize) -> &'a str {
        for (at, digits) in self.numbers.split_whitespace().enumerate() {
            if at == place {
                return digits;
            }
        }
        panic!(rt; "row {}: a number is missing", self.row)
    }

    /// The decimal number at a place.
    pub fn number(&self, rt: &impl Abort, place: usize) -> u64 {
        self.digits(rt, place).parse::<u64>().expect(rt, "a number")
    }

    /// The same, of units.
    pub fn units(&self, rt: &impl Abort, place: usize) -> u8 {
        self.digits(rt, place).parse::<u8>().expect(rt, "units")
    }

    /// The same, of 32 bits.
    pub fn word(&self, rt: &impl Abort, place: usize) -> u32 {
        self.digits(rt, place).parse::<u32>().expect(rt, "a word")
    }

    /// The same, of a count in memory.
    pub fn count(&self, rt: &impl Abort, place: usize) -> usize {
        self.digits(rt, place)
            .parse::<usize>()
            .expect(rt, "a count")
    }
}
