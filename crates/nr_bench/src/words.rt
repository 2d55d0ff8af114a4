//! Words that are numbers.

use std::env::Args;

/// The next word, if it is a number.
pub fn number(words: &mut Args) -> Option<u32> {
    words.next()?.as_str().parse::<u32>().ok()
}
