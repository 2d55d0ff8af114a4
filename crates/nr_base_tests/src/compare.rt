//! Rows in words and bytes, and comparison of what a row of a table gives with what it has to give.

use nr_nfs_base::{Numbered, ValueFault, Xdr};
use nr_xdr::Octets;
use std::alloc::Global;
use std::fmt::Debug;
use std::process::Abort;

/// Ends the test if the two values differ, and prints both with the number of the row.
pub fn same<T: PartialEq + Debug + Drop>(rt: &impl Abort, row: usize, got: T, want: T) {
    if got != want {
        differ(rt, row, &got, &want);
    }
}

/// Ends the test, and prints both values with the number of the row.
fn differ<T: Debug>(rt: &impl Abort, row: usize, got: &T, want: &T) {
    panic!(rt; "row {row}: {got:?}, not {want:?}")
}

/// Puts the bytes of some words at the end.
pub fn put_words(rt: &impl Abort, bytes: &mut Vec<u8>, words: &[u32]) {
    for word in words {
        bytes
            .extend_from_slice(&word.to_be_bytes())
            .expect(rt, "memory");
    }
}

/// The bytes of some words.
pub fn bytes_of(rt: &impl Abort, alloc: Global, words: &[u32]) -> Vec<u8> {
    let mut bytes = Vec::new(alloc);
    put_words(rt, &mut bytes, words);
    bytes
}

/// The bytes of parts in words, one after the other.
pub fn joined(rt: &impl Abort, alloc: Global, parts: &[&[u32]]) -> Vec<u8> {
    let mut bytes = Vec::new(alloc);
    for part in parts {
        put_words(rt, &mut bytes, part);
    }
    bytes
}

/// Reads the bytes as a value of a type, and writes that.
pub fn again<T: Xdr>(alloc: Global, bytes: &[u8]) -> Result<Octets, ValueFault> {
    let value = T::read(alloc, bytes)?;
    Ok(value.write(alloc)?)
}

/// Ends the test if a value does not have the number beside it.
pub fn numbered_as<T: Numbered>(rt: &impl Abort, rows: &[(T, u32)]) {
    for (row, (value, number)) in rows.iter().enumerate() {
        same(rt, row, value.number(), *number);
    }
}

/// A word in hexadecimal, and how often it stands there: `0*6` is six words.
fn put_token(rt: &impl Abort, bytes: &mut Vec<u8>, token: &str) {
    let (word, times) = match token.split_once('*') {
        Some((word, times)) => (word, times.parse::<usize>().expect(rt, "a count")),
        None => (token, 1),
    };
    let word = u32::from_str_radix(word, 16).expect(rt, "a word");
    for _ in 0..times {
        put_words(rt, bytes, &[word]);
    }
}

/// The bytes of words in hexadecimal, parted by spaces.
pub fn bytes_of_text(rt: &impl Abort, alloc: Global, text: &str) -> Vec<u8> {
    let mut bytes = Vec::new(alloc);
    for token in text.split_whitespace() {
        put_token(rt, &mut bytes, token);
    }
    bytes
}

/// What is to come of a row: these words, or after `!` the offset at which it is no value.
fn wanted(rt: &impl Abort, alloc: Global, want: &str) -> Result<Vec<u8>, ValueFault> {
    match want.strip_prefix('!') {
        Some(at) => Err(ValueFault::Bad {
            at: at.trim().parse::<usize>().expect(rt, "an offset"),
        }),
        None => Ok(bytes_of_text(rt, alloc, want)),
    }
}

/// Ends the test if a row is written otherwise once it is read as a value of the type.
fn same_row<T: Xdr>(rt: &impl Abort, alloc: Global, row: usize, read: &str, want: &str) {
    let bytes = bytes_of_text(rt, alloc, read);
    let got = again::<T>(alloc, bytes.as_slice());
    same(rt, row, got.map(Octets::into_vec), wanted(rt, alloc, want));
}

/// Reads each line of a text as a value of the type, and writes that. Ends the test if it isn't written as it was read, or, after `|`, as
/// other words; `|! 8` says that it is no value, from byte 8 on.
pub fn same_rows<T: Xdr>(rt: &impl Abort, alloc: Global, text: &str) {
    for (row, line) in text.lines().enumerate() {
        match line.split_once('|') {
            Some((read, want)) => same_row::<T>(rt, alloc, row, read, want),
            None => same_row::<T>(rt, alloc, row, line, line),
        }
    }
}
