//! Bytes in words: what the lines of scripts feed, and what they expect.

use nr_wire::Side;
use std::alloc::Global;
use std::process::Abort;

/// How the hello of each side begins (RFC 5044 section 7.1).
fn key(side: Side) -> [u32; 4] {
    match side {
        Side::Initiator => [0x4d50_4120, 0x4944_2052, 0x6571_2046, 0x7261_6d65],
        Side::Responder => [0x4d50_4120, 0x4944_2052, 0x6570_2046, 0x7261_6d65],
    }
}

/// Puts the bytes of some words at the end.
pub fn put_words(rt: &impl Abort, bytes: &mut Vec<u8>, words: &[u32]) {
    for word in words {
        bytes
            .extend_from_slice(&word.to_be_bytes())
            .expect(rt, "memory");
    }
}

/// Puts a byte at the end, so many times.
pub fn put_byte(rt: &impl Abort, bytes: &mut Vec<u8>, byte: u8, times: usize) {
    for _ in 0..times {
        bytes.push(byte).expect(rt, "memory");
    }
}

/// Puts a word at the end, so many times.
pub fn put_word(rt: &impl Abort, bytes: &mut Vec<u8>, word: u32, times: usize) {
    for _ in 0..times {
        put_words(rt, bytes, &[word]);
    }
}

/// What is repeated, and how often.
fn repeated<'a>(rt: &impl Abort, token: &'a str) -> (&'a str, usize) {
    match token.split_once('*') {
        Some((one, times)) => (one, times.parse::<usize>().expect(rt, "a count")),
        None => (token, 1),
    }
}

/// Puts a word in hexadecimal, or a byte after `.`, as often as it is said.
fn put_number(rt: &impl Abort, bytes: &mut Vec<u8>, token: &str) {
    let (one, times) = repeated(rt, token);
    match one.strip_prefix('.') {
        Some(byte) => {
            let byte = u8::from_str_radix(byte, 16).expect(rt, "a byte");
            put_byte(rt, bytes, byte, times);
        }
        None => {
            let word = u32::from_str_radix(one, 16).expect(rt, "a word");
            put_word(rt, bytes, word, times);
        }
    }
}

/// Puts the characters after `'`, or a number.
fn put_data(rt: &impl Abort, bytes: &mut Vec<u8>, token: &str) {
    match token.strip_prefix('\'') {
        Some(text) => bytes
            .extend_from_slice(text.as_bytes())
            .expect(rt, "memory"),
        None => put_number(rt, bytes, token),
    }
}

/// Puts the first four words of a side's hello, or of its peer's, by name, or other data.
fn put_token(rt: &impl Abort, bytes: &mut Vec<u8>, side: Side, token: &str) {
    match token {
        "own-key" => put_words(rt, bytes, &key(side)),
        "peer-key" => put_words(rt, bytes, &key(side.peer())),
        _ => put_data(rt, bytes, token),
    }
}

/// The bytes of some tokens: `1*4` are four words in hexadecimal, `.7*5` five bytes, `'ab` two characters, and `own-key` and `peer-key` the
/// first four words of the hello of this side and of its peer.
pub fn bytes_of(rt: &impl Abort, alloc: Global, side: Side, text: &str) -> Vec<u8> {
    let mut bytes = Vec::new(alloc);
    for token in text.split_whitespace() {
        put_token(rt, &mut bytes, side, token);
    }
    bytes
}
