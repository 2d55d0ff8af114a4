//! Bytes in words: what the lines of scripts feed, and what they expect. Calls of NFS, and replies.

ghost use Rattle.nr_rpc.specs.Credential.{CanWriteCred};

use nr_reduce::Call;
use nr_rpc::Cred;
use nr_xdr::Octets;
use std::alloc::Global;
use std::process::Abort;

/// How the client's hello begins (RFC 5044 section 7.1).
static HELLO: [u32; 4] = [0x4d504120, 0x49442052, 0x65712046, 0x72616d65];

/// The server's.
static HELLO_BACK: [u32; 4] = [0x4d504120, 0x49442052, 0x65702046, 0x72616d65];

/// Appends the bytes of some words (RFC 4506 section 4.1).
pub fn put(rt: &impl Abort, bytes: &mut Vec<u8>, words: &[u32]) {
    for word in words {
        bytes
            .extend_from_slice(&word.to_be_bytes())
            .expect(rt, "memory");
    }
}

/// Appends a byte, so many times.
fn put_byte(rt: &impl Abort, bytes: &mut Vec<u8>, byte: u8, times: usize) {
    for _ in 0..times {
        bytes.push(byte).expect(rt, "memory");
    }
}

/// Appends a word, so many times.
fn put_word(rt: &impl Abort, bytes: &mut Vec<u8>, word: u32, times: usize) {
    for _ in 0..times {
        put(rt, bytes, &[word]);
    }
}

/// What is repeated, and how often.
fn repeated<'a>(rt: &impl Abort, token: &'a str) -> (&'a str, usize) {
    match token.split_once('*') {
        Some((one, times)) => (one, times.parse::<usize>().expect(rt, "a count")),
        None => (token, 1),
    }
}

/// Appends a word in hexadecimal, or a byte after `.`, as often as it is said.
fn put_number(rt: &impl Abort, bytes: &mut Vec<u8>, token: &str) {
    let (one, times) = repeated(rt, token);
    match one.strip_prefix('.') {
        Some(byte) => {
            let byte = u8::from_str_radix(byte, 16).expect(rt, "a byte");
            put_byte(rt, bytes, byte, times);
        }
        None => {
            let word = u32::from_str_radix(one, 16).expect(rt, "a word");
            put_word(rt, bytes, word, times);
        }
    }
}

/// Appends the first four words of a hello by its name, or a number.
fn put_token(rt: &impl Abort, bytes: &mut Vec<u8>, token: &str) {
    match token {
        "hello" => put(rt, bytes, &HELLO),
        "hello-back" => put(rt, bytes, &HELLO_BACK),
        _ => put_number(rt, bytes, token),
    }
}

/// Appends the bytes of some tokens: `1*4` are four words in hexadecimal, `.7*5` five bytes, `hello` and `hello-back` the first four words of
/// the hellos of a client and of a server.
pub fn put_text(rt: &impl Abort, bytes: &mut Vec<u8>, text: &str) {
    for token in text.split_whitespace() {
        put_token(rt, bytes, token);
    }
}

/// The bytes of some tokens.
pub fn bytes_of(rt: &impl Abort, alloc: Global, text: &str) -> Vec<u8> {
    let mut bytes = Vec::new(alloc);
    put_text(rt, &mut bytes, text);
    bytes
}

/// A call of NFS version 3 without a credential.
pub fn call(rt: &impl Abort, alloc: Global, proc: u32, args: &[u8]) -> Call
    ensures { CanWriteCred result.cred }
{
    Call {
        prog: 100003,
        vers: 3,
        proc,
        cred: Cred::None,
        args: Octets::from_slice(alloc, args).expect(rt, "memory"),
    }
}

/// The bytes of some words, and bytes after them.
fn headed(rt: &impl Abort, alloc: Global, words: &[u32], rest: &[u8]) -> Vec<u8> {
    let mut bytes = Vec::new(alloc);
    put(rt, &mut bytes, words);
    bytes.extend_from_slice(rest).expect(rt, "memory");
    bytes
}

/// The payload of that call under an XID (RFC 5531 section 9).
pub fn payload(rt: &impl Abort, alloc: Global, xid: u32, proc: u32, args: &[u8]) -> Vec<u8> {
    headed(rt, alloc, &[xid, 0, 2, 100003, 3, proc, 0, 0, 0, 0], args)
}

/// The payload of an accepted reply to it with these results.
pub fn reply(rt: &impl Abort, alloc: Global, xid: u32, results: &[u8]) -> Vec<u8> {
    headed(rt, alloc, &[xid, 1, 0, 0, 0, 0], results)
}
