//! Clients over TCP with record marks (RFC 5531 section 11) beside the commands, at one server.

use crate::compare::same;
use crate::host::Host;
use crate::runs::{INPUT, read_case, same_run, same_text};
use crate::sockets::new_server;
use nr_links::{Dialer, TcpDialer, TcpSink, TcpSource};
use nr_outside::{Source, write_whole};
use std::alloc::Global;
use std::net::{Net, TcpListener, TcpStream};
use std::process::Abort;
use std::thread;

/// A READ of file 2, from offset 0, of up to 1000 bytes, with AUTH_NONE (RFC 1813 section 3.3.6).
static READ: [u32; 17] = [
    0x80000040, 7, 0, 2, 100003, 3, 6, 0, 0, 0, 0, 8, 0, 2, 0, 0, 1000,
];

/// A CREATE of b in the root, unchecked and without attributes, which makes file 3 (section 3.3.8); and a WRITE of five bytes to that
/// (section 3.3.7).
static CREATE_AND_WRITE: [u32; 44] = [
    0x80000058, 8, 0, 2, 100003, 3, 8, 0, 0, 0, 0, 8, 0, 1, 1, 0x62000000, 0, 0, 0, 0, 0, 0, 0,
    0x80000050, 9, 0, 2, 100003, 3, 7, 0, 0, 0, 0, 8, 0, 3, 0, 0, 5, 2, 5, 0x68656c6c, 0x6f000000,
];

fn bytes(rt: &impl Abort, alloc: Global, words: &[u32]) -> Vec<u8> {
    let mut bytes = Vec::new(alloc);
    for word in words {
        bytes
            .extend_from_slice(&word.to_be_bytes())
            .expect(rt, "memory");
    }
    bytes
}

/// One read of a source, appended.
fn read_more(rt: &impl Abort, source: &mut TcpSource, got: &mut Vec<u8>) {
    let mut piece = [0u8; 1000];
    match source.read(&mut piece) {
        Ok(n) => {
            let (front, _) = piece.split_at(n);
            got.extend_from_slice(front).expect(rt, "memory");
        }
        Err(_) => panic!(rt; "the read failed"),
    }
}

/// What comes back, of the length that is asked for, over a link of its own.
fn exchange(
    rt: &impl Abort,
    alloc: Global,
    halves: (TcpSource, TcpSink),
    sent: &[u32],
    len: usize,
) -> Vec<u8> {
    let (mut source, mut sink) = halves;
    let sent = bytes(rt, alloc, sent);
    same(rt, 0, write_whole(&mut sink, sent.as_slice()).is_ok(), true);
    let mut got = Vec::new(alloc);
    for _ in 0..1000 {
        if got.len() < len {
            read_more(rt, &mut source, &mut got);
        }
    }
    got
}

/// A link to the server.
fn dial<N: Net<Stream = TcpStream, Listener = TcpListener>>(
    rt: &impl Abort,
    dialer: &mut TcpDialer<N>,
    addr: &str,
) -> (TcpSource, TcpSink) {
    match dialer.dial(addr) {
        Ok(halves) => halves,
        Err(_) => panic!(rt; "no link"),
    }
}

/// Compares some words of what came back: their numbers, and what they are.
fn same_words(rt: &impl Abort, row: usize, got: &[u8], want: &[(usize, u32)]) {
    for (at, word) in want.iter() {
        let from = at.saturating_mul(4);
        match got.get(from..from.saturating_add(4)) {
            Some(bytes) => same(rt, row, bytes == word.to_be_bytes().as_slice(), true),
            None => panic!(rt; "row {row}: fewer words"),
        }
    }
}

#[test]
fn records_beside_commands(rt: HostRuntime) {
    let alloc = rt.alloc();
    let (server, addr) = new_server(&rt, alloc, rt, 4);
    let Ok(server) = thread::spawn(&rt, move || server.run(rt, alloc)) else {
        panic!(rt; "no thread")
    };
    let mut dialer = TcpDialer::new(rt);
    let put = read_case(&rt, "put here / /a|||0|");
    same_run(&rt, alloc, 0, put, INPUT, addr.as_str(), &mut dialer);
    // it reads what `put` wrote: the words of status, count, eof and data, of a reply of 136 bytes
    let halves = dial(&rt, &mut dialer, addr.as_str());
    let got = exchange(&rt, alloc, halves, &READ, 140);
    let read = [
        (0, 0x80000088),
        (1, 7),
        (7, 0),
        (30, 5),
        (31, 1),
        (32, 5),
        (33, 0x68656c6c),
    ];
    same_words(&rt, 1, got.as_slice(), &read);
    // it makes a file, of which `get` reads what it wrote
    let halves = dial(&rt, &mut dialer, addr.as_str());
    let got = exchange(&rt, alloc, halves, &CREATE_AND_WRITE, 416);
    let made = [
        (0, 0x800000f8),
        (1, 8),
        (7, 0),
        (63, 0x800000a0),
        (64, 9),
        (70, 0),
    ];
    same_words(&rt, 2, got.as_slice(), &made);
    let get = read_case(&rt, "get here / /b|||0|hello");
    same_run(&rt, alloc, 3, get, INPUT, addr.as_str(), &mut dialer);
    let (status, out, err) = server.join(&rt);
    same(&rt, 4, u32::from(status), 0);
    same_text(&rt, alloc, 5, out.bytes(), "served 4 journal 4;");
    same_text(&rt, alloc, 6, err.bytes(), "");
}
