//! Runs of a gateway over what clients and a remote server send.

use crate::compare::same;
use crate::host::Host;
use crate::runs::{MOMENTS, dialer, plan, same_sent, same_text, source, words};
use nr_jobs::HandBack;
use nr_links::{MemAcceptor, MemClock};
use nr_outside::MemSink;
use nr_top::run;
use std::alloc::Global;

const CONFIG: &[u8] = b"listen = \"near\"\nremote = \"far\"\nconnections = 2\n";

/// GETATTR of the file with handle 1, with xid 9 (RFC 5531 section 9, RFC 1813 section 3.3.1), as a record of one fragment, and its
/// reply of 112 bytes: a directory with mode 0777 and three links.
const CALL: &str =
    "80000034 00000009 00000000 00000002 000186a3 00000003 00000001 00000000 00000000 00000000 00000000 00000008 00000000 00000001";

const REPLY: &str =
    "80000070 00000009 00000001 00000000 00000000 00000000 00000000 00000000 00000002 000001ff 00000003 00000000 00000000 00000000 00000000 00000000 00000000 00000000 00000000 00000000 00000001 00000000 00000001 00000000 00000000 00000000 00000000 00000000 00000000";

/// What the remote server sends: its hello (RFC 5044 section 7.1), and that reply with xids 1 and 2, each in a Send (RFC 5041 section 6.1,
/// RFC 8166 section 4.2).
const REMOTE: &str =
    "4d504120494420526570204672616d6500010000 009e414300000000000000000000000100000000000000010000000100000010000000000000000000000000000000000000000100000001000000000000000000000000000000000000000000000002000001ff0000000300000000000000000000000000000000000000000000000000000000000000000000000000000001000000000000000100000000000000000000000000000000000000000000000000000000 009e414300000000000000000000000200000000000000020000000100000010000000000000000000000000000000000000000200000001000000000000000000000000000000000000000000000002000001ff0000000300000000000000000000000000000000000000000000000000000000000000000000000000000001000000000000000100000000000000000000000000000000000000000000000000000000";

/// What a remote server sends that answers xid 1 by ERR_CHUNK and xid 2 by ERR_VERS with versions 1 and 1 (RFC 8166 section 4.5).
const ERRORS: &str =
    "4d504120494420526570204672616d6500010000 00264143000000000000000000000001000000000000000100000001000000100000000400000002 00000000 002e41430000000000000000000000020000000000000002000000010000001000000004000000010000000100000001 00000000";

/// Runs a gateway of two connections, one after another, whose calls have the same xid, and compares its status, what it prints, and
/// what each client gets.
fn same_gateway(rt: &impl Host, alloc: Global, remote: &str, replies: &[&str]) {
    let mut links = Vec::new(alloc);
    for _ in 0..2 {
        links.push(plan(rt, alloc, CALL, "")).expect(rt, "memory");
    }
    let mut accept = MemAcceptor::new(alloc, links, Vec::new(alloc));
    let mut dial = dialer(rt, alloc, remote, "");
    let words = words(rt, alloc, "gate config", "here");
    let mut input = source(rt, alloc, CONFIG, Vec::new(alloc));
    let mut out = MemSink::new(alloc, Vec::new(alloc));
    let mut err = MemSink::new(alloc, Vec::new(alloc));
    let mut clock = MemClock::new(&MOMENTS);
    let mut spawn = HandBack::new();
    let mut gates = HandBack::new();
    let status = run(
        *rt,
        alloc,
        words.as_slice(),
        &mut input,
        &mut out,
        &mut err,
        &mut dial,
        &mut accept,
        &mut clock,
        &mut spawn,
        &mut gates,
    );
    drop(input);
    drop(words);
    same(rt, 0, u32::from(status), 0);
    same_text(rt, alloc, 0, out.bytes(), "gated 2;");
    same_text(rt, alloc, 0, err.bytes(), "");
    for (row, reply) in replies.iter().enumerate() {
        same_sent(rt, alloc, row, accept.ended().get(row), *reply);
    }
}

#[test]
fn two_connections_through_a_gateway(rt: HostRuntime) {
    same_gateway(&rt, rt.alloc(), REMOTE, &[REPLY, REPLY]);
}

/// The remote server ends its stream after its hello: both connections end without a reply, and the status is 0.
#[test]
fn a_remote_server_that_ends(rt: HostRuntime) {
    same_gateway(
        &rt,
        rt.alloc(),
        "4d504120494420526570204672616d6500010000",
        &["", ""],
    );
}

/// Both connections end without a reply, and the status is 0.
#[test]
fn a_remote_server_that_answers_by_errors(rt: HostRuntime) {
    same_gateway(&rt, rt.alloc(), ERRORS, &["", ""]);
}
