//! Calls that are written as words, and a server that answers them one after the other.

ghost use Rattle.std.specs.Prelude.{◌<◌, ◌^◌};

use crate::compare::same;
use nr_nfs_base::Verifier;
use nr_outside::Moment;
use nr_plain::{Fault, Server};
use nr_tree::Tree;
use nr_xdr::Octets;
use std::alloc::Global;
use std::process::Abort;

/// Seconds of the first call of a table. Each further one is a second later.
const FIRST_SECOND: u32 = 0x100;

/// The nanoseconds of each call.
const NANOS: u32 = 5;

/// A call of NFS version 3, and the words of its results. The call is the uid of its AUTH_SYS credential, which is the gid too, the
/// procedure, and the words of the arguments.
pub type Row = (&'static str, &'static str);

/// The numbers of the procedures and of the statuses that rows name (RFC 1813 sections 3 and 2.6).
static NAMES: [(&str, u32); 8] = [
    ("CREATE", 8),
    ("MKDIR", 9),
    ("REMOVE", 12),
    ("RENAME", 14),
    ("LINK", 15),
    ("READDIR", 16),
    ("NFS3_OK", 0),
    ("NFS3ERR_MLINK", 31),
];

/// A server of the drill's tree, with the export `/`.
pub fn opened(rt: &impl Abort, alloc: Global, capacity: u64) -> Server
    requires { capacity < 2 ^ 63 }
{
    let tree = Tree::drill(alloc).expect(rt, "memory");
    let export = Octets::from_slice(alloc, b"/").expect(rt, "memory");
    Server::open(tree, capacity, Verifier { number: 1 }, export)
}

/// A word in hexadecimal, or by its name.
fn word(rt: &impl Abort, token: &str) -> u32 {
    for (name, number) in &NAMES {
        if *name == token {
            return *number;
        }
    }
    u32::from_str_radix(token, 16).expect(rt, "word")
}

/// A word, and how often it stands there.
fn repeated(rt: &impl Abort, token: &str) -> (u32, u32) {
    match token.split_once('*') {
        Some((one, times)) => (word(rt, one), times.parse::<u32>().expect(rt, "times")),
        None => (word(rt, token), 1),
    }
}

/// Appends words, between spaces. `0*6` is six zero words.
pub fn put(rt: &impl Abort, bytes: &mut Vec<u8>, text: &str) {
    for token in text.split_whitespace() {
        let (word, times) = repeated(rt, token);
        for _ in 0..times {
            put_number(rt, bytes, word);
        }
    }
}

/// The bytes of words.
pub fn bytes_of(rt: &impl Abort, alloc: Global, text: &str) -> Vec<u8> {
    let mut bytes = Vec::new(alloc);
    put(rt, &mut bytes, text);
    bytes
}

/// Appends a number.
pub fn put_number(rt: &impl Abort, bytes: &mut Vec<u8>, number: u32) {
    bytes
        .extend_from_slice(&number.to_be_bytes())
        .expect(rt, "memory");
}

/// What the server answers to the call with this number in its table: the place, and the payload of the reply.
pub fn answered(
    alloc: Global,
    server: &mut Server,
    call: u32,
    payload: &[u8],
) -> Result<(u64, Vec<u8>), Fault> {
    let now = Moment {
        seconds: FIRST_SECOND.wrapping_add(call),
        nanos: NANOS,
    };
    let reply = server.execute(alloc, now, payload)?;
    Ok((reply.place, reply.payload.into_vec()))
}

/// What stands before the first space, and after it.
fn parted(text: &str) -> (&str, &str) {
    match text.split_once(' ') {
        Some(parts) => parts,
        None => (text, ""),
    }
}

/// The payload of a row's call.
pub fn called(rt: &impl Abort, alloc: Global, xid: u32, text: &str) -> Vec<u8> {
    let (uid, rest) = parted(text);
    let (proc, arguments) = parted(rest);
    let mut bytes = Vec::new(alloc);
    put_number(rt, &mut bytes, xid);
    put(rt, &mut bytes, "0 2 186a3 3");
    put(rt, &mut bytes, proc);
    put(rt, &mut bytes, "1 14 0 0");
    put(rt, &mut bytes, uid);
    put(rt, &mut bytes, uid);
    put(rt, &mut bytes, "0 0 0");
    put(rt, &mut bytes, arguments);
    bytes
}

/// The payload of the reply with a row's results.
pub fn replied(rt: &impl Abort, alloc: Global, xid: u32, results: &str) -> Vec<u8> {
    let mut bytes = Vec::new(alloc);
    put_number(rt, &mut bytes, xid);
    put(rt, &mut bytes, "1 0 0 0 0");
    put(rt, &mut bytes, results);
    bytes
}

/// Ends the test if the reply to this call of a table is another one, or has another place than the journal's length.
pub fn gives(
    rt: &impl Abort,
    alloc: Global,
    server: &mut Server,
    row: usize,
    number: u32,
    payload: &[u8],
    want: Vec<u8>,
) {
    let place = server.journal_len();
    let got = answered(alloc, server, number, payload);
    same(rt, row, got, Ok((place, want)));
}

/// Makes the calls of a table, one after the other, and compares each reply. The number of the row is the xid.
pub fn all_answered(rt: &impl Abort, alloc: Global, server: &mut Server, rows: &[Row]) {
    let mut xid = 0u32;
    for (row, (call, results)) in rows.iter().enumerate() {
        let payload = called(rt, alloc, xid, call);
        let want = replied(rt, alloc, xid, results);
        gives(rt, alloc, server, row, xid, payload.as_slice(), want);
        xid = xid.wrapping_add(1);
    }
}
