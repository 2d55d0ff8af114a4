//! Cases of the plain server: calls one after the other, and what is answered.
//!
//! `server TREE CAPACITY` opens a server of the drill's tree (`drill`) or of a root alone that was made at 7.000000009 s (`root`). Then
//! `call UID PROCEDURE WORDS` is a call of NFS version 3 with the credential UID, UID of AUTH_SYS, and `reply WORDS` the results that it
//! succeeds with; `payload WORDS` is a call from its first word on, and `gives WORDS` the complete reply, `notcall AT` its refusal.
//! `begins WORDS` and `ends WORDS` are the first and the last words of a reply, `place N` its place and `length N` its bytes.
//! `journal N COST` is the journal so far. Calls are numbered from 0: the number is the xid of a `call`, and the clock shows 256 seconds
//! more, and 5 nanoseconds. A reply's place is always the journal's length before the call.

ghost use Rattle.std.specs.Prelude.{◌<◌, ◌^◌, IfOk};
ghost use Rattle.nr_tree.specs.Steps.{IsBelow};

use crate::fault::CaseFault;
use crate::words::{number, parted, put_word, put_words};
use nr_nfs_base::{Time, Verifier};
use nr_outside::Moment;
use nr_plain::{Fault, Server};
use nr_tree::Tree;
use nr_xdr::Octets;
use std::alloc::Global;

/// Seconds of the first call.
const FIRST_SECOND: u32 = 0x100;

/// The nanoseconds of each call.
const NANOS: u32 = 5;

/// When a tree of a root alone is made.
const MADE: Time = Time {
    seconds: 7,
    nanoseconds: 9,
};

/// The capacities are below this one.
const CAPACITY_END: u64 = 1 << 63;

/// What became of a call.
#[derive(Drop)]
enum Answer {
    Reply { place: u64, payload: Vec<u8> },
    NotCall { at: usize },
}

/// A server, and the call that was made last.
#[derive(Drop)]
pub struct Calls {
    server: Server,
    /// How many calls were made.
    count: u32,
    /// The answer to the last one.
    answer: Answer,
    /// How many statements were compared.
    compared: u64,
}

/// The capacity of a server.
fn capacity(text: &str) -> Result<u64, CaseFault>
    ensures { IfOk result (λ capacity. capacity < 2 ^ 63) }
{
    let capacity = number(text)?;
    if capacity < CAPACITY_END {
        Ok(capacity)
    } else {
        Err(CaseFault::Format)
    }
}

/// The tree of a drill.
fn drill_tree(alloc: Global) -> Result<Tree, CaseFault>
    ensures { IfOk result (λ tree. IsBelow (2 ^ 62) tree) }
{
    match Tree::drill(alloc) {
        Ok(tree) => Ok(tree),
        Err(_) => Err(CaseFault::Memory),
    }
}

/// The tree of a root alone.
fn root_tree(alloc: Global) -> Result<Tree, CaseFault>
    ensures { IfOk result (λ tree. IsBelow (2 ^ 62) tree) }
{
    match Tree::root_only(alloc, MADE) {
        Ok(tree) => Ok(tree),
        Err(_) => Err(CaseFault::Memory),
    }
}

/// The tree with this name.
fn tree(alloc: Global, name: &str) -> Result<Tree, CaseFault>
    ensures { IfOk result (λ tree. IsBelow (2 ^ 62) tree) }
{
    match name {
        "drill" => drill_tree(alloc),
        "root" => root_tree(alloc),
        _ => Err(CaseFault::Format),
    }
}

/// A server with the write verifier 1 and the export `/`.
fn opened(alloc: Global, tree: Tree, capacity: u64) -> Result<Server, CaseFault>
    requires below { IsBelow (2 ^ 62) tree }
    requires capacity { capacity < 2 ^ 63 }
{
    match Octets::from_slice(alloc, b"/") {
        Ok(export) => Ok(Server::open(tree, capacity, Verifier { number: 1 }, export)),
        Err(_) => Err(CaseFault::Memory),
    }
}

/// The bytes of a call of NFS version 3.
fn call_bytes(bytes: &mut Vec<u8>, xid: u32, text: &str) -> Result<(), CaseFault> {
    let (uid, rest) = parted(text);
    let (procedure, arguments) = parted(rest);
    put_word(bytes, xid)?;
    put_words(bytes, "0 2 186a3 3")?;
    put_words(bytes, procedure)?;
    put_words(bytes, "1 14 0 0")?;
    put_words(bytes, uid)?;
    put_words(bytes, uid)?;
    put_words(bytes, "0 0 0")?;
    put_words(bytes, arguments)
}

/// The bytes of an accepted reply with these results (RFC 5531 section 9).
fn reply_bytes(bytes: &mut Vec<u8>, xid: u32, results: &str) -> Result<(), CaseFault> {
    put_word(bytes, xid)?;
    put_words(bytes, "1 0 0 0 0")?;
    put_words(bytes, results)
}

impl Calls {
    /// The server that a line asks for, before the first call.
    pub fn open(alloc: Global, text: &str) -> Result<Calls, CaseFault> {
        let (name, rest) = parted(text);
        let capacity = capacity(rest)?;
        let tree = tree(alloc, name)?;
        let server = opened(alloc, tree, capacity)?;
        Ok(Calls {
            server,
            count: 0,
            answer: Answer::NotCall { at: 0 },
            compared: 0,
        })
    }

    /// How many statements were compared.
    pub fn compared(&self) -> u64 {
        self.compared
    }

    /// The number of the call that was made last.
    fn last(&self) -> u32 {
        self.count.wrapping_sub(1)
    }

    /// Makes a call. Whether its place is the journal's length before it.
    fn execute(&mut self, alloc: Global, payload: &[u8]) -> Result<bool, CaseFault> {
        let now = Moment {
            seconds: FIRST_SECOND.wrapping_add(self.count),
            nanos: NANOS,
        };
        let before = self.server.journal_len();
        self.count = self.count.wrapping_add(1);
        match self.server.execute(alloc, now, payload) {
            Ok(reply) => {
                let place = reply.place;
                let payload = reply.payload.into_vec();
                self.answer = Answer::Reply { place, payload };
                Ok(place == before)
            }
            Err(Fault::NotCall { at }) => {
                self.answer = Answer::NotCall { at };
                Ok(true)
            }
            Err(Fault::Memory) => Err(CaseFault::Memory),
            // no call is old: none is of a client with a number
            Err(Fault::Old { .. }) => Err(CaseFault::Memory),
        }
    }

    /// The reply to the last call, or no bytes.
    pub fn reply(&self) -> &[u8] {
        match &self.answer {
            Answer::Reply { payload, .. } => payload.as_slice(),
            Answer::NotCall { .. } => &[],
        }
    }

    /// The place of that reply.
    fn place(&self) -> Option<u64> {
        match &self.answer {
            Answer::Reply { place, .. } => Some(*place),
            Answer::NotCall { .. } => None,
        }
    }

    /// The offset at which the last call's payload is no call.
    fn refusal(&self) -> Option<u64> {
        match &self.answer {
            Answer::Reply { .. } => None,
            Answer::NotCall { at } => Some(*at as u64),
        }
    }

    /// The statement of a line about the last call or the journal.
    fn is_so(&self, alloc: Global, key: &str, text: &str) -> Result<bool, CaseFault> {
        let mut bytes = Vec::new(alloc);
        match key {
            "reply" | "begins" => reply_bytes(&mut bytes, self.last(), text)?,
            "gives" | "ends" => put_words(&mut bytes, text)?,
            _ => return self.has_number(key, text),
        }
        match key {
            "begins" => Ok(self.reply().starts_with(bytes.as_slice())),
            "ends" => Ok(self.reply().ends_with(bytes.as_slice())),
            _ => Ok(self.reply() == bytes.as_slice()),
        }
    }

    /// The statement of a line with numbers.
    fn has_number(&self, key: &str, text: &str) -> Result<bool, CaseFault> {
        let (first, second) = parted(text);
        let first = number(first)?;
        match key {
            "notcall" => Ok(self.refusal() == Some(first)),
            "place" => Ok(self.place() == Some(first)),
            "length" => Ok(self.reply().len() as u64 == first),
            "journal" => Ok(
                self.server.journal_len() == first && self.server.journal_cost() == number(second)?,
            ),
            _ => Err(CaseFault::Format),
        }
    }

    /// Does what a line says. Whether it was as the line says.
    pub fn line(&mut self, alloc: Global, key: &str, text: &str) -> Result<bool, CaseFault> {
        let mut payload = Vec::new(alloc);
        match key {
            "call" => call_bytes(&mut payload, self.count, text)?,
            "payload" => put_words(&mut payload, text)?,
            _ => {
                self.compared = self.compared.saturating_add(1);
                return self.is_so(alloc, key, text);
            }
        }
        self.execute(alloc, payload.as_slice())
    }
}
