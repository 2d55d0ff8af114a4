//! The records of a stream.

ghost use Rattle.std.specs.Prelude.{◌≡◌, ℕ, ◌+◌, ◌<◌, ◌≤◌, None, [], length, List, MatchOption, take};

use crate::constants::HEADER_LEN;
use crate::fault::RecordFault;
use arrayvec::ArrayVec;
use nr_xdr::Octets;
use std::alloc::Global;
use std::collections::VecDeque;

/// A record that is complete and not taken. `at` is the offset of its first byte in the stream.
#[derive(Drop)]
pub struct WaitingRecord {
    /// The offset of the record's first byte in the stream, in bytes.
    pub at: u64,
    /// The bytes of the record, without its marks.
    pub bytes: Octets,
}

impl WaitingRecord {
    fn into_bytes(self) -> Octets
        ensures { result ≡ self.bytes }
    {
        let WaitingRecord { at: _, bytes } = self;
        bytes
    }
}

/// Reads records out of a stream, which comes in pieces of any length. Room for a fragment is taken when its header is read, at most
/// 65536 bytes of it: so each byte of a record of one fragment up to that length is copied once, out of its piece. The bytes of a longer
/// record are copied again when its buffer grows.
#[derive(Drop)]
pub struct Records {
    pub(crate) waiting: VecDeque<WaitingRecord>,
    pub(crate) start: u64,
    pub(crate) count: u64,
    pub(crate) payload: Vec<u8>,
    pub(crate) head: ArrayVec<u8, HEADER_LEN>,
    pub(crate) last: bool,
    pub(crate) left: u32,
    pub(crate) fault: Option<RecordFault>,
    pub(crate) alloc: Global,
    ghost short: { length head.items < 4 },
    ghost counted: { length head.items ≤ count },
    ghost within: { length payload.items + left ≤ 1056768 },
}

impl Records {
    ghost use Rattle.nr_record.specs.Records.{contents, encodings};
    ghost use Rattle.nr_record.specs.RecordsState.{kept, RepresentsStream};

    /// A reader at the beginning of a stream.
    pub fn new(alloc: Global) -> Records
        ensures stands { RepresentsStream (kept result) [] 0 }
        ensures count { (kept result).count ≡ 0 }
        ensures fault { (kept result).fault ≡ None }
    {
        Records {
            waiting: VecDeque::new(alloc),
            start: 0,
            count: 0,
            payload: Vec::new(alloc),
            head: ArrayVec::new(),
            last: false,
            left: 0,
            fault: None,
            alloc,
        }
    }
}

impl Records {
    ghost use Rattle.std.specs.Prelude.{Option, Some, IfNone, IfSome};
    ghost use Rattle.nr_record.specs.Records.{contents, encodings};
    ghost use Rattle.nr_record.specs.RecordsState.{kept, RepresentsStream, IsAt};

    /// The next record of the stream, in their order. `None` if and only if no complete record waits. Takes no memory.
    pub fn next_record(&mut self) -> Option<Octets>
        ensures next { (stream : List ℕ) (taken : ℕ) (s : RepresentsStream (kept self.old) stream taken) →
            MatchOption result (taken ≡ length s.cuts) (λ bytes. IsAt (contents s.cuts) taken bytes × RepresentsStream (kept self.new) stream (taken + 1)) }
        ensures first { IfSome result (λ bytes. length (kept self.old).waiting ≡ length (kept self.new).waiting + 1) }
        ensures none { IfNone result (kept self.new ≡ kept self.old) }
        ensures others { kept self.new ≡ record (kept self.old) { waiting = (kept self.new).waiting } }
    {
        match self.waiting.pop_front() {
            Some(record) => Some(record.into_bytes()),
            None => None,
        }
    }

    /// The offset of the first byte of the record that `next_record` would give. If it would give none, the offset of the first byte
    /// after the complete records. Takes no memory.
    pub fn at(&self) -> u64
        ensures { (stream : List ℕ) (taken : ℕ) (s : RepresentsStream (kept self.now) stream taken) → result ≡ length (encodings (take taken s.cuts)) }
    {
        match self.waiting.front() {
            Some(record) => record.at,
            None => self.start,
        }
    }
}
