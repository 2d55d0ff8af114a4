//! Bytes of a stream.

ghost use Rattle.std.specs.Prelude.{◌≡◌, ℕ, ◌+◌, ◌-◌, ◌<◌, ◌≤◌, ◌^◌, [], ◌∷◌, ◌++◌, length, take, List, None, Some, OnOk, IfErr};
ghost use Rattle.std.specs.VecDeque.{deque_len, deque_capacity};

use crate::constants::{BIT_LAST, HEADER_LEN, REASON_RECORD, RECORD_MAX, ROOM_MAX};
use crate::fault::RecordFault;
use crate::records::{Records, WaitingRecord};
use nr_xdr::{Octets, word_at};
use std::mem;

impl Records {
    ghost use Rattle.nr_record.specs.RecordsState.{kept, RepresentsStream, IsFaultOf, KeepsWaiting};
    ghost use Rattle.nr_record.specs.Records.{IsAboveAt};
    ghost use Rattle.nr_record.specs.private.Step.{ended, with_header, with_byte, with_payload, with_fault};

    /// Takes in the next bytes of the stream. `Bad` if and only if the length of a fragment takes the sum of its record above
    /// 1056768; `at` is the offset of the header of the first such fragment. A fault is kept, and each later call answers it again.
    /// The records that end before it are kept too. No answer loses a record that waits, or takes back what was read. At most 2^62
    /// bytes may be fed in all.
    pub fn feed(&mut self, piece: &[u8]) -> Result<(), RecordFault>
        requires { (kept self.old).count + length piece.now ≤ 2 ^ 62 }
        ensures stands { (stream : List ℕ) (taken : ℕ) → RepresentsStream (kept self.old) stream taken → RepresentsStream (kept self.new) (stream ++ piece.now) taken }
        ensures ok { (stream : List ℕ) (taken : ℕ) → RepresentsStream (kept self.old) stream taken → OnOk result ((at : ℕ) → ¬ (IsAboveAt (stream ++ piece.now) at)) }
        ensures err { (stream : List ℕ) (taken : ℕ) → RepresentsStream (kept self.old) stream taken → IfErr result (IsFaultOf (stream ++ piece.now)) }
        ensures fault { OnOk result ((kept self.new).fault ≡ None) × IfErr result (λ fault. (kept self.new).fault ≡ Some fault) }
        ensures stays { (fault : RecordFault) → (kept self.old).fault ≡ Some fault → kept self.new ≡ kept self.old }
        ensures count { (kept self.new).count ≤ (kept self.old).count + length piece.now }
        ensures forward { (kept self.old).count ≤ (kept self.new).count }
        ensures keeps { KeepsWaiting (kept self.old) (kept self.new) }
    {
        self.feed_inner(piece)
    }

    fn feed_inner(&mut self, piece: &[u8]) -> Result<(), RecordFault>
        requires { (kept self.old).count + length piece.now ≤ 2 ^ 62 }
        ensures stands { (stream : List ℕ) (taken : ℕ) → RepresentsStream (kept self.old) stream taken → RepresentsStream (kept self.new) (stream ++ piece.now) taken }
        ensures ok { OnOk result ((kept self.new).fault ≡ None) }
        ensures err { IfErr result (λ fault. (kept self.new).fault ≡ Some fault) }
        ensures stays { (fault : RecordFault) → (kept self.old).fault ≡ Some fault → kept self.new ≡ kept self.old }
        ensures count { (kept self.new).count ≤ (kept self.old).count + length piece.now }
        ensures forward { (kept self.old).count ≤ (kept self.new).count }
        ensures keeps { KeepsWaiting (kept self.old) (kept self.new) }
    {
        if let Some(kept) = self.fault {
            return Err(kept);
        }
        let mut rest = piece;
        while !rest.is_empty() {
            let len = self.advance(rest);
            if let Some(fault) = self.fault {
                return Err(fault);
            }
            let (_, more) = rest.split_at(len);
            rest = more;
        }
        Ok(())
    }

    // Reads some of these bytes, and answers how many, or keeps a fault.
    fn advance(&mut self, bytes: &[u8]) -> usize
        requires some { 0 < length bytes.now }
        requires fault { self.old.fault ≡ None }
        requires within { self.old.count + length bytes.now ≤ 2 ^ 62 }
        ensures stands { (stream : List ℕ) (taken : ℕ) → RepresentsStream (kept self.old) stream taken → RepresentsStream (kept self.new) (stream ++ take result bytes.now) taken }
        ensures some { self.new.fault ≡ None → 0 < result }
        ensures within { result ≤ length bytes.now }
        ensures count { self.new.count ≡ self.old.count + result }
        ensures keeps { KeepsWaiting (kept self.old) (kept self.new) }
    {
        if self.waiting.try_reserve(1).is_err() {
            self.fault = Some(RecordFault::Memory);
            return 0;
        }
        if self.left == 0 {
            self.read_header(bytes[0]);
            return 1;
        }
        self.read_payload(bytes)
    }

    fn read_header(&mut self, byte: u8)
        requires state { (self.old.fault ≡ None) × (self.old.left ≡ 0) }
        requires within { self.old.count < 2 ^ 62 }
        requires room { deque_len self.old.waiting < deque_capacity self.old.waiting }
        ensures stands { (stream : List ℕ) (taken : ℕ) → RepresentsStream (kept self.old) stream taken → RepresentsStream (kept self.new) (stream ++ byte ∷ []) taken }
        ensures count { self.new.count ≡ self.old.count + 1 }
        ensures keeps { KeepsWaiting (kept self.old) (kept self.new) }
    {
        self.add_to_header(byte);
    }

    fn read_payload(&mut self, bytes: &[u8]) -> usize
        requires some { (0 < length bytes.now) × (0 < self.old.left) }
        requires fault { self.old.fault ≡ None }
        requires within { self.old.count + length bytes.now ≤ 2 ^ 62 }
        requires room { deque_len self.old.waiting < deque_capacity self.old.waiting }
        ensures stands { (stream : List ℕ) (taken : ℕ) → RepresentsStream (kept self.old) stream taken → RepresentsStream (kept self.new) (stream ++ take result bytes.now) taken }
        ensures some { self.new.fault ≡ None → 0 < result }
        ensures within { result ≤ length bytes.now }
        ensures count { self.new.count ≡ self.old.count + result }
        ensures keeps { KeepsWaiting (kept self.old) (kept self.new) }
    {
        self.add_to_payload(bytes)
    }

    #[tactic(auto, unfolding(crate::specs::private::Step::with_byte))]
    fn add_to_header(&mut self, byte: u8)
        requires within { self.old.count < 2 ^ 62 }
        requires room { deque_len self.old.waiting < deque_capacity self.old.waiting }
        ensures { kept self.new ≡ with_byte byte (kept self.old) }
    {
        self.count += 1;
        self.head.push(byte);
        if self.head.len() < HEADER_LEN {
            return;
        }
        let word = word_at(self.head.as_slice(), 0);
        self.head.clear();
        self.begin(word);
    }

    #[tactic(auto, unfolding(crate::specs::private::Step::with_header))]
    fn begin(&mut self, word: u32)
        requires count { 4 ≤ self.old.count }
        requires room { deque_len self.old.waiting < deque_capacity self.old.waiting }
        ensures { kept self.new ≡ with_header word (kept self.old) }
    {
        let len = word % BIT_LAST;
        if self.payload.len() + len as usize > RECORD_MAX {
            self.fault = Some(RecordFault::Bad {
                at: self.count - HEADER_LEN as u64,
                reason: REASON_RECORD,
            });
            return;
        }
        self.last = word >= BIT_LAST;
        self.left = len;
        make_room(&mut self.payload, len as usize);
        self.end();
    }

    // Answers how many bytes it read, none if memory ran out.
    #[tactic(auto, unfolding(crate::specs::private::Step::with_payload))]
    fn add_to_payload(&mut self, bytes: &[u8]) -> usize
        requires some { (0 < length bytes.now) × (0 < self.old.left) }
        requires within { self.old.count + length bytes.now ≤ 2 ^ 62 }
        requires room { deque_len self.old.waiting < deque_capacity self.old.waiting }
        ensures within { (result ≤ length bytes.now) × (result ≤ self.old.left) }
        ensures none { result ≡ 0 → kept self.new ≡ with_fault (kept self.old) }
        ensures some { 0 < result → kept self.new ≡ with_payload (take result bytes.now) (kept self.old) }
    {
        let len = bytes.len().min(self.left as usize);
        let (payload, _) = bytes.split_at(len);
        if self.payload.extend_from_slice(payload).is_err() {
            self.fault = Some(RecordFault::Memory);
            return 0;
        }
        self.count += len as u64;
        self.left -= len as u32;
        self.end();
        len
    }

    #[tactic(auto, unfolding(crate::specs::private::Step::ended))]
    fn end(&mut self)
        requires { deque_len self.old.waiting < deque_capacity self.old.waiting }
        ensures { kept self.new ≡ ended (kept self.old) }
    {
        if self.left != 0 || !self.last {
            return;
        }
        let bytes = mem::replace(&mut self.payload, Vec::new(self.alloc));
        let record = WaitingRecord {
            at: self.start,
            bytes: Octets::from_vec(bytes),
        };
        match self.waiting.push_back(record) {
            Ok(()) => self.start = self.count,
            Err(_) => unreachable!(),
        }
    }
}

// Takes room for a fragment of this length. If there is no memory for it now, it is asked for again as the payload comes.
fn make_room(payload: &mut Vec<u8>, len: usize)
    ensures { payload.new.items ≡ payload.old.items }
{
    let _ = payload.reserve(len.min(ROOM_MAX));
}
