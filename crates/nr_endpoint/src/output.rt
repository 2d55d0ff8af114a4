//! FPDUs that wait to be written: pieces, which may be shared, and after them a run of bytes.

ghost use Rattle.std.specs.Prelude.{◌≡◌, ◌+◌, ◌^◌, ◌<◌, ◌≤◌, [], ◌++◌, length, take, drop, OnOk, OnErr, MatchResult};
ghost use Rattle.std.specs.List.{concat};
ghost use Rattle.std.specs.Io.KnownBytes.{Appends};
ghost use Rattle.nr_outside.specs.Faults.{Rises};

use bytes::{Bytes, BytesMut};
use nr_outside::{Failed, Sink};
use nr_xdr::Memory;
use std::alloc::Global;
use std::collections::VecDeque;
use std::marker::Model;

/// The most bytes that all pieces have in sum.
const PIECES_MAX: usize = 1 << 62;

/// Pieces of bytes, in order. Each has at least a byte, so they are at most as many as their bytes.
#[derive(Drop)]
struct Pieces {
    queue: VecDeque<Bytes>,
    len: usize,
}

impl Model for Pieces {
    ghost use Rattle.std.specs.Prelude.{ℕ, List};
    ghost use Rattle.std.specs.List.{concat};
    ghost use Rattle.nr_endpoint.specs.private.OutputPieces.{ArePieces};

    ghost Value = { List ℕ };

    ghost view = { λ p. concat p.queue.items };

    ghost invariant = { λ p. ArePieces p.queue.items p.len };
}

/// Writes a piece to a sink, and drops from its front what the sink took; answers how many bytes those were.
fn write_piece<K: Sink>(piece: &mut Bytes, sink: &mut K) -> (usize, Result<(), Failed>)
    ensures count { result.0 ≤ length piece.old }
    ensures left { piece.new ≡ drop result.0 piece.old }
    ensures took { Appends (K.taken sink.old) (K.taken sink.new) (take result.0 piece.old) }
    ensures all { OnOk result.1 (result.0 ≡ length piece.old) }
    ensures more { OnErr result.1 (result.0 < length piece.old) }
    ensures counted { MatchResult result.1
        (λ _. K.faults sink.new ≡ K.faults sink.old) (λ _. Rises (K.faults sink.old) (K.faults sink.new)) }
    ensures never_falls { K.faults sink.old ≤ K.faults sink.new }
{
    let len = piece.len();
    let mut count = 0;
    while count < len {
        match sink.write(piece.as_slice()) {
            Ok(n) => {
                piece.advance(n);
                count += n;
            }
            Err(failed) => return (count, Err(failed)),
        }
    }
    (count, Ok(()))
}

impl Pieces {
    fn new(alloc: Global) -> Pieces
        ensures { result ≡ [] }
    {
        Pieces {
            queue: VecDeque::new(alloc),
            len: 0,
        }
    }

    /// How many bytes they have.
    fn len(&self) -> usize
        ensures value { result ≡ length self.now }
        ensures bound { result ≤ 2 ^ 62 }
    {
        self.len
    }

    /// How many pieces they are.
    fn count(&self) -> usize
        ensures most { result ≤ length self.now }
        ensures some { 0 < length self.now → 0 < result }
        ensures bound { result ≤ 2 ^ 62 }
    {
        self.queue.len()
    }

    /// Puts a piece at the end, if it has a byte. An `Err` changes nothing.
    #[tactic(auto, using(crate::proofs::WrittenOut::concat_more))]
    fn push(&mut self, piece: Bytes) -> Result<(), Memory>
        ensures ok { OnOk result (self.new ≡ self.old ++ piece) }
        ensures err { OnErr result (self.new ≡ self.old) }
    {
        let len = piece.len();
        if len == 0 {
            return Ok(());
        }
        if len > PIECES_MAX - self.len {
            return Err(Memory);
        }
        self.queue.reserve(1)?;
        self.queue.push_back_reserved(piece);
        self.len += len;
        Ok(())
    }

    /// Takes the bytes of a run as a piece. An `Err` changes nothing.
    #[tactic(auto, using(crate::proofs::WrittenOut::concat_more))]
    fn take_run(&mut self, run: &mut BytesMut) -> Result<(), Memory>
        ensures ok { OnOk result (self.new ≡ self.old ++ run.old.items) }
        ensures empty { OnOk result (run.new.items ≡ []) }
        ensures spare { OnOk result (run.new.spare ≡ run.old.spare) }
        ensures err { OnErr result (self.new ≡ self.old) }
        ensures err_run { OnErr result (run.new ≡ run.old) }
    {
        let len = run.len();
        if len == 0 {
            return Ok(());
        }
        if len > PIECES_MAX - self.len {
            return Err(Memory);
        }
        self.queue.reserve(1)?;
        let piece = run.freeze_to(len)?;
        self.queue.push_back_reserved(piece);
        self.len += len;
        Ok(())
    }

    /// Takes other pieces to the end. An `Err` changes nothing.
    fn append(&mut self, more: &mut Pieces) -> Result<(), Memory>
        ensures ok { OnOk result (self.new ≡ self.old ++ more.old) }
        ensures err { OnErr result (self.new ≡ self.old) }
    {
        if more.len > PIECES_MAX - self.len {
            return Err(Memory);
        }
        self.queue.append(&mut more.queue)?;
        self.len += more.len;
        more.len = 0;
        Ok(())
    }

    /// Writes the first piece to a sink, as [`write_piece`] does; it goes once it is written.
    fn write_first<K: Sink>(&mut self, sink: &mut K) -> (usize, Result<(), Failed>)
        ensures count { result.0 ≤ length self.old }
        ensures left { self.new ≡ drop result.0 self.old }
        ensures took { Appends (K.taken sink.old) (K.taken sink.new) (take result.0 self.old) }
        ensures some { OnOk result.1 (0 < length self.old → 0 < result.0) }
        ensures counted { MatchResult result.1
            (λ _. K.faults sink.new ≡ K.faults sink.old) (λ _. Rises (K.faults sink.old) (K.faults sink.new)) }
        ensures never_falls { K.faults sink.old ≤ K.faults sink.new }
    {
        let Some(mut first) = self.queue.pop_front() else {
            return (0, Ok(()));
        };
        let (count, done) = write_piece(&mut first, sink);
        self.len -= count;
        if done.is_err() {
            self.queue.push_front_reserved(first);
            return (count, done);
        }
        (count, done)
    }

    /// Writes them to a sink, and drops from the front what it took; answers how many bytes those were.
    fn write_out<K: Sink>(&mut self, sink: &mut K) -> (usize, Result<(), Failed>)
        ensures count { result.0 ≤ length self.old }
        ensures bound { result.0 ≤ 2 ^ 62 }
        ensures left { self.new ≡ drop result.0 self.old }
        ensures took { Appends (K.taken sink.old) (K.taken sink.new) (take result.0 self.old) }
        ensures all { OnOk result.1 (result.0 ≡ length self.old) }
        ensures counted { MatchResult result.1
            (λ _. K.faults sink.new ≡ K.faults sink.old) (λ _. Rises (K.faults sink.old) (K.faults sink.new)) }
        ensures never_falls { K.faults sink.old ≤ K.faults sink.new }
    {
        let len = self.len();
        let mut total = 0;
        while total < len {
            let (count, done) = self.write_first(sink);
            total += count;
            if done.is_err() {
                return (total, done);
            }
        }
        (total, Ok(()))
    }
}

/// FPDUs that wait to be written: pieces, and after them a run of bytes. A clause sees the bytes, the room after them, and the room that is
/// kept for bytes that come later.
#[derive(Drop)]
pub struct Output {
    pieces: Pieces,
    run: BytesMut,
    kept: usize,
}

impl Model for Output {
    ghost use Rattle.std.specs.Prelude.{◌++◌, ◌-◌, ◌≤◌};
    ghost use Rattle.nr_endpoint.specs.private.Outputs.{OutputView, output_code};

    ghost Value = { OutputView };

    ghost coded = { output_code };

    ghost view = { λ o. record { items = o.pieces ++ o.run.items; spare = o.run.spare - o.kept; kept = o.kept } };

    ghost invariant = { λ o. o.kept ≤ o.run.spare };
}

/// Writes a run to a sink, and drops from the front what it took; answers how many bytes those were.
pub fn write_run<K: Sink>(run: &mut BytesMut, sink: &mut K) -> (usize, Result<(), Failed>)
    ensures count { result.0 ≤ length run.old.items }
    ensures bound { result.0 < 2 ^ 63 }
    ensures left { run.new.items ≡ drop result.0 run.old.items }
    ensures spare { run.new.spare ≡ run.old.spare }
    ensures took { Appends (K.taken sink.old) (K.taken sink.new) (take result.0 run.old.items) }
    ensures all { OnOk result.1 (result.0 ≡ length run.old.items) }
    ensures counted { MatchResult result.1
        (λ _. K.faults sink.new ≡ K.faults sink.old) (λ _. Rises (K.faults sink.old) (K.faults sink.new)) }
    ensures never_falls { K.faults sink.old ≤ K.faults sink.new }
{
    let len = run.len();
    let mut count = 0;
    while count < len {
        match sink.write(run.as_slice()) {
            Ok(n) => {
                run.advance(n);
                count += n;
            }
            Err(failed) => return (count, Err(failed)),
        }
    }
    (count, Ok(()))
}

impl Output {
    /// No bytes. Takes no memory.
    pub fn new(alloc: Global) -> Output
        ensures items { result.items ≡ [] }
        ensures kept { result.kept ≡ 0 }
    {
        Output {
            pieces: Pieces::new(alloc),
            run: BytesMut::new(alloc),
            kept: 0,
        }
    }

    /// How many bytes wait.
    pub fn len(&self) -> usize
        ensures { result ≡ length self.now.items }
    {
        self.pieces.len() + self.run.len()
    }

    /// In how many pieces they are kept, the run of bytes among them.
    pub fn pieces(&self) -> usize
        ensures most { result ≤ length self.now.items }
        ensures some { 0 < length self.now.items → 0 < result }
        ensures bound { result ≤ 2 ^ 62 + 1 }
    {
        let count = self.pieces.count();
        if self.run.is_empty() {
            count
        } else {
            count + 1
        }
    }

    /// Makes room for some bytes, beside what is kept.
    pub fn reserve(&mut self, more: usize) -> Result<(), Memory>
        ensures items { self.new.items ≡ self.old.items }
        ensures ok { OnOk result (more ≤ self.new.spare) }
        ensures kept { self.new.kept ≡ self.old.kept }
    {
        if more > usize::MAX - self.kept {
            return Err(Memory);
        }
        self.run.reserve(more + self.kept)?;
        Ok(())
    }

    /// Keeps room for some bytes that come later. An `Err` changes nothing.
    pub fn keep(&mut self, more: usize) -> Result<(), Memory>
        ensures items { self.new.items ≡ self.old.items }
        ensures ok { OnOk result (self.new.kept ≡ self.old.kept + more) }
        ensures err { OnErr result (self.new.kept ≡ self.old.kept) }
    {
        if more > usize::MAX - self.kept {
            return Err(Memory);
        }
        self.run.reserve(more + self.kept)?;
        self.kept += more;
        Ok(())
    }

    /// Some of the room that was kept is free for bytes that come now.
    pub fn use_kept(&mut self, room: usize)
        requires { room ≤ self.old.kept }
        ensures items { self.new.items ≡ self.old.items }
        ensures kept { self.new.kept + room ≡ self.old.kept }
        ensures spare { self.new.spare ≡ self.old.spare + room }
    {
        self.kept -= room;
    }

    /// Puts some bytes at the end, for which there is room.
    pub fn append(&mut self, bytes: &[u8])
        requires { length bytes.now ≤ self.old.spare }
        ensures bytes { self.new.items ≡ self.old.items ++ bytes.now }
        ensures spare { self.new.spare + length bytes.now ≡ self.old.spare }
        ensures kept { self.new.kept ≡ self.old.kept }
    {
        self.run.extend_reserved(bytes);
    }

    /// Puts a piece at the end, without a copy. An `Err` changes no byte.
    pub fn push(&mut self, piece: Bytes) -> Result<(), Memory>
        ensures ok { OnOk result (self.new.items ≡ self.old.items ++ piece) }
        ensures spare { OnOk result (self.new.spare ≡ self.old.spare) }
        ensures err { OnErr result (self.new.items ≡ self.old.items) }
        ensures kept { self.new.kept ≡ self.old.kept }
    {
        self.pieces.take_run(&mut self.run)?;
        self.pieces.push(piece)
    }

    /// Takes other output to the end, without a copy. An `Err` changes no byte.
    pub fn absorb(&mut self, more: &mut Output) -> Result<(), Memory>
        ensures ok { OnOk result (self.new.items ≡ self.old.items ++ more.old.items) }
        ensures err { OnErr result (self.new.items ≡ self.old.items) }
        ensures kept { self.new.kept ≡ self.old.kept }
    {
        more.pieces.take_run(&mut more.run)?;
        self.pieces.take_run(&mut self.run)?;
        self.pieces.append(&mut more.pieces)
    }

    /// Writes the bytes to a sink, and drops from the front what it took; answers how many bytes those were.
    pub fn write_out<K: Sink>(&mut self, sink: &mut K) -> (usize, Result<(), Failed>)
        ensures count { result.0 ≤ length self.old.items }
        ensures left { self.new.items ≡ drop result.0 self.old.items }
        ensures kept { self.new.kept ≡ self.old.kept }
        ensures took { Appends (K.taken sink.old) (K.taken sink.new) (take result.0 self.old.items) }
        ensures all { OnOk result.1 (result.0 ≡ length self.old.items) }
        ensures counted { MatchResult result.1
            (λ _. K.faults sink.new ≡ K.faults sink.old) (λ _. Rises (K.faults sink.old) (K.faults sink.new)) }
        ensures never_falls { K.faults sink.old ≤ K.faults sink.new }
    {
        let (first, done) = self.pieces.write_out(sink);
        if done.is_err() {
            return (first, done);
        }
        let (rest, done) = write_run(&mut self.run, sink);
        (first + rest, done)
    }
}
