//! A window over an input: the bytes that were read of it and are not written yet.

ghost use Rattle.std.specs.Prelude.{◌≡◌, ◌+◌, ◌<◌, ◌≤◌, ◌⊎◌, ◌&&◌, [], true, false, not, nat_lt, length, take, drop, IfOk, OnOk, IfErr, OnErr, MatchResult};
ghost use Rattle.std.specs.Io.KnownBytes.{IsAtEnd};
ghost use Rattle.nr_nfs_base.specs.Limits.{transfer_max};
ghost use Rattle.nr_outside.specs.Content.{HandsOut};
ghost use Rattle.nr_outside.specs.Faults.{Rises};
ghost use Rattle.nr_client.specs.Reading.{InputFaults};
ghost use Rattle.nr_client.specs.Writing.{IsStopped};
ghost use Rattle.nr_client.specs.private.InputWindows.{IsFull, IsOfInput, TakesMore};

use crate::client_end::ClientEnd;
use nr_outside::{Failed, Source};
use nr_xdr::Memory;
use std::alloc::Global;
use std::marker::Model;

/// The maximum length of one read of an input in bytes. The buffer of a window is never longer than what was read of its input and this.
const READ_MAX: usize = 65536;

/// Bytes of an input that were read and are not written yet, at most as many as one WRITE moves. They stand at the front of one buffer, which
/// becomes longer as they come.
#[derive(Drop)]
pub(crate) struct InputWindow {
    room: Vec<u8>,
    len: usize,
    ended: bool,
}

impl Model for InputWindow {
    ghost use Rattle.std.specs.Prelude.{◌≡◌, ◌≤◌, length, take};
    ghost use Rattle.nr_nfs_base.specs.Limits.{transfer_max};
    ghost use Rattle.nr_client.specs.private.InputWindows.{WindowState};

    ghost Value = { WindowState };

    ghost view = { λ w. record { kept = take w.len w.room.items; ended = w.ended } };

    ghost invariant = { λ w. (w.len ≤ length w.room.items) × (w.len ≤ transfer_max) };
}

/// One read, into a part of a buffer.
fn read_part<N: Source>(
    input: &mut N,
    room: &mut [u8],
    start: usize,
    end: usize,
) -> Result<usize, Failed>
    requires order { start ≤ end }
    requires within { end ≤ length room.old }
    ensures len { length room.new ≡ length room.old }
    ensures front { take start room.new ≡ take start room.old }
    ensures bound { IfOk result (λ n. start + n ≤ end) }
    ensures handed { IfOk result (λ n. HandsOut (N.left input.old) (N.given input.old) (N.left input.new) (N.given input.new) (take n (drop start room.new))) }
    ensures end { IfOk result (λ n. n ≡ 0 → start < end → IsAtEnd (N.left input.new)) }
    ensures err { OnErr result (HandsOut (N.left input.old) (N.given input.old) (N.left input.new) (N.given input.new) []) }
    ensures counted { MatchResult result
        (λ _. N.faults input.new ≡ N.faults input.old) (λ _. Rises (N.faults input.old) (N.faults input.new)) }
{
    input.read(&mut room[start..end])
}

/// A buffer has at least this length from now on. What it had stays at its front.
fn lengthen(room: &mut Vec<u8>, len: usize) -> Result<(), Memory>
    ensures long { OnOk result (len ≤ length room.new.items) }
    ensures front { take (length room.old.items) room.new.items ≡ room.old.items }
{
    if len <= room.len() {
        return Ok(());
    }
    room.resize(len, 0)?;
    Ok(())
}

/// One read, into a buffer after its first `start` bytes, of which `end` are wanted.
fn read_after<N: Source>(
    input: &mut N,
    room: &mut Vec<u8>,
    start: usize,
    end: usize,
) -> Result<usize, ClientEnd>
    requires order { start < end }
    requires within { start ≤ length room.old.items }
    ensures front { take start room.new.items ≡ take start room.old.items }
    ensures there { start ≤ length room.new.items }
    ensures bound { IfOk result (λ n. (start + n ≤ end) × (start + n ≤ length room.new.items)) }
    ensures handed { IfOk result (λ n. HandsOut (N.left input.old) (N.given input.old) (N.left input.new) (N.given input.new) (take n (drop start room.new.items))) }
    ensures ends { IfOk result (λ n. n ≡ 0 → IsAtEnd (N.left input.new)) }
    ensures nothing { OnErr result (HandsOut (N.left input.old) (N.given input.old) (N.left input.new) (N.given input.new) []) }
    ensures of_input { IfErr result IsOfInput }
    ensures counted { InputFaults result (N.faults input.old) (N.faults input.new) }
{
    let until = end.min(start.saturating_add(READ_MAX));
    match lengthen(room, until) {
        Ok(()) => {}
        Err(_) => return Err(ClientEnd::Memory),
    }
    match read_part(input, room.as_mut_slice(), start, until) {
        Ok(n) => Ok(n),
        Err(_) => Err(ClientEnd::InputFault),
    }
}

impl InputWindow {
    /// A window over an input of which nothing was read. Takes no memory.
    pub(crate) fn new(alloc: Global) -> InputWindow
        ensures { result ≡ record { kept = []; ended = false } }
    {
        InputWindow {
            room: Vec::new(alloc),
            len: 0,
            ended: false,
        }
    }

    /// The bytes.
    pub(crate) fn kept(&self) -> &[u8]
        ensures is { result.now ≡ self.now.kept }
        ensures within { length result.now ≤ transfer_max }
    {
        let (kept, _) = self.room.as_slice().split_at(self.len);
        kept
    }

    /// How many bytes there are.
    pub(crate) fn len(&self) -> usize
        ensures { result ≡ length self.now.kept }
    {
        self.len
    }

    /// The first bytes leave, and the others move to the front.
    pub(crate) fn discard(&mut self, count: usize)
        requires { count ≤ length self.old.kept }
        ensures { self.new ≡ record self.old { kept = drop count self.old.kept } }
    {
        let left = self.len - count;
        self.room.copy_within(count..count + left, 0);
        self.len = left;
    }

    /// Whether fewer bytes are there, of an input that has not ended.
    fn lacks(&self, wanted: usize) -> bool
        ensures { result ≡ (not self.now.ended && nat_lt (length self.now.kept) wanted) }
    {
        !self.ended && self.len < wanted
    }

    /// One read of the input.
    fn read_more<N: Source>(&mut self, input: &mut N, wanted: usize) -> Result<(), ClientEnd>
        requires going { self.old.ended ≡ false }
        requires below { length self.old.kept < wanted }
        requires within { wanted ≤ transfer_max }
        ensures takes { TakesMore wanted (N.left input.old) (N.given input.old) (N.left input.new) (N.given input.new) self.old self.new }
        ensures more { OnOk result ((self.new.ended ≡ true) ⊎ (length self.old.kept < length self.new.kept)) }
        ensures nothing { OnErr result (HandsOut (N.left input.old) (N.given input.old) (N.left input.new) (N.given input.new) []) }
        ensures of_input { IfErr result IsOfInput }
        ensures counted { InputFaults result (N.faults input.old) (N.faults input.new) }
    {
        let n = match read_after(input, &mut self.room, self.len, wanted) {
            Ok(n) => n,
            Err(end) => return Err(end),
        };
        self.len += n;
        self.ended = n == 0;
        Ok(())
    }

    /// Reads the input until this number of bytes is there, or all that it has. Once a read fails, or memory ran out, nothing more is read.
    pub(crate) fn fill<N: Source>(&mut self, input: &mut N, wanted: usize) -> Result<(), ClientEnd>
        requires below { length self.old.kept ≤ wanted }
        requires within { wanted ≤ transfer_max }
        ensures takes { TakesMore wanted (N.left input.old) (N.given input.old) (N.left input.new) (N.given input.new) self.old self.new }
        ensures full { OnOk result (IsFull wanted self.new) }
        ensures stops { OnErr result (IsStopped N.faults N.left N.given input.old input.new) }
        ensures of_input { IfErr result IsOfInput }
        ensures counted { InputFaults result (N.faults input.old) (N.faults input.new) }
    {
        while self.lacks(wanted) {
            match self.read_more(input, wanted) {
                Ok(()) => {}
                Err(end) => return Err(end),
            }
        }
        Ok(())
    }
}
