//! Sends that are held back in the queue of a side.

ghost use Rattle.std.specs.Prelude.{◌≡◌, ℕ, List, [], ◌∷◌, ◌^◌, ◌<◌, length, OnOk, OnErr};
ghost use Rattle.nr_endpoint.specs.SendQueue.{held_len, with_held, with_held_sent};

use crate::framing::{Operation, append_segments, cut_room};
use crate::send_queue::{SendQueue, reserve_ends};
use nr_xdr::{Memory, Octets};

impl SendQueue {
    /// Holds a Send back: there will be room for it. An `Err` changes nothing.
    #[tactic(auto, using(crate::proofs::HeldSends::held_len_push, crate::proofs::HeldSends::held_room_push, crate::proofs::HeldSends::short_push))]
    pub fn hold(&mut self, message: Octets) -> Result<(), Memory>
        requires { length message < 2 ^ 32 }
        ensures ok { OnOk result (self.new ≡ with_held message self.old) }
        ensures err { OnErr result (self.new ≡ self.old) }
    {
        let Some(held_len) = self.held_len.checked_add(message.len()) else {
            return Err(Memory);
        };
        self.held.reserve(1)?;
        reserve_ends(&mut self.send_ends, self.held.len())?;
        self.fpdus.keep(cut_room(message.as_slice()))?;
        self.held.push_back_reserved(message);
        self.held_len = held_len;
        Ok(())
    }

    /// Queues the first Send that is held back; nothing if none is. Takes no memory.
    #[tactic(auto, using(crate::proofs::Cuts::carried_send))]
    pub fn send_held(&mut self)
        ensures first { (message : List ℕ) (others : List (List ℕ)) → self.old.held ≡ message ∷ others → self.new ≡ with_held_sent message self.old }
        ensures none { self.old.held ≡ [] → self.new ≡ self.old }
    {
        let Some(message) = self.held.pop_front() else {
            return;
        };
        let msn = self.last_send.wrapping_add(1);
        self.held_len -= message.len();
        self.fpdus.use_kept(cut_room(message.as_slice()));
        append_segments(&mut self.fpdus, Operation::Send { msn }, message.as_slice());
        self.send_ends.push_back_reserved(self.fpdus.len());
        self.last_send = msn;
    }

    /// How many Sends are held back.
    pub fn sends_held(&self) -> usize
        ensures { result ≡ length self.now.held }
    {
        self.held.len()
    }

    /// How many bytes the messages have that are held back.
    pub fn held_len(&self) -> usize
        ensures { result ≡ held_len self.now.held }
    {
        self.held_len
    }
}
