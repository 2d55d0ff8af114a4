//! The replies of one client.

ghost use Rattle.std.specs.Prelude.{◌≡◌, ℕ, ◌≤◌, [], List, ◌++◌, ◌∷◌, IfOk, max};
ghost use Rattle.nr_cache.specs.declared.window.KeptReply.{KeptReply};
ghost use Rattle.nr_cache.specs.Entries.{KeptEntry, window};
ghost use Rattle.nr_cache.specs.Entries.Finding.{NewCall};
ghost use Rattle.nr_cache.specs.Windows.{Replies, Remembers, found_at, kept_in, replies_kept, no_replies, finding_of};

use nr_xdr::{Memory, Octets};
use std::alloc::Global;
use std::marker::Model;

/// The number of slots: the xids up to the largest one that are remembered.
pub(crate) const WINDOW: u32 = 64;

/// The reply of a change: the xid of its call, and its place in the journal.
#[derive(Drop)]
pub(crate) struct KeptReply {
    pub(crate) xid: u32,
    pub(crate) place: u64,
    pub(crate) reply: Octets,
}

/// What is known of a call of a numbered client (own; RFC 1813 section 4.5 describes the duplicate request cache of a server).
#[derive(Clone, Copy)]
pub enum Found<'a> {
    /// It was executed, at this place of the journal, with this reply.
    Kept {
        /// The place in the journal: the number of entries before that of the call.
        place: u64,
        /// The reply.
        reply: &'a [u8],
    },
    /// Its xid is 64 or more below the largest xid of its client, so it is not known whether it was executed.
    Old {
        /// The largest xid of the client.
        top: u32,
    },
    /// Its xid is not that old, and no change was made under it.
    New,
}

/// The replies of a client: the reply of an xid is in the slot with the index xid modulo 64. Two xids of one slot are at least
/// 64 apart, so a reply is replaced only if it is old by then.
#[derive(Drop)]
pub(crate) struct Window {
    top: u32,
    slots: Vec<Option<KeptReply>>,
}

impl Model for Window {
    ghost use Rattle.nr_cache.specs.Windows.{Replies, IsWindow, replies_code};

    ghost Value = { Replies };

    ghost coded = { replies_code };

    ghost view = { λ w. record { top = w.top; slots = w.slots.items } };

    ghost invariant = { λ w. IsWindow (record { top = w.top; slots = w.slots.items }) };
}

/// 64 empty slots.
#[tactic(auto, using(crate::proofs::Windows::one_more))]
fn empty_slots(alloc: Global) -> Result<Vec<Option<KeptReply>>, Memory>
    ensures { IfOk result (λ slots. slots.items ≡ no_replies.slots) }
{
    let mut slots: Vec<Option<KeptReply>> = Vec::new(alloc);
    for at in 0..WINDOW {
        let _count = at;
        match slots.push(None) {
            Ok(()) => (),
            Err(failed) => {
                drop(failed);
                return Err(Memory);
            }
        }
    }
    Ok(slots)
}

impl Window {
    /// No replies.
    #[tactic(auto, using(crate::proofs::Windows::no_replies_window))]
    pub(crate) fn new(alloc: Global) -> Result<Window, Memory>
        ensures { IfOk result (λ w. w ≡ no_replies) }
    {
        Ok(Window {
            top: 0,
            slots: empty_slots(alloc)?,
        })
    }

    /// What is known of a call.
    #[tactic(auto, unfolding(crate::specs::Windows::found_at), using(crate::proofs::Windows::kept_within))]
    pub(crate) fn find(&self, xid: u32) -> Found<'_>
        ensures found { finding_of result ≡ found_at self.now xid }
        ensures bounded { replies_kept self.now ≤ window }
    {
        if u64::from(xid) + u64::from(WINDOW) <= u64::from(self.top) {
            return Found::Old { top: self.top };
        }
        let slot = (xid % WINDOW) as usize;
        match &self.slots[slot] {
            None => Found::New,
            Some(kept) => {
                if kept.xid != xid {
                    return Found::New;
                }
                Found::Kept {
                    place: kept.place,
                    reply: kept.reply.as_slice(),
                }
            }
        }
    }

    /// Keeps the reply of a new call. Takes no memory.
    #[tactic(auto, unfolding(crate::specs::Windows::kept_in), using(crate::proofs::Windows::stays_window, crate::proofs::Windows::keeps))]
    pub(crate) fn keep(&mut self, xid: u32, place: u64, reply: Octets)
        ensures kept { self.new ≡ kept_in self.old (record { xid = xid; place = place; reply = reply }) }
        ensures remembers { (E : List KeptEntry) (client : ℕ) → Remembers E self.old → found_at self.old xid ≡ NewCall →
            Remembers (E ++ record { client = client; xid = xid; place = place; reply = reply } ∷ []) self.new }
    {
        self.top = self.top.max(xid);
        let slot = (xid % WINDOW) as usize;
        self.slots[slot] = Some(KeptReply { xid, place, reply });
    }
}
