//! The replies of all clients.

ghost use Rattle.std.specs.Prelude.{◌≡◌, ◌≢◌, ◌≤◌, List, ℕ, [], ◌++◌, ◌∷◌, OnOk, OnErr};
ghost use Rattle.nr_cache.specs.Entries.{KeptEntry, found_for, window};
ghost use Rattle.nr_cache.specs.Entries.Finding.{NewCall};
ghost use Rattle.nr_cache.specs.Windows.{finding_of};
ghost use Rattle.nr_cache.specs.Caches.{RemembersAll, HasClient, found_by, kept_of};

use crate::window::{Found, Window};
use nr_xdr::{Memory, Octets};
use std::alloc::Global;
use std::collections::HashMap;
use std::marker::Model;

/// The replies that a server remembers of its numbered clients (own). It stands for the list of the entries that were given
/// to [`keep`](Cache::keep), and keeps at most 64 replies of each client.
///
/// A client's number is from 1 to 2^64 - 1. Before the call of a numbered client is executed, [`find`](Cache::find) says
/// whether it was executed before; if not, [`ready`](Cache::ready) makes the room for its reply, and after the execution
/// [`keep`](Cache::keep) can't fail.
#[derive(Drop)]
pub struct Cache {
    alloc: Global,
    clients: HashMap<u64, Window>,
}

impl Model for Cache {
    ghost use Rattle.nr_cache.specs.Caches.{Clients, clients_of, clients_code};

    ghost Value = { Clients };

    ghost coded = { clients_code };

    ghost view = { λ c. clients_of c.clients };
}

impl Cache {
    /// Nothing is remembered. Takes no memory.
    pub fn new(alloc: Global) -> Cache
        ensures { RemembersAll [] result }
    {
        Cache {
            alloc,
            clients: HashMap::new(alloc),
        }
    }

    /// What is known of a call by the number of its client and its xid (own): it is kept, or old, or new. Takes no memory.
    pub fn find(&self, client: u64, xid: u32) -> Found<'_>
        requires { client ≢ 0 }
        ensures by { finding_of result ≡ found_by self.now client xid }
        ensures exact { (E : List KeptEntry) → RemembersAll E self.now → finding_of result ≡ found_for E client xid }
        ensures bounded { kept_of self.now client ≤ window }
    {
        match self.clients.get(&client) {
            Some(found) => found.find(xid),
            None => Found::New,
        }
    }

    /// Makes the room for the replies of a client, unless there is room. What is remembered stays the same.
    ///
    /// # Errors
    ///
    /// [`Memory`] if memory ran out; nothing changes then.
    pub fn ready(&mut self, client: u64) -> Result<(), Memory>
        requires { client ≢ 0 }
        ensures room { OnOk result (HasClient self.new client) }
        ensures others { (other : ℕ) → HasClient self.old other → HasClient self.new other }
        ensures same { (E : List KeptEntry) → RemembersAll E self.old → RemembersAll E self.new }
        ensures err { OnErr result (self.new ≡ self.old) }
    {
        if self.clients.contains_key(&client) {
            return Ok(());
        }
        let window = Window::new(self.alloc)?;
        self.clients.insert(client, window)?;
        Ok(())
    }

    /// Keeps the reply of a new call: the number of its client, its xid, its place in the journal (the number of entries
    /// before that of the call), and its reply. Takes no memory, and clients keep their room.
    pub fn keep(&mut self, client: u64, xid: u32, place: u64, reply: Octets)
        requires number { client ≢ 0 }
        requires room { HasClient self.old client }
        requires new { found_by self.old client xid ≡ NewCall }
        ensures kept { (E : List KeptEntry) → RemembersAll E self.old →
            RemembersAll (E ++ record { client = client; xid = xid; place = place; reply = reply } ∷ []) self.new }
        ensures others { (other : ℕ) → HasClient self.old other → HasClient self.new other }
    {
        match self.clients.get_mut(&client) {
            Some(found) => found.keep(xid, place, reply),
            None => unreachable!(),
        }
    }
}
