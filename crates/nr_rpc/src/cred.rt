//! Credentials.

ghost use Rattle.std.specs.Prelude.{◌≡◌, ◌+◌, ◌<◌, ◌≤◌, [], ◌∷◌, ◌++◌, length, IsTrue, ◌↔◌};
ghost use Rattle.nr_xdr.specs.Items.{AllFit};
ghost use Rattle.nr_rpc.specs.Constants.{MACHINE_MAX};
ghost use Rattle.nr_rpc.specs.Credential.{CanWriteCred, CredFits, sys_items};

use crate::constants::GIDS_MAX;
use arrayvec::ArrayVec;
use nr_xdr::Octets;
use std::marker::Model;

/// The further groups of an AUTH_SYS credential: at most [`GIDS_MAX`] numbers. Takes no memory. Contracts see the list.
#[derive(Debug, Drop)]
pub struct Gids {
    gids: ArrayVec<u32, GIDS_MAX>,
}

impl Model for Gids {
    ghost use Rattle.std.specs.Prelude.{List, ℕ};

    ghost Value = { List ℕ };

    ghost view = { λ g. g.gids.items };
}

impl Gids {
    /// No groups.
    pub fn new() -> Gids
        ensures { result ≡ [] }
    {
        Gids {
            gids: ArrayVec::new(),
        }
    }

    /// The group IDs in order.
    pub fn as_slice(&self) -> &[u32]
        ensures is { result.now ≡ self.now }
        ensures within { length self.now ≤ GIDS_MAX }
    {
        self.gids.as_slice()
    }

    /// The number of groups.
    pub fn len(&self) -> usize
        ensures is { result ≡ length self.now }
        ensures within { result ≤ GIDS_MAX }
    {
        self.gids.len()
    }

    /// Whether there are no group IDs.
    pub fn is_empty(&self) -> bool
        ensures { IsTrue result ↔ (self.now ≡ []) }
    {
        self.gids.as_slice().is_empty()
    }

    /// Adds a group at the end.
    pub fn push(&mut self, gid: u32)
        requires { length self.old < GIDS_MAX }
        ensures { self.new ≡ self.old ++ gid ∷ [] }
    {
        self.gids.push(gid);
    }
}

/// The credential of a call: who calls (RFC 5531 section 8.2).
#[derive(Debug, Drop)]
pub enum Cred {
    /// AUTH_NONE.
    None,
    /// AUTH_SYS (RFC 5531 appendix A): `machine` has at most 255 bytes.
    Sys {
        stamp: u32,
        machine: Octets,
        uid: u32,
        gid: u32,
        gids: Gids,
    },
    /// Another flavor, or AUTH_SYS with a body that is no encoding of AUTH_SYS (then `flavor` is 1).
    Other {
        flavor: u32,
    },
}

/// The numbers of the body of AUTH_SYS are words.
fn sys_fits(stamp: u32, machine: &[u8], uid: u32, gid: u32, gids: &[u32])
    requires machine { length machine.now ≤ MACHINE_MAX }
    requires gids { length gids.now ≤ GIDS_MAX }
    ensures { AllFit (sys_items stamp machine.now uid gid gids.now) }
{}

/// The numbers of a credential are words, as their types say: for a caller that has to show so of a call. It does nothing.
pub fn cred_fits(cred: &Cred)
    requires { CanWriteCred cred.now }
    ensures { CredFits cred.now }
{
    match cred {
        Cred::None => {}
        Cred::Sys {
            stamp,
            machine,
            uid,
            gid,
            gids,
        } => sys_fits(*stamp, machine.as_slice(), *uid, *gid, gids.as_slice()),
        Cred::Other { flavor } => {
            let _flavor = *flavor;
        }
    }
}
