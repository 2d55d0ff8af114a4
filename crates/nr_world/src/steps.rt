//! What a line does on one link, and a round of all links. Each function does what the function of the same name does to a drill
//! in the definitions of `nr_drill`.

ghost use Rattle.std.specs.Prelude.{◌≡◌, ◌-◌, OnOk, IfOk, length, slice_index_or};
ghost use Rattle.std.specs.List.{list_all};
ghost use Rattle.nr_rpc.specs.Credential.{CanWriteCred};
ghost use Rattle.nr_rpc.specs.declared.cred.Cred.TheVariants as creds;
ghost use Rattle.nr_tree.specs.Tree.{Tree};
ghost use Rattle.nr_texts.specs.declared.opening.Opening.{Opening};
ghost use Rattle.nr_reduce.specs.History.{is_dropped};
ghost use Rattle.nr_drill.specs.Drill.{Drill, last_link, setting_now, after_submit, after_up, after_down, after_work, after_forget, after_revoke, after_drop, after_grant, after_raw, after_moves, after_round};
ghost use Rattle.nr_drill.specs.Follows.{is_still as is_still_in};
ghost use Rattle.nr_script.specs.declared.script.Line.TheVariants as lines;
ghost use Rattle.nr_world.specs.private.Stands.{BeginsLink, MakesLine, Steps, WorldStands, call_of_client, drill_setting};
ghost use Rattle.nr_world.specs.private.Within.{IsClient, MayGrant};

use crate::copying::{copy_cred, copy_form};
use crate::world::World;
use nr_reduce::{Call, Form};
use nr_wire::Side;
use nr_xdr::{Memory, Octets};
use std::alloc::Global;

/// The numbers of a call: of its program, its version and its procedure.
#[derive(Clone, Copy)]
pub(crate) struct Procedure {
    pub(crate) prog: u32,
    pub(crate) vers: u32,
    pub(crate) proc: u32,
}

/// The maximum number of links that are begun.
const LINKS_MAX: usize = 0xffff_ffff;

impl World {
    /// A call of a client, with its credential.
    fn call(
        &self,
        alloc: Global,
        client: usize,
        procedure: Procedure,
        args: &[u8],
    ) -> Result<Call, Memory>
        requires { IsClient (length self.now.creds.items) client }
        ensures { IfOk result (λ call. call ≡ call_of_client self.now.creds.items client procedure args.now) }
    {
        let cred = copy_cred(alloc, &self.creds[client - 1])?;
        let Ok(args) = Octets::from_slice(alloc, args) else {
            drop(cred);
            return Err(Memory);
        };
        Ok(Call {
            prog: procedure.prog,
            vers: procedure.vers,
            proc: procedure.proc,
            cred,
            args,
        })
    }

    pub(crate) fn submit(
        &mut self,
        alloc: Global,
        client: usize,
        form: &Form,
        procedure: Procedure,
        args: &[u8],
    ) -> Result<(), Memory>
        requires client { IsClient (length self.old.links.items) client }
        requires creds { IsClient (length self.old.creds.items) client }
        requires cred { CanWriteCred (slice_index_or self.old.creds.items (client - 1) creds.None) }
        ensures { OnOk result (Steps (λ s d. after_submit (setting_now s d) (last_link client d) (call_of_client d.creds client procedure args.now) form.now d) self.old self.new) }
    {
        let form = copy_form(alloc, form)?;
        match self.call(alloc, client, procedure, args) {
            Ok(call) => self.links[client - 1].submit(&mut self.marks, call, form),
            Err(memory) => Err(memory),
        }
    }

    pub(crate) fn up(&mut self, client: usize, most: u32) -> Result<(), Memory>
        requires { IsClient (length self.old.links.items) client }
        ensures { OnOk result (Steps (λ s d. after_up (setting_now s d) (last_link client d) most d) self.old self.new) }
    {
        self.links[client - 1].up(&mut self.marks, most as usize)
    }

    pub(crate) fn down(&mut self, client: usize, most: u32) -> Result<(), Memory>
        requires { IsClient (length self.old.links.items) client }
        ensures { OnOk result (Steps (λ s d. after_down (setting_now s d) (last_link client d) most d) self.old self.new) }
    {
        self.links[client - 1].down(&mut self.marks, most as usize)
    }

    pub(crate) fn work(&mut self, client: usize) -> Result<(), Memory>
        requires { IsClient (length self.old.links.items) client }
        ensures { OnOk result (Steps (λ s d. after_work (setting_now s d) (last_link client d) d) self.old self.new) }
    {
        self.links[client - 1].work(&mut self.marks, &mut self.server, self.seconds)
    }

    pub(crate) fn forget(&mut self, client: usize, number: u32) -> Result<(), Memory>
        requires { IsClient (length self.old.links.items) client }
        ensures { OnOk result (Steps (λ s d. after_forget (setting_now s d) (last_link client d) number d) self.old self.new) }
    {
        self.links[client - 1].forget(&mut self.marks, number)
    }

    pub(crate) fn revoke(&mut self, client: usize, number: u32) -> Result<(), Memory>
        requires { IsClient (length self.old.links.items) client }
        ensures { OnOk result (Steps (λ s d. after_revoke (setting_now s d) (last_link client d) number d) self.old self.new) }
    {
        self.links[client - 1].revoke(&mut self.marks, number)
    }

    pub(crate) fn drop_link(&mut self, client: usize) -> Result<(), Memory>
        requires { IsClient (length self.old.links.items) client }
        ensures stands { OnOk result (Steps (λ s d. after_drop (last_link client d) d) self.old self.new) }
        ensures count { length self.new.links.items ≡ length self.old.links.items }
    {
        self.links[client - 1].drop_link(&mut self.marks)
    }

    /// The client drops its link, unless it was dropped, and begins the next one; nothing if it has ended.
    pub(crate) fn rejoin(&mut self, client: usize) -> Result<(), Memory>
        requires { IsClient (length self.old.links.items) client }
        ensures { OnOk result (MakesLine (lines.Rejoin client) self.old self.new) }
    {
        if self.links[client - 1].client_end().is_some() {
            return Ok(());
        }
        if self.links[client - 1].is_dropped() {
            return self.begin_link(client);
        }
        self.drop_link(client)?;
        self.begin_link(client)
    }

    /// The client begins its next link.
    fn begin_link(&mut self, client: usize) -> Result<(), Memory>
        requires { IsClient (length self.old.links.items) client }
        ensures { OnOk result (BeginsLink client self.old self.new) }
    {
        if client > LINKS_MAX || self.owners.len() >= LINKS_MAX {
            return Err(Memory);
        }
        self.owners.push(client as u32)?;
        let number = self.owners.len() as u32;
        self.links[client - 1].reopen(&mut self.marks, number, self.opening)
    }

    pub(crate) fn grant(&mut self, client: usize, credits: u32) -> Result<(), Memory>
        requires client { IsClient (length self.old.links.items) client }
        requires credits { MayGrant self.old client credits }
        ensures { OnOk result (Steps (λ s d. after_grant (last_link client d) credits d) self.old self.new) }
    {
        self.links[client - 1].grant(&mut self.marks, credits)
    }

    pub(crate) fn raw(&mut self, client: usize, side: Side, bytes: &[u8]) -> Result<(), Memory>
        requires { IsClient (length self.old.links.items) client }
        ensures { OnOk result (Steps (λ s d. after_raw (last_link client d) side bytes.now (is_dropped (last_link client d) d.marks) d) self.old self.new) }
    {
        self.links[client - 1].raw(side, bytes)
    }

    fn moves(&mut self, client: usize) -> Result<(), Memory>
        requires { IsClient (length self.old.links.items) client }
        ensures stands { OnOk result (Steps (λ s d. after_moves (setting_now s d) (last_link client d) d) self.old self.new) }
        ensures count { length self.new.links.items ≡ length self.old.links.items }
    {
        self.links[client - 1].moves(&mut self.marks, &mut self.server, self.seconds)
    }

    pub(crate) fn round(&mut self) -> Result<(), Memory>
        ensures { OnOk result ((tree : Tree) (opening : Opening) (d : Drill) → WorldStands tree opening d self.old → WorldStands tree opening (after_round (setting_now (drill_setting tree opening) d) d.last_links d) self.new) }
    {
        for at in 0..self.links.len() {
            self.moves(at + 1)?;
        }
        Ok(())
    }

    /// Whether nothing moves on any link.
    pub(crate) fn is_still(&self) -> bool
        ensures { (tree : Tree) (opening : Opening) (d : Drill) → WorldStands tree opening d self.now → result ≡ list_all (is_still_in (setting_now (drill_setting tree opening) d) d) d.last_links }
    {
        for at in 0..self.links.len() {
            if !self.links[at].is_still() {
                return false;
            }
        }
        true
    }
}
