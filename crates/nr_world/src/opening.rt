//! A drill opens: its server, and each link in turn.

ghost use Rattle.std.specs.Prelude.{◌≡◌, ◌≤◌, [], replicate, IfOk, OnOk};
ghost use Rattle.nr_rpc.specs.declared.cred.Cred.TheVariants as credentials;
ghost use Rattle.nr_texts.specs.Limits.{capacity_max};
ghost use Rattle.nr_texts.specs.declared.opening.Opening.{Opening};
ghost use Rattle.nr_world.specs.private.Opened.{IsDrillServer, HasOpenLinks, IsStarted, OpensAll, OpensLink};

use crate::link::DrillLink;
use crate::server::DrillServer;
use crate::world::World;
use nr_marks::MarkLog;
use nr_nfs_base::Verifier;
use nr_plain::Server;
use nr_rpc::Cred;
use nr_texts::Opening;
use nr_tree::Tree;
use nr_xdr::{Memory, Octets};
use std::alloc::Global;

/// The write verifier of a drill.
const VERIFIER: u64 = 1;

/// The path that may be mounted.
const EXPORT: [u8; 1] = [b'/'];

fn drill_server(alloc: Global, opening: Opening) -> Result<Server, Memory>
    requires { opening.capacity ≤ capacity_max }
    ensures { IfOk result (IsDrillServer opening) }
{
    let export = Octets::from_slice(alloc, &EXPORT)?;
    let Ok(tree) = Tree::drill(alloc) else {
        drop(export);
        return Err(Memory);
    };
    tree.facts();
    let verifier = Verifier { number: VERIFIER };
    Ok(Server::open(tree, opening.capacity, verifier, export))
}

/// Each client calls without a credential.
fn push_creds(creds: &mut Vec<Cred>, clients: u32) -> Result<(), Memory>
    requires { creds.old.items ≡ [] }
    ensures { OnOk result (creds.new.items ≡ replicate clients credentials.None) }
{
    for _at in 0..clients {
        creds.push(Cred::None)?;
    }
    Ok(())
}

impl World {
    fn start(alloc: Global, opening: Opening) -> Result<World, Memory>
        requires { opening.capacity ≤ capacity_max }
        ensures { IfOk result (IsStarted opening) }
    {
        let mut creds = Vec::new(alloc);
        push_creds(&mut creds, opening.clients)?;
        match drill_server(alloc, opening) {
            Ok(server) => Ok(World {
                links: Vec::new(alloc),
                owners: Vec::new(alloc),
                marks: MarkLog::new(alloc),
                server: DrillServer::new(alloc, server),
                seconds: 0,
                creds,
                opening,
            }),
            Err(memory) => {
                drop(creds);
                Err(memory)
            }
        }
    }

    /// The first link of the next client opens.
    fn push_link(&mut self, alloc: Global, client: u32) -> Result<(), Memory>
        ensures { OnOk result (OpensLink client self.old self.new) }
    {
        self.owners.push(client)?;
        let link = DrillLink::open(alloc, &mut self.marks, client, self.opening)?;
        match self.links.push(link) {
            Ok(()) => Ok(()),
            Err(failed) => {
                drop(failed);
                Err(Memory)
            }
        }
    }

    fn openings(&mut self, alloc: Global, clients: u32) -> Result<(), Memory>
        ensures { OnOk result ((opening : Opening) → opening.clients ≡ clients → OpensAll opening self.old self.new) }
    {
        for at in 0..clients {
            self.push_link(alloc, at + 1)?;
        }
        Ok(())
    }

    /// The world of a drill whose links are open.
    pub(crate) fn open(alloc: Global, opening: Opening) -> Result<World, Memory>
        requires { opening.capacity ≤ capacity_max }
        ensures { IfOk result (HasOpenLinks opening) }
    {
        let mut world = World::start(alloc, opening)?;
        match world.openings(alloc, opening.clients) {
            Ok(()) => Ok(world),
            Err(memory) => {
                drop(world);
                Err(memory)
            }
        }
    }
}
