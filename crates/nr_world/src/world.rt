//! A drill that runs.

use crate::link::DrillLink;
use crate::server::DrillServer;
use nr_marks::MarkLog;
use nr_rpc::Cred;
use nr_texts::Opening;

/// A drill that runs. Credentials are in the order of the clients, and so are the links that they have now.
#[derive(Drop)]
pub(crate) struct World {
    pub(crate) links: Vec<DrillLink>,
    // The client of each link that was begun, in the order of the links.
    pub(crate) owners: Vec<u32>,
    // What happened so far.
    pub(crate) marks: MarkLog,
    pub(crate) server: DrillServer,
    // What the clock shows.
    pub(crate) seconds: u32,
    // With what each client calls.
    pub(crate) creds: Vec<Cred>,
    // The first line of the script.
    pub(crate) opening: Opening,
}
