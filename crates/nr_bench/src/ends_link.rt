//! Both ends of a link. What one end writes is fed to the other as it is drained, without a copy in between.

ghost use Rattle.std.specs.Prelude.{◌≡◌, ◌-◌, ◌^◌, ◌≤◌, Some, IfSome};
ghost use Rattle.nr_rpc.specs.Credential.{CanWriteCred};

use crate::ends_client::Client;
use crate::ends_server::Server;
use nr_reduce::{Call, Outcome};
use std::alloc::Global;

/// The most bytes that an end is fed.
const FED_MAX: u64 = 1 << 62;

/// How often a server fetches segments of a read chunk at most: it asks for 8 at a time, and a chunk of 1 MiB has 16.
const FETCHES_MAX: u32 = 2;

/// How many bytes an end was fed after a piece of this length, if it may be.
pub fn fed_after(fed: Option<u64>, len: u64) -> Option<u64>
    ensures { IfSome result (λ n. (fed ≡ Some (n - len)) × ((len ≤ n) × (n ≤ 2 ^ 62))) }
{
    let fed = fed?;
    if fed > FED_MAX || len > FED_MAX - fed {
        return None;
    }
    Some(fed + len)
}

/// The client's end and the server's.
#[derive(Drop)]
pub struct Link {
    client: Client,
    server: Server,
}

impl Link {
    /// A link whose ends have exchanged their hellos.
    pub fn open(alloc: Global, credits: u32) -> Option<Link> {
        let client = Client::open(alloc, credits)?;
        let Some(server) = Server::open(alloc, credits) else {
            drop(client);
            return None;
        };
        let mut link = Link { client, server };
        link.up();
        link.down();
        Some(link)
    }

    /// What the client's end has to write reaches the server's.
    fn up(&mut self) {
        self.client.drain(&mut self.server);
    }

    /// What the server's end may write reaches the client's.
    fn down(&mut self) {
        self.server.drain(&mut self.client);
    }

    /// Lets the server fetch the read chunk of a call, if it has one.
    fn fetch(&mut self) {
        for _ in 0..FETCHES_MAX {
            if self.server.is_ready() {
                return;
            }
            self.down();
            self.up();
        }
    }

    /// Submits a call, lets the server fetch its read chunk if it has one, and execute and answer it, and takes the answer: the call comes
    /// back with its outcome.
    pub fn call(
        &mut self,
        alloc: Global,
        plain: &mut nr_plain::Server,
        call: Call,
    ) -> Option<(Call, Outcome)>
        requires { CanWriteCred call.cred }
    {
        self.client.submit(call)?;
        self.up();
        self.fetch();
        self.server.work(alloc, plain)?;
        self.down();
        self.client.take()
    }
}
