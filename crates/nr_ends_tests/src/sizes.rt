//! What each end says in its hello, and what it agrees on with its peer (RFC 5044 section 7.1; the private data is own).

use crate::script::rows;

/// Until the server's hello came one unit is agreed.
static TO_CLIENT: &str = "\
open-sized 16 $0$ 1\n\
client-agreed = (1024, 1024)\n\
client-writes : hello $1$\n\
feed-down : hello-back $2$\n\
client-agreed = $3$\n\
";

/// The units with which a client end is opened; its hello and the server's, from the length of the private data on; the maximum length of a Send
/// that is agreed, towards the server and from it.
static CLIENTS: &str = "\
# One unit is not said.\n\
1 | 10000 | 10008 4e523031 1000f0f | (1024, 1024)\n\
# The server's hello has no terms: no private data, or other data.\n\
16 | 10008 4e523031 1000f0f | 10000 | (1024, 1024)\n\
16 | 10008 4e523031 1000f0f | 10008 4e523032 1000f0f | (1024, 1024)\n\
# The server writes Sends of two units, and takes Sends of four.\n\
16 | 10008 4e523031 1000f0f | 10008 4e523031 1000103 | (4096, 2048)\n\
# The units of the client are fewer.\n\
3 | 10008 4e523031 1000202 | 10008 4e523031 1000f0f | (3072, 3072)\n\
# More than 16 units count as 16.\n\
255 | 10008 4e523031 1000f0f | 10008 4e523031 100ffff | (16384, 16384)\n\
";

/// Until the client's hello came one unit is agreed.
static TO_SERVER: &str = "\
open-sized 16 1 $0$\n\
server-agreed = (1024, 1024)\n\
feed-up : hello $1$\n\
server-agreed = $3$\n\
server-writes : hello-back $2$\n\
";

/// The same of a server end: its units; the client's hello and its own; what is agreed.
static SERVERS: &str = "\
# The client's hello has no terms.\n\
2 | 10000 | 10000 | (1024, 1024)\n\
2 | 10008 4e523031 1000303 | 10008 4e523031 1000101 | (2048, 2048)\n\
# One unit is said, too.\n\
1 | 10008 4e523031 1000f0f | 10008 4e523031 1000000 | (1024, 1024)\n\
# The client writes Sends of 15 units, and takes Sends of 16; of 3 and of 5.\n\
16 | 10008 4e523031 1000e0f | 10008 4e523031 1000f0f | (15360, 16384)\n\
16 | 10008 4e523031 1000204 | 10008 4e523031 1000f0f | (3072, 5120)\n\
# More than 16 units count as 16.\n\
17 | 10008 4e523031 100ffff | 10008 4e523031 1000f0f | (16384, 16384)\n\
";

#[test]
fn sizes_are_agreed(rt: HostRuntime) {
    rows(&rt, rt.alloc(), &[1, 65536], TO_CLIENT, CLIENTS);
    rows(&rt, rt.alloc(), &[1, 65536], TO_SERVER, SERVERS);
}
