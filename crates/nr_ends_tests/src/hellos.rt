//! Hellos fed to both ends: the reasons 1 to 4, and what each end writes (RFC 5044 section 7.1).

use crate::script::rows;

static TO_SERVER: &str = "\
feed-up : $0$ = $1$\n\
server-writes : $2$\n\
";

/// A hello, the end of the server end, and the hello that it writes.
static SERVERS: &str = "\
hello 10000 | | hello-back 10000\n\
# Markers, and a CRC that is wanted: the server rejects the connection.\n\
hello 80010000 | Bad { at: 0, reason: 2 } | hello-back 20010000\n\
hello 40010000 | Bad { at: 0, reason: 2 } | hello-back 20010000\n\
# Revision 2; private data of 513 bytes.\n\
hello 20000 | Bad { at: 0, reason: 3 } | \n\
hello 10201 | Bad { at: 0, reason: 4 } | \n\
# The key of the other side.\n\
hello-back 10000 | Bad { at: 0, reason: 1 } |\n\
";

/// The client end writes its own hello alone.
static TO_CLIENT: &str = "\
feed-down : $0$ = $1$\n\
client-writes : hello 10000\n\
";

/// A hello, and the end of the client end.
static CLIENTS: &str = "\
hello-back 10000 | \n\
# Markers, and a CRC that is wanted.\n\
hello-back 80010000 | Bad { at: 0, reason: 2 }\n\
hello-back 40010000 | Bad { at: 0, reason: 2 }\n\
# Revision 2; private data of 513 bytes.\n\
hello-back 20000 | Bad { at: 0, reason: 3 }\n\
hello-back 10201 | Bad { at: 0, reason: 4 }\n\
# The key of the other side, and a hello with R.\n\
hello 10000 | Bad { at: 0, reason: 1 }\n\
hello-back 20010000 | Bad { at: 0, reason: 2 }\n\
";

#[test]
fn hellos(rt: HostRuntime) {
    rows(&rt, rt.alloc(), &[1, 65536], TO_SERVER, SERVERS);
    rows(&rt, rt.alloc(), &[1, 65536], TO_CLIENT, CLIENTS);
}
