//! Sends that a server end refuses by an error message: no call becomes ready, and the link stays (RFC 8166 section 4.5).

use crate::script::rows;

/// The receive of a Send is in use until the error message has left.
static REFUSED: &str = "\
feed-up : hello 10000 $0$\n\
counts = [0, 1, 0, 1, 0, 2]\n\
server-writes : hello-back 10000 $1$\n\
counts = [0, 1, 0, 0, 0, 2]\n\
";

/// The FPDU of a message, and that of the error: ERR_VERS with the version, or ERR_CHUNK. A message has its fixed words, the read list, the write
/// list, the reply chunk and the stream.
static MESSAGES: &str = "\
# Another version: ERR_VERS.\n\
2e4143 0 0 1 0 9 2 10 0*4 0 | 2e4143 0 0 1 0 9 2 10 4 1*3 0\n\
# RDMA_MSGP, and a kind that there is not.\n\
2e4143 0 0 1 0 1 1 10 2 0*3 0 | 264143 0 0 1 0 1 1 10 4 2 0\n\
2e4143 0 0 1 0 1 1 10 5 0*3 0 | 264143 0 0 1 0 1 1 10 4 2 0\n\
# Lists that end early, and a list word other than 0 and 1.\n\
264143 0 0 1 0 1 1 10 0 0 0 | 264143 0 0 1 0 1 1 10 4 2 0\n\
2e4143 0 0 1 0 1 1 10 0 2 0 0 0 | 264143 0 0 1 0 1 1 10 4 2 0\n\
# Five write chunks, and a chunk that says it has 17 segments.\n\
564143 0 0 1 0 1 1 10 0 0 1 0 1 0 1 0 1 0 1 0*3 0 | 264143 0 0 1 0 1 1 10 4 2 0\n\
3e4143 0 0 1 0 1 1 10 0 0 1 11 9 1 0 0 0 | 264143 0 0 1 0 1 1 10 4 2 0\n\
# A segment that ends after 2^64, in each list.\n\
464143 0 0 1 0 1 1 10 0 1 48 9 2 ffffffff ffffffff 0*3 0 | 264143 0 0 1 0 1 1 10 4 2 0\n\
464143 0 0 1 0 1 1 10 0 0 1 1 9 2 ffffffff ffffffff 0 0 0 | 264143 0 0 1 0 1 1 10 4 2 0\n\
424143 0 0 1 0 1 1 10 0*3 1 1 9 2 ffffffff ffffffff 0 | 264143 0 0 1 0 1 1 10 4 2 0\n\
# Two positions other than 0, and RDMA_MSG with an entry at position 0.\n\
5e4143 0 0 1 0 1 1 10 0 1 48 9 4 0 0 1 4c 9 4 0*5 0 | 264143 0 0 1 0 1 1 10 4 2 0\n\
464143 0 0 1 0 1 1 10 0 1 0 9 4 0*5 0 | 264143 0 0 1 0 1 1 10 4 2 0\n\
# RDMA_NOMSG without one, with a word after the lists, and with 1,056,769 bytes to read.\n\
2e4143 0 0 1 0 1 1 10 1 0*3 0 | 264143 0 0 1 0 1 1 10 4 2 0\n\
4a4143 0 0 1 0 1 1 10 1 1 0 9 28 0*5 7 0 | 264143 0 0 1 0 1 1 10 4 2 0\n\
464143 0 0 1 0 1 1 10 1 1 0 9 102001 0*5 0 | 264143 0 0 1 0 1 1 10 4 2 0\n\
# A read chunk of a call without an item, and one that is not at the item's position.\n\
6e4143 0 0 1 0 1 1 10 0 1 28 9 4 0*5 1 0 2 186a3 3 0*5 0 | 264143 0 0 1 0 1 1 10 4 2 0\n\
8e4143 0 0 1 0 1 1 10 0 1 44 9 4 0*5 1 0 2 186a3 3 7 0*4 8 0 2 0 0 4 2 4 0 | 264143 0 0 1 0 1 1 10 4 2 0\n\
";

#[test]
fn error_messages(rt: HostRuntime) {
    rows(&rt, rt.alloc(), &[1, 65536], REFUSED, MESSAGES);
}
