//! Sends that are held back, and an initiator that is opened again after an earlier link.

use crate::compare::same;
use crate::script::{both, rows};
use nr_endpoint::Endpoint;
use nr_link::SideTerms;
use nr_wire::Side;

static HELD: &str = "\
# Sends that are held back have the numbers that are next when they are queued. Their messages are kept beside the staging buffer, of 65544\n\
# bytes, and two receives of 1024.\n\
open 1 0 0\n\
feed : peer-key 10000\n\
writes : own-key 10000\n\
hold : 5 1 10 0\n\
hold : 6 1 10 0\n\
held = 67624\n\
sends-held = 2\n\
writes :\n\
send : 7 1 10 0\n\
writes : 224143 0 0 1 0 7 1 10 0 0\n\
send-held\n\
sends-held = 1\n\
held = 67648\n\
writes : 224143 0 0 2 0 5 1 10 0 0\n\
send-held\n\
writes : 224143 0 0 3 0 6 1 10 0 0\n\
# None is held back any more.\n\
send-held\n\
sends-held = 0\n\
held = 67592\n\
writes :\n\
# A side that has ended holds no more of them, and queues none.\n\
hold : 5 1 10 0\n\
stop 17 = Bad { at: 0, reason: 17 }\n\
hold : 6 1 10 0\n\
send-held\n\
sends-held = 1\n\
rests : 164147 0 2 1 0 11 0 = Bad { at: 0, reason: 17 }\n\
";

/// An initiator of four units, after a link on which 2,048 bytes were agreed in each direction. A Send is queued before the hello.
static AGAIN: &str = "\
open-again 4 0 0 2048 2048\n\
send : 7 1 10 0\n\
feed : peer-key $0$ = $1$\n\
agreed = $2$\n\
rests : own-key 10008 'NR01 1000303 $3$ = $1$\n\
";

/// The hello of the responder, from its length of private data on, its end, what is agreed, and what it writes after its own hello.
static GREETED: &str = "\
# The same lengths.\n\
10008 'NR01 1000101 | | (2048, 2048) | 224143 0 0 1 0 7 1 10 0 0\n\
# Another one in both directions, in one, and no terms.\n\
10008 'NR01 1000303 | Bad { at: 0, reason: 31 } | (1024, 1024) | 164147 0 2 1 0 1f 0\n\
10008 'NR01 1000001 | Bad { at: 0, reason: 31 } | (1024, 1024) | 164147 0 2 1 0 1f 0\n\
10008 'NR01 1000100 | Bad { at: 0, reason: 31 } | (1024, 1024) | 164147 0 2 1 0 1f 0\n\
10000 | Bad { at: 0, reason: 31 } | (1024, 1024) | 164147 0 2 1 0 1f 0\n\
# A hello that is refused for what it says itself is refused for that (RFC 5044 section 7.1): private data of 513 bytes.\n\
10201 | Bad { at: 0, reason: 4 } | (1024, 1024) |\n\
";

#[test]
fn sends_held_back(rt: HostRuntime) {
    both(&rt, rt.alloc(), &[4096, 1], HELD);
}

#[test]
fn opened_again(rt: HostRuntime) {
    let alloc = rt.alloc();
    rows(&rt, alloc, Side::Initiator, &[1000, 1], AGAIN, GREETED);
    // All STags were given on the earlier link.
    let terms = SideTerms::default_terms();
    let endpoint = Endpoint::open_again(alloc, 1, 1 << 32, terms, None).expect(&rt, "memory");
    same(&rt, 0, endpoint.regions().stags_left(), 0);
    drop(endpoint);
}
