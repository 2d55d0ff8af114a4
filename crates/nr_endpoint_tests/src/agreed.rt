//! Hellos with terms: what a responder answers, what is agreed, and which Sends are then taken. What private data says is this
//! project's own (RFC 5044 section 7.1 leaves it to the sides).

use crate::script::{both, rows};
use nr_wire::Side;

/// What a responder of some units makes of a hello.
static ANSWERS: &str = "\
open $0$ 0 0\n\
agreed = (1024, 1024)\n\
feed : peer-key $1$\n\
agreed = $3$\n\
writes : own-key $2$\n\
";

/// The units of a responder; the hello that it is fed, from its length of private data on; its own; what is agreed, from the initiator and
/// from the responder. A byte of units is their number less one.
static ANSWERED: &str = "\
# No terms: nothing, seven bytes, another name, another version.\n\
2 | 10000 | 10000 | (1024, 1024)\n\
2 | 10007 'NR01 .1 .0 .3 | 10000 | (1024, 1024)\n\
2 | 10008 'NR02 1000303 | 10000 | (1024, 1024)\n\
2 | 10008 'NR01 2000303 | 10000 | (1024, 1024)\n\
2 | 10200 'RN01 1000303 .0*504 | 10000 | (1024, 1024)\n\
# Four units, and in each direction one. A byte of units is their number less one.\n\
2 | 10008 'NR01 1000303 | 10008 'NR01 1000101 | (2048, 2048)\n\
2 | 10008 'NR01 1000003 | 10008 'NR01 1000101 | (1024, 2048)\n\
2 | 10008 'NR01 1000300 | 10008 'NR01 1000101 | (2048, 1024)\n\
# Three units and five.\n\
16 | 10008 'NR01 1000204 | 10008 'NR01 1000f0f | (3072, 5120)\n\
# 15 and 16 units, and 17 and 256, which count as 16.\n\
16 | 10008 'NR01 1000e0f | 10008 'NR01 1000f0f | (15360, 16384)\n\
16 | 10008 'NR01 100100f | 10008 'NR01 1000f0f | (16384, 16384)\n\
16 | 10008 'NR01 100ff10 | 10008 'NR01 1000f0f | (16384, 16384)\n\
# A responder of one unit answers, too. One of 0 has one, and one of 17 has 16.\n\
1 | 10008 'NR01 1000303 | 10008 'NR01 1000000 | (1024, 1024)\n\
0 | 10008 'NR01 1000303 | 10008 'NR01 1000000 | (1024, 1024)\n\
17 | 10008 'NR01 1000f0f | 10008 'NR01 1000f0f | (16384, 16384)\n\
# Flags that nobody knows; a number of a client, and its flag without it; what follows.\n\
2 | 10008 'NR01 1fc0101 | 10008 'NR01 1000101 | (2048, 2048)\n\
2 | 10010 'NR01 1010101 0 5 | 10008 'NR01 1000101 | (2048, 2048)\n\
2 | 10008 'NR01 1010101 | 10008 'NR01 1000101 | (2048, 2048)\n\
2 | 10009 'NR01 1000101 .0 | 10008 'NR01 1000101 | (2048, 2048)\n\
2 | 10200 'NR01 1000101 .0*504 | 10008 'NR01 1000101 | (2048, 2048)\n\
";

/// What an initiator of four units makes of a hello.
static AGREES: &str = "\
open 4 0 0\n\
feed : peer-key $0$\n\
agreed = $1$\n\
";

/// The hello of the responder, from its length of private data on, and what is agreed.
static REPLIED: &str = "\
10000 | (1024, 1024)\n\
10008 'NR01 2000303 | (1024, 1024)\n\
10008 'NR01 1000001 | (2048, 1024)\n\
10008 'NR01 1000100 | (1024, 2048)\n\
10008 'NR01 1000f0f | (4096, 4096)\n\
";

#[test]
fn hellos_with_terms(rt: HostRuntime) {
    let alloc = rt.alloc();
    rows(&rt, alloc, Side::Responder, &[1000], ANSWERS, ANSWERED);
    rows(&rt, alloc, Side::Initiator, &[1000], AGREES, REPLIED);
}

static LONGER_THAN_AGREED: &str = "\
# A side of two units, whose receives have 2,048 bytes, is fed the hello of a peer of one unit: 1,024 bytes are agreed.\n\
open 2 0 0\n\
agreed = (1024, 1024)\n\
feed : peer-key 10008 'NR01 1000000\n\
agreed = (1024, 1024)\n\
feed : 4124143 0 0 1 0 7070707*256 0\n\
message : .7*1024 = (2048, 1024)\n\
open 2 0 0\n\
feed : peer-key 10008 'NR01 1000000\n\
feed : 4134143 0 0 1 0 7070707*256 7000000 0 = Bad { at: 28, reason: 22 }\n\
# Such Sends are written.\n\
open 1 0 0\n\
feed : peer-key 10000\n\
writes : own-key 10000\n\
send : .7*1024\n\
writes : 4124143 0 0 1 0 7070707*256 0\n\
open 1 0 0\n\
feed : peer-key 10000\n\
writes : own-key 10000\n\
send : .7*1025\n\
writes : 4134143 0 0 1 0 7070707*256 7000000 0\n\
";

#[test]
fn sends_longer_than_agreed(rt: HostRuntime) {
    both(&rt, rt.alloc(), &[65544, 1], LONGER_THAN_AGREED);
}

/// Of two sides of 16 units one writes a Send of this length in these frames (RFC 5041 section 5.2: each has 24 bytes beside its payload).
static WRITES: &str = "\
open 16 0 0\n\
feed : peer-key 10008 'NR01 1000f0f\n\
writes : own-key 10008 'NR01 1000f0f\n\
agreed = (16384, 16384)\n\
send : .7*$0$\n\
writes : $1$\n\
";

static WRITTEN: &str = "\
4096 | 10124143 0 0 1 0 7070707*1024 0\n\
4097 | 10120143 0 0 1 0 7070707*1024 0 134143 0 0 1 1000 7000000 0\n\
16384 | 10120143 0 0 1 0 7070707*1024 0 10120143 0 0 1 1000 7070707*1024 0 10120143 0 0 1 2000 7070707*1024 0 10124143 0 0 1 3000 7070707*1024 0\n\
16385 | 10120143 0 0 1 0 7070707*1024 0 10120143 0 0 1 1000 7070707*1024 0 10120143 0 0 1 2000 7070707*1024 0 10120143 0 0 1 3000 7070707*1024 0 134143 0 0 1 4000 7000000 0\n\
";

/// The other one is fed the frames.
static RECEIVES: &str = "\
open 16 0 0\n\
feed : peer-key 10008 'NR01 1000f0f\n\
writes : own-key 10008 'NR01 1000f0f\n\
agreed = (16384, 16384)\n\
feed : $1$\n\
message : .7*$0$ = (16384, $0$)\n\
";

static RECEIVED: &str = "\
4096 | 10124143 0 0 1 0 7070707*1024 0\n\
4097 | 10120143 0 0 1 0 7070707*1024 0 134143 0 0 1 1000 7000000 0\n\
16384 | 10120143 0 0 1 0 7070707*1024 0 10120143 0 0 1 1000 7070707*1024 0 10120143 0 0 1 2000 7070707*1024 0 10124143 0 0 1 3000 7070707*1024 0\n\
";

/// A Send of one byte more than agreed: the last frame begins after a hello of 28 bytes and four frames.
static TOO_LONG: &str = "\
open 16 0 0\n\
feed : peer-key 10008 'NR01 1000f0f\n\
writes : own-key 10008 'NR01 1000f0f\n\
agreed = (16384, 16384)\n\
feed : 10120143 0 0 1 0 7070707*1024 0 10120143 0 0 1 1000 7070707*1024 0 10120143 0 0 1 2000 7070707*1024 0 10120143 0 0 1 3000 7070707*1024 0 134143 0 0 1 4000 7000000 0 = Bad { at: 16508, reason: 22 }\n\
";

#[test]
fn sends_of_several_frames(rt: HostRuntime) {
    let alloc = rt.alloc();
    for side in [Side::Initiator, Side::Responder] {
        rows(&rt, alloc, side, &[65544], WRITES, WRITTEN);
        rows(&rt, alloc, side, &[65544, 1], RECEIVES, RECEIVED);
    }
    both(&rt, alloc, &[65544, 1], TOO_LONG);
}
