//! Sends with Invalidate (RFC 5040 section 4.7): which side takes one, and which reason comes first; the STag that a message names; a region that
//! dies; and what is written. That hellos say so is this project's own.

use crate::script::{Setting, rows, run};
use nr_wire::Side;

/// Both sides have one unit, and say it with eight bytes of private data. A row has the frames that a side with four regions is fed after the
/// hello, its end, and what it writes. The first FPDU lies at byte 28.
static FED: &str = "\
open 1 0 1\n\
fetch : 'HELLOyou = 1\n\
fill : 0 0 = 2\n\
sink : 0 0 = 3\n\
briefly : 0 0\n\
feed : peer-key 10008 'NR01 1020000 $0$ = $1$\n\
rests : own-key 10008 'NR01 1020000 $2$ = $1$\n\
";

/// To an initiator.
static TAKEN: &str = "\
# Reasons below that of an opcode: the length of the ULPDU, the versions of DDP and of RDMAP.\n\
114144 0 0 1 0 0 | Bad { at: 28, reason: 5 } | 164147 0 2 1 0 5 0\n\
124044 0 0 1 0 0 | Bad { at: 28, reason: 6 } | 164147 0 2 1 0 6 0\n\
124104 0 0 1 0 0 | Bad { at: 28, reason: 7 } | 164147 0 2 1 0 7 0\n\
# Those above it: a tagged segment, another queue, number and offset, 15 bytes, no receive.\n\
ec144 2 0*3 | Bad { at: 28, reason: 9 } | 164147 0 2 1 0 9 0\n\
124144 0 1 1 0 0 | Bad { at: 28, reason: 10 } | 164147 0 2 1 0 a 0\n\
124144 0 0 2 0 0 | Bad { at: 28, reason: 11 } | 164147 0 2 1 0 b 0\n\
124144 0 0 1 8 0 | Bad { at: 28, reason: 12 } | 164147 0 2 1 0 c 0\n\
214144 5 0 1 0 1*4 0 | Bad { at: 28, reason: 16 } | 164147 0 2 1 0 10 0\n\
224144 5 0 1 0 1*4 0 224143 5 0 2 0 1*4 0 224144 5 0 3 0 1*4 0 | NoBuffer { msn: 3 } | 164147 0 2 1 0 68 0\n\
# 16 bytes, in one segment and in two; and of two segments of the other opcode the first, or the last.\n\
224144 5 0 1 0 1*4 0 | |\n\
1e0144 5 0 1 0 1*3 0 164144 7 0 1 c 1 0 | |\n\
1e0143 5 0 1 0 1*3 0 164144 7 0 1 c 1 0 | |\n\
1e0144 5 0 1 0 1*3 0 164143 7 0 1 c 1 0 | |\n\
";

/// To a responder.
static NOT_TAKEN: &str = "\
114144 0 0 1 0 0 | Bad { at: 28, reason: 5 } | 164147 0 2 1 0 5 0\n\
124044 0 0 1 0 0 | Bad { at: 28, reason: 6 } | 164147 0 2 1 0 6 0\n\
124104 0 0 1 0 0 | Bad { at: 28, reason: 7 } | 164147 0 2 1 0 7 0\n\
ec144 2 0*3 | Bad { at: 28, reason: 8 } | 164147 0 2 1 0 8 0\n\
124144 0 1 1 0 0 | Bad { at: 28, reason: 8 } | 164147 0 2 1 0 8 0\n\
124144 0 0 2 0 0 | Bad { at: 28, reason: 8 } | 164147 0 2 1 0 8 0\n\
124144 0 0 1 8 0 | Bad { at: 28, reason: 8 } | 164147 0 2 1 0 8 0\n\
224144 5 0 1 0 1*4 0 | Bad { at: 28, reason: 8 } | 164147 0 2 1 0 8 0\n\
1e0143 5 0 1 0 1*3 0 164144 7 0 1 c 1 0 | Bad { at: 64, reason: 8 } | 164147 0 2 1 0 8 0\n\
";

#[test]
fn agreed_frames(rt: HostRuntime) {
    rows(&rt, rt.alloc(), Side::Initiator, &[1000, 1], FED, TAKEN);
    rows(&rt, rt.alloc(), Side::Responder, &[1000, 1], FED, NOT_TAKEN);
}

/// Both sides have to say it.
static AGREES: &str = "\
open 1 0 $0$\n\
fetch : 'HELLOyou = 1\n\
fill : 0 0 = 2\n\
sink : 0 0 = 3\n\
briefly : 0 0\n\
invalidates = false\n\
feed : peer-key $1$\n\
invalidates = $2$\n\
feed : 224144 5 0 1 0 1*4 0 = $3$\n\
";

/// Whether an initiator says it, and the hello of its peer; whether it is agreed; and the end of the side for a Send with Invalidate.
static TO_INITIATOR: &str = "\
0 | 10000 | false | Bad { at: 20, reason: 8 }\n\
1 | 10000 | false | Bad { at: 20, reason: 8 }\n\
0 | 10008 'NR01 1020000 | false | Bad { at: 28, reason: 8 }\n\
1 | 10008 'NR01 1020000 | true |\n\
";

/// The same of a responder, which takes none.
static TO_RESPONDER: &str = "\
0 | 10000 | false | Bad { at: 20, reason: 8 }\n\
1 | 10000 | false | Bad { at: 20, reason: 8 }\n\
0 | 10008 'NR01 1020000 | false | Bad { at: 28, reason: 8 }\n\
1 | 10008 'NR01 1020000 | true | Bad { at: 28, reason: 8 }\n\
";

#[test]
fn both_have_to_say_it(rt: HostRuntime) {
    rows(
        &rt,
        rt.alloc(),
        Side::Initiator,
        &[1000],
        AGREES,
        TO_INITIATOR,
    );
    rows(
        &rt,
        rt.alloc(),
        Side::Responder,
        &[1000],
        AGREES,
        TO_RESPONDER,
    );
}

/// A message names what its last segment says.
static NAMES: &str = "\
open 1 0 1\n\
fetch : 'HELLOyou = 1\n\
fill : 0 0 = 2\n\
sink : 0 0 = 3\n\
briefly : 0 0\n\
feed : peer-key 10008 'NR01 1020000 $0$\n\
event = Some((1, $1$))\n\
";

static NAMED: &str = "\
224143 5 0 1 0 1*4 0 | None\n\
224144 5 0 1 0 1*4 0 | Some(5)\n\
224144 0 0 1 0 1*4 0 | Some(0)\n\
1e0144 5 0 1 0 1*3 0 164144 7 0 1 c 1 0 | Some(7)\n\
1e0143 5 0 1 0 1*3 0 164144 7 0 1 c 1 0 | Some(7)\n\
1e0144 5 0 1 0 1*3 0 164143 7 0 1 c 1 0 | None\n\
";

#[test]
fn messages_name_stags(rt: HostRuntime) {
    rows(&rt, rt.alloc(), Side::Initiator, &[1000], NAMES, NAMED);
}

/// A message that names an STag changes no region: its owner does, and then no peer reaches the region, which keeps its bytes.
static DIES: &str = "\
open 1 0 1\n\
fetch : 'HELLOyou = 1\n\
fill : 0 0 = 2\n\
sink : 0 0 = 3\n\
briefly : 0 0\n\
feed : peer-key 10008 'NR01 1020000 224144 1 0 1 0 1*4 0 1e0144 2 0 2 0 1*3 0\n\
event = Some((1, Some(1)))\n\
live = (true, true, true)\n\
invalidate 1\n\
live = (false, true, true)\n\
# No region has an STag any more that was released, was not given, is 0, or is dead: then nothing changes.\n\
invalidate 4 = NoStag\n\
invalidate 5 = NoStag\n\
invalidate 0 = NoStag\n\
invalidate 1 = NoStag\n\
live = (false, true, true)\n\
invalidate 3\n\
release : 0 0\n\
# A Read Request of the dead region ends the side, as it does without a region.\n\
feed : 2e4141 0 1 1 0 3 0 0 4 1 0*3 = Denied { stag: 1, offset: 0, why: NoStag }\n\
rests : own-key 10008 'NR01 1020000 164147 0 2 1 0 65 0 = Denied { stag: 1, offset: 0, why: NoStag }\n\
";

/// A Send with Invalidate of 16 bytes, and one in two segments, of which the last names the STag.
static WRITTEN: &str = "\
open 1 0 0\n\
feed : peer-key 10000\n\
writes : own-key 10000\n\
send-invalidate 9 : .1*16\n\
writes : 224144 9 0 1 0 1010101*4 0\n\
send-invalidate 9 : .1*4097\n\
rests : 10120144 0 0 2 0 1010101*1024 0 134144 9 0 2 1000 1000000 0\n\
";

#[test]
fn regions_die(rt: HostRuntime) {
    let piece = 1000;
    let side = Side::Initiator;
    run(&rt, rt.alloc(), Setting { side, piece }, DIES);
    let side = Side::Responder;
    run(&rt, rt.alloc(), Setting { side, piece }, WRITTEN);
}
