//! Messages of several segments, receives, staging, and what ends a side beyond its frames.

use crate::script::both;

static MESSAGES: &str = "\
# Two segments of 512 bytes, and a last one. A Send of 1025 bytes ends the side at its last segment, after 20 and twice 536 bytes.\n\
open 1 0 0\n\
feed : peer-key 10000\n\
writes : own-key 10000\n\
segments 2\n\
rests :\n\
feed : 134143 0 0 1 400 7000000 0 = Bad { at: 1092, reason: 22 }\n\
rests : 164147 0 2 1 0 16 0 = Bad { at: 1092, reason: 22 }\n\
# One of 1024 bytes is a message.\n\
open 1 0 0\n\
feed : peer-key 10000\n\
writes : own-key 10000\n\
segments 2\n\
feed : 124143 0 0 1 400 0\n\
message : .7*1024 = (1024, 1024)\n\
rests :\n\
# Of two receives, each takes a Send; once its buffer is back, it takes another.\n\
open 1 0 0\n\
feed : peer-key 10000\n\
writes : own-key 10000\n\
feed : 224143 0 0 1 0 1 1 10 0 0\n\
feed : 224143 0 0 2 0 2 1 10 0 0\n\
message : 1 1 10 0 = (1024, 16)\n\
feed : 224143 0 0 3 0 3 1 10 0 0\n\
feed : 224143 0 0 4 0 4 1 10 0 0 = NoBuffer { msn: 4 }\n\
# What came before the end is still delivered.\n\
message : 2 1 10 0 = (1024, 16)\n\
message : 3 1 10 0 = (1024, 16)\n\
event = None\n\
rests : 164147 0 2 1 0 68 0 = NoBuffer { msn: 4 }\n\
# A message that is begun and never ended. What is kept: the staging buffer of the longest FPDU, of 65544 bytes, and two receives of 1024.\n\
open 1 0 0\n\
feed : peer-key 10000\n\
writes : own-key 10000\n\
held = 67592\n\
segments 200\n\
held = 67592\n\
rests :\n\
# The layer above ends a side at its last complete frame: the second FPDU, which is at byte 112.\n\
open 1 0 0\n\
feed : peer-key 10000\n\
writes : own-key 10000\n\
feed : 564143 0 0 1 0 1 1 10 0 0 0 0 1 0 2 186a3 3 0*6\n\
feed : 224143 0 0 2 0 2 1 10 0 0\n\
feed : .0 .56 .41\n\
stop 17 = Bad { at: 112, reason: 17 }\n\
# A side that has ended queues nothing.\n\
send : .1*16\n\
write 1 0 : .1*16\n\
rests : 164147 0 2 1 0 11 0 = Bad { at: 112, reason: 17 }\n\
writes :\n\
";

static STAGING: &str = "\
# 91 bytes of an FPDU of 92 after the hello, then its last byte and ten bytes of the next.\n\
open 1 0 0\n\
staged : = (20, false, 65544)\n\
feed : peer-key 10000 564143 0 0 1 0 1 1 10 0 0 0 0 1 0 2 186a3 3 0*5 .0*3\n\
staged : 564143 0 0 1 0 1 1 10 0 0 0 0 1 0 2 186a3 3 0*5 .0*3 = (1, true, 65544)\n\
feed : .0 564143 0 .0*2\n\
staged : 564143 0 .0*2 = (82, true, 65544)\n\
rests : own-key 10000\n\
# One frame at a time: the bytes taken of a piece with the hello, an FPDU, and one byte of the next.\n\
open 1 0 0\n\
one : peer-key 10000 564143 0 0 1 0 1 1 10 0 0 0 0 1 0 2 186a3 3 0*6 .0 = Ok(20)\n\
staged : = (2, false, 65544)\n\
one : 564143 0 0 1 0 1 1 10 0 0 0 0 1 0 2 186a3 3 0*6 .0 = Ok(92)\n\
staged : = (2, false, 65544)\n\
one : .0 = Ok(1)\n\
staged : .0 = (1, true, 65544)\n\
one : .56 .41 = Ok(2)\n\
staged : .0 .56 .41 = (89, true, 65544)\n\
";

#[test]
fn messages(rt: HostRuntime) {
    both(&rt, rt.alloc(), &[4096, 1], MESSAGES);
    both(&rt, rt.alloc(), &[4096, 1], STAGING);
}
