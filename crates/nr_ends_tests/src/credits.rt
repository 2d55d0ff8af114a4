//! Credit words of a server end (RFC 8166 section 3.3): credits that change, and at most `low` while more than half of its receives are in use.

use crate::script::run;

/// A server end with credits, and the most that it grants while more than half of its receives are in use; NULL calls that are pending; the
/// credits that it is told to grant, if any; then the answer to the first call, or the error that answers a message of another version (RFC 8166
/// section 4.5.1), which comes in one Send or in a Send of two segments, of which the first was received before.
static WORDS: &str = "\
open-low 4 4\n\
feed-up : hello 10000\n\
feed-up : 564143 0 0 1 0 1 1 10 0*4 1 0 2 186a3 3 0*6\n\
server-writes : hello-back 10000\n\
answer : 1 1 0*4 = (40, Inline)\n\
server-writes : 464143 0 0 1 0 1 1 4 0*4 1 1 0*5\n\
open-low 4 4\n\
feed-up : hello 10000\n\
feed-up : 564143 0 0 1 0 1 1 10 0*4 1 0 2 186a3 3 0*6\n\
feed-up : 564143 0 0 2 0 2 1 10 0*4 2 0 2 186a3 3 0*6\n\
feed-up : 564143 0 0 3 0 3 1 10 0*4 3 0 2 186a3 3 0*6\n\
feed-up : 564143 0 0 4 0 4 1 10 0*4 4 0 2 186a3 3 0*6\n\
server-writes : hello-back 10000\n\
answer : 1 1 0*4 = (40, Inline)\n\
server-writes : 464143 0 0 1 0 1 1 4 0*4 1 1 0*5\n\
open-low 4 4\n\
feed-up : hello 10000\n\
feed-up : 564143 0 0 1 0 1 1 10 0*4 1 0 2 186a3 3 0*6\n\
server-writes : hello-back 10000\n\
set-credits 1\n\
answer : 1 1 0*4 = (40, Inline)\n\
server-writes : 464143 0 0 1 0 1*3 0*4 1 1 0*5\n\
open-low 4 4\n\
feed-up : hello 10000\n\
feed-up : 564143 0 0 1 0 1 1 10 0*4 1 0 2 186a3 3 0*6\n\
feed-up : 564143 0 0 2 0 2 1 10 0*4 2 0 2 186a3 3 0*6\n\
feed-up : 564143 0 0 3 0 3 1 10 0*4 3 0 2 186a3 3 0*6\n\
server-writes : hello-back 10000\n\
set-credits 1\n\
feed-up : 564143 0 0 4 0 4 2 10 0*4 4 0 2 186a3 3 0*6\n\
server-writes : 2e4143 0 0 1 0 4 2 1 4 1*3 0\n\
# Exactly half of the receives are in use, and one more.\n\
open-low 4 1\n\
feed-up : hello 10000\n\
feed-up : 564143 0 0 1 0 1 1 10 0*4 1 0 2 186a3 3 0*6\n\
feed-up : 564143 0 0 2 0 2 1 10 0*4 2 0 2 186a3 3 0*6\n\
server-writes : hello-back 10000\n\
answer : 1 1 0*4 = (40, Inline)\n\
server-writes : 464143 0 0 1 0 1 1 4 0*4 1 1 0*5\n\
open-low 4 1\n\
feed-up : hello 10000\n\
feed-up : 564143 0 0 1 0 1 1 10 0*4 1 0 2 186a3 3 0*6\n\
feed-up : 564143 0 0 2 0 2 1 10 0*4 2 0 2 186a3 3 0*6\n\
feed-up : 564143 0 0 3 0 3 1 10 0*4 3 0 2 186a3 3 0*6\n\
server-writes : hello-back 10000\n\
answer : 1 1 0*4 = (40, Inline)\n\
server-writes : 464143 0 0 1 0 1*3 0*4 1 1 0*5\n\
open-low 5 2\n\
feed-up : hello 10000\n\
feed-up : 564143 0 0 1 0 1 1 10 0*4 1 0 2 186a3 3 0*6\n\
feed-up : 564143 0 0 2 0 2 1 10 0*4 2 0 2 186a3 3 0*6\n\
server-writes : hello-back 10000\n\
answer : 1 1 0*4 = (40, Inline)\n\
server-writes : 464143 0 0 1 0 1 1 5 0*4 1 1 0*5\n\
open-low 5 2\n\
feed-up : hello 10000\n\
feed-up : 564143 0 0 1 0 1 1 10 0*4 1 0 2 186a3 3 0*6\n\
feed-up : 564143 0 0 2 0 2 1 10 0*4 2 0 2 186a3 3 0*6\n\
feed-up : 564143 0 0 3 0 3 1 10 0*4 3 0 2 186a3 3 0*6\n\
server-writes : hello-back 10000\n\
answer : 1 1 0*4 = (40, Inline)\n\
server-writes : 464143 0 0 1 0 1 1 2 0*4 1 1 0*5\n\
# The Send that a frame completes counts only if it was begun before.\n\
open-low 4 1\n\
feed-up : hello 10000\n\
feed-up : 564143 0 0 1 0 1 1 10 0*4 1 0 2 186a3 3 0*6\n\
feed-up : 564143 0 0 2 0 2 1 10 0*4 2 0 2 186a3 3 0*6\n\
server-writes : hello-back 10000\n\
feed-up : 564143 0 0 3 0 3 2 10 0*4 3 0 2 186a3 3 0*6\n\
server-writes : 2e4143 0 0 1 0 3 2 4 4 1*3 0\n\
open-low 4 1\n\
feed-up : hello 10000\n\
feed-up : 564143 0 0 1 0 1 1 10 0*4 1 0 2 186a3 3 0*6\n\
feed-up : 564143 0 0 2 0 2 1 10 0*4 2 0 2 186a3 3 0*6\n\
feed-up : 564143 0 0 3 0 3 1 10 0*4 3 0 2 186a3 3 0*6\n\
server-writes : hello-back 10000\n\
feed-up : 564143 0 0 4 0 4 2 10 0*4 4 0 2 186a3 3 0*6\n\
server-writes : 2e4143 0 0 1 0 4 2 1 4 1*3 0\n\
open-low 4 1\n\
feed-up : hello 10000\n\
feed-up : 564143 0 0 1 0 1 1 10 0*4 1 0 2 186a3 3 0*6\n\
feed-up : 564143 0 0 2 0 2 1 10 0*4 2 0 2 186a3 3 0*6\n\
server-writes : hello-back 10000\n\
feed-up : 2e0143 0 0 3 0 3 2 10 0*5 3a4143 0 0 3 1c 3 0 2 186a3 3 0*6\n\
server-writes : 2e4143 0 0 1 0 3 2 1 4 1*3 0\n\
# Low credits with others than those of the opening.\n\
open-low 4 3\n\
feed-up : hello 10000\n\
feed-up : 564143 0 0 1 0 1 1 10 0*4 1 0 2 186a3 3 0*6\n\
feed-up : 564143 0 0 2 0 2 1 10 0*4 2 0 2 186a3 3 0*6\n\
feed-up : 564143 0 0 3 0 3 1 10 0*4 3 0 2 186a3 3 0*6\n\
server-writes : hello-back 10000\n\
set-credits 2\n\
answer : 1 1 0*4 = (40, Inline)\n\
server-writes : 464143 0 0 1 0 1 1 2 0*4 1 1 0*5\n\
open-low 4 2\n\
feed-up : hello 10000\n\
feed-up : 564143 0 0 1 0 1 1 10 0*4 1 0 2 186a3 3 0*6\n\
feed-up : 564143 0 0 2 0 2 1 10 0*4 2 0 2 186a3 3 0*6\n\
feed-up : 564143 0 0 3 0 3 1 10 0*4 3 0 2 186a3 3 0*6\n\
server-writes : hello-back 10000\n\
set-credits 3\n\
answer : 1 1 0*4 = (40, Inline)\n\
server-writes : 464143 0 0 1 0 1 1 2 0*4 1 1 0*5\n\
open-low 4 2\n\
feed-up : hello 10000\n\
feed-up : 564143 0 0 1 0 1 1 10 0*4 1 0 2 186a3 3 0*6\n\
feed-up : 564143 0 0 2 0 2 1 10 0*4 2 0 2 186a3 3 0*6\n\
server-writes : hello-back 10000\n\
set-credits 3\n\
answer : 1 1 0*4 = (40, Inline)\n\
server-writes : 464143 0 0 1 0 1 1 3 0*4 1 1 0*5\n\
";

/// One credit, and then all: the receives stay, so that four calls are taken, and a fifth finds no buffer.
static ONE_AND_BACK: &str = "\
open-low 4 4\n\
feed-up : hello 10000\n\
feed-up : 564143 0 0 1 0 1 1 10 0*4 1 0 2 186a3 3 0*6\n\
feed-up : 564143 0 0 2 0 2 1 10 0*4 2 0 2 186a3 3 0*6\n\
server-writes : hello-back 10000\n\
set-credits 1\n\
answer : 1 1 0*4 = (40, Inline)\n\
set-credits 4\n\
# A message that is queued keeps its credit word.\n\
server-writes : 464143 0 0 1 0 1*3 0*4 1 1 0*5\n\
answer : 2 1 0*4 = (40, Inline)\n\
server-writes : 464143 0 0 2 0 2 1 4 0*4 2 1 0*5\n\
set-credits 1\n\
feed-up : 564143 0 0 3 0 3 1 10 0*4 3 0 2 186a3 3 0*6\n\
feed-up : 564143 0 0 4 0 4 1 10 0*4 4 0 2 186a3 3 0*6\n\
feed-up : 564143 0 0 5 0 5 1 10 0*4 5 0 2 186a3 3 0*6\n\
feed-up : 564143 0 0 6 0 6 1 10 0*4 6 0 2 186a3 3 0*6\n\
feed-up : 564143 0 0 7 0 7 1 10 0*4 7 0 2 186a3 3 0*6 = NoBuffer { msn: 7 }\n\
";

#[test]
fn credit_words(rt: HostRuntime) {
    run(&rt, rt.alloc(), &[65536], WORDS);
    run(&rt, rt.alloc(), &[65536], ONE_AND_BACK);
}
