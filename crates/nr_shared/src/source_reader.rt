//! The source of a link, with the one pass that feeds what it gives.

ghost use Rattle.std.specs.Prelude.{◌≡◌, ◌≢◌, ◌+◌, ◌<◌, ◌≤◌, [], length, take, Some, IfOk, IfErr, OnErr, MatchResult};
ghost use Rattle.std.specs.Io.KnownBytes.{IsAtEnd};
ghost use Rattle.nr_outside.specs.Content.{HandsOut};
ghost use Rattle.nr_outside.specs.Faults.{Rises};
ghost use Rattle.nr_links.specs.Limits.{piece_max, read_max};
ghost use Rattle.nr_shared.specs.Feeding.{StopHolds};
ghost use Rattle.nr_shared.specs.private.Reading.{IsReadEnd};
ghost use Rattle.nr_shared.specs.declared.entry.Stop.TheVariants as causes;

use crate::call_rule::CallRule;
use crate::entry::Stop;
use crate::requester_with_sink::RequesterWithSink;
use nr_links::{Dialer, LinkSink, LinkSource, PIECE_MAX, READ_MAX};
use nr_outside::Failed;
use nr_turnstile::{Machine, Pass};
use std::snapshot::Snapshot;

/// The source of a link, with the one pass that feeds what it gives, and what dials the next link.
#[derive(Drop)]
pub struct SourceReader<I, O: LinkSink, C: CallRule, D> {
    // There is none once a dial failed.
    pub(crate) source: Option<I>,
    pub(crate) dialer: D,
    // The address that is dialled.
    pub(crate) addr: String,
    pub(crate) pass: Pass<RequesterWithSink<O, C>>,
    // How many bytes were read, with those before it was shared.
    pub(crate) read: u64,
    // What is read is put into it.
    pub(crate) buf: Vec<u8>,
}

/// The source and the dialer when they were shared, the address, and the first pass that fed. No value of it is made.
pub struct InitialSource<I, O: LinkSink, C: CallRule, D> {
    /// The source.
    pub source: Snapshot<I>,
    /// The dialer.
    pub dialer: Snapshot<D>,
    /// The address that is dialled.
    pub addr: Snapshot<String>,
    /// The pass.
    pub pass: Snapshot<Pass<RequesterWithSink<O, C>>>,
    /// How many bytes of it were read before.
    pub read: u64,
}

impl<I: LinkSource, O: LinkSink, C: CallRule, D: Dialer<Source = I, Sink = O>> Machine
    for SourceReader<I, O, C, D> {
    ghost use Rattle.nr_shared.specs.Feeding.{Feeds, closes_none};

    type Entry = InitialSource<I, O, C, D>;

    ghost stands = { Feeds I.link I.left I.given I.faults D.asked D.ended D.faults };

    ghost closes = { closes_none };

    fn entries(&self) -> u64 {
        1
    }
}

/// Reads the next piece into the front of the buffer, or says why no more is read. `read` is how many bytes were read.
pub(crate) fn read_piece<I: LinkSource>(
    source: &mut I,
    buf: &mut [u8],
    read: &mut u64,
) -> Result<usize, Stop>
    requires room { length buf.old ≡ piece_max }
    requires within { read.old ≤ read_max }
    ensures room { length buf.new ≡ piece_max }
    ensures link { I.link source.new ≡ I.link source.old }
    ensures never_falls { I.faults source.old ≤ I.faults source.new }
    ensures counted { MatchResult result (λ _. I.faults source.new ≡ I.faults source.old)
        (λ cause. cause ≢ causes.LinkRead → I.faults source.new ≡ I.faults source.old) }
    ensures piece { IfOk result (λ n. (0 < n) × ((n ≤ piece_max) × ((read.new ≡ read.old + n) × (read.new ≤ read_max)))) }
    ensures gave { IfOk result (λ n. HandsOut (I.left source.old) (I.given source.old) (I.left source.new) (I.given source.new) (take n buf.new)) }
    ensures none { IfErr result (λ cause. IsReadEnd cause × ((read.new ≡ read.old) × HandsOut (I.left source.old) (I.given source.old) (I.left source.new) (I.given source.new) [])) }
    ensures cause { IfErr result (λ cause. StopHolds (Some cause) (I.faults source.old) (I.faults source.new) (I.left source.new) read.new) }
{
    let room = (READ_MAX - *read).min(PIECE_MAX as u64) as usize;
    if room == 0 {
        return Err(Stop::Budget);
    }
    match read_part(source, buf, room) {
        Err(_) => Err(Stop::LinkRead),
        Ok(n) => {
            if n == 0 {
                return Err(Stop::Closed);
            }
            *read += n as u64;
            Ok(n)
        }
    }
}

/// One read, of at most `room` bytes, into the front of the buffer.
#[tactic(auto, using(std::proofs::lemmas::Grind::common_steps))]
fn read_part<I: LinkSource>(source: &mut I, buf: &mut [u8], room: usize) -> Result<usize, Failed>
    requires { room ≤ length buf.old }
    ensures len { length buf.new ≡ length buf.old }
    ensures link { I.link source.new ≡ I.link source.old }
    ensures bound { IfOk result (λ n. n ≤ room) }
    ensures bytes { IfOk result (λ n. HandsOut (I.left source.old) (I.given source.old) (I.left source.new) (I.given source.new) (take n buf.new)) }
    ensures end { IfOk result (λ n. n ≡ 0 → 0 < room → IsAtEnd (I.left source.new)) }
    ensures err { OnErr result (HandsOut (I.left source.old) (I.given source.old) (I.left source.new) (I.given source.new) []) }
    ensures counted { MatchResult result
        (λ _. I.faults source.new ≡ I.faults source.old) (λ _. Rises (I.faults source.old) (I.faults source.new)) }
    ensures never_falls { I.faults source.old ≤ I.faults source.new }
{
    let (front, _) = buf.split_at_mut(room);
    source.read_link(front)
}
