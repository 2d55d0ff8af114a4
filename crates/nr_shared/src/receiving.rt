//! The pass that feeds reads the source, and feeds what it gives.

ghost use Rattle.std.specs.Prelude.{◌≡◌, ◌≢◌, ◌+◌, ◌<◌, ◌≤◌, ◌++◌, length, None, Some, true, MatchBool, [], ◌∷◌};
ghost use Rattle.nr_links.specs.Limits.{read_max};
ghost use Rattle.nr_turnstile.specs.Passes.{Rests, home_of, id_of, seen_by, mine_of};
ghost use Rattle.nr_turnstile.specs.Rule.{Lies};
ghost use Rattle.nr_shared.specs.declared.entry.Entry.TheVariants as entries;
ghost use Rattle.nr_shared.specs.declared.source_reader.InitialSource.{InitialSource};
ghost use Rattle.nr_shared.specs.Callers.{IsFeeding};
ghost use Rattle.nr_shared.specs.Draining.{fed_entry};
ghost use Rattle.nr_shared.specs.Feeding.{FeedsFor};
ghost use Rattle.nr_shared.specs.Histories.{bytes_fed, present, present_after, stop_of, tries_of};
ghost use Rattle.nr_shared.specs.private.Reading.{IsReadEnd, read_part};
ghost use Rattle.nr_shared.specs.Output.{IsCallOutstanding, MayFeed};

use crate::call_rule::CallRule;
use crate::entry::Stop;
use crate::redialing::input_or_link_under;
use crate::requester_with_sink::MainPass;
use crate::shared::SharedRequester;
use crate::source_reader::{SourceReader, read_piece};
use crate::turns::{drain_under, feed_under, stop_under};
use nr_links::{Dialer, LinkSink, LinkSource};
use nr_requester::Ticket;
use std::sync::Wait;

impl<
    I: LinkSource + Drop,
    O: LinkSink + Drop,
    C: CallRule,
    D: Dialer<Source = I, Sink = O>,
> SharedRequester<I, O, C, D> {
    // The source's turn: reads a piece and feeds it, or dials again if the link is lost, if the answer of the call isn't there, or no call may be
    // submitted.
    pub(crate) fn receive<R: Wait>(
        &self,
        rt: &R,
        source: &mut nr_turnstile::Pass<SourceReader<I, O, C, D>>,
        ticket: Option<&Ticket>,
    )
        requires rests { Rests self.now.source source.old }
        requires initial_source { (b : InitialSource I O C D) × ((seen_by source.old ≡ b ∷ []) × (home_of b.pass.value ≡ id_of self.now.main)) }
        ensures rests { Rests self.now.source source.new }
        ensures seen { seen_by source.new ≡ seen_by source.old }
    {
        let mut turn = self.source.take_turn(rt, source);
        let reader = turn.value();
        self.receive_piece(rt, reader, ticket);
        turn.put_back();
    }

    // No turn is held during the read but the source's.
    fn receive_piece<R: Wait>(
        &self,
        rt: &R,
        reader: &mut SourceReader<I, O, C, D>,
        ticket: Option<&Ticket>,
    )
        requires { (b : InitialSource I O C D) × (FeedsFor I.link I.left I.given I.faults D.asked D.ended D.faults b reader.old × (home_of b.pass.value ≡ id_of self.now.main)) }
        ensures { (b : InitialSource I O C D) → FeedsFor I.link I.left I.given I.faults D.asked D.ended D.faults b reader.old → home_of b.pass.value ≡ id_of self.now.main → FeedsFor I.link I.left I.given I.faults D.asked D.ended D.faults b reader.new }
    {
        if !self.needs_input(rt, reader, ticket) {
            return;
        }
        let SourceReader {
            source,
            pass,
            read,
            buf,
            ..
        } = reader;
        let Some(source) = source else {
            unreachable!();
        };
        match read_piece(source, buf.as_mut_slice(), read) {
            Ok(n) => {
                let (piece, _) = buf.split_at(n);
                self.feed(rt, pass, piece);
            }
            Err(cause) => self.stop(rt, pass, cause),
        }
    }

    // Writes the output that is due. Whether more of the stream is needed, by the pass that feeds: then a call is outstanding. If the next link is
    // needed, dials it under the same turn.
    fn needs_input<R: Wait>(
        &self,
        rt: &R,
        reader: &mut SourceReader<I, O, C, D>,
        ticket: Option<&Ticket>,
    ) -> bool
        requires { (b : InitialSource I O C D) × (FeedsFor I.link I.left I.given I.faults D.asked D.ended D.faults b reader.old × (home_of b.pass.value ≡ id_of self.now.main)) }
        ensures reads { (b : InitialSource I O C D) → FeedsFor I.link I.left I.given I.faults D.asked D.ended D.faults b reader.old → home_of b.pass.value ≡ id_of self.now.main → FeedsFor I.link I.left I.given I.faults D.asked D.ended D.faults b reader.new }
        ensures needs_input { result ≡ true → MayFeed (seen_by reader.new.pass) }
    {
        let SourceReader {
            source,
            dialer,
            addr,
            pass,
            ..
        } = reader;
        let mut turn = self.main.take_turn(rt, pass);
        drain_under(&mut turn);
        let needs_input = input_or_link_under(&mut turn, ticket, source, dialer, addr.as_str());
        turn.put_back();
        needs_input
    }

    // A piece is fed by the pass that feeds. Output that is due is written before it and after it. Answers whether memory ran out for a frame of it.
    fn feed<R: Wait>(&self, rt: &R, feeding: &mut MainPass<O, C>, piece: &[u8]) -> bool
        requires rests { Rests self.now.main feeding.old }
        requires feeding { IsFeeding feeding.old }
        requires lies { Lies (seen_by feeding.old) (mine_of feeding.old) }
        requires goes { stop_of (seen_by feeding.old) ≡ None }
        requires outstanding { IsCallOutstanding (seen_by feeding.old) }
        requires some { 0 < length piece.now }
        requires room { length (bytes_fed (seen_by feeding.old)) + length piece.now ≤ read_max }
        ensures rests { Rests self.now.main feeding.new }
        ensures feeding { IsFeeding feeding.new }
        ensures lies { Lies (seen_by feeding.new) (mine_of feeding.new) }
        ensures fed { bytes_fed (seen_by feeding.new) ≡ bytes_fed (seen_by feeding.old) ++ piece.now }
        ensures present { read_part (present (seen_by feeding.new)) ≡ present_after (read_part (present (seen_by feeding.old))) (fed_entry result piece.now 0) }
        ensures tries { tries_of (seen_by feeding.new) ≡ tries_of (seen_by feeding.old) }
    {
        let mut turn = self.main.take_turn(rt, feeding);
        drain_under(&mut turn);
        let out_of_memory = feed_under(&mut turn, piece);
        drain_under(&mut turn);
        turn.put_back();
        out_of_memory
    }

    // No more is fed: the pass that feeds appends that.
    fn stop<R: Wait>(&self, rt: &R, feeding: &mut MainPass<O, C>, cause: Stop)
        requires rests { Rests self.now.main feeding.old }
        requires feeding { IsFeeding feeding.old }
        requires lies { Lies (seen_by feeding.old) (mine_of feeding.old) }
        requires goes { stop_of (seen_by feeding.old) ≡ None }
        requires outstanding { IsCallOutstanding (seen_by feeding.old) }
        requires cause { IsReadEnd cause }
        ensures rests { Rests self.now.main feeding.new }
        ensures feeding { IsFeeding feeding.new }
        ensures lies { Lies (seen_by feeding.new) (mine_of feeding.new) }
        ensures fed { bytes_fed (seen_by feeding.new) ≡ bytes_fed (seen_by feeding.old) }
        ensures present { read_part (present (seen_by feeding.new)) ≡ present_after (read_part (present (seen_by feeding.old))) (entries.Stopped cause 0) }
        ensures tries { tries_of (seen_by feeding.new) ≡ tries_of (seen_by feeding.old) }
    {
        let mut turn = self.main.take_turn(rt, feeding);
        stop_under(&mut turn, cause);
        turn.put_back();
    }
}
