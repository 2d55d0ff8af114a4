//! Entries are appended to the history, for the proof.

ghost use Rattle.std.specs.Prelude.{◌≡◌};
ghost use Rattle.nr_turnstile.specs.Passes.{MayStep, Steps, seen_by};
ghost use Rattle.nr_turnstile.specs.Turns.{pass_of, Has, IsSameTurn};
ghost use Rattle.nr_shared.specs.declared.entry.Entry.TheVariants as entries;
ghost use Rattle.nr_shared.specs.declared.requester_with_sink.RequesterWithSink.{RequesterWithSink};
ghost use Rattle.nr_shared.specs.Histories.{closes_of, done_by, forget_by, revoke_by};
ghost use Rattle.nr_shared.specs.Draining.{fed_after, initial_sink, rejoined_after, stopped_after, taken_between};
ghost use Rattle.nr_requester.specs.Buffers.{bytes_of_buffers};
ghost use Rattle.nr_shared.specs.HandedBack.{lost_by};

use crate::call_rule::CallRule;
use crate::entry::{Entry, Stop};
use crate::requester_with_sink::MainTurn;
use nr_link::End;
use nr_links::LinkSink;
use nr_reduce::{Call, Form, Outcome};
use nr_requester::{Buffers, Requester, Ticket};
use nr_turnstile::EntryName;
use std::marker::{Brand, PhantomData};
use std::snapshot::Snapshot;

/// The entry that is appended, for the proof.
pub trait Appended {
    ghost use Rattle.nr_shared.specs.declared.entry.Entry.{Entry};

    ghost entry: { Entry };
}

impl Appended for Brand {
    ghost use Rattle.nr_shared.specs.declared.entry.Entry.TheVariants as entries;

    ghost entry = { entries.WriteFailed };
}

/// Its name.
pub struct EntryOf<K> {
    of: PhantomData<K>,
}

impl<K: Appended> EntryName<Entry> for EntryOf<K> {
    ghost entry = { K.entry };
}

/// Appends the Submit of a call that was accepted.
pub(crate) fn append_submit<O: LinkSink, C: CallRule, K: Appended>(
    turn: &mut MainTurn<'_, O, C>,
    _call: &Snapshot<Call>,
    _form: &Snapshot<Form>,
    _ticket: &Ticket,
)
    requires entry { entries.Submit _call.now.value _form.now.value _ticket.now ≡ K.entry }
    requires value { (y : RequesterWithSink O C) × Has turn.old y }
    requires may { MayStep closes_of (pass_of turn.old) (entries.Submit _call.now.value _form.now.value _ticket.now) }
    ensures same { IsSameTurn turn.old turn.new }
    ensures held { (y : RequesterWithSink O C) → Has turn.old y → Has turn.new y }
    ensures step { Steps (pass_of turn.old) (pass_of turn.new) (entries.Submit _call.now.value _form.now.value _ticket.now) }
{
    turn.step::<EntryOf<K>>();
}

/// Appends the Done of an outcome that is delivered.
pub(crate) fn append_done<O: LinkSink, C: CallRule, K: Appended>(
    turn: &mut MainTurn<'_, O, C>,
    _xid: u32,
    _outcome: &Snapshot<Outcome>,
)
    requires entry { done_by (seen_by (pass_of turn.old)) _xid _outcome.now.value ≡ K.entry }
    requires value { (y : RequesterWithSink O C) × Has turn.old y }
    requires may { MayStep closes_of (pass_of turn.old) (done_by (seen_by (pass_of turn.old)) _xid _outcome.now.value) }
    ensures same { IsSameTurn turn.old turn.new }
    ensures held { (y : RequesterWithSink O C) → Has turn.old y → Has turn.new y }
    ensures step { Steps (pass_of turn.old) (pass_of turn.new) (done_by (seen_by (pass_of turn.old)) _xid _outcome.now.value) }
{
    turn.step::<EntryOf<K>>();
}

/// Appends the Forget of a call.
pub(crate) fn append_forget<O: LinkSink, C: CallRule, K: Appended>(
    turn: &mut MainTurn<'_, O, C>,
    _xid: u32,
)
    requires entry { forget_by (seen_by (pass_of turn.old)) _xid ≡ K.entry }
    requires value { (y : RequesterWithSink O C) × Has turn.old y }
    requires may { MayStep closes_of (pass_of turn.old) (forget_by (seen_by (pass_of turn.old)) _xid) }
    ensures same { IsSameTurn turn.old turn.new }
    ensures held { (y : RequesterWithSink O C) → Has turn.old y → Has turn.new y }
    ensures step { Steps (pass_of turn.old) (pass_of turn.new) (forget_by (seen_by (pass_of turn.old)) _xid) }
{
    turn.step::<EntryOf<K>>();
}

/// Appends the Wrote of the bytes that the sink took between two moments of the requester.
pub(crate) fn append_wrote<O: LinkSink, C: CallRule, K: Appended>(
    turn: &mut MainTurn<'_, O, C>,
    _before: &Snapshot<Requester>,
    _after: &Snapshot<Requester>,
)
    requires entry { entries.Wrote (taken_between _before.now.value.state _after.now.value.state) ≡ K.entry }
    requires value { (y : RequesterWithSink O C) × Has turn.old y }
    requires may { MayStep closes_of (pass_of turn.old) (entries.Wrote (taken_between _before.now.value.state _after.now.value.state)) }
    ensures same { IsSameTurn turn.old turn.new }
    ensures held { (y : RequesterWithSink O C) → Has turn.old y → Has turn.new y }
    ensures step { Steps (pass_of turn.old) (pass_of turn.new) (entries.Wrote (taken_between _before.now.value.state _after.now.value.state)) }
{
    turn.step::<EntryOf<K>>();
}

/// Appends that a write failed.
pub(crate) fn append_write_failed<O: LinkSink, C: CallRule, K: Appended>(
    turn: &mut MainTurn<'_, O, C>,
)
    requires entry { entries.WriteFailed ≡ K.entry }
    requires value { (y : RequesterWithSink O C) × Has turn.old y }
    requires may { MayStep closes_of (pass_of turn.old) entries.WriteFailed }
    ensures same { IsSameTurn turn.old turn.new }
    ensures held { (y : RequesterWithSink O C) → Has turn.old y → Has turn.new y }
    ensures step { Steps (pass_of turn.old) (pass_of turn.new) entries.WriteFailed }
{
    turn.step::<EntryOf<K>>();
}

/// Appends the Revoke of a call.
pub(crate) fn append_revoke<O: LinkSink, C: CallRule, K: Appended>(
    turn: &mut MainTurn<'_, O, C>,
    _xid: u32,
    _buffers: &Snapshot<Buffers>,
)
    requires entry { revoke_by (seen_by (pass_of turn.old)) _xid (bytes_of_buffers _buffers.now.value) ≡ K.entry }
    requires value { (y : RequesterWithSink O C) × Has turn.old y }
    requires may { MayStep closes_of (pass_of turn.old) (revoke_by (seen_by (pass_of turn.old)) _xid (bytes_of_buffers _buffers.now.value)) }
    ensures same { IsSameTurn turn.old turn.new }
    ensures held { (y : RequesterWithSink O C) → Has turn.old y → Has turn.new y }
    ensures step { Steps (pass_of turn.old) (pass_of turn.new) (revoke_by (seen_by (pass_of turn.old)) _xid (bytes_of_buffers _buffers.now.value)) }
{
    turn.step::<EntryOf<K>>();
}

/// Appends the entry of a call that is lost.
pub(crate) fn append_lost<O: LinkSink, C: CallRule, K: Appended>(
    turn: &mut MainTurn<'_, O, C>,
    _end: End,
    _xid: u32,
    _buffers: &Snapshot<Buffers>,
)
    requires entry { lost_by (seen_by (pass_of turn.old)) _end _xid _buffers.now.value ≡ K.entry }
    requires value { (y : RequesterWithSink O C) × Has turn.old y }
    requires may { MayStep closes_of (pass_of turn.old) (lost_by (seen_by (pass_of turn.old)) _end _xid _buffers.now.value) }
    ensures same { IsSameTurn turn.old turn.new }
    ensures held { (y : RequesterWithSink O C) → Has turn.old y → Has turn.new y }
    ensures step { Steps (pass_of turn.old) (pass_of turn.new) (lost_by (seen_by (pass_of turn.old)) _end _xid _buffers.now.value) }
{
    turn.step::<EntryOf<K>>();
}

/// Appends the entry of a piece that is fed.
pub(crate) fn append_fed<O: LinkSink, C: CallRule, K: Appended>(
    turn: &mut MainTurn<'_, O, C>,
    _out_of_memory: bool,
    _piece: &[u8],
)
    requires entry { fed_after (seen_by (pass_of turn.old)) _out_of_memory _piece.now ≡ K.entry }
    requires value { (y : RequesterWithSink O C) × Has turn.old y }
    requires may { MayStep closes_of (pass_of turn.old) (fed_after (seen_by (pass_of turn.old)) _out_of_memory _piece.now) }
    ensures same { IsSameTurn turn.old turn.new }
    ensures held { (y : RequesterWithSink O C) → Has turn.old y → Has turn.new y }
    ensures step { Steps (pass_of turn.old) (pass_of turn.new) (fed_after (seen_by (pass_of turn.old)) _out_of_memory _piece.now) }
{
    turn.step::<EntryOf<K>>();
}

/// Appends the Stopped of the end of feeding.
pub(crate) fn append_stopped<O: LinkSink, C: CallRule, K: Appended>(
    turn: &mut MainTurn<'_, O, C>,
    _cause: Stop,
)
    requires entry { stopped_after (seen_by (pass_of turn.old)) _cause ≡ K.entry }
    requires value { (y : RequesterWithSink O C) × Has turn.old y }
    requires may { MayStep closes_of (pass_of turn.old) (stopped_after (seen_by (pass_of turn.old)) _cause) }
    ensures same { IsSameTurn turn.old turn.new }
    ensures held { (y : RequesterWithSink O C) → Has turn.old y → Has turn.new y }
    ensures step { Steps (pass_of turn.old) (pass_of turn.new) (stopped_after (seen_by (pass_of turn.old)) _cause) }
{
    turn.step::<EntryOf<K>>();
}

/// Appends the Rejoin of a requester that left its link, with the sink of the next one, or none.
pub(crate) fn append_rejoin<O: LinkSink, C: CallRule, K: Appended>(
    turn: &mut MainTurn<'_, O, C>,
    _sink: &Snapshot<Option<O>>,
)
    requires entry { rejoined_after (seen_by (pass_of turn.old)) (initial_sink O.link O.taken O.faults _sink.now.value) ≡ K.entry }
    requires value { (y : RequesterWithSink O C) × Has turn.old y }
    requires may { MayStep closes_of (pass_of turn.old) (rejoined_after (seen_by (pass_of turn.old)) (initial_sink O.link O.taken O.faults _sink.now.value)) }
    ensures same { IsSameTurn turn.old turn.new }
    ensures held { (y : RequesterWithSink O C) → Has turn.old y → Has turn.new y }
    ensures step { Steps (pass_of turn.old) (pass_of turn.new) (rejoined_after (seen_by (pass_of turn.old)) (initial_sink O.link O.taken O.faults _sink.now.value)) }
{
    turn.step::<EntryOf<K>>();
}
