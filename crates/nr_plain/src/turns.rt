//! Turns of a shared server.

ghost use Rattle.std.specs.Prelude.{◌≡◌, ◌+◌, ◌<◌, ◌≤◌, ◌^◌, [], length, List, IfOk, IfErr, IsOk, OnErr};
ghost use Rattle.nr_reduce.specs.declared.mark.Entry.{Entry};
ghost use Rattle.nr_rpc.specs.Reading.{call_of};
ghost use Rattle.nr_plain.specs.Setup.{Setup};
ghost use Rattle.nr_plain.specs.Stands.{IsCause};
ghost use Rattle.nr_plain.specs.Numbered.{RepresentsTagged};
ghost use Rattle.nr_plain.specs.Turns.{Answers, IsCauseFor};
ghost use Rattle.nr_turnstile.specs.Passes.{Rests, MayStep, Steps, seen_by};
ghost use Rattle.nr_turnstile.specs.Turns.{pass_of, Has, IsSameTurn};
ghost use Rattle.nr_plain.specs.History.{Opening, Executes, IsOpenedBy, IsHistory, OnlyOthersAdded, closes_none, entry_to_append, history, pass_view};
ghost use Rattle.nr_plain.specs.ReplySizes.{any_reply_max};

use crate::fault::Fault;
use crate::history_entry::HistoryEntry;
use crate::server::{Reply, Server};
use nr_outside::Moment;
use nr_turnstile::{EntryName, Machine, OpeningHistory, Pass, Turn, Turnstile};
use std::alloc::{AllocError, Global};
use std::marker::{Brand, PhantomData};
use std::snapshot::Snapshot;
use std::sync::Wait;

/// The number of a client that has none.
const NO_CLIENT: u64 = 0;

/// The history of a server that was just opened, for the proof.
pub trait First {
    ghost use Rattle.nr_plain.specs.declared.history_entry.HistoryEntry.{HistoryEntry};

    ghost first: { List HistoryEntry };
}

impl First for Brand {
    ghost first = { [] };
}

pub struct Opened<K> {
    of: PhantomData<K>,
}

impl<K: First> OpeningHistory<HistoryEntry> for Opened<K> {
    ghost history = { K.first };
}

/// The entry of a call, for the proof.
pub trait Appended {
    ghost use Rattle.nr_plain.specs.declared.history_entry.HistoryEntry.{HistoryEntry};

    ghost appended: { HistoryEntry };
}

impl Appended for Brand {
    ghost use Rattle.nr_plain.specs.History.{no_entry};

    ghost appended = { no_entry };
}

pub struct EntryOfCall<K> {
    of: PhantomData<K>,
}

impl<K: Appended> EntryName<HistoryEntry> for EntryOfCall<K> {
    ghost entry = { K.appended };
}

/// Puts a server that was just opened in a turnstile. The pass has seen the server as it was opened, and no entry of its
/// journal. Place 0 of the history, and no other, is its own.
///
/// # Errors
///
/// If memory ran out. The server is dropped.
pub fn share(alloc: Global, server: Server) -> Result<(Turnstile<Server>, Pass<Server>), AllocError>
    requires { (s : Setup) × RepresentsTagged s [] server }
    ensures { IfOk result (λ t. Rests t.0 t.1 × IsOpenedBy server (pass_view t.1)) }
{
    let first = Snapshot::of(&server);
    put_in::<Brand>(alloc, server, &first)
}

fn put_in<K: First>(
    alloc: Global,
    server: Server,
    _first: &Snapshot<Server>,
) -> Result<(Turnstile<Server>, Pass<Server>), AllocError>
    requires first { K.first ≡ history _first.now [] }
    requires is { _first.now.value ≡ server }
    requires stands { (s : Setup) × RepresentsTagged s [] server }
    ensures { IfOk result (λ t. Rests t.0 t.1 × IsOpenedBy server (pass_view t.1)) }
{
    Turnstile::new::<Opened<K>>(alloc, server)
}

/// Executes a call of a client without a number under one turn.
///
/// # Errors
///
/// [`Fault::NotCall`] only if the payload has no call head, with the offset of the first item that fails;
/// [`Fault::Memory`]. The server is then as it was at that turn.
pub fn execute<R: Wait>(
    rt: &R,
    alloc: Global,
    shared: &Turnstile<Server>,
    pass: &mut Pass<Server>,
    now: Moment,
    payload: &[u8],
) -> Result<Reply, Fault>
    requires { Rests shared.now pass.old }
    ensures rests { Rests shared.now pass.new }
    ensures executed { IfOk result (λ r. Executes (pass_view pass.old) (pass_view pass.new) 0 now payload.now r.payload r.place) }
    ensures call { IfOk result (λ _. IsOk (call_of payload.now)) }
    ensures cause { IfErr result (λ e. IsCause e (call_of payload.now)) }
    ensures limit { IfOk result (λ r. length r.payload ≤ any_reply_max) }
    ensures err { OnErr result (OnlyOthersAdded (pass_view pass.old) (pass_view pass.new)) }
{
    execute_for(rt, alloc, shared, pass, NO_CLIENT, now, payload)
}

/// Answers a call of the client with this number, 0 if it has none, under one turn, as [`Server::execute_for`] does. The
/// entry of the history has the number, with the call's xid.
///
/// # Errors
///
/// [`Fault::NotCall`] only if the payload has no call head, with the offset of the first item that fails;
/// [`Fault::Old`] only if it has one whose xid is 64 or more below the largest one of the client's changes by that turn;
/// [`Fault::Memory`]. Nothing is added to the history.
pub fn execute_for<R: Wait>(
    rt: &R,
    alloc: Global,
    shared: &Turnstile<Server>,
    pass: &mut Pass<Server>,
    client: u64,
    now: Moment,
    payload: &[u8],
) -> Result<Reply, Fault>
    requires { Rests shared.now pass.old }
    ensures rests { Rests shared.now pass.new }
    ensures answered { IfOk result (λ r. Answers (pass_view pass.old) (pass_view pass.new) client now payload.now r.payload r.place) }
    ensures call { IfOk result (λ _. IsOk (call_of payload.now)) }
    ensures cause { IfErr result (λ e. IsCauseFor (pass_view pass.old) (pass_view pass.new) client payload.now e) }
    ensures limit { IfOk result (λ r. length r.payload ≤ any_reply_max) }
    ensures err { OnErr result (OnlyOthersAdded (pass_view pass.old) (pass_view pass.new)) }
{
    let mut turn = shared.take_turn(rt, pass);
    let value = turn.value();
    let (reply, adds) = match value.execute_once(alloc, client, now, payload) {
        Ok(both) => both,
        Err(fault) => {
            turn.put_back();
            return Err(fault);
        }
    };
    if !adds {
        turn.put_back();
        return Ok(reply);
    }
    append::<Brand>(&mut turn, client, now, payload, reply.payload.as_slice());
    turn.put_back();
    Ok(reply)
}

// The step, with the entry of the call.
fn append<K: Appended>(
    turn: &mut Turn<'_, Server>,
    _client: u64,
    _now: Moment,
    _payload: &[u8],
    _reply: &[u8],
)
    requires appended { entry_to_append _client _now _payload.now _reply.now ≡ K.appended }
    requires value { (y : Server) × Has turn.old y }
    requires may { MayStep closes_none (pass_of turn.old) (entry_to_append _client _now _payload.now _reply.now) }
    ensures same { IsSameTurn turn.old turn.new }
    ensures held { (y : Server) → Has turn.old y → Has turn.new y }
    ensures step { Steps (pass_of turn.old) (pass_of turn.new) (entry_to_append _client _now _payload.now _reply.now) }
{
    turn.step::<EntryOfCall<K>>();
}

/// How many entries the journal has.
pub fn journal_len<R: Wait>(rt: &R, shared: &Turnstile<Server>, pass: &mut Pass<Server>) -> u64
    requires { Rests shared.now pass.old }
    ensures rests { Rests shared.now pass.new }
    ensures found { OnlyOthersAdded (pass_view pass.old) (pass_view pass.new) }
    ensures seen { length (seen_by pass.new) ≡ result + 1 }
    ensures len { (first : Opening) (J : List Entry) → IsHistory first J (seen_by pass.new) → result ≡ length J }
    ensures below { result < 2 ^ 60 }
{
    let mut turn = shared.take_turn(rt, pass);
    let len = turn.value().journal_len();
    turn.put_back();
    len
}
