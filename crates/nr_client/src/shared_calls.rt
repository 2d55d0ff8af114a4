//! A requester is shared by callers, and a call of one of them.

ghost use Rattle.std.specs.Prelude.{◌≡◌, ◌≢◌, ◌≤◌, [], ◌∷◌, None, Some, IfOk, IfErr};
ghost use Rattle.nr_outside.specs.Faults.{last_count};
ghost use Rattle.nr_rpc.specs.Credential.{CanWriteCred};
ghost use Rattle.nr_link.specs.declared.end.End.TheVariants as ends;
ghost use Rattle.nr_links.specs.Limits.{read_max};
ghost use Rattle.nr_reduce.specs.declared.call.Call.{Call};
ghost use Rattle.nr_reduce.specs.declared.call.Form.TheVariants as forms;
ghost use Rattle.nr_requester.specs.Fed.{fed_bytes};
ghost use Rattle.nr_turnstile.specs.Passes.{mine_of, seen_by};
ghost use Rattle.nr_shared.specs.declared.entry.Entry.TheVariants as entries;
ghost use Rattle.nr_shared.specs.declared.no_dialer.NoDialer.{NoDialer};
ghost use Rattle.nr_shared.specs.declared.source_reader.InitialSource.{InitialSource};
ghost use Rattle.nr_shared.specs.Opening.{GivesBack};
ghost use Rattle.nr_shared.specs.Sharing.{SharedRests};
ghost use Rattle.nr_shared.specs.Standing.{bytes_before};
ghost use Rattle.nr_client.specs.Jobs.{IsExchange};
ghost use Rattle.nr_client.specs.private.JobReads.{Grows, HasNone};
ghost use Rattle.nr_client.specs.Results.{IsOfCall};

use crate::client_end::ClientEnd;
use nr_links::{LinkSink, LinkSource};
use nr_reduce::{Call, Form, Outcome};
use nr_requester::{Done, Requester};
use nr_shared::{Appended, CallRule, InitialHistory, Pass, SharedRequester};
use nr_xdr::Memory;
use std::alloc::Global;
use std::sync::Wait;

/// Hands a requester in, to be shared, with its source, of which this many bytes were read, and its sink.
pub(crate) fn share<K: Appended, R: Wait, I: LinkSource + Drop, O: LinkSink + Drop, C: CallRule>(
    rt: &R,
    alloc: Global,
    requester: Requester,
    source: I,
    sink: O,
    read: u64,
) -> Result<(SharedRequester<I, O, C>, Pass<I, O, C>), (Requester, I, O)>
    requires entry { entries.Initial (record { requester = requester; sink = record { link = O.link sink; faults = O.faults sink; taken = O.taken sink }; tries = None }) ≡ K.entry }
    requires has_memory { requester.state.side.ended ≢ Some ends.Memory }
    requires fed { fed_bytes requester ≤ bytes_before }
    requires within { read ≤ read_max }
    ensures rests { IfOk result (λ t. SharedRests t.0 t.1) }
    ensures seen { IfOk result (λ t. (seen_by t.1.main ≡ K.entry ∷ []) × (mine_of t.1.main ≡ [])) }
    ensures source { IfOk result (λ t. (b : InitialSource I O C (NoDialer I O)) × ((seen_by t.1.source ≡ b ∷ []) × ((b.source.value ≡ source) × (b.read ≡ read)))) }
    ensures err { IfErr result (λ back. (d : NoDialer I O) × ((e : NoDialer I O) × GivesBack I.link I.left I.given I.faults O.link O.taken O.faults (λ _. None) (λ _. None) (λ _. last_count) C.allows (K.entry ∷ []) [] source d [] read back.0 (Some (back.1, back.2)) e)) }
{
    SharedRequester::new::<InitialHistory<K>, R>(rt, alloc, requester, source, sink, read)
}

/// Makes a call, if there was memory for it. Gives its outcome.
pub(crate) fn outcome_of<R: Wait, I: LinkSource + Drop, O: LinkSink + Drop, C: CallRule>(
    rt: &R,
    shared: &SharedRequester<I, O, C>,
    pass: &mut Pass<I, O, C>,
    call: Result<Call, Memory>,
) -> Result<Outcome, ClientEnd>
    requires writable { IfOk call (λ c. CanWriteCred c.cred) }
    requires allowed { IfOk call (λ c. C.allows c forms.Auto) }
    requires rests { SharedRests shared.now pass.old }
    ensures rests { SharedRests shared.now pass.new }
    ensures source { seen_by pass.new.source ≡ seen_by pass.old.source }
    ensures grows { Grows pass.old.main pass.new.main }
    ensures ok { IfOk result (λ outcome. (asked : Call) → IfOk call (λ c. c ≡ asked) → IsExchange (seen_by pass.new.main) (mine_of pass.new.main) asked outcome) }
    ensures err { IfErr result (λ end. (asked : Call) → IfOk call (λ c. c ≡ asked) → HasNone asked end pass.new.main) }
    ensures of_call { IfErr result IsOfCall }
{
    let call = match call {
        Ok(call) => call,
        Err(_) => return Err(ClientEnd::Memory),
    };
    match shared.call(rt, pass, call, Form::Auto) {
        Ok(done) => {
            let Done {
                call,
                buffers,
                outcome,
            } = done;
            drop(call);
            drop(buffers);
            Ok(outcome)
        }
        Err(end) => Err(ClientEnd::Link(end)),
    }
}
