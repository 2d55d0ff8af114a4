//! A call, and its outcome.

ghost use Rattle.std.specs.Prelude.{◌≡◌, IfOk, IfErr};
ghost use Rattle.nr_reduce.specs.declared.call.Call.{Call};
ghost use Rattle.nr_rpc.specs.Credential.{CanWriteCred};
ghost use Rattle.nr_client.specs.Following.{UnansweredOver};
ghost use Rattle.nr_client.specs.Relations.{KeepsTicketsOver};
ghost use Rattle.nr_client.specs.Requests.{CountsFaultsOver};
ghost use Rattle.nr_client.specs.Results.{IsOfCall};

use crate::client_end::ClientEnd;
use crate::link_calls::Calls;
use nr_reduce::{Call, Outcome};
use nr_xdr::Memory;

/// Makes a call, if there was memory for it. Gives its outcome.
pub(crate) fn outcome_of<L: Calls>(
    link: &mut L,
    call: Result<Call, Memory>,
) -> Result<Outcome, ClientEnd>
    requires { IfOk call (λ c. CanWriteCred c.cred) }
    ensures ok { (asked : Call) → IfOk call (λ c. c ≡ asked) → IfOk result (λ outcome. L.relations.answers (L.at link.old) (L.at link.new) asked outcome) }
    ensures err { (asked : Call) → IfOk call (λ c. c ≡ asked) → IfErr result (λ end. UnansweredOver L.relations asked (L.at link.old) (L.at link.new) end) }
    ensures of_call { IfErr result IsOfCall }
    ensures tickets { KeepsTicketsOver L.relations (L.at link.old) (L.at link.new) }
    ensures faults { CountsFaultsOver L.relations result (L.at link.old) (L.at link.new) }
{
    let call = match call {
        Ok(call) => call,
        Err(_) => return Err(ClientEnd::Memory),
    };
    match link.call(call) {
        Ok(outcome) => Ok(outcome),
        Err(end) => Err(ClientEnd::Link(end)),
    }
}
