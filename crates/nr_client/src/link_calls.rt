//! The calls that a session makes over a link.

ghost use Rattle.std.specs.Prelude.{◌≡◌, true, false, is_some, IfOk, IfErr, OnErr};
ghost use Rattle.nr_rpc.specs.Credential.{CanWriteCred};
ghost use Rattle.nr_client.specs.Relations.{ClosesTicketOver, CountsEnd, KeepsTicketsOver, OpensTicketOver};

use nr_reduce::{Call, Outcome};
use nr_requester::Ticket;
use nr_shared::CallEnd;

/// A link over which a session makes calls: a link of its own, or one that callers share. Contracts of a session say what each call was by the
/// relations of the link.
pub trait Calls {
    ghost use Rattle.nr_client.specs.Relations.{CallRelations};

    /// What is known of such a link at a moment.
    ghost View: { Type 0 };

    /// What is known of the link.
    ghost at: { Self → View };

    /// What a call, and each part of one, makes of that.
    ghost relations: { CallRelations View };

    /// Makes a call in the form that fits it best, and waits for its outcome. It is submitted once it can be. All that is due is written
    /// before each read.
    fn call(&mut self, call: Call) -> Result<Outcome, CallEnd>
        requires { CanWriteCred call.cred }
        ensures ok { IfOk result (λ outcome. relations.answers (at self.old) (at self.new) call outcome) }
        ensures err { IfErr result (λ end. relations.gives_up (at self.old) (at self.new) call end) }
        ensures tickets { KeepsTicketsOver relations (at self.old) (at self.new) }
        ensures faults { CountsEnd relations result (at self.old) (at self.new) }
        ensures within { relations.is_within (at self.new) };

    /// Submits a call once it can be, as `call` does. Its outcome is waited for, or it is forgotten, by its ticket.
    fn submit(&mut self, call: Call) -> Result<Ticket, CallEnd>
        requires { CanWriteCred call.cred }
        ensures ok { IfOk result (λ xid. relations.submits (at self.old) (at self.new) call xid) }
        ensures err { IfErr result (λ end. relations.refuses (at self.old) (at self.new) call end) }
        ensures opens { IfOk result (λ xid. OpensTicketOver relations xid call (at self.old) (at self.new)) }
        ensures keeps { OnErr result (KeepsTicketsOver relations (at self.old) (at self.new)) }
        ensures faults { CountsEnd relations result (at self.old) (at self.new) };

    /// Waits for the outcome of a call that was submitted. If there is none, the call is forgotten.
    fn wait(&mut self, ticket: Ticket) -> Result<Outcome, CallEnd>
        requires { is_some (relations.open_call (at self.old) ticket) ≡ true }
        ensures ok { IfOk result (λ outcome. relations.completes ticket outcome (at self.old) (at self.new)) }
        ensures err { IfErr result (λ end. relations.forgets ticket end (at self.old) (at self.new)) }
        ensures tickets { ClosesTicketOver relations ticket (at self.old) (at self.new) }
        ensures faults { CountsEnd relations result (at self.old) (at self.new) };

    /// Forgets a call that was submitted, whether or not its answer has come.
    fn forget(&mut self, ticket: Ticket)
        requires { is_some (relations.open_call (at self.old) ticket) ≡ true }
        ensures forgets { relations.forgets_call ticket (at self.old) (at self.new) }
        ensures tickets { ClosesTicketOver relations ticket (at self.old) (at self.new) }
        ensures faults { relations.faults (at self.new) ≡ relations.faults (at self.old) };

    /// Whether a call can be submitted at once, if its link has not ended: a credit is left, and the next xid isn't 64 or more above the least
    /// one of an outstanding call of a client with a number.
    fn has_credit(&mut self) -> bool
        ensures looks { relations.looks (at self.old) (at self.new) }
        ensures yes { result ≡ true → relations.has_credit (at self.new) }
        ensures no { result ≡ false → relations.lacks_credit (at self.new) }
        ensures tickets { KeepsTicketsOver relations (at self.old) (at self.new) }
        ensures faults { relations.faults (at self.new) ≡ relations.faults (at self.old) };
}
