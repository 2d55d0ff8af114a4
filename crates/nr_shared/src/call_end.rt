//! Why a call of a shared requester has no answer.

ghost use Rattle.std.specs.Prelude.{List};
ghost use Rattle.nr_reduce.specs.declared.call.Call.{Call};
ghost use Rattle.nr_reduce.specs.declared.call.Form.{Form};
ghost use Rattle.nr_shared.specs.declared.entry.Entry.{Entry};

use nr_link::End;
use nr_reduce::Refused;

/// Why a call of a shared requester has no answer. A call that was submitted is forgotten then.
#[derive(Clone, Copy)]
pub enum CallEnd {
    /// The requester has ended: the server broke the protocol or sent a Terminate, or memory ran out for a frame.
    Ended(End),
    /// A read of the link failed, and it isn't dialled again.
    LinkRead,
    /// A write to the link failed, and it isn't dialled again.
    LinkWrite,
    /// The server ended its stream, and the link isn't dialled again.
    Closed,
    /// The link was lost once more after it had been dialled again this often, which is the maximum.
    Tries { n: u32 },
    /// A dial failed.
    DialFault,
    /// Fewer xids or STags are left than the call needs, or, once the link was lost, than the calls that would be sent again.
    Spent { left: u64, need: u64 },
    /// The call needs this many bytes, more than the limit `room`.
    TooLarge { need: u128, room: u32 },
    /// This many bytes were read, which is the maximum.
    Budget { read: u64 },
    /// Memory ran out before the call was submitted; or, once the link was lost, for the next one.
    Memory,
}

impl CallEnd {
    ghost use Rattle.nr_shared.specs.Ending.{HasCredit, IsCause, IsRefused};

    /// The end of a call that was refused so while a credit is left and the next xid isn't too far above the least one.
    pub(crate) fn of_refused(refused: Refused) -> CallEnd
        requires { HasCredit refused }
        ensures { (call : Call) (form : Form) (history : List Entry) → IsRefused refused call form history → IsCause result call form history }
    {
        match refused {
            Refused::Ended(end) => CallEnd::Ended(end),
            Refused::TooLarge { need, room } => CallEnd::TooLarge { need, room },
            Refused::NoCredit { .. } | Refused::Window { .. } => unreachable!(),
            Refused::Spent { left, need } => CallEnd::Spent { left, need },
            Refused::Memory => CallEnd::Memory,
        }
    }
}
