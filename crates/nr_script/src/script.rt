//! Scripts: what a drill has to do, as plain data.

ghost use Rattle.std.specs.Prelude.{◌≡◌};
ghost use Rattle.nr_script.specs.Script.{ScriptLines, IsScript};

use nr_reduce::Form;
use nr_rpc::Cred;
use nr_texts::Opening;
use nr_wire::Side;
use nr_xdr::{Memory, Octets};
use std::marker::Model;

/// Any other line of a script. A client is named by its number, from 1, and so is its last link.
#[derive(Drop)]
pub enum Line {
    /// The client's later calls have this credential.
    Cred {
        /// The client.
        client: u32,
        /// AUTH_NONE, or AUTH_SYS with machine `drill` (RFC 5531 section 8.2 and appendix A).
        cred: Cred,
    },
    /// The client submits a call (RFC 5531 section 9).
    Call {
        /// The client.
        client: u32,
        /// In which form the call is sent.
        form: Form,
        /// The number of the program.
        prog: u32,
        /// The version of the program.
        vers: u32,
        /// The number of the procedure.
        proc: u32,
        /// The bytes of the arguments.
        args: Octets,
    },
    /// At most `most` of the bytes that wait for the server are fed to it, in one piece.
    Up {
        /// The client of the link.
        client: u32,
        /// The most bytes of the piece.
        most: u32,
    },
    /// At most `most` of the bytes that wait for the client are fed to it, in one piece.
    Down {
        /// The client of the link.
        client: u32,
        /// The most bytes of the piece.
        most: u32,
    },
    /// The next complete call of the link is executed and answered.
    Work {
        /// The client of the link.
        client: u32,
    },
    /// The clock goes on.
    Tick {
        /// By how many seconds.
        seconds: u32,
    },
    /// The caller gives up the answer to a call.
    Forget {
        /// The client.
        client: u32,
        /// The number of the call's line among the client's call lines, from 1.
        number: u32,
    },
    /// The caller takes back the memory of a call.
    Revoke {
        /// The client.
        client: u32,
        /// The number of the call's line among the client's call lines, from 1.
        number: u32,
    },
    /// The link is dropped.
    Drop {
        /// The client of the link.
        client: u32,
    },
    /// The client leaves its link, which is dropped if it isn't yet, and begins another one. Nothing happens if the client has ended.
    Rejoin {
        /// The client.
        client: u32,
    },
    /// The server of the link is told to grant this many credits from here on (RFC 8166 section 3.3).
    Grant {
        /// The client of the link.
        client: u32,
        /// The credits: from 1 to those of the first line.
        credits: u32,
    },
    /// These bytes are put after those that wait for the peer of this side, as if the side had written them.
    Raw {
        /// The client of the link.
        client: u32,
        /// The side that seems to have written them: `Initiator` for bytes that go up.
        side: Side,
        /// The bytes.
        bytes: Octets,
    },
    /// All bytes go up, all calls are executed, all bytes go down, link after link, until nothing moves.
    Drain,
}

/// Why a text is no script.
#[derive(Clone, Copy, Debug, PartialEq, Eq)]
pub enum ScriptFault {
    /// A line is invalid.
    BadLine {
        /// The number of the first invalid line, from 1.
        line: u64,
    },
    /// Memory ran out.
    Memory,
}

impl From<Memory> for ScriptFault {
    ghost use Rattle.nr_script.specs.declared.script.ScriptFault.TheVariants as faults;

    ghost from_gives = { λ _ e. e ≡ faults.Memory };

    fn from(_e: Memory) -> ScriptFault {
        ScriptFault::Memory
    }
}

/// A script: its first line and the others in order, of which there are at most 2^24. Every line names a client of the
/// script, `forget` and `revoke` name an earlier call line of their client, `grant` has at most the credits of the first
/// line, and the clock stays within 32 bits.
#[derive(Drop)]
pub struct Script {
    opening: Opening,
    lines: Vec<Line>,
}

impl Model for Script {
    ghost use Rattle.nr_script.specs.Script.{ScriptLines, IsScript};

    ghost Value = { ScriptLines };

    ghost view = { λ s. record { opening = s.opening; lines = s.lines.items } };

    ghost invariant = { λ s. IsScript (record { opening = s.opening; lines = s.lines.items }) };
}

impl Script {
    /// A script of these lines.
    pub(crate) fn new(opening: Opening, lines: Vec<Line>) -> Script
        requires { IsScript (record { opening = opening; lines = lines.items }) }
        ensures { result ≡ record { opening = opening; lines = lines.items } }
    {
        Script { opening, lines }
    }

    /// The first line.
    pub fn opening(&self) -> Opening
        ensures is { result ≡ self.now.opening }
        ensures script { IsScript self.now }
    {
        self.opening
    }

    /// The other lines.
    pub fn lines(&self) -> &[Line]
        ensures { result.now ≡ self.now.lines }
    {
        self.lines.as_slice()
    }
}
