//! What a responder grants, and the credit word of its messages (RFC 8166 section 3.3).

ghost use Rattle.std.specs.Prelude.{◌≡◌, ℕ, List, [], ◌∷◌, ◌++◌, min};
ghost use Rattle.nr_reduce.specs.declared.mark.LinkParameters.{LinkParameters};
ghost use Rattle.nr_reduce.specs.declared.mark.Mark.{Mark};
ghost use Rattle.nr_reduce.specs.declared.mark.Mark.TheVariants as marks;
ghost use Rattle.nr_reduce.specs.declared.mark.Told.TheVariants.{Granted};
ghost use Rattle.nr_responder.specs.Granting.{grant, opened_credits, word_by};
ghost use Rattle.nr_responder.specs.HeldBytes.{KeptFits};
ghost use Rattle.nr_responder.specs.ResponderState.{granting, present_word};
ghost use Rattle.nr_responder.specs.Sound.{state_of, with_staging, ServerEndInvariant, WindowsInvariant};
ghost use Rattle.nr_responder.specs.Standing.{ResponderRepresents};

use crate::server_end::ServerEnd;

/// The credits of a responder.
#[derive(Clone, Copy)]
pub struct Credits {
    /// Its receives: the credits with which it was opened.
    pub receives: u32,
    /// The credits that it grants.
    pub granted: u32,
    /// The most that it grants in a message that is due while more than half of its receives are in use.
    pub low: u32,
    /// The credit word of the messages that are due for the frame which it takes, or took last.
    pub word: u32,
}

/// The lesser of two.
fn lesser(a: u32, b: u32) -> u32
    ensures { result ≡ min a b }
{
    if a < b {
        return a;
    }
    b
}

impl Credits {
    /// Those of a responder that is opened.
    pub(crate) fn opened(credits: u32, low: u32) -> Credits
        ensures { result ≡ opened_credits credits low }
    {
        Credits {
            receives: credits,
            granted: credits,
            low,
            word: credits,
        }
    }

    /// The credit word of a message, if this many receives are in use.
    fn word_at(self, in_use: usize) -> u32
        ensures { result ≡ word_by (grant self) in_use }
    {
        if u128::from(self.receives) < 2 * in_use as u128 {
            return lesser(self.low, self.granted);
        }
        self.granted
    }
}

impl ServerEnd {
    /// The credit word of a message that is queued now.
    pub(crate) fn present_word(&self) -> u32
        requires sound { ServerEndInvariant self.now }
        ensures { result ≡ present_word (state_of self.now) }
    {
        self.credits.word_at(self.in_use())
    }

    /// The credits that it was opened with.
    pub fn opened(&self) -> u32
        ensures exact { result ≡ (state_of self.now).credits.receives }
        ensures of_run { (opened : LinkParameters) (link : ℕ) (run : List Mark) → ResponderRepresents opened link run (state_of self.now) → result ≡ opened.receives }
    {
        self.credits.receives
    }

    /// Grants this many credits from now on, unless the side has ended.
    pub fn set_credits(&mut self, credits: u32)
        requires sound { ServerEndInvariant self.old }
        requires windows { WindowsInvariant self.old }
        ensures is { with_staging self.new ≡ granting credits (with_staging self.old) }
        ensures endpoint { self.new.endpoint ≡ self.old.endpoint }
        ensures stands { (opened : LinkParameters) (link : ℕ) (run : List Mark) → ResponderRepresents opened link run (state_of self.old) →
            ResponderRepresents opened link (run ++ marks.Told link (Granted credits) ∷ []) (state_of self.new) }
        ensures sound { ServerEndInvariant self.new }
        ensures windows { WindowsInvariant self.new }
        ensures bounded { KeptFits (state_of self.old) → KeptFits (state_of self.new) }
    {
        if self.endpoint.end().is_some() {
            return;
        }
        self.credits.granted = credits;
    }
}
