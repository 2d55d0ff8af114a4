ghost use Rattle.std.specs.Prelude.{◌≡◌, ◌<◌, List, [], Option, IfSome};
ghost use Rattle.nr_outside.specs.declared.moment.Moment.{Moment};
ghost use Rattle.nr_links.specs.Moments.{Gives};

use nr_outside::Moment;

/// What gives the time. It can't fail.
pub trait Clock {
    // The moments given so far, in order, if they are known.
    ghost gave: { Self → Option (List Moment) };

    /// The moment now.
    fn now(&mut self) -> Moment
        ensures nanos { result.nanos < 1000000000 }
        ensures gave { Gives (gave self.old) (gave self.new) result };

    /// Another clock of the same time, which has given nothing. Takes no memory.
    fn another(&self) -> Self
        ensures { IfSome (gave result) (λ given. given ≡ []) };
}
