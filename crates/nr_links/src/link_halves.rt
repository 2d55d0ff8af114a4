ghost use Rattle.std.specs.Prelude.{◌≡◌, ℕ, ◌<◌, ◌≤◌, ◌++◌, take, drop, length, IfOk, OnErr, IfSome, MatchResult};
ghost use Rattle.std.specs.Io.KnownBytes.{Appends, Keeps, IsAtEnd};
ghost use Rattle.nr_outside.specs.Faults.{Rises};
ghost use Rattle.nr_outside.specs.Content.{HandsOut};

use nr_outside::{Failed, Sink, Source};

/// The source of a link. It belongs to the sink that has the same number.
pub trait LinkSource: Source {
    // The number of its link.
    ghost link: { Self → ℕ };

    /// As [`read`](Source::read). The number of the link stays.
    fn read_link(&mut self, buf: &mut [u8]) -> Result<usize, Failed>
        ensures link { link self.new ≡ link self.old }
        ensures bound { IfOk result (λ n. n ≤ length buf.old) }
        ensures handed { IfOk result (λ n.
            HandsOut (Self.left self.old) (Self.given self.old) (Self.left self.new) (Self.given self.new) (take n buf.new)) }
        ensures end { IfOk result (λ n. n ≡ 0 → 0 < length buf.old → IsAtEnd (Self.left self.new)) }
        ensures rest { IfOk result (λ n. IfSome (Self.left self.old) (λ _. drop n buf.new ≡ drop n buf.old)) }
        ensures err_left { OnErr result (Keeps (Self.left self.old) (Self.left self.new)) }
        ensures err_given { OnErr result (Keeps (Self.given self.old) (Self.given self.new)) }
        ensures err_buf { OnErr result (IfSome (Self.left self.old) (λ _. buf.new ≡ buf.old)) }
        ensures counted { MatchResult result
            (λ _. Self.faults self.new ≡ Self.faults self.old) (λ _. Rises (Self.faults self.old) (Self.faults self.new)) }
        ensures never_falls { Self.faults self.old ≤ Self.faults self.new };
}

/// The sink of a link. It belongs to the source that has the same number.
pub trait LinkSink: Sink {
    // The number of its link.
    ghost link: { Self → ℕ };

    /// As [`write`](Sink::write). The number of the link stays.
    fn write_link(&mut self, piece: &[u8]) -> Result<usize, Failed>
        ensures link { link self.new ≡ link self.old }
        ensures bound { IfOk result (λ n. n ≤ length piece.now) }
        ensures took { IfOk result (λ n. Appends (Self.taken self.old) (Self.taken self.new) (take n piece.now)) }
        ensures progress { IfOk result (λ n. 0 < length piece.now → 0 < n) }
        ensures err_taken { OnErr result (Keeps (Self.taken self.old) (Self.taken self.new)) }
        ensures counted { MatchResult result
            (λ _. Self.faults self.new ≡ Self.faults self.old) (λ _. Rises (Self.faults self.old) (Self.faults self.new)) }
        ensures never_falls { Self.faults self.old ≤ Self.faults self.new };

    /// As [`write_vectored`](Sink::write_vectored). The number of the link stays.
    fn write_link_vectored(&mut self, head: &[u8], body: &[u8]) -> Result<usize, Failed>
        ensures link { link self.new ≡ link self.old }
        ensures bound { IfOk result (λ n. n ≤ length (head.now ++ body.now)) }
        ensures took { IfOk result (λ n. Appends (Self.taken self.old) (Self.taken self.new) (take n (head.now ++ body.now))) }
        ensures progress { IfOk result (λ n. 0 < length (head.now ++ body.now) → 0 < n) }
        ensures err_taken { OnErr result (Keeps (Self.taken self.old) (Self.taken self.new)) }
        ensures counted { MatchResult result
            (λ _. Self.faults self.new ≡ Self.faults self.old) (λ _. Rises (Self.faults self.old) (Self.faults self.new)) }
        ensures never_falls { Self.faults self.old ≤ Self.faults self.new };
}
