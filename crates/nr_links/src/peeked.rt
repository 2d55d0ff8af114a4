ghost use Rattle.std.specs.Prelude.{◌≡◌, ◌≤◌, None, IfOk, MatchResult, IfNone};
ghost use Rattle.std.specs.Io.KnownBytes.{IsAtEnd, Keeps};
ghost use Rattle.nr_outside.specs.Faults.{Rises};

use crate::link_halves::LinkSource;
use nr_outside::{Failed, Source};
use std::marker::Model;

/// A source whose next byte can be looked at before it is read. What was looked at is handed out first.
#[derive(Drop)]
pub struct Peeked<S> {
    inner: S,
    held: Option<u8>,
}

impl<S> Model for Peeked<S> {
    ghost use Rattle.nr_links.specs.Peeked.{PeekedState};

    ghost Value = { PeekedState S };

    ghost view = { λ p. record { inner = p.inner; held = p.held } };
}

impl<S: Source> Peeked<S> {
    ghost use Rattle.nr_links.specs.Peeked.{given_without, left_with};

    /// The same source, of which no byte was looked at.
    pub fn new(inner: S) -> Peeked<S>
        ensures { result ≡ record { inner = inner; held = None } }
    {
        Peeked { inner, held: None }
    }

    /// The next byte, which stays to be read. `None` is the end of the input.
    #[tactic(auto, using(crate::proofs::Held::one_held))]
    pub fn look(&mut self) -> Result<Option<u8>, Failed>
        ensures held { IfOk result (λ byte. self.new.held ≡ byte) }
        ensures end { IfOk result (λ byte. IfNone byte (IsAtEnd (left_with self.new.held (S.left self.new.inner)))) }
        ensures left { Keeps (left_with self.old.held (S.left self.old.inner)) (left_with self.new.held (S.left self.new.inner)) }
        ensures given { Keeps (given_without self.old.held (S.given self.old.inner)) (given_without self.new.held (S.given self.new.inner)) }
        ensures counted { MatchResult result
            (λ _. S.faults self.new.inner ≡ S.faults self.old.inner) (λ _. Rises (S.faults self.old.inner) (S.faults self.new.inner)) }
        ensures never_falls { S.faults self.old.inner ≤ S.faults self.new.inner }
    {
        if self.held.is_some() {
            return Ok(self.held);
        }
        let mut byte = [0u8; 1];
        let n = match self.inner.read(&mut byte) {
            Ok(n) => n,
            Err(failed) => return Err(failed),
        };
        if n == 0 {
            return Ok(None);
        }
        self.held = Some(byte[0]);
        Ok(self.held)
    }

    /// The byte that was looked at, if it was not read since.
    pub fn held(&self) -> Option<u8>
        ensures { result ≡ self.now.held }
    {
        self.held
    }

    /// The source. A byte that was looked at and not read is lost.
    pub fn into_inner(self) -> S
        ensures { result ≡ self.inner }
    {
        let Peeked { inner, .. } = self;
        inner
    }
}

impl<S: Source> Source for Peeked<S> {
    ghost use Rattle.nr_links.specs.Peeked.{given_without, left_with};

    ghost faults = { λ p. S.faults p.inner };

    ghost left = { λ p. left_with p.held (S.left p.inner) };

    ghost given = { λ p. given_without p.held (S.given p.inner) };

    /// The byte that was looked at, alone, and then what the source hands out.
    #[tactic(auto, using(crate::proofs::Held::handed_out))]
    fn read(&mut self, buf: &mut [u8]) -> Result<usize, Failed> {
        if let Some(byte) = self.held {
            if buf.is_empty() {
                return Ok(0);
            }
            buf[0] = byte;
            self.held = None;
            return Ok(1);
        }
        self.inner.read(buf)
    }
}

impl<S: LinkSource> LinkSource for Peeked<S> {
    ghost link = { λ p. S.link p.inner };

    #[tactic(auto, using(crate::proofs::Held::handed_out))]
    fn read_link(&mut self, buf: &mut [u8]) -> Result<usize, Failed> {
        if let Some(byte) = self.held {
            if buf.is_empty() {
                return Ok(0);
            }
            buf[0] = byte;
            self.held = None;
            return Ok(1);
        }
        self.inner.read_link(buf)
    }
}
