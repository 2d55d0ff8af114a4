//! A source whose first byte was looked at, and is handed out before the others.

ghost use Rattle.std.specs.Prelude.{◌≡◌, ℕ, List, None, Option, Some};
ghost use Rattle.std.specs.Option.{ForSome};

use nr_outside::{Failed, Source};
use std::marker::{Brand, PhantomData};

/// What a look found, for the proof: the first byte of the source, and the bytes that it had left and had handed out
/// then.
pub(crate) trait Look {
    ghost byte: { ℕ };

    ghost left: { Option (List ℕ) };

    ghost given: { Option (List ℕ) };
}

impl Look for Brand {
    ghost byte = { 0 };

    ghost left = { None };

    ghost given = { None };
}

/// A source, and its first byte if that was looked at and not read since: then the source is as it was after the look.
/// What the look found is a part of the type, so it stays whatever is done with a `&mut` of it.
#[derive(Drop)]
pub(crate) struct Looked<S: Source, L: Look> {
    inner: S,
    held: Option<u8>,
    of: PhantomData<L>,
    ghost is: { ForSome held (λ byte. (byte ≡ L.byte) × ((S.left inner ≡ L.left) × (S.given inner ≡ L.given))) },
}

impl<S: Source, L: Look> Looked<S, L> {
    /// The same source, after this byte of it was looked at.
    pub(crate) fn new(inner: S, byte: u8) -> Looked<S, L>
        requires byte { byte ≡ L.byte }
        requires left { S.left inner ≡ L.left }
        requires given { S.given inner ≡ L.given }
        ensures inner { result.inner ≡ inner }
        ensures held { result.held ≡ Some byte }
    {
        Looked {
            inner,
            held: Some(byte),
            of: PhantomData,
        }
    }

    /// The source. A byte that was looked at and not read is lost.
    pub(crate) fn into_inner(self) -> S
        ensures inner { result ≡ self.inner }
        ensures same { ForSome self.held (λ byte. (byte ≡ L.byte) × ((S.left result ≡ L.left) × (S.given result ≡ L.given))) }
    {
        let Looked { inner, .. } = self;
        inner
    }
}

impl<S: Source, L: Look> Source for Looked<S, L> {
    ghost use Rattle.nr_links.specs.Peeked.{given_without, left_with};

    ghost faults = { λ p. S.faults p.inner };

    ghost left = { λ p. left_with p.held (S.left p.inner) };

    ghost given = { λ p. given_without p.held (S.given p.inner) };

    /// The byte that was looked at, alone, and then what the source hands out.
    #[tactic(auto, using(nr_links::proofs::Held::handed_out))]
    fn read(&mut self, buf: &mut [u8]) -> Result<usize, Failed> {
        if let Some(byte) = self.held {
            if buf.is_empty() {
                return Ok(0);
            }
            buf[0] = byte;
            self.held = None;
            return Ok(1);
        }
        self.inner.read(buf)
    }
}
