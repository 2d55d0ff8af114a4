ghost use Rattle.std.specs.Prelude.{◌≡◌, IfOk, IfSome, OnErr, MatchResult, take, drop, length, ◌≤◌, ◌<◌, ◌++◌};
ghost use Rattle.std.specs.Io.KnownBytes.{Appends, Keeps, IsAtEnd};
ghost use Rattle.nr_outside.specs.Content.{HandsOut};
ghost use Rattle.nr_outside.specs.Faults.{next_count};

use crate::link_halves::{LinkSink, LinkSource};
use nr_outside::{Failed, Sink, Source};
use std::marker::Model;

/// The source or the sink of a link, which says how many of its calls failed.
#[derive(Drop)]
pub struct Counted<T> {
    inner: T,
    faults: u64,
    link: u64,
}

impl<T> Model for Counted<T> {
    ghost use Rattle.nr_links.specs.CountedState.{CountedState};

    ghost Value = { CountedState T };

    ghost view = { λ c. record { inner = c.inner; faults = c.faults; link = c.link } };
}

impl<T> Counted<T> {
    /// The same source or sink, with no faults so far, as that of the link of this number.
    pub fn new(inner: T, link: u64) -> Counted<T>
        ensures { result ≡ record { inner = inner; faults = 0; link = link } }
    {
        Counted {
            inner,
            faults: 0,
            link,
        }
    }

    /// How many calls failed, up to 2^64 - 1.
    pub fn faults(&self) -> u64
        ensures { result ≡ self.now.faults }
    {
        self.faults
    }

    /// The source or the sink.
    pub fn inner(&self) -> &T
        ensures { result.now ≡ self.now.inner }
    {
        &self.inner
    }
}

impl<S: Source> Source for Counted<S> {
    ghost faults = { λ c. c.faults };

    ghost left = { λ c. S.left c.inner };

    ghost given = { λ c. S.given c.inner };

    fn read(&mut self, buf: &mut [u8]) -> Result<usize, Failed>
        ensures link { self.new.link ≡ self.old.link }
        ensures bound { IfOk result (λ n. n ≤ length buf.old) }
        ensures handed { IfOk result (λ n. HandsOut (S.left self.old.inner) (S.given self.old.inner) (S.left self.new.inner) (S.given self.new.inner) (take n buf.new)) }
        ensures end { IfOk result (λ n. n ≡ 0 → 0 < length buf.old → IsAtEnd (S.left self.new.inner)) }
        ensures rest { IfOk result (λ n. IfSome (S.left self.old.inner) (λ _. drop n buf.new ≡ drop n buf.old)) }
        ensures err_left { OnErr result (Keeps (S.left self.old.inner) (S.left self.new.inner)) }
        ensures err_given { OnErr result (Keeps (S.given self.old.inner) (S.given self.new.inner)) }
        ensures err_buf { OnErr result (IfSome (S.left self.old.inner) (λ _. buf.new ≡ buf.old)) }
        ensures counted { MatchResult result (λ _. self.new.faults ≡ self.old.faults) (λ _. self.new.faults ≡ next_count self.old.faults) }
        ensures never_falls { self.old.faults ≤ self.new.faults }
    {
        let read = self.inner.read(buf);
        if read.is_err() {
            self.faults = self.faults.saturating_add(1);
        }
        read
    }
}

impl<K: Sink> Sink for Counted<K> {
    ghost faults = { λ c. c.faults };

    ghost taken = { λ c. K.taken c.inner };

    fn write(&mut self, piece: &[u8]) -> Result<usize, Failed>
        ensures link { self.new.link ≡ self.old.link }
        ensures bound { IfOk result (λ n. n ≤ length piece.now) }
        ensures took { IfOk result (λ n. Appends (K.taken self.old.inner) (K.taken self.new.inner) (take n piece.now)) }
        ensures progress { IfOk result (λ n. 0 < length piece.now → 0 < n) }
        ensures err_taken { OnErr result (Keeps (K.taken self.old.inner) (K.taken self.new.inner)) }
        ensures counted { MatchResult result (λ _. self.new.faults ≡ self.old.faults) (λ _. self.new.faults ≡ next_count self.old.faults) }
        ensures never_falls { self.old.faults ≤ self.new.faults }
    {
        let written = self.inner.write(piece);
        if written.is_err() {
            self.faults = self.faults.saturating_add(1);
        }
        written
    }

    fn write_vectored(&mut self, head: &[u8], body: &[u8]) -> Result<usize, Failed>
        ensures link { self.new.link ≡ self.old.link }
        ensures bound { IfOk result (λ n. n ≤ length (head.now ++ body.now)) }
        ensures took { IfOk result (λ n. Appends (K.taken self.old.inner) (K.taken self.new.inner) (take n (head.now ++ body.now))) }
        ensures progress { IfOk result (λ n. 0 < length (head.now ++ body.now) → 0 < n) }
        ensures err_taken { OnErr result (Keeps (K.taken self.old.inner) (K.taken self.new.inner)) }
        ensures counted { MatchResult result (λ _. self.new.faults ≡ self.old.faults) (λ _. self.new.faults ≡ next_count self.old.faults) }
        ensures never_falls { self.old.faults ≤ self.new.faults }
    {
        let written = self.inner.write_vectored(head, body);
        if written.is_err() {
            self.faults = self.faults.saturating_add(1);
        }
        written
    }
}

impl<S: Source> LinkSource for Counted<S> {
    ghost link = { λ c. c.link };

    fn read_link(&mut self, buf: &mut [u8]) -> Result<usize, Failed> {
        self.read(buf)
    }
}

impl<K: Sink> LinkSink for Counted<K> {
    ghost link = { λ c. c.link };

    fn write_link(&mut self, piece: &[u8]) -> Result<usize, Failed> {
        self.write(piece)
    }

    fn write_link_vectored(&mut self, head: &[u8], body: &[u8]) -> Result<usize, Failed> {
        self.write_vectored(head, body)
    }
}
