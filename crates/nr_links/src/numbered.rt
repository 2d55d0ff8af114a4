ghost use Rattle.std.specs.Prelude.{◌≡◌, ℕ};

use crate::link_halves::{LinkSink, LinkSource};
use nr_outside::{Failed, Sink, Source};
use std::marker::{Brand, PhantomData};

/// The number of a link, for the proof.
pub trait LinkNumber {
    ghost number: { ℕ };
}

impl LinkNumber for Brand {
    ghost number = { 0 };
}

/// The source of the link of this number. The number is a part of the type, so it stays whatever is done with a `&mut` of it.
#[derive(Drop)]
pub struct NumberedSource<S: LinkSource, N: LinkNumber> {
    source: S,
    of: PhantomData<N>,
    ghost is: { S.link source ≡ N.number },
}

/// The sink of the link of this number. The number is a part of the type, so it stays whatever is done with a `&mut` of it.
#[derive(Drop)]
pub struct NumberedSink<K: LinkSink, N: LinkNumber> {
    sink: K,
    of: PhantomData<N>,
    ghost is: { K.link sink ≡ N.number },
}

impl<S: LinkSource, N: LinkNumber> NumberedSource<S, N> {
    /// The same source.
    pub fn new(source: S) -> NumberedSource<S, N>
        requires { S.link source ≡ N.number }
        ensures { result.source ≡ source }
    {
        NumberedSource {
            source,
            of: PhantomData,
        }
    }

    /// The source, which is still that of its link.
    pub fn into_inner(self) -> S
        ensures source { result ≡ self.source }
        ensures number { S.link result ≡ N.number }
    {
        let NumberedSource { source, of: _of } = self;
        source
    }
}

impl<K: LinkSink, N: LinkNumber> NumberedSink<K, N> {
    /// The same sink.
    pub fn new(sink: K) -> NumberedSink<K, N>
        requires { K.link sink ≡ N.number }
        ensures { result.sink ≡ sink }
    {
        NumberedSink {
            sink,
            of: PhantomData,
        }
    }

    /// The sink, which is still that of its link.
    pub fn into_inner(self) -> K
        ensures sink { result ≡ self.sink }
        ensures number { K.link result ≡ N.number }
    {
        let NumberedSink { sink, of: _of } = self;
        sink
    }
}

impl<S: LinkSource, N: LinkNumber> Source for NumberedSource<S, N> {
    ghost faults = { λ n. S.faults n.source };

    ghost left = { λ n. S.left n.source };

    ghost given = { λ n. S.given n.source };

    fn read(&mut self, buf: &mut [u8]) -> Result<usize, Failed> {
        self.source.read_link(buf)
    }
}

impl<K: LinkSink, N: LinkNumber> Sink for NumberedSink<K, N> {
    ghost faults = { λ n. K.faults n.sink };

    ghost taken = { λ n. K.taken n.sink };

    fn write(&mut self, piece: &[u8]) -> Result<usize, Failed> {
        self.sink.write_link(piece)
    }

    fn write_vectored(&mut self, head: &[u8], body: &[u8]) -> Result<usize, Failed> {
        self.sink.write_link_vectored(head, body)
    }
}
