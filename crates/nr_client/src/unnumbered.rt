//! The source and the sink of the only link of a requester, which needs no number.

use nr_links::{LinkSink, LinkSource};
use nr_outside::{Failed, Sink, Source};

/// A source as that of link 0. Its requester has no other link, since it isn't dialled again.
#[derive(Drop)]
pub(crate) struct UnnumberedSource<I: Source> {
    pub(crate) source: I,
}

/// A sink as that of link 0. Its requester has no other link, since it isn't dialled again.
#[derive(Drop)]
pub(crate) struct UnnumberedSink<O: Sink> {
    pub(crate) sink: O,
}

impl<I: Source> Source for UnnumberedSource<I> {
    ghost faults = { λ s. I.faults s.source };

    ghost left = { λ s. I.left s.source };

    ghost given = { λ s. I.given s.source };

    fn read(&mut self, buf: &mut [u8]) -> Result<usize, Failed> {
        self.source.read(buf)
    }
}

impl<O: Sink> Sink for UnnumberedSink<O> {
    ghost faults = { λ s. O.faults s.sink };

    ghost taken = { λ s. O.taken s.sink };

    fn write(&mut self, piece: &[u8]) -> Result<usize, Failed> {
        self.sink.write(piece)
    }

    fn write_vectored(&mut self, head: &[u8], body: &[u8]) -> Result<usize, Failed> {
        self.sink.write_vectored(head, body)
    }
}

impl<I: Source> LinkSource for UnnumberedSource<I> {
    ghost link = { λ s. 0 };

    fn read_link(&mut self, buf: &mut [u8]) -> Result<usize, Failed> {
        self.source.read(buf)
    }
}

impl<O: Sink> LinkSink for UnnumberedSink<O> {
    ghost link = { λ s. 0 };

    fn write_link(&mut self, piece: &[u8]) -> Result<usize, Failed> {
        self.sink.write(piece)
    }

    fn write_link_vectored(&mut self, head: &[u8], body: &[u8]) -> Result<usize, Failed> {
        self.sink.write_vectored(head, body)
    }
}
