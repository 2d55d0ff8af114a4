ghost use Rattle.std.specs.Prelude.{◌≡◌, ◌≤◌, None, IfOk};
ghost use Rattle.nr_links.specs.Links.{CountsLost};
ghost use Rattle.nr_outside.specs.Faults.{next_count};

use crate::counted::Counted;
use nr_outside::{Failed, Sink, StdSource};
use std::io;
use std::io::{IoSlice, Write};
use std::net::{Shutdown, TcpStream};
use std::time::Duration;

/// The half of a stream that sends. When it is dropped it shuts its direction down, so that the peer reads what was sent
/// and then the end, also if the stream still has bytes that nobody read.
///
/// Each error of the stream is a fault, `Interrupted` included, and so is a write that takes nothing of bytes that it was given.
/// A vectored write is one call of the system.
pub struct SendHalf {
    stream: TcpStream,
    faults: u64,
}

/// The source of a link over TCP.
pub type TcpSource = Counted<StdSource<TcpStream>>;

/// The sink of a link over TCP.
pub type TcpSink = Counted<SendHalf>;

impl Drop for SendHalf {
    fn drop(self) {
        let SendHalf {
            stream,
            faults: _faults,
        } = self;
        let _ = stream.shutdown(Shutdown::Write);
        drop(stream);
    }
}

impl SendHalf {
    /// A half with no faults so far.
    fn new(stream: TcpStream) -> SendHalf
        ensures { result.faults ≡ 0 }
    {
        SendHalf { stream, faults: 0 }
    }

    /// Counts a fault.
    fn failed(&mut self) -> Failed
        ensures counted { self.new.faults ≡ next_count self.old.faults }
        ensures never_falls { self.old.faults ≤ self.new.faults }
    {
        self.faults = self.faults.saturating_add(1);
        Failed
    }
}

impl Sink for SendHalf {
    ghost faults = { λ s. s.faults };

    ghost taken = { λ _. None };

    fn write(&mut self, piece: &[u8]) -> Result<usize, Failed> {
        match self.stream.write(piece) {
            Ok(n) if n > 0 || piece.is_empty() => Ok(n),
            _ => Err(self.failed()),
        }
    }

    fn write_vectored(&mut self, head: &[u8], body: &[u8]) -> Result<usize, Failed> {
        let pieces = [IoSlice::new(head), IoSlice::new(body)];
        match self.stream.write_vectored(&pieces) {
            Ok(n) if n > 0 || (head.is_empty() && body.is_empty()) => Ok(n),
            _ => Err(self.failed()),
        }
    }
}

/// Both halves of a stream, as the link of this number. It sends each write at once, and a read or a write that waits longer
/// than this many seconds fails.
pub(crate) fn halves(
    stream: TcpStream,
    number: u64,
    idle_seconds: u64,
) -> io::Result<(TcpSource, TcpSink)>
    ensures source { IfOk result (λ link. (link.0.faults ≡ 0) × (link.0.link ≡ number)) }
    ensures sink { IfOk result (λ link. (link.1.faults ≡ 0) × (link.1.link ≡ number)) }
{
    let limit = Some(Duration::from_secs(idle_seconds));
    stream.set_nodelay(true)?;
    stream.set_read_timeout(limit)?;
    stream.set_write_timeout(limit)?;
    let other = stream.try_clone()?;
    Ok((
        Counted::new(StdSource::new(stream), number),
        Counted::new(SendHalf::new(other), number),
    ))
}

/// The count of lost links, after this link. Closes the stream.
pub(crate) fn closed(lost: u64, source: TcpSource, sink: TcpSink) -> u64
    ensures counted { CountsLost source.faults sink.faults lost result }
{
    if source.faults() > 0 || sink.faults() > 0 {
        lost.saturating_add(1)
    } else {
        lost
    }
}
