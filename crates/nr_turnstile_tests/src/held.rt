//! A link whose source waits for what its sink is sent.

use nr_links::{LinkSink, LinkSource};
use nr_outside::{Failed, Sink, Source};
use std::alloc::Global;
use std::sync::Arc;
use std::sync::atomic::{AtomicU64, Ordering};
use std::thread;

/// How often a source looks whether it may go on, before it goes on anyway.
const TURNS: u32 = 20_000_000;

/// How many bytes a peer was sent, whether another caller looked while they were written, whether a read waits for what is sent, and whether a wait
/// was given up.
#[derive(Drop)]
pub struct Peer {
    sent: AtomicU64,
    looked: AtomicU64,
    reading: AtomicU64,
    late: AtomicU64,
}

impl Peer {
    pub fn new() -> Peer {
        Peer {
            sent: AtomicU64::new(0),
            looked: AtomicU64::new(0),
            reading: AtomicU64::new(0),
            late: AtomicU64::new(0),
        }
    }

    /// Waits until so many bytes were sent, or the turns are used up.
    pub fn wait(&self, until: u64) {
        self.wait_for(&self.sent, until);
    }

    /// Waits until a read waits for what is sent, or the turns are used up.
    pub fn wait_for_read(&self) {
        self.wait_for(&self.reading, 1);
    }

    /// Whether the turns were used up of a wait.
    pub fn is_late(&self) -> bool {
        self.late.load(Ordering::SeqCst) != 0
    }

    fn wait_for(&self, count: &AtomicU64, until: u64) {
        for _ in 0..TURNS {
            if count.load(Ordering::SeqCst) >= until {
                return;
            }
            thread::yield_now();
        }
        self.late.store(1, Ordering::SeqCst);
    }

    /// Says that a read waits, or a dial.
    pub fn read_begins(&self) {
        self.reading.store(1, Ordering::SeqCst);
    }

    /// Waits until a caller has looked, or the turns are used up.
    pub fn wait_for_look(&self) {
        self.wait_for(&self.looked, 1);
    }

    /// Says that a caller has looked.
    pub fn look(&self) {
        self.looked.store(1, Ordering::SeqCst);
    }
}

/// A source that gives what another gives. From this read on it waits until the peer was sent so many bytes.
#[derive(Drop)]
pub struct HeldSource<S> {
    pub inner: S,
    pub peer: Arc<Peer, Global>,
    pub reads: u64,
    pub from: u64,
    pub until: u64,
}

impl<S: Source> Source for HeldSource<S> {
    ghost faults = { λ s. S.faults s.inner };

    ghost left = { λ s. S.left s.inner };

    ghost given = { λ s. S.given s.inner };

    fn read(&mut self, buf: &mut [u8]) -> Result<usize, Failed> {
        if self.reads >= self.from {
            self.peer.reading.store(1, Ordering::SeqCst);
            self.peer.wait(self.until);
        }
        self.reads = self.reads.saturating_add(1);
        self.inner.read(buf)
    }
}

impl<S: Source> LinkSource for HeldSource<S> {
    ghost link = { λ s. 0 };

    fn read_link(&mut self, buf: &mut [u8]) -> Result<usize, Failed> {
        self.read(buf)
    }
}

/// A sink that takes what another takes, and counts it for the peer. If it is held, it then waits until another caller has looked.
#[derive(Drop)]
pub struct HeldSink<K> {
    pub inner: K,
    pub peer: Arc<Peer, Global>,
    pub sent: u64,
    pub is_held: bool,
}

impl<K: Sink> Sink for HeldSink<K> {
    ghost faults = { λ s. K.faults s.inner };

    ghost taken = { λ s. K.taken s.inner };

    fn write(&mut self, piece: &[u8]) -> Result<usize, Failed> {
        match self.inner.write(piece) {
            Ok(n) => {
                self.sent = self.sent.saturating_add(n as u64);
                self.peer.sent.store(self.sent, Ordering::SeqCst);
                if self.is_held {
                    self.peer.wait_for(&self.peer.looked, 1);
                }
                Ok(n)
            }
            Err(Failed) => Err(Failed),
        }
    }
}

impl<K: Sink> LinkSink for HeldSink<K> {
    ghost link = { λ s. 0 };

    fn write_link(&mut self, piece: &[u8]) -> Result<usize, Failed> {
        self.write(piece)
    }

    fn write_link_vectored(&mut self, head: &[u8], body: &[u8]) -> Result<usize, Failed> {
        self.write_vectored(head, body)
    }
}
