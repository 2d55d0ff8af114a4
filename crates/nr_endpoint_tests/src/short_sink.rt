//! A sink that takes a few bytes a call.

ghost use Rattle.std.specs.Prelude.{Some};

use nr_outside::{Failed, MemSink, Sink};

/// Takes at most one byte more than `more` a call.
#[derive(Drop)]
pub struct ShortSink {
    pub sink: MemSink,
    pub more: usize,
}

impl Sink for ShortSink {
    ghost faults = { λ s. s.sink.faults };

    ghost taken = { λ s. Some s.sink.bytes };

    fn write(&mut self, piece: &[u8]) -> Result<usize, Failed> {
        if piece.len() <= self.more {
            return self.sink.write(piece);
        }
        let (front, _) = piece.split_at(self.more + 1);
        self.sink.write(front)
    }
}
