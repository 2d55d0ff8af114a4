//! Input and output: sources and sinks of bytes.
//!
//! Everything that the project reads and writes passes through two traits, [`Source`] and [`Sink`]. Each object counts
//! its faults. A call answers [`Failed`] only if the count of that object rises, so a layer above can show that a
//! failure came from outside. A count has risen if it is greater than before, or at its maximum, 2^64 - 1.
//!
//! Contracts say something of an object's bytes if the bytes are known to the proof. In memory they are: [`MemSource`] and
//! [`MemSink`] fail at the calls that a list names, and a [`Pipe`] hands out what was written to it and keeps all of it.
//! [`StdSource`] and [`StdSink`] are adapters over a reader and a writer of std. They count faults; their bytes are
//! unknown. [`read_whole`] and [`write_whole`] move a complete input or output, and [`write_whole_vectored`] one of two pieces.
//!
//! [`Moment`] is a moment of a clock. [`raise_trim_threshold`] has the C library's allocator keep more free memory.
//!
//! The crate stands on no other crate of the project, and each crate above that reads or writes stands on it. It opens
//! nothing: its callers hand in the source and the sink.
#![tactic(auto)]

mod allocating;
mod byte_pipe;
mod copying;
mod mem_sink;
mod mem_source;
mod moment;
mod std_sink;
mod std_source;
mod traits;
mod whole;

pub use allocating::raise_trim_threshold;
pub use byte_pipe::Pipe;
pub use mem_sink::MemSink;
pub use mem_source::MemSource;
pub use moment::Moment;
pub use std_sink::StdSink;
pub use std_source::StdSource;
pub use traits::{Failed, Sink, Source};
pub use whole::{INPUT_MAX, ReadEnd, read_whole, write_whole, write_whole_vectored};
