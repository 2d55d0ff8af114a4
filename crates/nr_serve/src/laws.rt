//! A law of servers.

ghost use Rattle.nr_serve.specs.Laws.{OnlyMemoryStops};

/// A server whose input is a configuration of at most 16777216 bytes serves all its connections and prints that, unless memory runs out, or the
/// fault count of the input, of the output or of the acceptor rises.
pub fn only_memory_stops()
    ensures { OnlyMemoryStops }
{}
