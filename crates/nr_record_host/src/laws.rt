//! Laws of record connections. Nothing here runs.

ghost use Rattle.std.specs.Prelude.{◌≡◌, ◌<◌, ℕ, List, Some, length};
ghost use Rattle.std.specs.List.{AllByRecursion};
ghost use Rattle.nr_links.specs.Limits.{read_max};
ghost use Rattle.nr_outside.specs.Faults.{Rises};
ghost use Rattle.nr_record.specs.Records.{Cut, contents, encodings};
ghost use Rattle.nr_record.specs.RecordsState.{IsContentInLimit};
ghost use Rattle.nr_record_host.specs.RecordRuns.{Around, IsRecordsServed, SinkCount, SourceCount};
ghost use Rattle.nr_record_host.specs.Completing.{HasCallHead, IsComplete};
ghost use Rattle.nr_record_host.specs.declared.record_end.RecordEnd.{RecordEnd};

/// A connection whose source is known to be the encodings of some records (RFC 5531 section 11), each within the limit
/// and with a call head, in all fewer than 2^40 bytes, ends with `Closed` and has answered all of them, unless memory
/// runs out or a fault count of its source or its sink rises.
pub fn record_connections_complete()
    ensures { (before after : Around) (end : RecordEnd) (cuts : List Cut) (reads reads' writes writes' : ℕ) →
        before.left ≡ Some (encodings cuts) → AllByRecursion IsContentInLimit cuts → AllByRecursion HasCallHead (contents cuts) → length (encodings cuts) < read_max →
        IsRecordsServed before after end → SourceCount end reads reads' → SinkCount end writes writes' → ¬ (Rises reads reads') → ¬ (Rises writes writes') →
        IsComplete before after (contents cuts) end }
{}
