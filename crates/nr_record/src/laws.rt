//! Laws of record marking.

ghost use Rattle.std.specs.Prelude.{◌≡◌, ℕ, List, [], None};
ghost use Rattle.std.specs.List.{AllByRecursion};
ghost use Rattle.nr_record.specs.Records.{IsShort, RecordsEncode, encodings, as_one, contents};
ghost use Rattle.nr_record.specs.RecordsState.{RecordsState, RepresentsStream, IsInLimit, IsOutOfMemory, read_in, rest_in};

/// A stream encodes its records in exactly one way.
pub fn one_reading()
    ensures { (bytes : List ℕ) (records others : List (List ℕ)) (rest left : List ℕ) →
        RecordsEncode bytes records rest → RecordsEncode bytes others left → (records ≡ others) × (rest ≡ left) }
{}

/// What is written is read back: records, each as one fragment, and nothing after them. A value that is fed them, of at most
/// 1056768 bytes each, has no fault and gives exactly them, unless memory runs out.
pub fn written_again()
    ensures read { (k : RecordsState) (records : List (List ℕ)) (taken : ℕ) (s : RepresentsStream k (encodings (as_one records)) taken) →
        AllByRecursion IsInLimit records → ¬ (IsOutOfMemory k) → (k.fault ≡ None) × (contents s.cuts ≡ records) × (rest_in s ≡ []) }
    ensures encoded { (records : List (List ℕ)) → AllByRecursion IsShort records → RecordsEncode (encodings (as_one records)) records [] }
{}

/// The records that a value gives are those that the bytes that it read encode. Without a fault, all bytes were read.
pub fn records_of_the_stream()
    ensures records { (k : RecordsState) (stream : List ℕ) (taken : ℕ) (s : RepresentsStream k stream taken) → RecordsEncode (read_in s) (contents s.cuts) (rest_in s) }
    ensures all { (k : RecordsState) (stream : List ℕ) (taken : ℕ) (s : RepresentsStream k stream taken) → k.fault ≡ None → read_in s ≡ stream }
{}

/// However a stream is cut into pieces, its records are the same, and so is its fault, unless memory runs out.
pub fn however_cut()
    ensures { (k l : RecordsState) (stream : List ℕ) (i j : ℕ) (s : RepresentsStream k stream i) (t : RepresentsStream l stream j) →
        ¬ (IsOutOfMemory k) → ¬ (IsOutOfMemory l) → (contents s.cuts ≡ contents t.cuts) × (k.fault ≡ l.fault) }
{}
