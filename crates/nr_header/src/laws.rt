//! Laws of headers.

ghost use Rattle.std.specs.Prelude.{◌≡◌, ◌≢◌, ◌<◌, ℕ, Bool, List, ◌++◌, length, drop, Ok, Err, All, ◌↔◌};
ghost use Rattle.nr_xdr.specs.Fields.{word_at};
ghost use Rattle.nr_header.specs.Kinds.{HasFixedWords, IsWholeError};
ghost use Rattle.nr_header.specs.declared.header.Header.{Header};
ghost use Rattle.nr_header.specs.Header.{header_encoding, lists_body, HeaderFits};
ghost use Rattle.nr_header.specs.Length.{header_len};
ghost use Rattle.nr_header.specs.WithinLimits.{CanRead, IsMessage, header_again};
ghost use Rattle.nr_header.specs.Reading.{HeaderBad, HasNoStream, header_of, header_by, in_lists, msg_at, nomsg_at};

use crate::fault::HeaderFault;
use crate::header::{Body, ChunkLists};

/// The encoding of a header within the limits is read as that header; RDMA_MSG with a stream after it.
pub fn header_round_trip()
    ensures { (h : Header) (stream : List ℕ) → HeaderFits h → CanRead h.body stream →
        header_of (header_encoding h ++ stream) ≡ Ok (header_again h) }
{}

/// A message within the limits is bad if and only if it is RDMA_NOMSG without an entry at position 0.
pub fn bad_messages()
    ensures { (h : Header) (bytes : List ℕ) → IsMessage h bytes → HeaderBad bytes ↔ HasNoStream h.body }
{}

/// A header has the length that [`crate::header_len`] gives for its lists, and one that reports an error has 28 or 20 bytes (RFC
/// 8166 sections 4.3, 4.5).
pub fn lengths_of_headers()
    ensures lists { (xid credit : ℕ) (long : Bool) (lists : ChunkLists) →
        length (header_encoding (record { xid = xid; credit = credit; body = lists_body long lists })) ≡ header_len lists }
    ensures versions { (xid credit version low high : ℕ) →
        length (header_encoding (record { xid = xid; credit = credit; body = Body.ErrVers version low high })) ≡ 28 }
    ensures chunk { (xid credit version : ℕ) →
        length (header_encoding (record { xid = xid; credit = credit; body = Body.ErrChunk version })) ≡ 20 }
{}

/// What is read of a message with these first words, and whether it is bad, in the numbers of RFC 8166 section 4.2.
pub fn kinds_of_messages()
    // Fewer than 16 bytes.
    ensures short { (bytes : List ℕ) → length bytes < 16 → (header_of bytes ≡ Err HeaderFault.Short) × ¬ HeaderBad bytes }
    // A version other than 1.
    ensures version { (version kind : ℕ) (bytes : List ℕ) → HasFixedWords version kind bytes → version ≢ 1 → ¬ IsWholeError bytes →
        (header_of bytes ≡ Err (HeaderFault.Version version)) × ¬ HeaderBad bytes }
    // RDMA_MSG and RDMA_NOMSG: as their lists are read.
    ensures msg { (bytes : List ℕ) → HasFixedWords 1 0 bytes →
        header_of bytes ≡ header_by (word_at 0 bytes) (word_at 8 bytes) (in_lists (msg_at (record { place = 16; rest = drop 16 bytes }))) }
    ensures nomsg { (bytes : List ℕ) → HasFixedWords 1 1 bytes →
        header_of bytes ≡ header_by (word_at 0 bytes) (word_at 8 bytes) (in_lists (nomsg_at (record { place = 16; rest = drop 16 bytes }))) }
    // RDMA_MSGP and RDMA_DONE.
    ensures msgp { (bytes : List ℕ) → HasFixedWords 1 2 bytes → (header_of bytes ≡ Err (HeaderFault.Kind 2)) × HeaderBad bytes }
    ensures done { (bytes : List ℕ) → HasFixedWords 1 3 bytes → (header_of bytes ≡ Err (HeaderFault.Kind 3)) × ¬ HeaderBad bytes }
    // RDMA_ERROR: incomplete, with ERR_VERS, with ERR_CHUNK.
    ensures error { (bytes : List ℕ) → HasFixedWords 1 4 bytes → ¬ IsWholeError bytes →
        (header_of bytes ≡ Err (HeaderFault.Kind 4)) × ¬ HeaderBad bytes }
    ensures versions { (bytes : List ℕ) → word_at 12 bytes ≡ 4 → length bytes ≡ 28 → word_at 16 bytes ≡ 1 →
        (header_of bytes ≡ Ok (record {
          xid = word_at 0 bytes;
          credit = word_at 8 bytes;
          body = Body.ErrVers (word_at 4 bytes) (word_at 20 bytes) (word_at 24 bytes);
        })) × ¬ HeaderBad bytes }
    ensures chunk { (bytes : List ℕ) → word_at 12 bytes ≡ 4 → length bytes ≡ 20 → word_at 16 bytes ≡ 2 →
        (header_of bytes ≡ Ok (record {
          xid = word_at 0 bytes;
          credit = word_at 8 bytes;
          body = Body.ErrChunk (word_at 4 bytes);
        })) × ¬ HeaderBad bytes }
    // Any other kind.
    ensures above { (kind : ℕ) (bytes : List ℕ) → HasFixedWords 1 kind bytes → 4 < kind →
        (header_of bytes ≡ Err (HeaderFault.Kind kind)) × HeaderBad bytes }
    // Lists that fail or pass a limit.
    ensures lists { (at : ℕ) (bytes : List ℕ) → header_of bytes ≡ Err (HeaderFault.BadChunks at) → HeaderBad bytes }
    // Messages that are read.
    ensures msg_read { (xid credit at : ℕ) (lists : ChunkLists) (bytes : List ℕ) →
        header_of bytes ≡ Ok (record { xid = xid; credit = credit; body = Body.Msg lists at }) → ¬ HeaderBad bytes }
    ensures nomsg_read { (xid credit : ℕ) (lists : ChunkLists) (bytes : List ℕ) →
        header_of bytes ≡ Ok (record { xid = xid; credit = credit; body = Body.Nomsg lists }) →
        HeaderBad bytes ↔ All (λ r. r.position ≢ 0) lists.read }
{}
