//! The length of an encoded header, by its lists.

ghost use Rattle.std.specs.Prelude.{◌≡◌, ◌^◌, ◌<◌, length, All};
ghost use Rattle.nr_header.specs.Header.{ChunksFit};
ghost use Rattle.nr_header.specs.Length.{read_list_len, write_chunk_len, reply_chunk_len, write_list_len, reply_len, header_len};

use crate::constants::{HEADER_LEN_MIN, READ_SEGMENT_LEN, SEGMENT_LEN};
use crate::header::{Chunk, ChunkLists};

/// The bytes that this many entries of a read list take in a header (RFC 8166 section 4.3.1).
pub fn read_list_len(entries: usize) -> u128
    ensures is { result ≡ read_list_len entries }
    ensures small { result < 2 ^ 100 }
{
    READ_SEGMENT_LEN as u128 * entries as u128
}

/// The bytes that a chunk of this many segments takes in the write list of a header (RFC 8166 section 4.3.2).
pub fn write_chunk_len(segments: usize) -> u128
    ensures is { result ≡ write_chunk_len segments }
    ensures small { result < 2 ^ 100 }
{
    8 + SEGMENT_LEN as u128 * segments as u128
}

/// The bytes that a reply chunk of this many segments adds to a header without one (RFC 8166 section 4.3.3).
pub fn reply_chunk_len(segments: usize) -> u128
    ensures is { result ≡ reply_chunk_len segments }
    ensures small { result < 2 ^ 100 }
{
    4 + SEGMENT_LEN as u128 * segments as u128
}

fn write_list_len(chunks: &[Chunk]) -> u128
    requires { All (λ chunk. length chunk < 2 ^ 32) chunks.now }
    ensures is { result ≡ write_list_len chunks.now }
    ensures small { result < 2 ^ 101 }
{
    let mut total: u128 = 0;
    for chunk in chunks {
        total += write_chunk_len(chunk.len());
    }
    total
}

fn reply_len(reply: &Option<Chunk>) -> u128
    ensures is { result ≡ reply_len reply.now }
    ensures small { result < 2 ^ 100 }
{
    match reply {
        Some(chunk) => reply_chunk_len(chunk.len()),
        None => 0,
    }
}

/// The length of a header with these lists, of RDMA_MSG or RDMA_NOMSG, in bytes (RFC 8166 section 4.3): that of what
/// [`crate::write_with_lists`] writes.
pub fn header_len(lists: &ChunkLists) -> u128
    requires { ChunksFit lists.now }
    ensures { result ≡ header_len lists.now }
{
    HEADER_LEN_MIN as u128
        + read_list_len(lists.read.len())
        + write_list_len(lists.write.as_slice())
        + reply_len(&lists.reply)
}
