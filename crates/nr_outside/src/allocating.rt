//! Memory that the allocator keeps.

use std::alloc::{AllocError, Global};

/// Allocates a block of this many bytes and frees it, if there is memory for it. It is never written, so no page is
/// mapped. The allocator of the GNU C library then keeps up to twice that size of free memory (at most 64 MiB). Before,
/// it returned all but 128 KiB of it to the system, and had to map it again when it was needed next. Without memory for
/// the block nothing changes, and no contract speaks of it.
pub fn raise_trim_threshold(alloc: Global, block_len: usize) {
    let block: Result<Vec<u8>, AllocError> = Vec::with_capacity(alloc, block_len);
    drop(block);
}
