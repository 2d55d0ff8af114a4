//! The Read Requests that are open.

ghost use Rattle.std.specs.Prelude.{◌≡◌, ◌+◌, ◌-◌, ◌<◌, ◌≤◌, ◌++◌, true, false, All, length, map};
ghost use Rattle.nr_link.specs.SegmentFaults.{is_expected};
ghost use Rattle.nr_endpoint.specs.Judging.{expected_response, reads_after};
ghost use Rattle.nr_endpoint.specs.Views.{expected};
ghost use Rattle.nr_endpoint.specs.Requesting.{FitsSink, response_of};

use crate::constants::OPEN_READS_MAX;
use crate::requests::RemoteRead;
use arrayvec::ArrayVec;

/// A Read Request that is open: its response continues at byte `at` of the own region `sink`, and ends before byte
/// `end`.
#[derive(Clone, Copy, Default)]
pub struct OpenRead {
    /// The STag of the own region into which is read.
    pub sink: u32,
    /// The offset in that region of the next byte that is awaited.
    pub at: u64,
    /// The offset in that region after the last byte that is awaited.
    pub end: u64,
}

/// The open ones, the oldest first.
pub type Reads = ArrayVec<OpenRead, OPEN_READS_MAX>;

/// Whether a Read Response with `n` payload bytes continues the oldest open read at its next offset (RFC 5040
/// section 5.2).
pub fn is_expected(reads: &Reads, last: bool, stag: u32, to: u64, n: u64) -> bool
    ensures { result ≡ is_expected (expected_response (map expected reads.now.items)) last stag to n }
{
    match reads.as_slice().first() {
        None => false,
        Some(read) => {
            let left = read.end.saturating_sub(read.at);
            stag == read.sink && to == read.at && n <= left && last == (n == left)
        }
    }
}

/// After an expected Read Response with `n` payload bytes.
pub fn advance(reads: &mut Reads, last: bool, stag: u32, to: u64, n: u64)
    requires { is_expected (expected_response (map expected reads.old.items)) last stag to n ≡ true }
    ensures { map expected reads.new.items ≡ reads_after last n (map expected reads.old.items) }
{
    if reads.is_empty() {
        return;
    }
    if last {
        reads.remove(0);
    } else {
        let read = reads.as_slice()[0];
        reads.as_mut_slice()[0].at = read.at + n;
    }
}

/// Read Requests that are sent now, after those that are open. There is room for them.
pub fn open_all(reads: &mut Reads, more: &[RemoteRead])
    requires room { length reads.old.items + length more.now ≤ OPEN_READS_MAX }
    requires fits { All FitsSink more.now }
    ensures { map expected reads.new.items ≡ map expected reads.old.items ++ map response_of more.now }
{
    for read in more {
        reads.push(OpenRead {
            sink: read.sink,
            at: read.at,
            end: read.at + read.len as u64,
        });
    }
}
