//! Why a side of a link takes no more input.

use nr_regions::Denied;

/// Why a side of a link takes no more input.
#[derive(Clone, Copy, Debug, PartialEq, Eq)]
pub enum End {
    /// The hello or FPDU at byte `at` of the stream is refused, for a reason of the link's table.
    Bad { at: u64, reason: u32 },
    /// An access to registered memory isn't allowed: a Write or Read Response into it, or a Read Request out of it.
    Denied { stag: u32, offset: u64, why: Denied },
    /// A Send found no receive buffer.
    NoBuffer { msn: u32 },
    /// The peer ended the link for this reason.
    Terminated { reason: u32 },
    /// Memory ran out.
    Memory,
}
