//! The sinks of a call are registered (RFC 8166 section 3.4.5).

ghost use Rattle.std.specs.Prelude.{◌≡◌, ℕ, ◌+◌, ◌^◌, ◌<◌, ◌≤◌, ◌++◌, [], ◌∷◌, length, map, All, vec_capacity};
ghost use Rattle.std.specs.FinMap.{get, insert};
ghost use Rattle.nr_header.specs.Constants.{PAYLOAD_MAX};
ghost use Rattle.nr_header.specs.WithinLimits.{read_total};
ghost use Rattle.nr_regions.specs.RegisteredMemory.{claim_of, outside_len, outside_window, window_bytes, AreHeldFrom};
ghost use Rattle.nr_regions.specs.declared.right.Right.TheVariants.{Sink};
ghost use Rattle.nr_endpoint.specs.Calls.{after_call};
ghost use Rattle.nr_endpoint.specs.Calls.Call.{Register};
ghost use Rattle.nr_responder.specs.Fetching.{open_sinks};
ghost use Rattle.nr_responder.specs.private.CallsRead.{sink_buffer, sinks_from, with_registered};
ghost use Rattle.nr_responder.specs.Sound.{claims_of, HasOutside};
ghost use Rattle.nr_responder.specs.Views.{sink_view};

use crate::call::OpenSink;
use nr_endpoint::Endpoint;
use nr_header::ReadSegment;
use nr_regions::Right;
use nr_xdr::Octets;

/// Registers the sink of a chunk under the next STag. There is room for it.
fn register_sink(
    endpoint: &mut Endpoint,
    sinks: &mut Vec<OpenSink>,
    number: u64,
    position: u32,
    buf: Octets,
)
    requires room { 0 < endpoint.old.room }
    requires stags { endpoint.old.link.state.memory.next < 2 ^ 32 }
    requires capacity { length sinks.old.items < vec_capacity sinks.old }
    requires held { AreHeldFrom endpoint.old.link.state.memory 0 (claims_of sinks.old.items) }
    requires short { All (λ s. s.registration.len ≤ PAYLOAD_MAX) sinks.old.items }
    requires len { length buf ≤ PAYLOAD_MAX }
    ensures link { endpoint.new.link ≡ after_call endpoint.old.link (Register buf Sink) }
    ensures sinks { sinks.new.items ≡ sinks.old.items ++ record { number = number; position = position; registration = claim_of endpoint.old.link.state.memory buf } ∷ [] }
    ensures room { endpoint.old.room ≤ endpoint.new.room + 1 }
    ensures capacity { vec_capacity sinks.new ≡ vec_capacity sinks.old }
    ensures held { AreHeldFrom endpoint.new.link.state.memory 0 (claims_of sinks.new.items) }
    ensures short { All (λ s. s.registration.len ≤ PAYLOAD_MAX) sinks.new.items }
    ensures outside { (n : ℕ) → HasOutside endpoint.old n → HasOutside endpoint.new n }
    ensures kept { (stag : ℕ) → stag < endpoint.old.link.state.memory.next → get endpoint.new.outside stag ≡ get endpoint.old.outside stag }
    ensures staging { endpoint.new.staging ≡ endpoint.old.staging }
{
    match endpoint.register(buf, Right::Sink) {
        Ok(registration) => sinks.push_reserved(OpenSink {
            number,
            position,
            registration,
        }),
        Err(_) => unreachable!(),
    }
}

/// Registers a part of a buffer as the sink of a chunk, under the next STag: its `len` bytes from `start` on. There is room for it.
pub(crate) fn register_part(
    endpoint: &mut Endpoint,
    sinks: &mut Vec<OpenSink>,
    number: u64,
    position: u32,
    buf: Octets,
    window: (usize, usize),
)
    requires room { 0 < endpoint.old.room }
    requires stags { endpoint.old.link.state.memory.next < 2 ^ 32 }
    requires capacity { length sinks.old.items < vec_capacity sinks.old }
    requires held { AreHeldFrom endpoint.old.link.state.memory 0 (claims_of sinks.old.items) }
    requires short { All (λ s. s.registration.len ≤ PAYLOAD_MAX) sinks.old.items }
    requires window { window.0 + window.1 ≤ length buf }
    requires small { length buf < 2 ^ 64 }
    requires len { window.1 ≤ PAYLOAD_MAX }
    ensures link { endpoint.new.link ≡ after_call endpoint.old.link (Register (window_bytes window.0 window.1 buf) Sink) }
    ensures sinks { sinks.new.items ≡ sinks.old.items ++ record { number = number; position = position; registration = claim_of endpoint.old.link.state.memory (window_bytes window.0 window.1 buf) } ∷ [] }
    ensures held { AreHeldFrom endpoint.new.link.state.memory 0 (claims_of sinks.new.items) }
    ensures short { All (λ s. s.registration.len ≤ PAYLOAD_MAX) sinks.new.items }
    ensures outside { (n : ℕ) → HasOutside endpoint.old n → HasOutside endpoint.new (n + outside_len (outside_window window.0 window.1 buf)) }
    ensures there { endpoint.new.outside ≡ insert endpoint.old.outside endpoint.old.link.state.memory.next (outside_window window.0 window.1 buf) }
    ensures staging { endpoint.new.staging ≡ endpoint.old.staging }
{
    let (start, len) = window;
    match endpoint.register_window(buf, start, len, Right::Sink) {
        Ok(registration) => sinks.push_reserved(OpenSink {
            number,
            position,
            registration,
        }),
        Err(_) => unreachable!(),
    }
}

/// Registers the sinks of these chunks under the next STags. There is room for them.
pub(crate) fn register_sinks(
    endpoint: &mut Endpoint,
    sinks: &mut Vec<OpenSink>,
    number: u64,
    chunks: &[u32],
    read: &[ReadSegment],
    buffers: Vec<Octets>,
)
    requires room { length chunks.now ≤ endpoint.old.room }
    requires stags { endpoint.old.link.state.memory.next + length chunks.now ≤ 2 ^ 32 }
    requires capacity { length sinks.old.items + length chunks.now ≤ vec_capacity sinks.old }
    requires held { AreHeldFrom endpoint.old.link.state.memory 0 (claims_of sinks.old.items) }
    requires short { All (λ s. s.registration.len ≤ PAYLOAD_MAX) sinks.old.items }
    requires total { read_total read.now ≤ PAYLOAD_MAX }
    requires buffers { buffers.items ≡ map (sink_buffer read.now) chunks.now }
    ensures link { endpoint.new.link ≡ with_registered (sinks_from number endpoint.old.link.state.memory.next read.now chunks.now) endpoint.old.link }
    ensures sinks { map sink_view sinks.new.items ≡ map sink_view sinks.old.items ++ open_sinks (sinks_from number endpoint.old.link.state.memory.next read.now chunks.now) }
    ensures held { AreHeldFrom endpoint.new.link.state.memory 0 (claims_of sinks.new.items) }
    ensures short { All (λ s. s.registration.len ≤ PAYLOAD_MAX) sinks.new.items }
    ensures outside { (n : ℕ) → HasOutside endpoint.old n → HasOutside endpoint.new n }
    ensures kept { (stag : ℕ) → stag < endpoint.old.link.state.memory.next → get endpoint.new.outside stag ≡ get endpoint.old.outside stag }
    ensures staging { endpoint.new.staging ≡ endpoint.old.staging }
{
    let mut buffers = buffers;
    // Only the contract speaks of it.
    let _read = read;
    'chunks: for i in 0..chunks.len() {
        let buf = buffers.remove(0);
        register_sink(endpoint, sinks, number, chunks[i], buf);
    }
}
