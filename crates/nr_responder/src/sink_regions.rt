//! The regions into which calls are read (RFC 8166 section 3.4.5).

ghost use Rattle.std.specs.Prelude.{◌≡◌, ℕ, ◌+◌, ◌<◌, ◌≤◌, ◌==◌, ◌&&◌, map, find, length, take, drop, get_or, ◌++◌, All, [], ◌∷◌, Some, None, IfSome, true};
ghost use Rattle.std.specs.List.{list_any, remove};
ghost use Rattle.std.specs.FinMap.{get};
ghost use Rattle.nr_header.specs.Constants.{PAYLOAD_MAX};
ghost use Rattle.nr_regions.specs.RegisteredMemory.{Outside, buffer_around, bytes_in, held_region, outside_len, AreHeldFrom};
ghost use Rattle.nr_reduce.specs.ServerReads.{is_read_at};
ghost use Rattle.nr_responder.specs.Fetching.{is_sink};
ghost use Rattle.nr_responder.specs.private.Reading.{is_sink_over, left_sinks, over_sinks, sink_bytes, with_released};
ghost use Rattle.nr_responder.specs.Sound.{claims_of, HasOutside, KeepsOutside};
ghost use Rattle.nr_responder.specs.Views.{call_view, read_view, sink_view};

use crate::call::{OpenSink, Pending, ReadEntry, has_number, is_read};
use nr_endpoint::Endpoint;
use nr_xdr::Octets;

/// The place of the first sink of a call at a position.
pub(crate) fn sink_place(sinks: &[OpenSink], number: u64, position: u32) -> Option<usize>
    ensures some { IfSome result (λ at. (at < length sinks.now) × ((d : OpenSink) → find (is_sink number position) (map sink_view sinks.now) ≡ Some (sink_view (get_or sinks.now at d)))) }
    ensures none { result ≡ None → find (is_sink number position) (map sink_view sinks.now) ≡ None }
{
    'sinks: for i in 0..sinks.len() {
        let sink = &sinks[i];
        if sink.number == number && sink.position == position {
            return Some(i);
        }
    }
    None
}

/// Whether the call whose Send has this number has a sink.
pub(crate) fn has_sink(sinks: &[OpenSink], number: u64) -> bool
    ensures { result ≡ list_any (λ s. s.number == number) sinks.now }
{
    sinks.iter().any(|s| s.number == number)
}

/// The bytes of the sink of a call at a position; none if it has no sink there.
pub(crate) fn sink_bytes<'a>(
    endpoint: &'a Endpoint,
    sinks: &'a [OpenSink],
    number: u64,
    position: u32,
) -> &'a [u8]
    requires held { AreHeldFrom endpoint.now.link.state.memory 0 (claims_of sinks.now) }
    requires short { All (λ s. s.registration.len ≤ PAYLOAD_MAX) sinks.now }
    ensures bytes { result.now ≡ sink_bytes endpoint.now.link.state.memory (map sink_view sinks.now) number position }
    ensures short { length result.now ≤ PAYLOAD_MAX }
{
    match sink_place(sinks, number, position) {
        Some(at) => endpoint.regions().bytes(&sinks[at].registration),
        None => &[],
    }
}

fn has_read_at(reads: &[ReadEntry], number: u64, position: u32) -> bool
    ensures { result ≡ list_any (λ r. r.number == number && r.position == position) reads.now }
{
    reads
        .iter()
        .any(|r| r.number == number && r.position == position)
}

/// Whether nothing is left to be read for a call's chunk at a position.
pub(crate) fn is_read_at(reads: &[ReadEntry], number: u64, position: u32) -> bool
    ensures { result ≡ is_read_at (map read_view reads.now) number position }
{
    !has_read_at(reads, number, position)
}

/// Whether a sink is over: nothing is left to be read for its call, or for its position if the call isn't pending.
fn is_sink_over(calls: &[Pending], reads: &[ReadEntry], sink: &OpenSink) -> bool
    ensures { result ≡ is_sink_over (map call_view calls.now) (map read_view reads.now) (sink_view sink.now) }
{
    if has_number(calls, sink.number) {
        return is_read(reads, sink.number);
    }
    is_read_at(reads, sink.number, sink.position)
}

/// Releases the sink at this place, and gives its buffer.
fn release_at(endpoint: &mut Endpoint, sinks: &mut Vec<OpenSink>, at: usize) -> Octets
    requires at { at < length sinks.old.items }
    requires held { AreHeldFrom endpoint.old.link.state.memory 0 (claims_of sinks.old.items) }
    ensures bytes { (d : OpenSink) → result ≡ buffer_around (get endpoint.old.outside (get_or sinks.old.items at d).registration.stag) (bytes_in (held_region endpoint.old.link.state.memory (get_or sinks.old.items at d).registration.stag)) }
    ensures link { (d : OpenSink) → endpoint.new.link ≡ with_released (sink_view (get_or sinks.old.items at d) ∷ []) endpoint.old.link }
    ensures less { (d : OpenSink) (o : Outside) (n : ℕ) → get endpoint.old.outside (get_or sinks.old.items at d).registration.stag ≡ Some o → HasOutside endpoint.old (outside_len o + n) → HasOutside endpoint.new n }
    ensures sinks { sinks.new.items ≡ remove sinks.old.items at }
    ensures held { AreHeldFrom endpoint.new.link.state.memory 0 (claims_of sinks.new.items) }
    ensures outside { (n : ℕ) → HasOutside endpoint.old n → HasOutside endpoint.new n }
    ensures kept { KeepsOutside endpoint.old endpoint.new }
    ensures staging { endpoint.new.staging ≡ endpoint.old.staging }
{
    let sink = sinks.remove(at);
    endpoint.release_buffer(sink.registration)
}

/// Releases the sink at this place if it is over, and answers the place of the next one.
fn close_at(
    endpoint: &mut Endpoint,
    sinks: &mut Vec<OpenSink>,
    at: usize,
    calls: &[Pending],
    reads: &[ReadEntry],
) -> usize
    requires at { at < length sinks.old.items }
    requires held { AreHeldFrom endpoint.old.link.state.memory 0 (claims_of sinks.old.items) }
    requires short { All (λ s. s.registration.len ≤ PAYLOAD_MAX) sinks.old.items }
    ensures left { take result (map sink_view sinks.new.items) ++ left_sinks (map call_view calls.now) (map read_view reads.now) (drop result (map sink_view sinks.new.items))
        ≡ take at (map sink_view sinks.old.items) ++ left_sinks (map call_view calls.now) (map read_view reads.now) (drop at (map sink_view sinks.old.items)) }
    ensures link { with_released (over_sinks (map call_view calls.now) (map read_view reads.now) (drop result (map sink_view sinks.new.items))) endpoint.new.link
        ≡ with_released (over_sinks (map call_view calls.now) (map read_view reads.now) (drop at (map sink_view sinks.old.items))) endpoint.old.link }
    ensures count { length sinks.new.items + (at + 1) ≡ result + length sinks.old.items }
    ensures held { AreHeldFrom endpoint.new.link.state.memory 0 (claims_of sinks.new.items) }
    ensures short { All (λ s. s.registration.len ≤ PAYLOAD_MAX) sinks.new.items }
    ensures outside { (n : ℕ) → HasOutside endpoint.old n → HasOutside endpoint.new n }
    ensures kept { KeepsOutside endpoint.old endpoint.new }
    ensures staging { endpoint.new.staging ≡ endpoint.old.staging }
{
    if !is_sink_over(calls, reads, &sinks[at]) {
        return at + 1;
    }
    let _ = release_at(endpoint, sinks, at);
    at
}

/// Releases the sinks that are over.
pub(crate) fn close_over(
    endpoint: &mut Endpoint,
    sinks: &mut Vec<OpenSink>,
    calls: &[Pending],
    reads: &[ReadEntry],
)
    requires held { AreHeldFrom endpoint.old.link.state.memory 0 (claims_of sinks.old.items) }
    requires short { All (λ s. s.registration.len ≤ PAYLOAD_MAX) sinks.old.items }
    ensures link { endpoint.new.link ≡ with_released (over_sinks (map call_view calls.now) (map read_view reads.now) (map sink_view sinks.old.items)) endpoint.old.link }
    ensures sinks { map sink_view sinks.new.items ≡ left_sinks (map call_view calls.now) (map read_view reads.now) (map sink_view sinks.old.items) }
    ensures held { AreHeldFrom endpoint.new.link.state.memory 0 (claims_of sinks.new.items) }
    ensures short { All (λ s. s.registration.len ≤ PAYLOAD_MAX) sinks.new.items }
    ensures outside { (n : ℕ) → HasOutside endpoint.old n → HasOutside endpoint.new n }
    ensures kept { KeepsOutside endpoint.old endpoint.new }
    ensures staging { endpoint.new.staging ≡ endpoint.old.staging }
{
    let mut at = 0;
    'sinks: for _ in 0..sinks.len() {
        at = close_at(endpoint, sinks, at, calls, reads);
    }
}

/// Releases the sink at this place, which is over, and the others that are over; and gives its buffer.
pub(crate) fn close_with(
    endpoint: &mut Endpoint,
    sinks: &mut Vec<OpenSink>,
    at: usize,
    calls: &[Pending],
    reads: &[ReadEntry],
) -> Octets
    requires at { at < length sinks.old.items }
    requires over { (d : OpenSink) → is_sink_over (map call_view calls.now) (map read_view reads.now) (sink_view (get_or sinks.old.items at d)) ≡ true }
    requires held { AreHeldFrom endpoint.old.link.state.memory 0 (claims_of sinks.old.items) }
    requires short { All (λ s. s.registration.len ≤ PAYLOAD_MAX) sinks.old.items }
    ensures bytes { (d : OpenSink) → result ≡ buffer_around (get endpoint.old.outside (get_or sinks.old.items at d).registration.stag) (bytes_in (held_region endpoint.old.link.state.memory (get_or sinks.old.items at d).registration.stag)) }
    ensures link { endpoint.new.link ≡ with_released (over_sinks (map call_view calls.now) (map read_view reads.now) (map sink_view sinks.old.items)) endpoint.old.link }
    ensures sinks { map sink_view sinks.new.items ≡ left_sinks (map call_view calls.now) (map read_view reads.now) (map sink_view sinks.old.items) }
    ensures held { AreHeldFrom endpoint.new.link.state.memory 0 (claims_of sinks.new.items) }
    ensures short { All (λ s. s.registration.len ≤ PAYLOAD_MAX) sinks.new.items }
    ensures less { (d : OpenSink) (o : Outside) (n : ℕ) → get endpoint.old.outside (get_or sinks.old.items at d).registration.stag ≡ Some o → HasOutside endpoint.old (outside_len o + n) → HasOutside endpoint.new n }
    ensures kept { KeepsOutside endpoint.old endpoint.new }
    ensures staging { endpoint.new.staging ≡ endpoint.old.staging }
{
    let buffer = release_at(endpoint, sinks, at);
    close_over(endpoint, sinks, calls, reads);
    buffer
}
