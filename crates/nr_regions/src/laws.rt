//! Laws of registered memory, in the terms of the contracts of [`Regions`](crate::Regions).

ghost use Rattle.std.specs.Prelude.{◌≡◌, ◌≢◌, ℕ, ◌<◌, ◌≤◌, ◌↔◌, List, ◌∷◌, ◌++◌, None, Some, All, length};
ghost use Rattle.nr_regions.specs.Access.{Allowed, Grant, HaveOwnStags, TaggedSegment, contents, grant_at, grant_denial, grant_offer, with_ends};
ghost use Rattle.nr_regions.specs.RegisteredMemory.{Access, Claim, IsHeld, RegisteredMemory, after_invalidate, after_register, after_release, bytes_in, claim_of, denial, held_region, live_region, region_offer};
ghost use Rattle.nr_regions.specs.Events.{MemoryEvent, DeadUntilReleased, IsNoReleaseOf, IsRegisteredAt, IsReleasedAt, StaysOpen, after_event, after_events, tagged_segments};
ghost use Rattle.nr_regions.specs.Events.MemoryEvent.{Register, Release};

use crate::right::Right;

/// A region is held from `register` until its STag is released, whatever else happens. One that was invalidated is held too.
pub fn held_until_release()
    ensures begins { (m : RegisteredMemory) (right : Right) (buf : List ℕ) → IsHeld (after_register m right buf) (claim_of m buf) }
    ensures lasts { (m : RegisteredMemory) (claim : Claim) (event : MemoryEvent) → IsHeld m claim → IsNoReleaseOf claim.stag event →
        IsHeld (after_event m event) claim }
    // From its release on the STag is invalid.
    ensures dead { (m : RegisteredMemory) (stag : ℕ) → live_region (after_release m stag) stag ≡ None }
    // A region that was invalidated is closed until its release, and keeps its bytes.
    ensures invalidated { DeadUntilReleased }
    // No other region is touched by it.
    ensures invalidates_one { (m : RegisteredMemory) (stag other : ℕ) → other ≢ stag → live_region (after_invalidate m stag) other ≡ live_region m other }
    // An STag that was given and is invalid stays invalid.
    ensures stays_closed { (m : RegisteredMemory) (stag : ℕ) (events : List MemoryEvent) → stag < m.next → live_region m stag ≡ None →
        live_region (after_events m events) stag ≡ None }
    ensures rises { (m : RegisteredMemory) (events : List MemoryEvent) → m.next ≤ (after_events m events).next }
{}

/// The grants allow an access if and only if they don't deny it, and memory that offers the same as the grants denies the
/// same.
pub fn allowed_accesses()
    ensures allowed { (grants : List Grant) (access : Access) (end : ℕ) → HaveOwnStags grants →
        Allowed grants access end ↔ (grant_denial grants access end ≡ None) }
    ensures denied { (grants : List Grant) (m : RegisteredMemory) (access : Access) (end : ℕ) →
        region_offer (live_region m access.stag) ≡ grant_offer (grant_at grants access.stag end) → denial m access ≡ grant_denial grants access end }
{}

/// What an open region holds.
pub fn contents_while_open()
    // A region that stays open holds what it held with the payload of each allowed tagged segment over it, the later over
    // the earlier.
    ensures contents { (grants : List Grant) (m : RegisteredMemory) (stag : ℕ) (right : Right) (buf : List ℕ) (events : List MemoryEvent) →
        stag < m.next → live_region m stag ≡ Some (record { right = right; buf = buf }) →
        StaysOpen grants stag right (length buf) events →
        live_region (after_events m events) stag ≡ Some (record { right = right; buf = contents grants stag buf (tagged_segments events) }) }
    // It makes no difference how long after the last tagged segment for the region its grant ends.
    ensures any_end { (grants : List Grant) (stag until later : ℕ) (buf : List ℕ) (segments : List TaggedSegment) →
        All (λ s. s.stag ≡ stag → s.end ≤ until) segments → until ≤ later →
        contents (with_ends stag until grants) stag buf segments ≡ contents (with_ends stag later grants) stag buf segments }
{}

/// What a buffer holds that is given back when its grant ends: what was registered, with the payload of each allowed tagged
/// segment of the complete stream over it, the later over the earlier.
pub fn contents_at_release()
    // The region as it is before the release, by the tagged segments from the registration on, those after the release
    // among them.
    ensures region { (grants : List Grant) (m : RegisteredMemory) (stag until : ℕ) (right : Right) (buf : List ℕ) (before after : List MemoryEvent) →
        stag < m.next → live_region m stag ≡ Some (record { right = right; buf = buf }) →
        IsReleasedAt grants stag right (length buf) until before after →
        live_region (after_events m before) stag ≡ Some (record { right = right; buf = contents grants stag buf (tagged_segments (before ++ Release stag ∷ after)) }) }
    // What `Regions::release` answers, by the tagged segments of the complete stream, those before the registration among
    // them.
    ensures whole_stream { (grants : List Grant) (start : RegisteredMemory) (from until : ℕ) (right : Right) (buf : List ℕ) (before between after : List MemoryEvent) →
        let stag = (after_events start before).next in
        IsRegisteredAt grants stag from before → IsReleasedAt grants stag right (length buf) until between after →
        bytes_in (held_region (after_events start (before ++ Register right buf ∷ between)) stag)
        ≡ contents grants stag buf (tagged_segments (before ++ Register right buf ∷ (between ++ Release stag ∷ after))) }
{}
