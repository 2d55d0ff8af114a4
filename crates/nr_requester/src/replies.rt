//! What a reply brings for its call, by its stream and its chunks (RFC 8166 section 3.4).

ghost use Rattle.std.specs.Prelude.{◌≡◌, ℕ, ◌+◌, ◌^◌, ◌<◌, ◌≤◌, min, List, length, option_map, None, Some, Ok, MatchOption, IfSome, IfOk, IfErr};
ghost use Rattle.nr_rpc.specs.Reading.{reply_of};
ghost use Rattle.nr_reduce.specs.Chunks.{chunk_total, joined_bytes, reply_moved, reply_stream, some_bytes, whole};
ghost use Rattle.nr_reduce.specs.ClientMessages.{reply_by_payload, reply_xid};
ghost use Rattle.nr_reduce.specs.ClientMessages.ReplyVerdict.{GivesOutcome};
ghost use Rattle.nr_reduce.specs.Items.{item_of};
ghost use Rattle.nr_reduce.specs.KeptClient.{bytes_under};
ghost use Rattle.nr_reduce.specs.ReplyParts.{IsReply};
ghost use Rattle.nr_reduce.specs.declared.call.Call.{Call};
ghost use Rattle.nr_reduce.specs.declared.call.Outcome.TheVariants as outcomes;
ghost use Rattle.nr_reduce.specs.declared.item.Of.TheVariants.{Reply as OfReply};
ghost use Rattle.nr_requester.specs.Views.{claim_len};
ghost use Rattle.nr_requester.specs.Judged.{ComesBack, WriteComesBack, ReplyComesBack, Ends, SameCall, outcome_by, LiesWithin, by_stream};

use crate::outstanding::OutstandingCall;
use nr_header::{Chunk, RdmaSegment};
use nr_link::constants::{REASON_CHUNKS, REASON_HEAD, REASON_XID};
use nr_reduce::{
    Item, Of, PayloadBuffer, ReplyParts, rebuild_item_into, reply_item_of, reply_parts,
};
use nr_regions::{Regions, Registration};
use nr_rpc::ReplyHead;

/// What a message brings for its call: nothing, if the call's memory was revoked; a reply, whose payload is the first bytes of the
/// call's room; or an error message (RFC 8166 section 4.5).
#[derive(Clone, Copy)]
pub enum Found {
    /// The call's memory was revoked: nothing is handed over.
    Nothing,
    /// A reply: its payload is the first `len` bytes of the call's room.
    Reply { len: usize },
    /// The error message ERR_CHUNK (RFC 8166 sections 4.5.2, 4.5.3).
    Chunk,
    /// The error message ERR_VERS, with the versions supported (RFC 8166 section 4.5.1).
    Version { low: u32, high: u32 },
}

/// How many bytes came in a chunk.
#[tactic(auto, unfolding(nr_reduce::specs::Chunks::chunk_total))]
fn total(chunk: &[RdmaSegment]) -> u128
    ensures { result ≡ chunk_total chunk.now }
{
    let mut total: u128 = 0;
    for segment in chunk {
        total += u128::from(segment.length);
    }
    total
}

fn at_most(count: u128, len: usize) -> usize
    ensures { result ≡ min count len }
{
    if count < len as u128 {
        return count as usize;
    }
    len
}

/// The bytes that came in a chunk of a region.
fn filled<'a>(regions: &'a Regions, claim: &Option<Registration>, chunk: &[RdmaSegment]) -> &'a [u8]
    requires { ComesBack regions.now.memory claim.now chunk.now }
    ensures bytes { result.now ≡ joined_bytes (bytes_under regions.now.memory) chunk.now }
    ensures len { length result.now ≤ claim_len claim.now }
{
    match claim {
        None => &[],
        Some(registration) => {
            let bytes = regions.bytes(registration);
            let (front, _) = bytes.split_at(at_most(total(chunk), bytes.len()));
            front
        }
    }
}

/// The bytes that came in the first write chunk: none if there is no such chunk.
fn moved<'a>(regions: &'a Regions, claim: &Option<Registration>, written: &[Chunk]) -> &'a [u8]
    requires { WriteComesBack regions.now.memory claim.now written.now }
    ensures bytes { reply_moved (bytes_under regions.now.memory) written.now ≡ some_bytes result.now }
    ensures len { length result.now ≤ claim_len claim.now }
{
    if written.is_empty() {
        return &[];
    }
    filled(regions, claim, written[0].as_slice())
}

/// The stream of a long reply.
pub fn long_stream<'a>(
    regions: &'a Regions,
    claim: &Option<Registration>,
    chunk: Option<&[RdmaSegment]>,
) -> &'a [u8]
    requires { ReplyComesBack regions.now.memory claim.now (option_map (λ segments. segments.now) chunk) }
    ensures bytes { result.now ≡ reply_stream (bytes_under regions.now.memory) None (option_map (λ segments. segments.now) chunk.entry) }
    ensures len { length result.now ≤ claim_len claim.now }
{
    match chunk {
        None => &[],
        Some(chunk) => filled(regions, claim, chunk),
    }
}

fn reply_xid(head: &ReplyHead) -> u32
    ensures { result ≡ reply_xid head.now }
{
    match *head {
        ReplyHead::Accepted { xid, .. } => xid,
        ReplyHead::ProgMismatch { xid, .. } => xid,
        ReplyHead::RpcMismatch { xid, .. } => xid,
        ReplyHead::AuthError { xid, .. } => xid,
    }
}

/// Why the link ends by a reply with this head, if it does: it has another xid.
fn xid_fault(xid: u32, head: &ReplyHead) -> Option<u32>
    ensures { (payload : List ℕ) → reply_of payload ≡ Ok head.now → MatchOption result (reply_by_payload xid (Some payload) ≡ GivesOutcome xid (Some (outcomes.Reply payload))) (λ reason. Ends (reply_by_payload xid (Some payload)) reason) }
{
    if reply_xid(head) == xid {
        None
    } else {
        Some(REASON_XID)
    }
}

/// What a reply brings if nothing moved beside its stream, which is then its payload; or why it ends the link.
fn plain_found(xid: u32, room: &mut PayloadBuffer, stream: &[u8]) -> Result<Found, u32>
    requires room { length stream.now ≤ room.old.len }
    ensures ok { IfOk result (λ f. reply_by_payload xid (Some stream.now) ≡ GivesOutcome xid (outcome_by f room.new.bytes)) }
    ensures within { IfOk result (λ f. LiesWithin f room.new.bytes) }
    ensures err { IfErr result (λ reason. Ends (reply_by_payload xid (Some stream.now)) reason) }
    ensures len { room.new.len ≡ room.old.len }
    ensures bytes { length room.new.bytes ≤ room.new.len }
{
    let _len = room.len();
    let Some(parts) = reply_parts(stream) else {
        return Err(REASON_HEAD);
    };
    match xid_fault(xid, &parts.head) {
        Some(reason) => Err(reason),
        None => {
            room.put(0, stream);
            Ok(Found::Reply { len: stream.len() })
        }
    }
}

/// The item of a reply whose head was read.
fn item_by_head(of: &Of, parts: ReplyParts<'_>) -> Option<Item>
    requires reply { (prog : ℕ) × ((vers : ℕ) × ((proc : ℕ) × (of.now ≡ OfReply prog vers proc))) }
    requires parts { IsReply parts }
    ensures exact { result ≡ item_of of.now parts.entry.payload.now }
    ensures inside { IfSome result (λ i. i.pos ≤ length parts.entry.payload.now) }
{
    match *of {
        Of::Reply { prog, vers, proc } => reply_item_of(prog, vers, proc, parts),
        Of::Call => None,
    }
}

/// The head and the item of a reply's stream; `None` if and only if it has no item. The head is read once.
fn head_and_item(of: &Of, stream: &[u8]) -> Option<(ReplyHead, Item)>
    requires reply { (prog : ℕ) × ((vers : ℕ) × ((proc : ℕ) × (of.now ≡ OfReply prog vers proc))) }
    ensures exact { MatchOption result (item_of of.now stream.now ≡ None) (λ h. (reply_of stream.now ≡ Ok h.0) × (item_of of.now stream.now ≡ Some h.1)) }
    ensures inside { IfSome result (λ h. h.1.pos ≤ length stream.now) }
{
    let Some(parts) = reply_parts(stream) else {
        return None;
    };
    match item_by_head(of, parts) {
        Some(item) => Some((parts.head, item)),
        None => None,
    }
}

/// What a reply brings if these bytes moved beside its stream; or why it ends the link.
fn reduced_found(
    xid: u32,
    room: &mut PayloadBuffer,
    of: &Of,
    stream: &[u8],
    moved: &[u8],
) -> Result<Found, u32>
    requires reply { (prog : ℕ) × ((vers : ℕ) × ((proc : ℕ) × (of.now ≡ OfReply prog vers proc))) }
    requires room { length stream.now + length moved.now + 3 ≤ room.old.len }
    requires few { room.old.len < 2 ^ 32 }
    ensures ok { IfOk result (λ f. reply_by_payload xid (whole of.now stream.now (Some moved.now)) ≡ GivesOutcome xid (outcome_by f room.new.bytes)) }
    ensures within { IfOk result (λ f. LiesWithin f room.new.bytes) }
    ensures err { IfErr result (λ reason. Ends (reply_by_payload xid (whole of.now stream.now (Some moved.now))) reason) }
    ensures len { room.new.len ≡ room.old.len }
    ensures bytes { length room.new.bytes ≤ room.new.len }
{
    let _old = room.len();
    let Some((head, item)) = head_and_item(of, stream) else {
        return Err(REASON_CHUNKS);
    };
    let rebuilt = rebuild_item_into(room, of, Some(item), stream, item.pos as u32, moved);
    let _new = room.len();
    let Ok(len) = rebuilt else {
        return Err(REASON_CHUNKS);
    };
    match xid_fault(xid, &head) {
        Some(reason) => Err(reason),
        None => Ok(Found::Reply { len }),
    }
}

/// What a reply with this stream, and what moved beside it, brings; or why it ends the link.
fn payload_found(
    xid: u32,
    room: &mut PayloadBuffer,
    of: &Of,
    stream: &[u8],
    moved: &[u8],
) -> Result<Found, u32>
    requires reply { (prog : ℕ) × ((vers : ℕ) × ((proc : ℕ) × (of.now ≡ OfReply prog vers proc))) }
    requires room { length stream.now + length moved.now + 3 ≤ room.old.len }
    requires few { room.old.len < 2 ^ 32 }
    ensures ok { IfOk result (λ f. reply_by_payload xid (whole of.now stream.now (some_bytes moved.now)) ≡ GivesOutcome xid (outcome_by f room.new.bytes)) }
    ensures within { IfOk result (λ f. LiesWithin f room.new.bytes) }
    ensures err { IfErr result (λ reason. Ends (reply_by_payload xid (whole of.now stream.now (some_bytes moved.now))) reason) }
    ensures len { room.new.len ≡ room.old.len }
    ensures bytes { length room.new.bytes ≤ room.new.len }
{
    if moved.is_empty() {
        return plain_found(xid, room, stream);
    }
    reduced_found(xid, room, of, stream, moved)
}

/// The item that a reply to a call has; `None` if and only if the call's memory was revoked.
pub fn of_call(call: &OutstandingCall) -> Option<Of>
    ensures { MatchOption result (call.now.call ≡ None) (λ of. (c : Call) × ((call.now.call ≡ Some c) × (of ≡ OfReply c.prog c.vers c.proc))) }
{
    match &call.call {
        None => None,
        Some(call) => Some(Of::Reply {
            prog: call.prog,
            vers: call.vers,
            proc: call.proc,
        }),
    }
}

/// What a reply with this stream and this write list brings for its call, or why it ends the link. Takes no memory.
pub fn reply_found(
    regions: &Regions,
    call: &mut OutstandingCall,
    of: &Of,
    stream: &[u8],
    written: &[Chunk],
) -> Result<Found, u32>
    requires own { (c : Call) × ((call.old.call ≡ Some c) × (of.now ≡ OfReply c.prog c.vers c.proc)) }
    requires written { WriteComesBack regions.now.memory call.old.claims.write written.now }
    requires room { length stream.now + (claim_len call.old.claims.write + 3) ≤ call.old.room.len }
    requires few { call.old.room.len < 2 ^ 32 }
    ensures ok { IfOk result (λ f. (c : Call) → call.old.call ≡ Some c → by_stream call.old.xid c stream.now (reply_moved (bytes_under regions.now.memory) written.now) ≡ GivesOutcome call.old.xid (outcome_by f call.new.room.bytes)) }
    ensures within { IfOk result (λ f. LiesWithin f call.new.room.bytes) }
    ensures err { IfErr result (λ reason. (c : Call) → call.old.call ≡ Some c → Ends (by_stream call.old.xid c stream.now (reply_moved (bytes_under regions.now.memory) written.now)) reason) }
    ensures same { SameCall call.old call.new }
{
    let moved = moved(regions, &call.claims.write, written);
    payload_found(call.xid, &mut call.room, of, stream, moved)
}
