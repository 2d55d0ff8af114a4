//! Replies (RFC 5531 section 9).

ghost use Rattle.std.specs.Prelude.{◌≡◌, ◌<◌, length, map, Ok, Err, IfOk, IfErr, OnOk, OnErr};
ghost use Rattle.nr_xdr.specs.Item.Item.{Unsigned};
ghost use Rattle.nr_xdr.specs.Items.{encodings};
ghost use Rattle.nr_xdr.specs.Matching.{MatchesRead};
ghost use Rattle.nr_xdr.specs.Room.{Appended};
ghost use Rattle.nr_rpc.specs.Credential.{no_verifier};
ghost use Rattle.nr_rpc.specs.Reply.{BeginsReply, CanWriteReply, accepted_items, denied_items, reply_head, reply_encoding};
ghost use Rattle.nr_rpc.specs.Reading.{GivesReply, reply_at, reply_of, accepted_at, denied_at};

use crate::constants::{
    AUTH_ERROR, AUTH_NONE, MSG_ACCEPTED, MSG_DENIED, PROG_MISMATCH, REPLY, RPC_MISMATCH,
};
use crate::fault::HeadFault;
use crate::head::ReplyHead;
use crate::item::{auth, expect, pair};
use crate::put::put_words;
use nr_xdr::{DecodeError, Memory, Octets, Reader, RoomWriter, number};
use std::alloc::Global;

/// Reads the reply to a call that was accepted, from the verifier on.
#[tactic(auto, unfolding(crate::specs::Reading::accepted_at, crate::specs::Reading::versions_at))]
fn accepted(reader: &mut Reader<'_>, xid: u32) -> Result<ReplyHead, DecodeError>
    ensures { MatchesRead (λ head. head) result reader.new (accepted_at xid reader.old) }
{
    let _verifier = auth(reader)?;
    let stat = number(reader)?;
    if stat != PROG_MISMATCH {
        return Ok(ReplyHead::Accepted {
            xid,
            stat,
            results_at: reader.at(),
        });
    }
    let (low, high) = pair(reader)?;
    Ok(ReplyHead::ProgMismatch { xid, low, high })
}

/// Reads the reply to a call that was denied, from its status on.
#[tactic(auto, unfolding(crate::specs::Reading::denied_at, crate::specs::Reading::versions_at))]
fn denied(reader: &mut Reader<'_>, xid: u32) -> Result<ReplyHead, DecodeError>
    ensures { MatchesRead (λ head. head) result reader.new (denied_at xid reader.old) }
{
    let at = reader.at();
    match number(reader)? {
        RPC_MISMATCH => {
            let (low, high) = pair(reader)?;
            Ok(ReplyHead::RpcMismatch { xid, low, high })
        }
        AUTH_ERROR => {
            let stat = number(reader)?;
            Ok(ReplyHead::AuthError { xid, stat })
        }
        _ => Err(DecodeError { at }),
    }
}

#[tactic(auto, unfolding(crate::specs::Reading::reply_at))]
fn reply(reader: &mut Reader<'_>) -> Result<ReplyHead, DecodeError>
    ensures { MatchesRead (λ head. head) result reader.new (reply_at reader.old) }
{
    let xid = number(reader)?;
    expect(reader, REPLY)?;
    let at = reader.at();
    match number(reader)? {
        MSG_ACCEPTED => accepted(reader, xid),
        MSG_DENIED => denied(reader, xid),
        _ => Err(DecodeError { at }),
    }
}

#[tactic(auto, unfolding(crate::specs::Reading::reply_of))]
fn read_reply_inner(bytes: &[u8]) -> Result<ReplyHead, HeadFault>
    ensures { GivesReply result (reply_of bytes.now) }
{
    let mut reader = Reader::new(bytes);
    match reply(&mut reader) {
        Ok(head) => Ok(head),
        Err(error) => Err(HeadFault::NotReply { at: error.at }),
    }
}

/// Reads the reply head at the front of the bytes. What follows it is ignored. Takes no memory.
/// `NotReply`: the first item that fails is one that runs past the end (at that item), a message type other than 1, a reply
/// status or reject status other than 0 and 1 (at that word), or the body of a verifier above 400 bytes (at its length).
pub fn read_reply(bytes: &[u8]) -> Result<ReplyHead, HeadFault>
    // The bytes begin with what is read.
    ensures found { IfOk result (λ head. BeginsReply head bytes.now) }
    // What the bytes begin with is read.
    ensures only { (head : ReplyHead) → BeginsReply head bytes.now → result ≡ Ok head }
    // Which fault it is, and at which offset.
    ensures exact { GivesReply result (reply_of bytes.now) }
{
    read_reply_inner(bytes)
}

/// Puts the reply to a call that was accepted at the end: no verifier, which is a flavor and a body of no bytes (RFC 5531
/// section 8.2), then the words of its status.
fn put_accepted(writer: &mut RoomWriter, xid: u32, status: &[u32]) -> Result<(), Memory>
    ensures ok { OnOk result (Appended writer.old writer.new (encodings (accepted_items xid no_verifier (map Unsigned status.now)))) }
    ensures room { OnErr result (writer.old.left < length (encodings (accepted_items xid no_verifier (map Unsigned status.now)))) }
{
    put_words(writer, &[xid, REPLY, MSG_ACCEPTED, AUTH_NONE, 0])?;
    put_words(writer, status)
}

/// Puts the reply to a call that was denied at the end, with the words of its status.
fn put_denied(writer: &mut RoomWriter, xid: u32, status: &[u32]) -> Result<(), Memory>
    ensures ok { OnOk result (Appended writer.old writer.new (encodings (denied_items xid (map Unsigned status.now)))) }
    ensures room { OnErr result (writer.old.left < length (encodings (denied_items xid (map Unsigned status.now)))) }
{
    put_words(writer, &[xid, REPLY, MSG_DENIED])?;
    put_words(writer, status)
}

/// Puts a head at the end.
fn put_reply(writer: &mut RoomWriter, head: &ReplyHead) -> Result<(), Memory>
    ensures ok { OnOk result (Appended writer.old writer.new (reply_head head.now)) }
    ensures room { OnErr result (writer.old.left < length (reply_head head.now)) }
{
    match *head {
        ReplyHead::Accepted { xid, stat, .. } => put_accepted(writer, xid, &[stat]),
        ReplyHead::ProgMismatch { xid, low, high } => {
            put_accepted(writer, xid, &[PROG_MISMATCH, low, high])
        }
        ReplyHead::RpcMismatch { xid, low, high } => {
            put_denied(writer, xid, &[RPC_MISMATCH, low, high])
        }
        ReplyHead::AuthError { xid, stat } => put_denied(writer, xid, &[AUTH_ERROR, stat]),
    }
}

/// Appends the encoding of a reply head, which its results follow. The verifier is AUTH_NONE. `results_at` is ignored. Fails
/// only if the writer has no room for the head.
pub fn write_reply_head(writer: RoomWriter, head: &ReplyHead) -> Result<RoomWriter, Memory>
    requires { CanWriteReply head.now }
    ensures ok { IfOk result (λ w. Appended writer w (reply_head head.now)) }
    ensures room { IfErr result (λ _. writer.left < length (reply_head head.now)) }
{
    let mut writer = writer;
    put_reply(&mut writer, head)?;
    Ok(writer)
}

/// The bytes of a head.
fn reply_octets(alloc: Global, head: &ReplyHead) -> Result<Octets, Memory>
    ensures { IfOk result (λ o. o ≡ reply_head head.now) }
{
    let mut writer = RoomWriter::new(alloc);
    put_reply(&mut writer, head)?;
    Ok(writer.finish())
}

/// The encoding of a reply head, followed by the results. The verifier is AUTH_NONE. `results_at` is ignored. The only fault
/// is `Memory`.
pub fn write_reply(alloc: Global, head: &ReplyHead, results: &[u8]) -> Result<Octets, HeadFault>
    requires { CanWriteReply head.now }
    ensures ok { IfOk result (λ o. o ≡ reply_encoding head.now results.now) }
    ensures memory { IfErr result (λ e. e ≡ HeadFault.Memory) }
{
    let mut octets = reply_octets(alloc, head)?;
    octets.extend_from_slice(results)?;
    Ok(octets)
}
