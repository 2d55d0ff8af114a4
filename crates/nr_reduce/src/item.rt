//! The item of a payload: the data that may move in a chunk of its own.

ghost use Rattle.std.specs.Prelude.{◌≡◌, ◌≤◌, Ok, length, IfSome};
ghost use Rattle.nr_xdr.specs.Item.{pad_len};
ghost use Rattle.nr_rpc.specs.Reading.{reply_of};
ghost use Rattle.nr_reduce.specs.private.AfterFront.{and_then};
ghost use Rattle.nr_reduce.specs.ReplyParts.{IsReply, AreReplyPartsOf};
ghost use Rattle.nr_reduce.specs.Items.{from_place, item_at, is_nfs, argument_item, result_item, results_of, call_item, reply_item, item_of};

use crate::limits::{READ, READLINK, SYMLINK, WRITE};
use crate::parts::{call_item_of, call_parts};
use nr_nfs_base::{
    NFS_PROGRAM, NFS_VERSION, skip_to_read_data, skip_to_readlink_path, skip_to_symlink_path,
    skip_to_write_data,
};
use nr_rpc::{ReplyHead, read_reply};
use nr_xdr::{Octets, Reader};

/// An item (RFC 8166 section 3.4.2): `pos` is the offset of its first byte in the payload, `len` the number of its bytes,
/// which its length word says.
#[derive(Clone, Copy, Debug, PartialEq, Eq)]
pub struct Item {
    /// The offset in the payload, in bytes.
    pub pos: usize,
    /// The length in bytes, without the pad.
    pub len: u32,
}

/// Whose payload it is: that of a call, or that of a reply to a call of this program, version and procedure.
#[derive(Clone, Copy)]
pub enum Of {
    /// That of a call.
    Call,
    /// That of a reply.
    Reply { prog: u32, vers: u32, proc: u32 },
}

/// A payload that was cut: its item, the stream that is left without the item's bytes and pad, and the item's bytes.
#[derive(Drop)]
pub struct Cut {
    /// The item in the payload.
    pub item: Item,
    /// The payload without the item's bytes and pad.
    pub stream: Octets,
    /// The item's bytes.
    pub moved: Octets,
}

/// A reader at an offset of a payload. A head ends at a multiple of four.
pub(crate) fn reader_at(payload: &[u8], place: usize) -> Reader<'_>
    requires inside { place ≤ length payload.now }
    requires words { pad_len place ≡ 0 }
    ensures { result ≡ from_place place payload.now }
{
    let mut reader = Reader::new(payload);
    let _ = reader.fixed(place);
    reader
}

/// The item whose length word is next.
fn item_here(mut reader: Reader<'_>) -> Option<Item>
    ensures { result ≡ item_at (Ok reader.entry) }
{
    match reader.u32() {
        Ok(len) => Some(Item {
            pos: reader.at(),
            len,
        }),
        Err(_) => None,
    }
}

/// The item whose length word is next, if what precedes it could be read.
fn item_after(front: Option<Reader<'_>>) -> Option<Item>
    ensures { result ≡ and_then front.entry (λ c. item_at (Ok c)) }
{
    match front {
        Some(reader) => item_here(reader),
        None => None,
    }
}

pub(crate) fn is_nfs(prog: u32, vers: u32) -> bool
    ensures { result ≡ is_nfs prog vers }
{
    prog == NFS_PROGRAM && vers == NFS_VERSION
}

/// The item of a call's arguments.
#[tactic(auto, using(crate::proofs::Places::items_of_calls))]
pub(crate) fn argument_item(prog: u32, vers: u32, proc: u32, arguments: Reader<'_>) -> Option<Item>
    ensures { result ≡ argument_item prog vers proc arguments.entry }
{
    if !is_nfs(prog, vers) {
        return None;
    }
    match proc {
        WRITE => item_after(skip_to_write_data(arguments)),
        SYMLINK => item_after(skip_to_symlink_path(arguments)),
        _ => None,
    }
}

/// The item of a reply's results.
#[tactic(auto, using(crate::proofs::Places::items_of_replies))]
fn result_item(prog: u32, vers: u32, proc: u32, results: Reader<'_>) -> Option<Item>
    ensures { result ≡ result_item prog vers proc results.entry }
{
    if !is_nfs(prog, vers) {
        return None;
    }
    match proc {
        READ => item_after(skip_to_read_data(results)),
        READLINK => item_after(skip_to_readlink_path(results)),
        _ => None,
    }
}

/// The item of a call (RFC 8267 section 3): the data of WRITE or the path of SYMLINK, if the call's head and its arguments
/// can be read up to the length word. What follows that word isn't looked at. Takes no memory.
pub fn call_item(payload: &[u8]) -> Option<Item>
    ensures exact { result ≡ call_item payload.now }
    ensures inside { IfSome result (λ i. i.pos ≤ length payload.now) }
{
    match call_parts(payload) {
        Some(parts) => call_item_of(parts),
        None => None,
    }
}

/// The offset at which the results of an accepted reply of status 0 begin.
fn results_at(head: ReplyHead) -> Option<usize>
    ensures { result ≡ results_of (Ok head) }
{
    match head {
        ReplyHead::Accepted {
            stat,
            results_at,
            ..
        } if stat == 0 => Some(results_at),
        _ => None,
    }
}

fn results_of(payload: &[u8]) -> Option<usize>
    ensures { result ≡ results_of (reply_of payload.now) }
{
    match read_reply(payload) {
        Ok(head) => results_at(head),
        Err(_) => None,
    }
}

/// The item of a reply whose results begin at this offset, if it has any.
fn item_from(prog: u32, vers: u32, proc: u32, payload: &[u8], start: Option<usize>) -> Option<Item>
    requires { start ≡ results_of (reply_of payload.now) }
    ensures exact { result ≡ reply_item prog vers proc payload.now }
    ensures inside { IfSome result (λ i. i.pos ≤ length payload.now) }
{
    match start {
        Some(at) => {
            let results = reader_at(payload, at);
            result_item(prog, vers, proc, results)
        }
        None => None,
    }
}

/// The item of a reply to a call of this program, version and procedure (RFC 8267 section 3): the data of READ or the path
/// of READLINK, if the call was accepted with status 0 and the results can be read up to the length word. What follows
/// that word isn't looked at. Takes no memory.
pub fn reply_item(prog: u32, vers: u32, proc: u32, payload: &[u8]) -> Option<Item>
    ensures exact { result ≡ reply_item prog vers proc payload.now }
    ensures inside { IfSome result (λ i. i.pos ≤ length payload.now) }
{
    item_from(prog, vers, proc, payload, results_of(payload))
}

/// A reply, or its stream, with its head, which was read (RFC 5531 section 9).
#[derive(Clone, Copy)]
pub struct ReplyParts<'a> {
    /// The head.
    pub head: ReplyHead,
    /// All of the bytes, from the head on.
    pub payload: &'a [u8],
}

/// A reply with its head. `None` if and only if it begins with no reply head. Takes no memory.
pub fn reply_parts(payload: &[u8]) -> Option<ReplyParts<'_>>
    ensures { AreReplyPartsOf result payload.now }
{
    match read_reply(payload) {
        Ok(head) => Some(ReplyParts { head, payload }),
        Err(_) => None,
    }
}

/// The item of a reply to a call of this program, version and procedure: that of [`reply_item`] for its payload. The head isn't read
/// again. Takes no memory.
pub fn reply_item_of(prog: u32, vers: u32, proc: u32, parts: ReplyParts<'_>) -> Option<Item>
    requires { IsReply parts }
    ensures exact { result ≡ reply_item prog vers proc parts.entry.payload.now }
    ensures inside { IfSome result (λ i. i.pos ≤ length parts.entry.payload.now) }
{
    item_from(prog, vers, proc, parts.payload, results_at(parts.head))
}

/// The item of a payload. Takes no memory.
pub fn item_of(of: &Of, payload: &[u8]) -> Option<Item>
    ensures exact { result ≡ item_of of.now payload.now }
    ensures inside { IfSome result (λ i. i.pos ≤ length payload.now) }
{
    match *of {
        Of::Call => call_item(payload),
        Of::Reply { prog, vers, proc } => reply_item(prog, vers, proc, payload),
    }
}
