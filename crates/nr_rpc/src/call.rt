//! Calls (RFC 5531 section 9).

ghost use Rattle.std.specs.Prelude.{◌≡◌, ◌++◌, ◌<◌, Ok, Err, IfOk, IfErr, IfSome, OnOk};
ghost use Rattle.nr_xdr.specs.Matching.{MatchesRead, MatchesValue};
ghost use Rattle.nr_rpc.specs.Call.{BeginsCall, CanWriteCall, call_head, call_encoding, call_of_target};
ghost use Rattle.nr_rpc.specs.Credential.{CanWriteCred};
ghost use Rattle.nr_rpc.specs.Reading.{GivesCall, call_at, call_of, version2_at, procedure_at, head_of_start, target_of, head_xid, xid_of_call};

use crate::constants::{CALL, RPC_VERSION};
use crate::cred::Cred;
use crate::fault::HeadFault;
use crate::head::{CallHead, CallTarget};
use crate::item::{RawAuth, auth, expect, pair};
use crate::put::{put_cred, put_no_verifier, put_numbers};
use crate::sys::cred_from;
use nr_xdr::{DecodeError, Memory, Octets, Reader, Writer, number};
use std::alloc::Global;

/// A call head whose credential isn't read yet.
#[derive(Clone, Copy)]
pub(crate) enum CallStart<'a> {
    Version2 {
        xid: u32,
        prog: u32,
        vers: u32,
        proc: u32,
        cred: RawAuth<'a>,
        args_at: usize,
    },
    Other {
        xid: u32,
        rpcvers: u32,
    },
}

/// Reads a program, and its version and a procedure.
#[tactic(auto, unfolding(crate::specs::Reading::procedure_at))]
fn procedure(reader: &mut Reader<'_>) -> Result<(u32, (u32, u32)), DecodeError>
    ensures { MatchesRead (λ p. p) result reader.new (procedure_at reader.old) }
{
    let prog = number(reader)?;
    let version = pair(reader)?;
    Ok((prog, version))
}

/// Reads a call of version 2, from the program on.
#[tactic(auto, unfolding(crate::specs::Reading::version2_at))]
fn version2<'a>(reader: &mut Reader<'a>, xid: u32) -> Result<CallStart<'a>, DecodeError>
    ensures { MatchesRead head_of_start result reader.new (version2_at xid reader.old) }
{
    let (prog, (vers, proc)) = procedure(reader)?;
    let cred = auth(reader)?;
    let _verifier = auth(reader)?;
    Ok(CallStart::Version2 {
        xid,
        prog,
        vers,
        proc,
        cred,
        args_at: reader.at(),
    })
}

#[tactic(auto, unfolding(crate::specs::Reading::call_at))]
fn call_start_at<'a>(reader: &mut Reader<'a>) -> Result<CallStart<'a>, DecodeError>
    ensures { MatchesRead head_of_start result reader.new (call_at reader.old) }
{
    let xid = number(reader)?;
    expect(reader, CALL)?;
    let rpcvers = number(reader)?;
    if rpcvers == RPC_VERSION {
        version2(reader, xid)
    } else {
        Ok(CallStart::Other { xid, rpcvers })
    }
}

#[tactic(auto, unfolding(crate::specs::Reading::call_of))]
fn call_start(bytes: &[u8]) -> Result<CallStart<'_>, DecodeError>
    ensures { MatchesValue head_of_start result (call_of bytes.now) }
{
    let mut reader = Reader::new(bytes);
    call_start_at(&mut reader)
}

fn read_call_inner(alloc: Global, bytes: &[u8]) -> Result<CallHead, HeadFault>
    ensures { GivesCall result (call_of bytes.now) }
{
    match call_start(bytes) {
        Err(error) => Err(HeadFault::NotCall { at: error.at }),
        Ok(CallStart::Other { xid, rpcvers }) => Ok(CallHead::Other { xid, rpcvers }),
        Ok(
            CallStart::Version2 {
                xid,
                prog,
                vers,
                proc,
                cred,
                args_at,
            },
        ) => Ok(CallHead::Version2 {
            xid,
            prog,
            vers,
            proc,
            cred: cred_from(alloc, cred)?,
            args_at,
        }),
    }
}

/// Reads the call head at the front of the bytes. What follows it is ignored.
/// `NotCall`: the first item that fails is one that runs past the end (at that item), a message type other than 0 (at that
/// word), or the body of a credential or verifier above 400 bytes (at its length).
pub fn read_call(alloc: Global, bytes: &[u8]) -> Result<CallHead, HeadFault>
    // The bytes begin with what is read.
    ensures found { IfOk result (λ head. BeginsCall head bytes.now) }
    // What the bytes begin with is read, unless memory runs out.
    ensures only { (head : CallHead) → BeginsCall head bytes.now → GivesCall result (Ok head) }
    // Which fault it is, and at which offset.
    ensures exact { GivesCall result (call_of bytes.now) }
{
    read_call_inner(alloc, bytes)
}

/// What a call of RPC version 2 asks for, and the offset of its arguments. `None` if and only if the bytes begin no call
/// head of that version. Takes no memory.
pub fn call_target(bytes: &[u8]) -> Option<CallTarget>
    ensures { result ≡ target_of (call_of bytes.now) }
{
    match call_start(bytes) {
        Ok(
            CallStart::Version2 {
                xid,
                prog,
                vers,
                proc,
                args_at,
                ..
            },
        ) => Some(CallTarget {
            xid,
            prog,
            vers,
            proc,
            args_at,
        }),
        _ => None,
    }
}

/// The transaction ID (XID) of a call of any RPC version. `None` if and only if the bytes begin no call head. Takes no
/// memory.
pub fn call_xid(bytes: &[u8]) -> Option<u32>
    // It is the number of a call head at the front.
    ensures found { IfSome result (λ xid. (head : CallHead) × BeginsCall head bytes.now × (head_xid head ≡ xid)) }
    // A call head at the front has its number found.
    ensures only { (head : CallHead) → BeginsCall head bytes.now → result ≡ Some (head_xid head) }
    ensures exact { result ≡ xid_of_call (call_of bytes.now) }
{
    call_xid_inner(bytes)
}

fn call_xid_inner(bytes: &[u8]) -> Option<u32>
    ensures { result ≡ xid_of_call (call_of bytes.now) }
{
    match call_start(bytes) {
        Ok(CallStart::Version2 { xid, .. }) => Some(xid),
        Ok(CallStart::Other { xid, .. }) => Some(xid),
        Err(_error) => None,
    }
}

/// Puts the head of a call of version 2 at the end.
fn put_version2(
    alloc: Global,
    writer: &mut Writer,
    target: CallTarget,
    cred: &Cred,
) -> Result<(), Memory>
    requires { CanWriteCred cred.now }
    ensures { OnOk result (writer.new ≡ writer.old ++ call_head (call_of_target target cred.now)) }
{
    let CallTarget {
        xid,
        prog,
        vers,
        proc,
        ..
    } = target;
    put_numbers(writer, &[xid, CALL, RPC_VERSION, prog, vers, proc])?;
    put_cred(alloc, writer, cred)?;
    put_no_verifier(writer)
}

fn put_call(alloc: Global, writer: &mut Writer, head: &CallHead) -> Result<(), Memory>
    requires { CanWriteCall head.now }
    ensures { OnOk result (writer.new ≡ writer.old ++ call_head head.now) }
{
    match head {
        CallHead::Version2 {
            xid,
            prog,
            vers,
            proc,
            cred,
            args_at,
        } => {
            let target = CallTarget {
                xid: *xid,
                prog: *prog,
                vers: *vers,
                proc: *proc,
                args_at: *args_at,
            };
            put_version2(alloc, writer, target, cred)
        }
        CallHead::Other { xid, rpcvers } => put_numbers(writer, &[*xid, CALL, *rpcvers]),
    }
}

/// The bytes of a head.
fn call_octets(alloc: Global, head: &CallHead) -> Result<Octets, Memory>
    requires { CanWriteCall head.now }
    ensures { IfOk result (λ o. o ≡ call_head head.now) }
{
    let mut writer = Writer::new(alloc);
    put_call(alloc, &mut writer, head)?;
    Ok(writer.finish())
}

/// The encoding of a call head, followed by the arguments. The verifier is AUTH_NONE, and the body of a credential other
/// than AUTH_SYS is empty. `args_at` is ignored. The only fault is `Memory`.
pub fn write_call(alloc: Global, head: &CallHead, args: &[u8]) -> Result<Octets, HeadFault>
    requires { CanWriteCall head.now }
    ensures ok { IfOk result (λ o. o ≡ call_encoding head.now args.now) }
    ensures memory { IfErr result (λ e. e ≡ HeadFault.Memory) }
{
    let mut octets = call_octets(alloc, head)?;
    octets.extend_from_slice(args)?;
    Ok(octets)
}

/// The room that is taken at first for a head: that of one with a credential of AUTH_SYS without groups and with a short name of the
/// machine. More is taken for a longer one.
const HEAD_ROOM: usize = 80;

/// The encoding of the head of a call of version 2, whose credential is borrowed: what [`write_call_of`] puts before the arguments.
/// `args_at` is ignored.
pub fn write_call_head(alloc: Global, target: CallTarget, cred: &Cred) -> Result<Octets, Memory>
    requires { CanWriteCred cred.now }
    ensures { IfOk result (λ o. o ≡ call_head (call_of_target target cred.now)) }
{
    let mut writer = Writer::with_capacity(alloc, HEAD_ROOM)?;
    put_version2(alloc, &mut writer, target, cred)?;
    Ok(writer.finish())
}

/// The encoding of a call of version 2 whose credential is borrowed: that of [`write_call`] for a head with this credential.
/// `args_at` is ignored.
pub fn write_call_of(
    alloc: Global,
    target: CallTarget,
    cred: &Cred,
    args: &[u8],
) -> Result<Octets, Memory>
    requires { CanWriteCred cred.now }
    ensures { IfOk result (λ o. o ≡ call_encoding (call_of_target target cred.now) args.now) }
{
    let mut octets = write_call_head(alloc, target, cred)?;
    octets.extend_from_slice(args)?;
    Ok(octets)
}
