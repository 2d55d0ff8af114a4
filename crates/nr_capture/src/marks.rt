//! The marks of a capture, word by word.

ghost use Rattle.std.specs.Prelude.{◌≡◌, None, Some, IfOk, [], ◌∷◌};
ghost use Rattle.nr_capture.specs.declared.capture.CapturedMark.TheVariants as marks;
ghost use Rattle.nr_capture.specs.Marks.{call_in, call_with, called_in, cred_in, done_in, done_with, end_in, exec_in, mark_in, mark_named, outcome_in, piece_in, piece_mark, plain_mark, reply_with, side_in, submit_in, submit_with, version_in};
ghost use Rattle.nr_texts.specs.Pieces.{texts};
ghost use Rattle.nr_texts.specs.Words.{arguments_in, parts, two_numbers};
ghost use Rattle.nr_texts.specs.Forms.{dot};

use crate::capture::CapturedMark;
use nr_reduce::{Call, Form, Outcome};
use nr_rpc::Cred;
use nr_texts::{
    Program, arguments_in, bytes_in, form_in, is, number_in, numbered_program, one_number,
    sys_cred, two_numbers, two_parts,
};
use nr_wire::Side;
use nr_xdr::{Memory, Octets};
use std::alloc::Global;

/// Two words that are numbers.
fn both(first: &[u8], second: &[u8]) -> Option<(u32, u32)>
    ensures { result ≡ two_numbers (first.now ∷ second.now ∷ []) }
{
    let first = number_in(first)?;
    let second = number_in(second)?;
    Some((first, second))
}

fn user_and_group(word: &[u8]) -> Option<(u32, u32)>
    ensures { result ≡ two_numbers (parts dot word.now) }
{
    let (uid, gid) = two_parts(b'.', word)?;
    both(uid, gid)
}

/// `none` or `UID.GID`.
fn cred_in(alloc: Global, word: &[u8]) -> Result<Option<Cred>, Memory>
    ensures { IfOk result (λ cred. cred ≡ cred_in word.now) }
{
    if is(word, b"none") {
        return Ok(Some(Cred::None));
    }
    match user_and_group(word) {
        Some((uid, gid)) => Ok(Some(sys_cred(alloc, uid, gid)?)),
        None => Ok(None),
    }
}

fn called_in(program: &[u8], proc: &[u8]) -> Option<(Program, u32)>
    ensures { result ≡ called_in program.now proc.now }
{
    let program = numbered_program(program)?;
    let proc = number_in(proc)?;
    Some((program, proc))
}

fn call_with(called: (Program, u32), cred: Option<Cred>, args: Option<Octets>) -> Option<Call>
    ensures { result ≡ call_with called cred args }
{
    let (program, proc) = called;
    let Some(cred) = cred else {
        return None;
    };
    let Some(args) = args else {
        return None;
    };
    Some(Call {
        prog: program.prog,
        vers: program.vers,
        proc,
        cred,
        args,
    })
}

fn call_in(
    alloc: Global,
    program: &[u8],
    proc: &[u8],
    cred: &[u8],
    args: &[u8],
) -> Result<Option<Call>, Memory>
    ensures { IfOk result (λ call. call ≡ call_in program.now proc.now cred.now args.now) }
{
    let Some(called) = called_in(program, proc) else {
        return Ok(None);
    };
    let cred = cred_in(alloc, cred)?;
    let args = arguments_in(alloc, args)?;
    Ok(call_with(called, cred, args))
}

fn submit_with(at: (u32, u32), form: Option<Form>, call: Option<Call>) -> Option<CapturedMark>
    ensures { result ≡ submit_with at form call }
{
    let (link, xid) = at;
    let Some(form) = form else {
        return None;
    };
    let Some(call) = call else {
        return None;
    };
    Some(CapturedMark::Submit {
        link,
        xid,
        form,
        call,
    })
}

/// `submit C XID FORM P.V PROC CRED HEX`, after its first word.
fn submit_in(alloc: Global, words: &[&[u8]]) -> Result<Option<CapturedMark>, Memory>
    ensures { IfOk result (λ mark. mark ≡ submit_in (texts words.now)) }
{
    let [link, xid, form, program, proc, cred, args] = words else {
        return Ok(None);
    };
    let Some(at) = both(link, xid) else {
        return Ok(None);
    };
    let form = form_in(alloc, form)?;
    let call = call_in(alloc, program, proc, cred, args)?;
    Ok(submit_with(at, form, call))
}

fn side_in(word: &[u8]) -> Option<Side>
    ensures { result ≡ side_in word.now }
{
    if is(word, b"client") {
        Some(Side::Initiator)
    } else if is(word, b"server") {
        Some(Side::Responder)
    } else {
        None
    }
}

fn end_in(link: &[u8], side: &[u8]) -> Option<(u32, Side)>
    ensures { result ≡ end_in link.now side.now }
{
    let link = number_in(link)?;
    let side = side_in(side)?;
    Some((link, side))
}

/// The link, the side and the bytes of a piece.
fn piece_in(alloc: Global, words: &[&[u8]]) -> Result<Option<((u32, Side), Octets)>, Memory>
    ensures { IfOk result (λ piece. piece ≡ piece_in (texts words.now)) }
{
    let [link, side, hex] = words else {
        return Ok(None);
    };
    let Some(at) = end_in(link, side) else {
        return Ok(None);
    };
    match bytes_in(alloc, hex)? {
        Some(bytes) => Ok(Some((at, bytes))),
        None => Ok(None),
    }
}

/// `out C SIDE HEX`, after its first word.
fn out_in(alloc: Global, words: &[&[u8]]) -> Result<Option<CapturedMark>, Memory>
    ensures { IfOk result (λ mark. mark ≡ piece_mark marks.Out (texts words.now)) }
{
    match piece_in(alloc, words)? {
        Some(((link, side), bytes)) => Ok(Some(CapturedMark::Out { link, side, bytes })),
        None => Ok(None),
    }
}

/// `in C SIDE HEX`, after its first word.
fn in_in(alloc: Global, words: &[&[u8]]) -> Result<Option<CapturedMark>, Memory>
    ensures { IfOk result (λ mark. mark ≡ piece_mark marks.In (texts words.now)) }
{
    match piece_in(alloc, words)? {
        Some(((link, side), bytes)) => Ok(Some(CapturedMark::In { link, side, bytes })),
        None => Ok(None),
    }
}

fn reply_in(alloc: Global, hex: &[u8]) -> Result<Option<Outcome>, Memory>
    ensures { IfOk result (λ outcome. outcome ≡ reply_with (arguments_in hex.now)) }
{
    match arguments_in(alloc, hex)? {
        Some(payload) => Ok(Some(Outcome::Reply(payload))),
        None => Ok(None),
    }
}

fn version_in(low: &[u8], high: &[u8]) -> Option<Outcome>
    ensures { result ≡ version_in low.now high.now }
{
    let (low, high) = both(low, high)?;
    Some(Outcome::Version { low, high })
}

fn outcome_in(alloc: Global, words: &[&[u8]]) -> Result<Option<Outcome>, Memory>
    ensures { IfOk result (λ outcome. outcome ≡ outcome_in (texts words.now)) }
{
    match words {
        [kind] => {
            if is(kind, b"chunk") {
                Ok(Some(Outcome::Chunk))
            } else {
                Ok(None)
            }
        }
        [kind, hex] => {
            if is(kind, b"reply") {
                reply_in(alloc, hex)
            } else {
                Ok(None)
            }
        }
        [kind, low, high] => {
            if is(kind, b"version") {
                Ok(version_in(low, high))
            } else {
                Ok(None)
            }
        }
        _ => Ok(None),
    }
}

fn done_with(at: (u32, u32), outcome: Option<Outcome>) -> Option<CapturedMark>
    ensures { result ≡ done_with at outcome }
{
    let (link, xid) = at;
    match outcome {
        Some(outcome) => Some(CapturedMark::Done { link, xid, outcome }),
        None => None,
    }
}

/// `done C XID` and an outcome, after its first word.
fn done_in(alloc: Global, words: &[&[u8]]) -> Result<Option<CapturedMark>, Memory>
    ensures { IfOk result (λ mark. mark ≡ done_in (texts words.now)) }
{
    let [link, xid, others @ ..] = words else {
        return Ok(None);
    };
    let Some(at) = both(link, xid) else {
        return Ok(None);
    };
    let outcome = outcome_in(alloc, others)?;
    Ok(done_with(at, outcome))
}

/// `exec C XID S`, after its first word.
fn exec_in(words: &[&[u8]]) -> Option<CapturedMark>
    ensures { result ≡ exec_in (texts words.now) }
{
    let [link, xid, seconds] = words else {
        return None;
    };
    let (link, xid) = both(link, xid)?;
    let seconds = number_in(seconds)?;
    Some(CapturedMark::Exec { link, xid, seconds })
}

/// A line of numbers.
fn plain_mark(name: &[u8], words: &[&[u8]]) -> Option<CapturedMark>
    ensures { result ≡ plain_mark name.now (texts words.now) }
{
    if is(name, b"exec") {
        exec_in(words)
    } else if is(name, b"forget") {
        let (link, xid) = two_numbers(words)?;
        Some(CapturedMark::Forget { link, xid })
    } else if is(name, b"revoke") {
        let (link, xid) = two_numbers(words)?;
        Some(CapturedMark::Revoke { link, xid })
    } else if is(name, b"drop") {
        let link = one_number(words)?;
        Some(CapturedMark::Drop { link })
    } else if is(name, b"grant") {
        let (link, credits) = two_numbers(words)?;
        Some(CapturedMark::Grant { link, credits })
    } else {
        None
    }
}

fn mark_named(alloc: Global, name: &[u8], words: &[&[u8]]) -> Result<Option<CapturedMark>, Memory>
    ensures { IfOk result (λ mark. mark ≡ mark_named name.now (texts words.now)) }
{
    if is(name, b"submit") {
        submit_in(alloc, words)
    } else if is(name, b"out") {
        out_in(alloc, words)
    } else if is(name, b"in") {
        in_in(alloc, words)
    } else if is(name, b"done") {
        done_in(alloc, words)
    } else {
        Ok(plain_mark(name, words))
    }
}

/// A mark by the words of its line.
#[tactic(auto, unfolding(crate::specs::Marks::mark_in))]
pub(crate) fn mark_in(alloc: Global, words: &[&[u8]]) -> Result<Option<CapturedMark>, Memory>
    ensures { IfOk result (λ mark. mark ≡ mark_in (texts words.now)) }
{
    match words {
        [] => Ok(None),
        [name, others @ ..] => mark_named(alloc, name, others),
    }
}
