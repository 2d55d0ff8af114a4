//! The lines of a script, word by word.

ghost use Rattle.std.specs.Prelude.{◌≡◌, None, Some, IfOk, []};
ghost use Rattle.nr_script.specs.Lines.{call_line, cred_line, line_in, line_named, call_with, later_line, plain_line, raw_line, side_in, sys_line, target_in};
ghost use Rattle.nr_texts.specs.Pieces.{texts};

use crate::script::Line;
use nr_reduce::Form;
use nr_rpc::Cred;
use nr_texts::{
    Program, arguments_in, bytes_in, form_in, is, number_in, one_number, program_in, sys_cred,
    two_numbers,
};
use nr_wire::Side;
use nr_xdr::{Memory, Octets};
use std::alloc::Global;

/// `UID GID` of a client's number and these.
fn sys_line(alloc: Global, client: u32, words: &[&[u8]]) -> Result<Option<Line>, Memory>
    ensures { IfOk result (λ line. line ≡ sys_line client (texts words.now)) }
{
    match two_numbers(words) {
        Some((uid, gid)) => Ok(Some(Line::Cred {
            client,
            cred: sys_cred(alloc, uid, gid)?,
        })),
        None => Ok(None),
    }
}

/// `cred C none` or `cred C UID GID`, after its first word.
fn cred_line(alloc: Global, words: &[&[u8]]) -> Result<Option<Line>, Memory>
    ensures { IfOk result (λ line. line ≡ cred_line (texts words.now)) }
{
    let [client, others @ ..] = words else {
        return Ok(None);
    };
    let Some(client) = number_in(client) else {
        return Ok(None);
    };
    match others {
        [none] => {
            if is(none, b"none") {
                Ok(Some(Line::Cred {
                    client,
                    cred: Cred::None,
                }))
            } else {
                Ok(None)
            }
        }
        _ => sys_line(alloc, client, others),
    }
}

/// The client, the program and the procedure of a call.
fn target_in(client: &[u8], program: &[u8], proc: &[u8]) -> Option<(u32, Program, u32)>
    ensures { result ≡ target_in client.now program.now proc.now }
{
    let client = number_in(client)?;
    let program = program_in(program)?;
    let proc = number_in(proc)?;
    Some((client, program, proc))
}

/// A call with its arguments, if it has a form.
fn call_with(target: (u32, Program, u32), args: Octets, form: Option<Form>) -> Option<Line>
    ensures { result ≡ call_with target form args }
{
    let (client, program, proc) = target;
    match form {
        Some(form) => Some(Line::Call {
            client,
            form,
            prog: program.prog,
            vers: program.vers,
            proc,
            args,
        }),
        None => None,
    }
}

/// `call C FORM PROGRAM PROC ARGS`, after its first word.
fn call_line(alloc: Global, words: &[&[u8]]) -> Result<Option<Line>, Memory>
    ensures { IfOk result (λ line. line ≡ call_line (texts words.now)) }
{
    let [client, form, program, proc, args] = words else {
        return Ok(None);
    };
    let Some(target) = target_in(client, program, proc) else {
        return Ok(None);
    };
    let Some(args) = arguments_in(alloc, args)? else {
        return Ok(None);
    };
    let form = form_in(alloc, form)?;
    Ok(call_with(target, args, form))
}

/// `up` is the stream that the client writes, `down` that of the server.
fn side_in(word: &[u8]) -> Option<Side>
    ensures { result ≡ side_in word.now }
{
    if is(word, b"up") {
        Some(Side::Initiator)
    } else if is(word, b"down") {
        Some(Side::Responder)
    } else {
        None
    }
}

/// `raw C up HEX` or `raw C down HEX`, after its first word.
fn raw_line(alloc: Global, words: &[&[u8]]) -> Result<Option<Line>, Memory>
    ensures { IfOk result (λ line. line ≡ raw_line (texts words.now)) }
{
    let [client, way, hex] = words else {
        return Ok(None);
    };
    let Some(client) = number_in(client) else {
        return Ok(None);
    };
    let Some(side) = side_in(way) else {
        return Ok(None);
    };
    match bytes_in(alloc, hex)? {
        Some(bytes) => Ok(Some(Line::Raw {
            client,
            side,
            bytes,
        })),
        None => Ok(None),
    }
}

/// A line of numbers.
fn plain_line(name: &[u8], words: &[&[u8]]) -> Option<Line>
    ensures { result ≡ plain_line name.now (texts words.now) }
{
    if is(name, b"up") {
        let (client, most) = two_numbers(words)?;
        Some(Line::Up { client, most })
    } else if is(name, b"down") {
        let (client, most) = two_numbers(words)?;
        Some(Line::Down { client, most })
    } else if is(name, b"work") {
        let client = one_number(words)?;
        Some(Line::Work { client })
    } else if is(name, b"tick") {
        let seconds = one_number(words)?;
        Some(Line::Tick { seconds })
    } else {
        later_line(name, words)
    }
}

/// The other lines of numbers, and `drain`.
fn later_line(name: &[u8], words: &[&[u8]]) -> Option<Line>
    ensures { result ≡ later_line name.now (texts words.now) }
{
    if is(name, b"forget") {
        let (client, number) = two_numbers(words)?;
        Some(Line::Forget { client, number })
    } else if is(name, b"revoke") {
        let (client, number) = two_numbers(words)?;
        Some(Line::Revoke { client, number })
    } else if is(name, b"drop") {
        let client = one_number(words)?;
        Some(Line::Drop { client })
    } else if is(name, b"rejoin") {
        let client = one_number(words)?;
        Some(Line::Rejoin { client })
    } else if is(name, b"grant") {
        let (client, credits) = two_numbers(words)?;
        Some(Line::Grant { client, credits })
    } else if is(name, b"drain") && words.is_empty() {
        Some(Line::Drain)
    } else {
        None
    }
}

fn line_named(alloc: Global, name: &[u8], words: &[&[u8]]) -> Result<Option<Line>, Memory>
    ensures { IfOk result (λ line. line ≡ line_named name.now (texts words.now)) }
{
    if is(name, b"cred") {
        cred_line(alloc, words)
    } else if is(name, b"call") {
        call_line(alloc, words)
    } else if is(name, b"raw") {
        raw_line(alloc, words)
    } else {
        Ok(plain_line(name, words))
    }
}

/// Any other line than the first.
#[tactic(auto, unfolding(crate::specs::Lines::line_in))]
pub(crate) fn line_in(alloc: Global, words: &[&[u8]]) -> Result<Option<Line>, Memory>
    ensures { IfOk result (λ line. line ≡ line_in (texts words.now)) }
{
    match words {
        [] => Ok(None),
        [name, others @ ..] => line_named(alloc, name, others),
    }
}
