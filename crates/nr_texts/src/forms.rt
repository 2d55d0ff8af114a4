//! How a call line says in which form its call is sent, and of which program it is.

ghost use Rattle.std.specs.Prelude.{◌≡◌, None, Some, IfOk, MatchOption, if◌then◌else◌, take, drop, length, true, false};
ghost use Rattle.std.specs.Str.{bytes_eq};
ghost use Rattle.nr_texts.specs.Forms.{IsAdded, at_sign, dot, given, given_form, form_in, lengths_in, nothing_offered, numbered_program, offer_by, offer_in, part_in, position_by, program_in, read_part, reply_part, semicolon, write_lengths_in, write_part};
ghost use Rattle.nr_texts.specs.Words.{parts};

use crate::program::Program;
use crate::words::{cut, is, number_in, two_parts};
use nr_nfs_base::{MOUNT_PROGRAM, NFS_PROGRAM};
use nr_reduce::{Form, Lengths, Offer, Sequence};
use nr_xdr::Memory;
use std::alloc::Global;

/// One length or more.
#[tactic(auto, unfolding(crate::specs::Forms::lengths_in))]
fn lengths_in(alloc: Global, text: &[u8]) -> Result<Option<Lengths>, Memory>
    ensures { IfOk result (λ lengths. lengths ≡ lengths_in text.now) }
{
    let mut lengths = Vec::new(alloc);
    let mut rest = Some(text);
    while let Some(text) = rest {
        let (part, more) = cut(b',', text);
        let Some(length) = number_in(part) else {
            return Ok(None);
        };
        lengths.push(length)?;
        rest = more;
    }
    Ok(Some(Sequence::from_vec(lengths)))
}

/// Lengths of segments, of which a write chunk may have none.
fn write_lengths_in(alloc: Global, text: &[u8]) -> Result<Option<Lengths>, Memory>
    ensures { IfOk result (λ lengths. lengths ≡ write_lengths_in text.now) }
{
    if text.is_empty() {
        Ok(Some(Sequence::from_vec(Vec::new(alloc))))
    } else {
        lengths_in(alloc, text)
    }
}

/// No list is offered.
fn no_offer() -> Offer
    ensures { result ≡ nothing_offered }
{
    Offer {
        read_at: 0,
        read: None,
        write: None,
        reply: None,
    }
}

/// Adds `write=A,B` to an offer, if it may follow what the offer has.
fn add_write(alloc: Global, offer: &mut Offer, text: &[u8]) -> Result<bool, Memory>
    ensures { IfOk result (λ added. IsAdded offer.old (write_part text.now) offer.new added) }
{
    let Some(lengths) = write_lengths_in(alloc, text)? else {
        return Ok(false);
    };
    if offer.write.is_some() || offer.reply.is_some() {
        return Ok(false);
    }
    offer.write = Some(lengths);
    Ok(true)
}

/// Adds `reply=A,B` to an offer, if it may follow what the offer has.
fn add_reply(alloc: Global, offer: &mut Offer, text: &[u8]) -> Result<bool, Memory>
    ensures { IfOk result (λ added. IsAdded offer.old (reply_part text.now) offer.new added) }
{
    let Some(lengths) = lengths_in(alloc, text)? else {
        return Ok(false);
    };
    if offer.reply.is_some() {
        return Ok(false);
    }
    offer.reply = Some(lengths);
    Ok(true)
}

/// The position of `read@P`.
fn read_position(name: &[u8]) -> Option<u32>
    ensures { result ≡ position_by (parts at_sign name.now) }
{
    let (word, position) = two_parts(b'@', name)?;
    if is(word, b"read") {
        number_in(position)
    } else {
        None
    }
}

/// Adds `read@P=A,B` to an offer, if it may follow what the offer has.
fn add_read(alloc: Global, offer: &mut Offer, name: &[u8], text: &[u8]) -> Result<bool, Memory>
    ensures { IfOk result (λ added. IsAdded offer.old (read_part (parts at_sign name.now) text.now) offer.new added) }
{
    let Some(at) = read_position(name) else {
        return Ok(false);
    };
    let Some(lengths) = lengths_in(alloc, text)? else {
        return Ok(false);
    };
    if offer.read.is_some() || offer.write.is_some() || offer.reply.is_some() {
        return Ok(false);
    }
    offer.read_at = at;
    offer.read = Some(lengths);
    Ok(true)
}

/// Adds a part to an offer, if it may follow what the offer has.
#[tactic(auto, unfolding(crate::specs::Forms::part_in))]
fn add_part(alloc: Global, offer: &mut Offer, text: &[u8]) -> Result<bool, Memory>
    ensures { IfOk result (λ added. IsAdded offer.old (part_in text.now) offer.new added) }
{
    let Some((name, text)) = two_parts(b'=', text) else {
        return Ok(false);
    };
    if is(name, b"write") {
        add_write(alloc, offer, text)
    } else if is(name, b"reply") {
        add_reply(alloc, offer, text)
    } else {
        add_read(alloc, offer, name, text)
    }
}

fn add_parts(alloc: Global, offer: &mut Offer, text: &[u8]) -> Result<bool, Memory>
    ensures { IfOk result (λ added. offer_by offer.old (parts semicolon text.now) ≡ (if added then Some offer.new else None)) }
{
    let mut rest = Some(text);
    while let Some(text) = rest {
        let (part, more) = cut(b';', text);
        if !add_part(alloc, offer, part)? {
            return Ok(false);
        }
        rest = more;
    }
    Ok(true)
}

/// An offer that is given. Without a part nothing is offered.
#[tactic(auto, unfolding(crate::specs::Forms::offer_in))]
fn offer_in(alloc: Global, text: &[u8]) -> Result<Option<Offer>, Memory>
    ensures { IfOk result (λ offer. offer ≡ offer_in text.now) }
{
    let mut offer = no_offer();
    if text.is_empty() || add_parts(alloc, &mut offer, text)? {
        Ok(Some(offer))
    } else {
        Ok(None)
    }
}

/// What follows `given:`.
fn after_given(word: &[u8]) -> Option<&[u8]>
    ensures { MatchOption result (bytes_eq (take (length given) word.now) given ≡ false) (λ rest. (bytes_eq (take (length given) word.now) given ≡ true) × (rest.now ≡ drop (length given) word.now)) }
{
    if word.len() < 6 {
        return None;
    }
    let (front, rest) = word.split_at(6);
    if is(front, b"given:") {
        Some(rest)
    } else {
        None
    }
}

/// `given:` and an offer.
fn given_form(alloc: Global, word: &[u8]) -> Result<Option<Form>, Memory>
    ensures { IfOk result (λ form. form ≡ given_form word.now) }
{
    let Some(text) = after_given(word) else {
        return Ok(None);
    };
    match offer_in(alloc, text)? {
        Some(offer) => Ok(Some(Form::Given(offer))),
        None => Ok(None),
    }
}

/// The form of a call (RFC 8166 section 3.5) that a word names.
///
/// # Errors
///
/// [`Memory`] if memory ran out.
#[tactic(auto, unfolding(crate::specs::Forms::form_in))]
pub fn form_in(alloc: Global, word: &[u8]) -> Result<Option<Form>, Memory>
    ensures { IfOk result (λ form. form ≡ form_in word.now) }
{
    if is(word, b"auto") {
        Ok(Some(Form::Auto))
    } else if is(word, b"inline") {
        Ok(Some(Form::Inline))
    } else if is(word, b"chunk") {
        Ok(Some(Form::Chunk))
    } else if is(word, b"long") {
        Ok(Some(Form::Long))
    } else {
        given_form(alloc, word)
    }
}

/// `PROG.VERS`: the number of a program and its version.
pub fn numbered_program(word: &[u8]) -> Option<Program>
    ensures { result ≡ numbered_program (parts dot word.now) }
{
    let (prog, vers) = two_parts(b'.', word)?;
    let prog = number_in(prog)?;
    let vers = number_in(vers)?;
    Some(Program { prog, vers })
}

/// The program of a call: `nfs`, `mnt` or `PROG.VERS`.
#[tactic(auto, unfolding(crate::specs::Forms::program_in))]
pub fn program_in(word: &[u8]) -> Option<Program>
    ensures { result ≡ program_in word.now }
{
    if is(word, b"nfs") {
        Some(Program {
            prog: NFS_PROGRAM,
            vers: 3,
        })
    } else if is(word, b"mnt") {
        Some(Program {
            prog: MOUNT_PROGRAM,
            vers: 3,
        })
    } else {
        numbered_program(word)
    }
}
