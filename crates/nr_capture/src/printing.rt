//! Writing of captures.

ghost use Rattle.std.specs.Prelude.{◌≡◌, ◌++◌, codes, Ok, IfOk, OnOk};
ghost use Rattle.std.specs.Fmt.{decimal};
ghost use Rattle.std.specs.List.{flat_map};
ghost use Rattle.std.specs.String.{string_bytes};
ghost use Rattle.nr_capture.specs.Capture.{capture_of};
ghost use Rattle.nr_capture.specs.Texts.{bytes_text, call_text, capacity_text, capture_text, cred_text, form_text, invalidate_text, lengths_after, lengths_text, line_text, mark_text, numbered_text, offer_text, opening_text, outcome_text, part_text, read_text, semicolon_after, semicolon_if, side_text, sizes_text, submit_text, two_numbers_text};
ghost use Rattle.nr_rpc.specs.declared.cred.Cred.TheVariants as creds;
ghost use Rattle.nr_reduce.specs.declared.call.Form.TheVariants as forms;

use crate::capture::{Capture, CapturedMark};
use nr_reduce::{Call, Form, Lengths, Offer, Outcome};
use nr_rpc::Cred;
use nr_texts::{DEFAULT_CAPACITY, DEFAULT_UNITS, Opening};
use nr_wire::Side;
use nr_xdr::{Memory, Octets};
use std::alloc::Global;
use std::fmt::Write;

pub(crate) fn push_text(text: &mut String, words: &str) -> Result<(), Memory>
    ensures { OnOk result (string_bytes text.new ≡ string_bytes text.old ++ words.now) }
{
    text.push_str(words)?;
    Ok(())
}

/// A text, and a number after it.
pub(crate) fn push_number(text: &mut String, words: &str, number: u64) -> Result<(), Memory>
    ensures { OnOk result (string_bytes text.new ≡ string_bytes text.old ++ (words.now ++ decimal number)) }
{
    text.push_str(words)?;
    write!(text, "{number}")?;
    Ok(())
}

/// A text, and two numbers after it.
pub(crate) fn push_two(
    text: &mut String,
    words: &str,
    first: u32,
    second: u32,
) -> Result<(), Memory>
    ensures { OnOk result (string_bytes text.new ≡ string_bytes text.old ++ (words.now ++ two_numbers_text first second)) }
{
    text.push_str(words)?;
    write!(text, "{first} {second}")?;
    Ok(())
}

/// Bytes as hexadecimal digits, or `-` for none.
pub(crate) fn push_bytes(alloc: Global, text: &mut String, bytes: &[u8]) -> Result<(), Memory>
    ensures { OnOk result (string_bytes text.new ≡ string_bytes text.old ++ bytes_text bytes.now) }
{
    if bytes.is_empty() {
        return push_text(text, "-");
    }
    let digits = hex::encode(alloc, bytes)?;
    text.push_str(digits.as_str())?;
    Ok(())
}

// ---- forms

fn push_after(text: &mut String, lengths: &[u32]) -> Result<(), Memory>
    ensures { OnOk result (string_bytes text.new ≡ string_bytes text.old ++ lengths_after lengths.now) }
{
    for length in lengths {
        push_number(text, ",", u64::from(*length))?;
    }
    Ok(())
}

fn push_lengths(text: &mut String, lengths: &[u32]) -> Result<(), Memory>
    ensures { OnOk result (string_bytes text.new ≡ string_bytes text.old ++ lengths_text lengths.now) }
{
    match lengths {
        [] => Ok(()),
        [first, others @ ..] => {
            push_number(text, "", u64::from(*first))?;
            push_after(text, others)
        }
    }
}

/// A part of an offer that is given, if it is there.
fn push_part(
    text: &mut String,
    before: &str,
    name: &str,
    part: &Option<Lengths>,
) -> Result<(), Memory>
    ensures { OnOk result (string_bytes text.new ≡ string_bytes text.old ++ part_text before.now name.now part.now) }
{
    match part {
        None => Ok(()),
        Some(lengths) => {
            push_text(text, before)?;
            push_text(text, name)?;
            push_lengths(text, lengths.as_slice())
        }
    }
}

#[tactic(auto, unfolding(crate::specs::Texts::read_text))]
fn push_read(text: &mut String, offer: &Offer) -> Result<(), Memory>
    ensures { OnOk result (string_bytes text.new ≡ string_bytes text.old ++ read_text offer.now) }
{
    match &offer.read {
        None => Ok(()),
        Some(lengths) => {
            push_number(text, "read@", u64::from(offer.read_at))?;
            push_text(text, "=")?;
            push_lengths(text, lengths.as_slice())
        }
    }
}

/// What stands before a part that follows another, if that is there.
fn after_part(part: &Option<Lengths>) -> &'static str
    ensures { result.now ≡ semicolon_after part.now }
{
    match part {
        None => "",
        Some(_) => ";",
    }
}

fn after_parts(first: &Option<Lengths>, second: &Option<Lengths>) -> &'static str
    ensures { result.now ≡ semicolon_if (semicolon_after first.now) (semicolon_after second.now) }
{
    match first {
        None => after_part(second),
        Some(_) => ";",
    }
}

#[tactic(auto, unfolding(crate::specs::Texts::offer_text))]
fn push_offer(text: &mut String, offer: &Offer) -> Result<(), Memory>
    ensures { OnOk result (string_bytes text.new ≡ string_bytes text.old ++ offer_text offer.now) }
{
    push_read(text, offer)?;
    push_part(text, after_part(&offer.read), "write=", &offer.write)?;
    push_part(
        text,
        after_parts(&offer.read, &offer.write),
        "reply=",
        &offer.reply,
    )
}

fn push_form(text: &mut String, form: &Form) -> Result<(), Memory>
    ensures { OnOk result (string_bytes text.new ≡ string_bytes text.old ++ form_text form.now) }
{
    match form {
        Form::Auto => push_text(text, "auto"),
        Form::Inline => push_text(text, "inline"),
        Form::Chunk => push_text(text, "chunk"),
        Form::Long => push_text(text, "long"),
        Form::Given(offer) => {
            push_text(text, "given:")?;
            push_offer(text, offer)
        }
    }
}

// ---- marks

fn push_cred(text: &mut String, cred: &Cred) -> Result<(), Memory>
    ensures { OnOk result (string_bytes text.new ≡ string_bytes text.old ++ cred_text cred.now) }
{
    match cred {
        Cred::None | Cred::Other { .. } => push_text(text, "none"),
        Cred::Sys { uid, gid, .. } => {
            push_number(text, "", u64::from(*uid))?;
            push_number(text, ".", u64::from(*gid))
        }
    }
}

/// The text of a call: of its program, version and procedure, its credential and its arguments.
#[tactic(auto, unfolding(crate::specs::Texts::call_text))]
fn push_call(
    alloc: Global,
    text: &mut String,
    procedure: (u32, u32, u32),
    cred: &Cred,
    args: &[u8],
) -> Result<(), Memory>
    ensures { OnOk result (string_bytes text.new ≡ string_bytes text.old ++ call_text (record { prog = procedure.0; vers = procedure.1; proc = procedure.2; cred = cred.now; args = args.now })) }
{
    let (prog, vers, proc) = procedure;
    push_number(text, "", u64::from(prog))?;
    push_number(text, ".", u64::from(vers))?;
    push_number(text, " ", u64::from(proc))?;
    push_text(text, " ")?;
    push_cred(text, cred)?;
    push_text(text, " ")?;
    push_bytes(alloc, text, args)
}

fn side_words(side: Side) -> &'static str
    ensures { result.now ≡ side_text side }
{
    match side {
        Side::Initiator => " client ",
        Side::Responder => " server ",
    }
}

/// The link, the side and the bytes of a piece, after its name.
pub(crate) fn push_piece(
    alloc: Global,
    text: &mut String,
    name: &str,
    link: u32,
    side: Side,
    bytes: &[u8],
) -> Result<(), Memory>
    ensures { OnOk result (string_bytes text.new ≡ string_bytes text.old ++ (name.now ++ decimal link ++ side_text side ++ bytes_text bytes.now)) }
{
    push_number(text, name, u64::from(link))?;
    push_text(text, side_words(side))?;
    push_bytes(alloc, text, bytes)
}

fn push_outcome(alloc: Global, text: &mut String, outcome: &Outcome) -> Result<(), Memory>
    ensures { OnOk result (string_bytes text.new ≡ string_bytes text.old ++ outcome_text outcome.now) }
{
    match outcome {
        Outcome::Reply(payload) => {
            push_text(text, " reply ")?;
            push_bytes(alloc, text, payload.as_slice())
        }
        Outcome::Chunk => push_text(text, " chunk"),
        Outcome::Version { low, high } => push_two(text, " version ", *low, *high),
    }
}

/// A call line before the call.
fn push_form_line(text: &mut String, link: u32, xid: u32, form: &Form) -> Result<(), Memory>
    ensures { OnOk result (string_bytes text.new ≡ string_bytes text.old ++ (codes "submit " ++ two_numbers_text link xid ++ codes " " ++ form_text form.now ++ codes " ")) }
{
    push_two(text, "submit ", link, xid)?;
    push_text(text, " ")?;
    push_form(text, form)?;
    push_text(text, " ")
}

pub(crate) fn push_submit(
    alloc: Global,
    text: &mut String,
    link: u32,
    xid: u32,
    form: &Form,
    call: &Call,
) -> Result<(), Memory>
    ensures { OnOk result (string_bytes text.new ≡ string_bytes text.old ++ submit_text link xid form.now call.now) }
{
    push_form_line(text, link, xid, form)?;
    let procedure = (call.prog, call.vers, call.proc);
    push_call(alloc, text, procedure, &call.cred, call.args.as_slice())
}

/// A call without a credential, in the Auto form.
pub(crate) fn push_plain_submit(
    alloc: Global,
    text: &mut String,
    at: (u32, u32),
    procedure: (u32, u32, u32),
    args: &[u8],
) -> Result<(), Memory>
    ensures { OnOk result (string_bytes text.new ≡ string_bytes text.old ++ submit_text at.0 at.1 forms.Auto (record { prog = procedure.0; vers = procedure.1; proc = procedure.2; cred = creds.None; args = args.now })) }
{
    let (link, xid) = at;
    push_form_line(text, link, xid, &Form::Auto)?;
    push_call(alloc, text, procedure, &Cred::None, args)
}

pub(crate) fn push_exec(text: &mut String, link: u32, xid: u32, seconds: u32) -> Result<(), Memory>
    ensures { OnOk result (string_bytes text.new ≡ string_bytes text.old ++ (codes "exec " ++ two_numbers_text link xid ++ codes " " ++ decimal seconds)) }
{
    push_two(text, "exec ", link, xid)?;
    push_number(text, " ", u64::from(seconds))
}

pub(crate) fn push_done(
    alloc: Global,
    text: &mut String,
    link: u32,
    xid: u32,
    outcome: &Outcome,
) -> Result<(), Memory>
    ensures { OnOk result (string_bytes text.new ≡ string_bytes text.old ++ (codes "done " ++ two_numbers_text link xid ++ outcome_text outcome.now)) }
{
    push_two(text, "done ", link, xid)?;
    push_outcome(alloc, text, outcome)
}

#[tactic(auto, unfolding(crate::specs::Texts::mark_text))]
fn push_mark(alloc: Global, text: &mut String, mark: &CapturedMark) -> Result<(), Memory>
    ensures { OnOk result (string_bytes text.new ≡ string_bytes text.old ++ mark_text mark.now) }
{
    match mark {
        CapturedMark::Submit {
            link,
            xid,
            form,
            call,
        } => push_submit(alloc, text, *link, *xid, form, call),
        CapturedMark::Out { link, side, bytes } => {
            push_piece(alloc, text, "out ", *link, *side, bytes.as_slice())
        }
        CapturedMark::In { link, side, bytes } => {
            push_piece(alloc, text, "in ", *link, *side, bytes.as_slice())
        }
        CapturedMark::Exec { link, xid, seconds } => push_exec(text, *link, *xid, *seconds),
        CapturedMark::Done { link, xid, outcome } => push_done(alloc, text, *link, *xid, outcome),
        CapturedMark::Forget { link, xid } => push_two(text, "forget ", *link, *xid),
        CapturedMark::Revoke { link, xid } => push_two(text, "revoke ", *link, *xid),
        CapturedMark::Drop { link } => push_number(text, "drop ", u64::from(*link)),
        CapturedMark::Grant { link, credits } => push_two(text, "grant ", *link, *credits),
    }
}

fn push_line(alloc: Global, text: &mut String, mark: &CapturedMark) -> Result<(), Memory>
    ensures { OnOk result (string_bytes text.new ≡ string_bytes text.old ++ line_text mark.now) }
{
    push_mark(alloc, text, mark)?;
    push_text(text, "\n")
}

fn push_marks(alloc: Global, text: &mut String, marks: &[CapturedMark]) -> Result<(), Memory>
    ensures { OnOk result (string_bytes text.new ≡ string_bytes text.old ++ flat_map line_text marks.now) }
{
    for mark in marks {
        push_line(alloc, text, mark)?;
    }
    Ok(())
}

fn push_capacity(text: &mut String, capacity: u64) -> Result<(), Memory>
    ensures { OnOk result (string_bytes text.new ≡ string_bytes text.old ++ capacity_text capacity) }
{
    if capacity == DEFAULT_CAPACITY {
        return Ok(());
    }
    push_number(text, " capacity ", capacity)
}

fn push_sizes(text: &mut String, client: u8, server: u8) -> Result<(), Memory>
    ensures { OnOk result (string_bytes text.new ≡ string_bytes text.old ++ sizes_text client server) }
{
    if client == DEFAULT_UNITS && server == DEFAULT_UNITS {
        return Ok(());
    }
    push_two(text, " sizes ", u32::from(client), u32::from(server))
}

fn push_numbered(text: &mut String, numbered: bool) -> Result<(), Memory>
    ensures { OnOk result (string_bytes text.new ≡ string_bytes text.old ++ numbered_text numbered) }
{
    if !numbered {
        return Ok(());
    }
    push_text(text, " numbered")
}

fn push_invalidate(text: &mut String, invalidates: bool) -> Result<(), Memory>
    ensures { OnOk result (string_bytes text.new ≡ string_bytes text.old ++ invalidate_text invalidates) }
{
    if !invalidates {
        return Ok(());
    }
    push_text(text, " invalidate")
}

#[tactic(auto, unfolding(crate::specs::Texts::opening_text))]
pub(crate) fn push_opening(text: &mut String, opening: Opening) -> Result<(), Memory>
    ensures { OnOk result (string_bytes text.new ≡ string_bytes text.old ++ opening_text opening) }
{
    push_number(text, "clients ", u64::from(opening.clients))?;
    push_number(text, " credits ", u64::from(opening.credits))?;
    push_capacity(text, opening.capacity)?;
    push_sizes(text, opening.client_units, opening.server_units)?;
    push_numbered(text, opening.numbered)?;
    push_invalidate(text, opening.invalidates)
}

/// The text of a first line and of marks.
#[tactic(auto, unfolding(crate::specs::Texts::capture_text))]
fn written(alloc: Global, opening: Opening, marks: &[CapturedMark]) -> Result<Octets, Memory>
    ensures { IfOk result (λ text. text ≡ capture_text (record { opening = opening; marks = marks.now })) }
{
    let mut text = String::new(alloc);
    push_opening(&mut text, opening)?;
    push_text(&mut text, "\n")?;
    push_marks(alloc, &mut text, marks)?;
    Ok(Octets::from_vec(text.into_bytes()))
}

/// The text of a capture: its first line, and a line for each mark. It is read back as the capture.
///
/// # Errors
///
/// [`Memory`] if memory ran out.
pub fn write_capture(alloc: Global, capture: &Capture) -> Result<Octets, Memory>
    ensures is { IfOk result (λ text. text ≡ capture_text capture.now) }
    ensures read { IfOk result (λ text. capture_of text ≡ Ok capture.now) }
{
    written(alloc, capture.opening(), capture.marks())
}
