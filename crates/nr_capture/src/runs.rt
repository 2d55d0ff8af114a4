//! Writing of the capture of a run, mark by mark.

ghost use Rattle.std.specs.Prelude.{◌≡◌, ◌++◌, codes, IfOk, OnOk};
ghost use Rattle.std.specs.Fmt.{decimal};
ghost use Rattle.std.specs.List.{flat_map};
ghost use Rattle.std.specs.String.{string_bytes};
ghost use Rattle.nr_reduce.specs.declared.call.Outcome.TheVariants as outcomes;
ghost use Rattle.nr_marks.specs.Views.{mark_seen, plain_submit};
ghost use Rattle.nr_capture.specs.declared.capture.CapturedMark.TheVariants as marks;
ghost use Rattle.nr_capture.specs.Captured.{Captured, captured_mark, captured_piece, captured_submit, captured_told};
ghost use Rattle.nr_capture.specs.Texts.{line_text, two_numbers_text};

use crate::printing::{
    push_bytes, push_done, push_exec, push_number, push_opening, push_piece, push_plain_submit,
    push_submit, push_text, push_two,
};
use nr_marks::{MarkList, MarkView};
use nr_reduce::{Call, Form, Mark, Outcome, Submission, Told};
use nr_texts::Opening;
use nr_wire::Side;
use nr_xdr::{Memory, Octets};
use std::alloc::Global;

/// The line of a call that was accepted. One that wasn't has none.
#[tactic(auto, unfolding(crate::specs::Texts::mark_text))]
fn push_submitted(
    alloc: Global,
    text: &mut String,
    link: u32,
    call: &Call,
    form: &Form,
    answer: Submission,
) -> Result<(), Memory>
    ensures { OnOk result (string_bytes text.new ≡ string_bytes text.old ++ flat_map line_text (captured_submit link call.now form.now answer)) }
{
    match answer {
        Submission::Accepted { xid } => {
            push_submit(alloc, text, link, xid, form, call)?;
            push_text(text, "\n")
        }
        Submission::Refused(_) | Submission::Dropped => Ok(()),
    }
}

/// The line of an accepted call without a credential, in the Auto form.
#[tactic(auto, unfolding(crate::specs::Texts::mark_text))]
fn push_plain(
    alloc: Global,
    text: &mut String,
    at: (u32, u32),
    procedure: (u32, u32, u32),
    args: &[u8],
) -> Result<(), Memory>
    ensures { OnOk result (string_bytes text.new ≡ string_bytes text.old ++ flat_map line_text (captured_mark (plain_submit at.0 procedure.0 procedure.1 procedure.2 at.1 args.now))) }
{
    push_plain_submit(alloc, text, at, procedure, args)?;
    push_text(text, "\n")
}

/// The line of bytes that a side wrote, if there are any.
#[tactic(auto, unfolding(crate::specs::Texts::mark_text))]
fn push_wrote(
    alloc: Global,
    text: &mut String,
    link: u32,
    side: Side,
    bytes: &[u8],
) -> Result<(), Memory>
    ensures { OnOk result (string_bytes text.new ≡ string_bytes text.old ++ flat_map line_text (captured_piece marks.Out link side bytes.now)) }
{
    if bytes.is_empty() {
        return Ok(());
    }
    push_piece(alloc, text, "out ", link, side, bytes)?;
    push_text(text, "\n")
}

/// The line of bytes that a side was fed, if there are any.
#[tactic(auto, unfolding(crate::specs::Texts::mark_text))]
fn push_fed(
    alloc: Global,
    text: &mut String,
    link: u32,
    side: Side,
    bytes: &[u8],
) -> Result<(), Memory>
    ensures { OnOk result (string_bytes text.new ≡ string_bytes text.old ++ flat_map line_text (captured_piece marks.In link side bytes.now)) }
{
    if bytes.is_empty() {
        return Ok(());
    }
    push_piece(alloc, text, "in ", link, side, bytes)?;
    push_text(text, "\n")
}

/// The line of an execution.
#[tactic(auto, unfolding(crate::specs::Texts::mark_text))]
fn push_executed(text: &mut String, link: u32, xid: u32, seconds: u32) -> Result<(), Memory>
    ensures { OnOk result (string_bytes text.new ≡ string_bytes text.old ++ line_text (marks.Exec link xid seconds)) }
{
    push_exec(text, link, xid, seconds)?;
    push_text(text, "\n")
}

/// The line of an outcome.
#[tactic(auto, unfolding(crate::specs::Texts::mark_text))]
fn push_outcome(
    alloc: Global,
    text: &mut String,
    link: u32,
    xid: u32,
    outcome: &Outcome,
) -> Result<(), Memory>
    ensures { OnOk result (string_bytes text.new ≡ string_bytes text.old ++ line_text (marks.Done link xid outcome.now)) }
{
    push_done(alloc, text, link, xid, outcome)?;
    push_text(text, "\n")
}

/// The line of an outcome that is a reply.
#[tactic(auto, unfolding(crate::specs::Texts::mark_text))]
fn push_reply(
    alloc: Global,
    text: &mut String,
    link: u32,
    xid: u32,
    reply: &[u8],
) -> Result<(), Memory>
    ensures { OnOk result (string_bytes text.new ≡ string_bytes text.old ++ line_text (marks.Done link xid (outcomes.Reply reply.now))) }
{
    push_two(text, "done ", link, xid)?;
    push_text(text, " reply ")?;
    push_bytes(alloc, text, reply)?;
    push_text(text, "\n")
}

/// The line of a call whose answer or whose memory was given up, with its xid, or of credits that are granted.
fn push_named(text: &mut String, name: &str, link: u32, number: u32) -> Result<(), Memory>
    ensures { OnOk result (string_bytes text.new ≡ string_bytes text.old ++ (name.now ++ two_numbers_text link number ++ codes "\n")) }
{
    push_two(text, name, link, number)?;
    push_text(text, "\n")
}

/// The line of a link that was dropped.
fn push_dropped(text: &mut String, link: u32) -> Result<(), Memory>
    ensures { OnOk result (string_bytes text.new ≡ string_bytes text.old ++ (codes "drop " ++ decimal link ++ codes "\n")) }
{
    push_number(text, "drop ", u64::from(link))?;
    push_text(text, "\n")
}

/// The line of what a server was told. That a call is old has none.
#[tactic(auto, unfolding(crate::specs::Texts::mark_text))]
fn push_told(text: &mut String, link: u32, what: Told) -> Result<(), Memory>
    ensures { OnOk result (string_bytes text.new ≡ string_bytes text.old ++ flat_map line_text (captured_told link what)) }
{
    match what {
        Told::Granted { credits } => push_named(text, "grant ", link, credits),
        Told::Old { .. } => Ok(()),
    }
}

/// The line of a mark, if it has one.
#[tactic(auto, unfolding(crate::specs::Texts::mark_text))]
fn push_mark(alloc: Global, text: &mut String, mark: &Mark) -> Result<(), Memory>
    ensures { OnOk result (string_bytes text.new ≡ string_bytes text.old ++ flat_map line_text (captured_mark mark.now)) }
{
    match mark {
        Mark::Submit {
            link,
            call,
            form,
            answer,
        } => push_submitted(alloc, text, *link, call.get(), form.get(), *answer),
        Mark::Wrote { link, side, bytes } => {
            push_wrote(alloc, text, *link, *side, bytes.as_slice())
        }
        Mark::Fed { link, side, bytes } => push_fed(alloc, text, *link, *side, bytes.as_slice()),
        Mark::Execute {
            link,
            xid,
            moment,
            ..
        } => push_executed(text, *link, *xid, moment.seconds),
        Mark::Done { link, xid, outcome } => push_outcome(alloc, text, *link, *xid, outcome),
        Mark::Lost { .. } => Ok(()),
        Mark::Forget { link, xid } => push_named(text, "forget ", *link, *xid),
        Mark::Revoke { link, xid, .. } => push_named(text, "revoke ", *link, *xid),
        Mark::Drop { link } => push_dropped(text, *link),
        Mark::Told { link, what } => push_told(text, *link, *what),
    }
}

/// The line of a mark that is read, if it has one.
fn push_seen(alloc: Global, text: &mut String, mark: MarkView<'_>) -> Result<(), Memory>
    ensures { OnOk result (string_bytes text.new ≡ string_bytes text.old ++ flat_map line_text (captured_mark (mark_seen mark.entry))) }
{
    match mark {
        MarkView::Submit {
            link,
            prog,
            vers,
            proc,
            xid,
            args,
        } => push_plain(alloc, text, (link, xid), (prog, vers, proc), args),
        MarkView::Wrote { link, side, bytes } => push_wrote(alloc, text, link, side, bytes),
        MarkView::Fed { link, side, bytes } => push_fed(alloc, text, link, side, bytes),
        MarkView::Execute {
            link,
            xid,
            moment,
            ..
        } => push_executed(text, link, xid, moment.seconds),
        MarkView::Done { link, xid, reply } => push_reply(alloc, text, link, xid, reply),
        MarkView::Other(mark) => push_mark(alloc, text, mark),
    }
}

/// The lines of all marks.
fn push_run(alloc: Global, text: &mut String, marks: &MarkList) -> Result<(), Memory>
    ensures { OnOk result (string_bytes text.new ≡ string_bytes text.old ++ flat_map line_text (flat_map captured_mark marks.now)) }
{
    for at in 0..marks.len() {
        push_seen(alloc, text, marks.mark(at))?;
    }
    Ok(())
}

/// The text of the capture of a run, from its marks: its first line, and a line for each mark, but for calls that were refused,
/// pieces of no bytes, calls that were reported lost, and old calls.
///
/// # Errors
///
/// [`Memory`] if memory ran out.
#[tactic(auto, unfolding(crate::specs::Texts::capture_text, crate::specs::Captured::captured))]
pub fn write_run(alloc: Global, opening: Opening, marks: &MarkList) -> Result<Octets, Memory>
    ensures { IfOk result (λ text. text ≡ Captured opening marks.now) }
{
    let mut text = String::new(alloc);
    push_opening(&mut text, opening)?;
    push_text(&mut text, "\n")?;
    push_run(alloc, &mut text, marks)?;
    Ok(Octets::from_vec(text.into_bytes()))
}
