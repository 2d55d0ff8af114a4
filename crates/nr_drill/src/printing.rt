//! What a drill prints: a line for each call line, a line for each link that was dropped and each side that ended, and
//! the journal's length; or one line of sums.

ghost use Rattle.std.specs.Prelude.{◌≡◌, ◌++◌, ◌*◌, codes, count_by, sum_by, length, IfOk, OnOk};
ghost use Rattle.std.specs.Fmt.{decimal};
ghost use Rattle.std.specs.List.{flat_map};
ghost use Rattle.std.specs.String.{string_bytes};
ghost use Rattle.hex.specs.Hex.{encode_lower};
ghost use Rattle.nr_drill.specs.declared.report.CallReport.{CallReport};
ghost use Rattle.nr_drill.specs.Shown.{bytes_text, call_sums, call_state_text, call_text, denial_text, end_text, is_done, is_refused, journal_text, link_state_text, link_text, outcome_text, place_text, refused_text, reply_bytes, run_sums, side_text, sums_of, text_of, two_numbers};

use crate::report::{CallReport, CallState, LinkReport, LinkState, Report};
use nr_link::End;
use nr_reduce::{Outcome, Refused};
use nr_regions::Denied;
use nr_wire::Side;
use nr_xdr::{Memory, Octets};
use std::alloc::Global;
use std::fmt::Write;

/// Two numbers with a space between them.
#[tactic(auto, unfolding(crate::specs::Shown::two_numbers))]
fn push_two(text: &mut String, first: u128, second: u64) -> Result<(), Memory>
    ensures { OnOk result (string_bytes text.new ≡ string_bytes text.old ++ two_numbers first second) }
{
    write!(text, "{first} {second}")?;
    Ok(())
}

fn push_text(text: &mut String, words: &str) -> Result<(), Memory>
    ensures { OnOk result (string_bytes text.new ≡ string_bytes text.old ++ words.now) }
{
    text.push_str(words)?;
    Ok(())
}

/// A text, and a number after it.
fn push_number(text: &mut String, words: &str, number: u128) -> Result<(), Memory>
    ensures { OnOk result (string_bytes text.new ≡ string_bytes text.old ++ (words.now ++ decimal number)) }
{
    text.push_str(words)?;
    write!(text, "{number}")?;
    Ok(())
}

/// Bytes as hexadecimal digits.
fn push_digits(alloc: Global, text: &mut String, bytes: &[u8]) -> Result<(), Memory>
    ensures { OnOk result (string_bytes text.new ≡ string_bytes text.old ++ encode_lower bytes.now) }
{
    let digits = hex::encode(alloc, bytes)?;
    text.push_str(digits.as_str())?;
    Ok(())
}

/// A text, and two numbers after it.
fn push_words(text: &mut String, words: &str, first: u128, second: u64) -> Result<(), Memory>
    ensures { OnOk result (string_bytes text.new ≡ string_bytes text.old ++ (words.now ++ two_numbers first second)) }
{
    text.push_str(words)?;
    push_two(text, first, second)?;
    Ok(())
}

/// The place at which a call was executed, if it was.
fn push_place(text: &mut String, place: Option<u64>) -> Result<(), Memory>
    ensures { OnOk result (string_bytes text.new ≡ string_bytes text.old ++ place_text place) }
{
    match place {
        None => Ok(()),
        Some(place) => {
            write!(text, " place {place}")?;
            Ok(())
        }
    }
}

/// The answer to a call.
fn push_outcome(alloc: Global, text: &mut String, outcome: &Outcome) -> Result<(), Memory>
    ensures { OnOk result (string_bytes text.new ≡ string_bytes text.old ++ outcome_text outcome.now) }
{
    match outcome {
        Outcome::Reply(payload) => {
            push_text(text, " reply ")?;
            push_digits(alloc, text, payload.as_slice())
        }
        Outcome::Chunk => push_text(text, " chunk"),
        Outcome::Version { low, high } => {
            push_words(text, " version ", u128::from(*low), u64::from(*high))
        }
    }
}

/// The bytes of the memory of a revoked call. There may be none.
fn push_bytes(alloc: Global, text: &mut String, bytes: &[u8]) -> Result<(), Memory>
    ensures { OnOk result (string_bytes text.new ≡ string_bytes text.old ++ bytes_text bytes.now) }
{
    if bytes.is_empty() {
        push_text(text, "-")
    } else {
        push_digits(alloc, text, bytes)
    }
}

/// Why a call wasn't sent.
fn push_refused(text: &mut String, refused: &Refused) -> Result<(), Memory>
    ensures { OnOk result (string_bytes text.new ≡ string_bytes text.old ++ refused_text refused.now) }
{
    match *refused {
        Refused::Ended(_) => push_text(text, " refused ended"),
        Refused::TooLarge { need, room } => {
            push_words(text, " refused large ", need, u64::from(room))
        }
        Refused::NoCredit { out, grant } => {
            push_words(text, " refused credit ", u128::from(out), u64::from(grant))
        }
        Refused::Window { oldest, next } => {
            push_words(text, " refused window ", u128::from(oldest), next)
        }
        Refused::Spent { left, need } => {
            push_words(text, " refused spent ", u128::from(left), need)
        }
        Refused::Memory => push_text(text, " refused memory"),
    }
}

/// A call whose memory was taken back.
fn push_revoked(alloc: Global, text: &mut String, bytes: &[u8]) -> Result<(), Memory>
    ensures { OnOk result (string_bytes text.new ≡ string_bytes text.old ++ (codes " revoked " ++ bytes_text bytes.now)) }
{
    text.push_str(" revoked ")?;
    push_bytes(alloc, text, bytes)
}

/// What became of a call.
fn push_call_state(alloc: Global, text: &mut String, state: &CallState) -> Result<(), Memory>
    ensures { OnOk result (string_bytes text.new ≡ string_bytes text.old ++ call_state_text state.now) }
{
    match state {
        CallState::Open { .. } => push_text(text, " open"),
        CallState::Done { place, outcome } => {
            push_place(text, *place)?;
            push_outcome(alloc, text, outcome)
        }
        CallState::Lost => push_text(text, " lost"),
        CallState::Forgotten => push_text(text, " forgotten"),
        CallState::Revoked(bytes) => push_revoked(alloc, text, bytes.as_slice()),
        CallState::Refused(refused) => push_refused(text, refused),
        CallState::Dropped => push_text(text, " refused ended"),
    }
}

/// The line of a call.
#[tactic(auto, unfolding(crate::specs::Shown::call_text))]
fn push_call(alloc: Global, text: &mut String, report: &CallReport) -> Result<(), Memory>
    ensures { OnOk result (string_bytes text.new ≡ string_bytes text.old ++ call_text report.now) }
{
    push_two(text, u128::from(report.client), u64::from(report.number))?;
    push_call_state(alloc, text, &report.state)?;
    text.push_str("\n")?;
    Ok(())
}

/// Why an access was denied.
fn denial_words(why: Denied) -> &'static str
    ensures { result.now ≡ denial_text why }
{
    match why {
        Denied::NoStag => " nostag",
        Denied::Bounds => " bounds",
        Denied::Right => " right",
    }
}

/// An access that was denied.
fn push_denied(text: &mut String, stag: u32, offset: u64, why: Denied) -> Result<(), Memory>
    ensures { OnOk result (string_bytes text.new ≡ string_bytes text.old ++ (codes " denied " ++ two_numbers stag offset ++ denial_text why)) }
{
    push_words(text, " denied ", u128::from(stag), offset)?;
    text.push_str(denial_words(why))?;
    Ok(())
}

/// Why a side of a link ended.
#[tactic(auto, unfolding(crate::specs::Shown::end_text))]
fn push_end(text: &mut String, end: End) -> Result<(), Memory>
    ensures { OnOk result (string_bytes text.new ≡ string_bytes text.old ++ end_text end) }
{
    match end {
        End::Bad { at, reason } => push_words(text, " bad ", u128::from(at), u64::from(reason)),
        End::Denied { stag, offset, why } => push_denied(text, stag, offset, why),
        End::NoBuffer { msn } => push_number(text, " nobuffer ", u128::from(msn)),
        End::Terminated { reason } => push_number(text, " terminated ", u128::from(reason)),
        End::Memory => push_text(text, " memory"),
    }
}

/// A side of a link.
fn side_words(side: Side) -> &'static str
    ensures { result.now ≡ side_text side }
{
    match side {
        Side::Initiator => " client",
        Side::Responder => " server",
    }
}

/// How a link, or a side of it, ended.
fn push_link_state(text: &mut String, state: LinkState) -> Result<(), Memory>
    ensures { OnOk result (string_bytes text.new ≡ string_bytes text.old ++ link_state_text state) }
{
    match state {
        LinkState::Dropped => push_text(text, " dropped"),
        LinkState::Ended { side, end } => {
            text.push_str(side_words(side))?;
            push_end(text, end)
        }
    }
}

/// The line of a link that was dropped, or of a side that ended.
#[tactic(auto, unfolding(crate::specs::Shown::link_text))]
fn push_link(text: &mut String, report: &LinkReport) -> Result<(), Memory>
    ensures { OnOk result (string_bytes text.new ≡ string_bytes text.old ++ link_text report.now) }
{
    let client = report.client;
    write!(text, "link {client}")?;
    push_link_state(text, report.state)?;
    text.push_str("\n")?;
    Ok(())
}

/// The journal's length.
#[tactic(auto, unfolding(crate::specs::Shown::journal_text))]
fn push_journal(text: &mut String, len: usize) -> Result<(), Memory>
    ensures { OnOk result (string_bytes text.new ≡ string_bytes text.old ++ journal_text len) }
{
    write!(text, "journal {len}")?;
    text.push_str("\n")?;
    Ok(())
}

/// The lines of the calls.
fn push_calls(alloc: Global, text: &mut String, calls: &[CallReport]) -> Result<(), Memory>
    ensures { OnOk result (string_bytes text.new ≡ string_bytes text.old ++ flat_map call_text calls.now) }
{
    for report in calls {
        push_call(alloc, text, report)?;
    }
    Ok(())
}

/// The lines of the links.
fn push_links(text: &mut String, links: &[LinkReport]) -> Result<(), Memory>
    ensures { OnOk result (string_bytes text.new ≡ string_bytes text.old ++ flat_map link_text links.now) }
{
    for link in links {
        push_link(text, link)?;
    }
    Ok(())
}

/// The printed bytes of a report: a line for each call line, a line for each link that was dropped and each side that ended, and
/// the journal's length.
///
/// # Errors
///
/// [`Memory`] if memory ran out.
#[tactic(auto, unfolding(crate::specs::Shown::text_of))]
pub fn shown(alloc: Global, report: &Report) -> Result<Octets, Memory>
    ensures { IfOk result (λ text. text ≡ text_of report.now.calls report.now.links (length report.now.journal)) }
{
    let mut text = String::new(alloc);
    push_calls(alloc, &mut text, report.calls.as_slice())?;
    push_links(&mut text, report.links.as_slice())?;
    push_journal(&mut text, report.journal.len())?;
    Ok(Octets::from_vec(text.into_bytes()))
}

/// Whether the outcome of a call was handed over.
fn is_done(report: &CallReport) -> bool
    ensures { result ≡ is_done report.now.state }
{
    match &report.state {
        CallState::Done { .. } => true,
        _ => false,
    }
}

/// Whether a call wasn't sent.
fn is_refused(report: &CallReport) -> bool
    ensures { result ≡ is_refused report.now.state }
{
    match &report.state {
        CallState::Refused(_) | CallState::Dropped => true,
        _ => false,
    }
}

/// The bytes of the reply that was handed over, if one was.
fn reply_len(report: &CallReport) -> usize
    ensures { result ≡ reply_bytes report.now.state }
{
    match &report.state {
        CallState::Done {
            outcome: Outcome::Reply(payload),
            ..
        } => payload.len(),
        _ => 0,
    }
}

/// How many outcomes were handed over.
fn count_done(calls: &[CallReport]) -> usize
    ensures { result ≡ count_by (λ (r : CallReport). is_done r.state) calls.now }
{
    let mut count: usize = 0;
    for report in calls {
        if is_done(report) {
            count += 1;
        }
    }
    count
}

/// How many calls weren't sent.
fn count_refused(calls: &[CallReport]) -> usize
    ensures { result ≡ count_by (λ (r : CallReport). is_refused r.state) calls.now }
{
    let mut count: usize = 0;
    for report in calls {
        if is_refused(report) {
            count += 1;
        }
    }
    count
}

/// The bytes of all replies that were handed over.
fn reply_sum(calls: &[CallReport]) -> u128
    ensures { result ≡ sum_by (λ (r : CallReport). reply_bytes r.state) calls.now }
{
    let mut sum: u128 = 0;
    for report in calls {
        sum += reply_len(report) as u128;
    }
    sum
}

#[tactic(auto, unfolding(crate::specs::Shown::call_sums))]
fn push_call_sums(text: &mut String, calls: &[CallReport]) -> Result<(), Memory>
    ensures { OnOk result (string_bytes text.new ≡ string_bytes text.old ++ call_sums calls.now) }
{
    push_number(text, "calls ", calls.len() as u128)?;
    push_number(text, " done ", count_done(calls) as u128)?;
    push_number(text, " refused ", count_refused(calls) as u128)?;
    Ok(())
}

/// The journal's length and the bytes of the replies.
#[tactic(auto, unfolding(crate::specs::Shown::run_sums))]
fn push_run_sums(text: &mut String, calls: &[CallReport], len: usize) -> Result<(), Memory>
    ensures { OnOk result (string_bytes text.new ≡ string_bytes text.old ++ run_sums calls.now len) }
{
    push_number(text, " journal ", len as u128)?;
    push_number(text, " bytes ", reply_sum(calls))?;
    text.push_str("\n")?;
    Ok(())
}

/// The line of sums of a report: the call lines, the outcomes that were handed over, the calls that weren't sent, the
/// journal's length, and the bytes of the replies.
///
/// # Errors
///
/// [`Memory`] if memory ran out.
#[tactic(auto, unfolding(crate::specs::Shown::sums_of))]
pub fn summary(alloc: Global, report: &Report) -> Result<Octets, Memory>
    ensures { IfOk result (λ text. text ≡ sums_of report.now.calls (length report.now.journal)) }
{
    let mut text = String::new(alloc);
    push_call_sums(&mut text, report.calls.as_slice())?;
    push_run_sums(&mut text, report.calls.as_slice(), report.journal.len())?;
    Ok(Octets::from_vec(text.into_bytes()))
}
