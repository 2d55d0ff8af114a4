//! The text for each reason that a command was not done.

ghost use Rattle.std.specs.Prelude.{◌≡◌, IfOk};
ghost use Rattle.std.specs.String.{string_bytes};
ghost use Rattle.nr_commands.specs.Endings.{call_text, denial_words, denied_text, end_text, line, line_with, line_with_two, link_text, rpc_words};

use nr_client::{CallEnd, ClientEnd, RpcKind};
use nr_link::End;
use nr_nfs_base::Numbered;
use nr_regions::Denied;
use nr_xdr::Memory;
use std::alloc::Global;

/// A line of these words.
#[tactic(auto, unfolding(crate::specs::Endings::line))]
fn line(alloc: Global, words: &str) -> Result<String, Memory>
    ensures { IfOk result (λ text. string_bytes text ≡ line words.now) }
{
    let text = format!(in alloc; "{words}\n")?;
    Ok(text)
}

/// A line of these words and a number.
#[tactic(auto, unfolding(crate::specs::Endings::line_with))]
fn line_with(alloc: Global, words: &str, number: u128) -> Result<String, Memory>
    ensures { IfOk result (λ text. string_bytes text ≡ line_with words.now number) }
{
    let text = format!(in alloc; "{words}{number}\n")?;
    Ok(text)
}

/// A line of these words and two numbers.
#[tactic(auto, unfolding(crate::specs::Endings::line_with_two))]
fn line_with_two(alloc: Global, words: &str, first: u64, second: u32) -> Result<String, Memory>
    ensures { IfOk result (λ text. string_bytes text ≡ line_with_two words.now first second) }
{
    let text = format!(in alloc; "{words}{first} {second}\n")?;
    Ok(text)
}

/// Why an access was denied.
fn denial_words(why: Denied) -> &'static str
    ensures { result.now ≡ denial_words why }
{
    match why {
        Denied::NoStag => " nostag\n",
        Denied::Bounds => " bounds\n",
        Denied::Right => " right\n",
    }
}

/// An access was denied.
#[tactic(auto, unfolding(crate::specs::Endings::denied_text))]
fn denied_text(alloc: Global, stag: u32, offset: u64, why: Denied) -> Result<String, Memory>
    ensures { IfOk result (λ text. string_bytes text ≡ denied_text stag offset why) }
{
    let mut text = format!(in alloc; "protocol denied {stag} {offset}")?;
    text.push_str(denial_words(why))?;
    Ok(text)
}

/// The client's side of the link has ended.
fn link_text(alloc: Global, end: End) -> Result<String, Memory>
    ensures { IfOk result (λ text. string_bytes text ≡ link_text end) }
{
    match end {
        End::Bad { at, reason } => line_with_two(alloc, "protocol bad ", at, reason),
        End::Denied { stag, offset, why } => denied_text(alloc, stag, offset, why),
        End::NoBuffer { msn } => line_with(alloc, "protocol nobuffer ", u128::from(msn)),
        End::Terminated { reason } => {
            line_with(alloc, "protocol terminated ", u128::from(reason))
        }
        End::Memory => line(alloc, "memory"),
    }
}

/// A call has no answer.
fn call_text(alloc: Global, end: CallEnd) -> Result<String, Memory>
    ensures { IfOk result (λ text. string_bytes text ≡ call_text end) }
{
    match end {
        CallEnd::Ended(end) => link_text(alloc, end),
        CallEnd::LinkRead => line(alloc, "link fault"),
        CallEnd::LinkWrite => line(alloc, "link fault"),
        CallEnd::Closed | CallEnd::Tries { .. } => line(alloc, "link closed"),
        CallEnd::DialFault => line(alloc, "link fault"),
        CallEnd::Spent { left, .. } => line_with(alloc, "budget ", u128::from(left)),
        CallEnd::TooLarge { need, .. } => line_with(alloc, "budget ", need),
        CallEnd::Budget { read } => line_with(alloc, "budget ", u128::from(read)),
        CallEnd::Memory => line(alloc, "memory"),
    }
}

/// How a call was refused.
fn rpc_words(kind: RpcKind) -> &'static str
    ensures { result.now ≡ rpc_words kind }
{
    match kind {
        RpcKind::Accept => "rpc accept ",
        RpcKind::Reject => "rpc reject ",
    }
}

/// The text for a reason that a command was not done, a line.
///
/// # Errors
///
/// [`Memory`] if memory ran out.
pub fn end_text(alloc: Global, end: ClientEnd) -> Result<String, Memory>
    ensures { IfOk result (λ text. string_bytes text ≡ end_text end) }
{
    match end {
        ClientEnd::DialFault => line(alloc, "link fault"),
        ClientEnd::Link(end) => call_text(alloc, end),
        ClientEnd::Rpc { kind, code } => line_with(alloc, rpc_words(kind), u128::from(code)),
        ClientEnd::Mount { status } => line_with(alloc, "mount ", u128::from(status.number())),
        ClientEnd::Nfs { status } => line_with(alloc, "nfs ", u128::from(status.number())),
        ClientEnd::Chunk => line(alloc, "chunk"),
        ClientEnd::Version { low, high } => {
            line_with_two(alloc, "version ", u64::from(low), high)
        }
        ClientEnd::BadReply { at, reason } => {
            line_with_two(alloc, "protocol bad ", at as u64, reason)
        }
        ClientEnd::BadPath { at } => line_with(alloc, "bad path ", at as u128),
        ClientEnd::InputFault => line(alloc, "input fault"),
        ClientEnd::OutputFault => line(alloc, "output fault"),
        ClientEnd::Budget { count } => line_with(alloc, "budget ", count as u128),
        ClientEnd::Memory => line(alloc, "memory"),
    }
}
