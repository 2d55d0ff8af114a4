//! The first line of a script and of a capture, and the credential of a user.

ghost use Rattle.std.specs.Prelude.{◌≡◌, None, Some, IfOk, option_map, []};
ghost use Rattle.nr_wire.specs.Constants.{UNITS_MAX as units_max};
ghost use Rattle.nr_texts.specs.Openings.{capacity_in, invalidate_in, numbered_in, opening_in, opening_of, sizes_in, sys_cred};
ghost use Rattle.nr_texts.specs.Pieces.{texts};
ghost use Rattle.nr_texts.specs.Words.{number_within};

use crate::words::{is, number_within};
use nr_reduce::CREDITS_MAX;
use nr_rpc::{Cred, Gids};
use nr_wire::constants::UNITS_MAX;
use nr_xdr::{Memory, Octets};
use std::alloc::Global;

/// The bytes that the journal may cost, if a text doesn't say.
pub const DEFAULT_CAPACITY: u64 = 1_099_511_627_776;

/// The maximum that a text may let the journal cost, in bytes.
pub const CAPACITY_MAX: u64 = 9_223_372_036_854_775_807;

/// The units of a client and of a server, if a text doesn't say.
pub const DEFAULT_UNITS: u8 = 1;

/// The maximum number of clients.
pub const CLIENTS_MAX: u32 = 16;

/// The first line of a script, and of the capture of its run. Each client has a link of its own at first.
#[derive(Clone, Copy)]
pub struct Opening {
    /// How many clients there are: 1 to 16.
    pub clients: u32,
    /// The credits with which both ends of each link are opened (RFC 8166 section 3.3): 1 to 64.
    pub credits: u32,
    /// How many bytes the journal may cost: at most 2^63 - 1.
    pub capacity: u64,
    /// The units of the Sends of each client, of 1,024 bytes each: 1 to 16.
    pub client_units: u8,
    /// The units of the Sends of each server: 1 to 16.
    pub server_units: u8,
    /// Whether each client has its number, from 1. Only such a client may begin another link.
    pub numbered: bool,
    /// Whether both ends of each link make or take Sends with Invalidate (RFC 5040 section 4).
    pub invalidates: bool,
}

/// The number of bytes of `capacity B`, or the default if the words begin with another, and the words that are left.
fn capacity_in<'a>(words: &'a [&'a [u8]]) -> Option<(u64, &'a [&'a [u8]])>
    ensures { option_map (λ p. (p.0, texts p.1.now)) result ≡ capacity_in (texts words.now) }
{
    match words {
        [name, bytes, others @ ..] => {
            if is(name, b"capacity") {
                let bytes = number_within(0, CAPACITY_MAX, bytes)?;
                Some((bytes, others))
            } else {
                Some((DEFAULT_CAPACITY, words))
            }
        }
        _ => Some((DEFAULT_CAPACITY, words)),
    }
}

/// A number of units.
fn units_in(word: &[u8]) -> Option<u8>
    ensures { result ≡ number_within 1 units_max word.now }
{
    match number_within(1, u64::from(UNITS_MAX), word) {
        Some(value) => Some(value as u8),
        None => None,
    }
}

/// The units of each client and of each server of `sizes A B`, or the default if the words begin with another, and the words that are left.
fn sizes_in<'a>(words: &'a [&'a [u8]]) -> Option<((u8, u8), &'a [&'a [u8]])>
    ensures { option_map (λ p. (p.0, texts p.1.now)) result ≡ sizes_in (texts words.now) }
{
    match words {
        [name, client, server, others @ ..] => {
            if is(name, b"sizes") {
                let client = units_in(client)?;
                let server = units_in(server)?;
                Some(((client, server), others))
            } else {
                Some(((DEFAULT_UNITS, DEFAULT_UNITS), words))
            }
        }
        _ => Some(((DEFAULT_UNITS, DEFAULT_UNITS), words)),
    }
}

/// Whether `numbered` is there, and the words that are left.
fn numbered_in<'a>(words: &'a [&'a [u8]]) -> (bool, &'a [&'a [u8]])
    ensures { (result.0, texts result.1.now) ≡ numbered_in (texts words.now) }
{
    match words {
        [name, others @ ..] => {
            if is(name, b"numbered") {
                (true, others)
            } else {
                (false, words)
            }
        }
        _ => (false, words),
    }
}

/// Whether `invalidate` is there, if no other words are left.
fn invalidate_in(words: &[&[u8]]) -> Option<bool>
    ensures { result ≡ invalidate_in (texts words.now) }
{
    match words {
        [] => Some(false),
        [name] => {
            if is(name, b"invalidate") {
                Some(true)
            } else {
                None
            }
        }
        _ => None,
    }
}

/// A number of 32 bits from 1.
fn count_in(most: u32, word: &[u8]) -> Option<u32>
    ensures { result ≡ number_within 1 most word.now }
{
    match number_within(1, u64::from(most), word) {
        Some(value) => Some(value as u32),
        None => None,
    }
}

fn opening_of(clients: &[u8], credits: &[u8], others: &[&[u8]]) -> Option<Opening>
    ensures { result ≡ opening_of clients.now credits.now (texts others.now) }
{
    let clients = count_in(CLIENTS_MAX, clients)?;
    let credits = count_in(CREDITS_MAX, credits)?;
    let (capacity, others) = capacity_in(others)?;
    let ((client_units, server_units), others) = sizes_in(others)?;
    let (numbered, others) = numbered_in(others);
    let invalidates = invalidate_in(others)?;
    Some(Opening {
        clients,
        credits,
        capacity,
        client_units,
        server_units,
        numbered,
        invalidates,
    })
}

/// The first line: `clients N credits G`, and then, each if it is given and in this order, ` capacity B`, ` sizes A B`, ` numbered`, ` invalidate`.
#[tactic(auto, unfolding(crate::specs::Openings::opening_in))]
pub fn opening_in(words: &[&[u8]]) -> Option<Opening>
    ensures { result ≡ opening_in (texts words.now) }
{
    match words {
        [first, clients, second, credits, others @ ..] => {
            if is(first, b"clients") && is(second, b"credits") {
                opening_of(clients, credits, others)
            } else {
                None
            }
        }
        _ => None,
    }
}

/// AUTH_SYS of a user of a drill: machine `drill`, no further groups (RFC 5531 appendix A).
///
/// # Errors
///
/// [`Memory`] if memory ran out.
pub fn sys_cred(alloc: Global, uid: u32, gid: u32) -> Result<Cred, Memory>
    ensures { IfOk result (λ cred. cred ≡ sys_cred uid gid) }
{
    let machine: &[u8] = b"drill";
    Ok(Cred::Sys {
        stamp: 0,
        machine: Octets::from_slice(alloc, machine)?,
        uid,
        gid,
        gids: Gids::new(),
    })
}
