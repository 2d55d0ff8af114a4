//! The words of a run, read.

ghost use Rattle.std.specs.Prelude.{◌≡◌, IfOk, None, Some, map, true, option_map, string_bytes};
ghost use Rattle.clap.specs.Words.{found_of, kind_of, rows_of, subcommand_rows_of};
ghost use Rattle.nr_words.specs.Spelled.{flag_of, narrow, narrow_to_byte, number_of, options_of, positionals_of, spelled, text_of, without_sign};
ghost use Rattle.nr_words.specs.Reads.{Reads, ReadsOther, IsFaultOf, are_jobs, are_tries, are_units, is_action, is_client, is_command, is_number};
ghost use Rattle.nr_words.specs.declared.commands.Command.TheVariants as commands;
ghost use Rattle.nr_words.specs.Lines.{plain_action, plain_client, plain_command, plain_get, plain_positionals};

use crate::commands::{Action, Client, Command, GetByJobs};
use crate::limits::{
    CALLS_MAX, CLIENT_NUMBER_MAX, CLIENTS_MAX, ID_MAX, JOBS_MAX, SEED_MAX, TRIES_MAX, UNITS_MAX,
};
use crate::lines::{
    Positionals, Subcommand, arity, command_of, is_positional, read_line, subcommand_named,
};
use crate::numbers::number_within;
use crate::options::Options;
use crate::program::program;
use clap::error::ErrorKind;
use clap::{ArgMatches, Error};
use std::alloc::{AllocError, Global};

/// Why words give no command.
#[derive(Drop)]
pub enum WordsFault {
    /// Help or the version is asked for, and this is the text.
    Asked { text: String },
    /// The words are refused with this text.
    Refused { text: String },
    /// clap takes the words, and no line asks for what they spell.
    Bad,
    /// Memory ran out.
    Memory,
}

impl From<AllocError> for WordsFault {
    ghost use Rattle.nr_words.specs.declared.words.WordsFault.TheVariants as faults;

    ghost from_gives = { λ _ fault. fault ≡ faults.Memory };

    fn from(_error: AllocError) -> WordsFault {
        WordsFault::Memory
    }
}

/// What clap says of words that it refuses, without its tips: paragraphs that begin with `  tip:`, and guess what was meant.
fn without_tips(alloc: Global, said: &str) -> Result<String, AllocError> {
    let mut kept = String::new(alloc);
    for paragraph in said.split("\n\n") {
        if !paragraph.starts_with("  tip:") {
            if !kept.is_empty() {
                kept.push_str("\n\n")?;
            }
            kept.push_str(paragraph)?;
        }
    }
    Ok(kept)
}

/// An error of clap as a fault.
fn fault_of_error(alloc: Global, error: &Error) -> WordsFault
    ensures { IsFaultOf (kind_of error.now) result }
{
    let kind = error.kind();
    if matches!(kind, ErrorKind::OutOfMemory) {
        return WordsFault::Memory;
    }
    let text = match format!(in alloc; "{error}") {
        Ok(text) => text,
        Err(_) => return WordsFault::Memory,
    };
    if matches!(kind, ErrorKind::DisplayHelp | ErrorKind::DisplayVersion) {
        return WordsFault::Asked { text };
    }
    match without_tips(alloc, text.as_str()) {
        Ok(text) => WordsFault::Refused { text },
        Err(_) => WordsFault::Memory,
    }
}

/// Whether a line can ask for this action.
fn is_action(action: &Action<&str>) -> bool
    ensures { result ≡ is_action (plain_action action.now) }
{
    match action {
        Action::Mount => true,
        Action::List { path } => is_positional(path),
        Action::Stat { path } => is_positional(path),
        Action::ReadLink { path } => is_positional(path),
        Action::MakeDirectory { path } => is_positional(path),
        Action::Remove { path } => is_positional(path),
        Action::Put { path } => is_positional(path),
        Action::Get { path } => is_positional(path),
        Action::Link { path, target } => is_positional(path) && is_positional(target),
    }
}

/// Whether a line can ask for this number of units.
fn are_units(units: u8) -> bool
    ensures { result ≡ are_units units }
{
    1 <= units && u64::from(units) <= UNITS_MAX
}

/// Whether a line can ask for this client.
fn is_client(client: &Client<&str>) -> bool
    ensures { result ≡ is_client (plain_client client.now) }
{
    is_positional(client.addr)
        && is_positional(client.export)
        && are_units(client.units)
        && is_action(&client.action)
}

/// Whether a line can give a client this number.
fn is_number(number: u64) -> bool
    ensures { result ≡ is_number number }
{
    1 <= number
}

/// Whether a line can ask for this number of tries.
fn are_tries(tries: u8) -> bool
    ensures { result ≡ are_tries tries }
{
    u64::from(tries) <= TRIES_MAX
}

/// Whether a line can ask for this number of jobs, more than one.
fn are_jobs(jobs: u8) -> bool
    ensures { result ≡ are_jobs jobs }
{
    2 <= jobs && u64::from(jobs) <= JOBS_MAX
}

/// Whether a line can ask for this `get`.
fn is_get(get: &GetByJobs<&str>) -> bool
    ensures { result ≡ is_command (commands.GetByJobs (plain_get get.now)) }
{
    is_positional(get.addr)
        && is_positional(get.export)
        && is_positional(get.path)
        && are_units(get.units)
        && are_jobs(get.jobs)
}

/// Whether a line can ask for this command.
fn is_command(command: &Command<&str>) -> bool
    ensures { result ≡ is_command (plain_command command.now) }
{
    match command {
        Command::Serve { config } => is_positional(config),
        Command::Gate { config } => is_positional(config),
        Command::Client { client } => is_client(client),
        Command::NumberedClient { client } => {
            is_client(&client.client) && is_number(client.number) && are_tries(client.tries)
        }
        Command::GetByJobs { get } => is_get(get),
        Command::Drill { log: _ } => true,
        Command::GeneratedDrill {
            seed: _,
            clients,
            calls,
            log: _,
        } => 1 <= *clients
            && u64::from(*clients) <= CLIENTS_MAX
            && 1 <= *calls
            && u64::from(*calls) <= CALLS_MAX,
    }
}

/// The digits of a number, which may have a sign.
fn without_sign(text: &[u8]) -> &[u8]
    ensures { result.now ≡ without_sign text.now }
{
    match text {
        [] => text,
        [first, rest @ ..] => {
            if *first == b'+' || *first == b'-' {
                rest
            } else {
                text
            }
        }
    }
}

/// The number at an id, if it is in the range.
fn number_of(given: &ArgMatches<'_>, id: &str, low: u64, high: u64) -> Option<u64>
    ensures { result ≡ number_of low high id.now (rows_of (found_of given.now)) }
{
    let text = given.get_str(id)?;
    number_within(low, high, without_sign(text.as_bytes()))
}

/// The text at an id, or an empty one.
fn text_of<'a>(given: &ArgMatches<'a>, id: &str) -> &'a str
    ensures { result.now ≡ text_of id.now (rows_of (found_of given.now)) }
{
    match given.get_str(id) {
        Some(text) => text,
        None => "",
    }
}

/// Whether the option without a value at an id is given.
fn flag_of(given: &ArgMatches<'_>, id: &str) -> bool
    ensures { result ≡ flag_of id.now (rows_of (found_of given.now)) }
{
    text_of(given, id) == "true"
}

/// The values of the options.
fn options_of(given: &ArgMatches<'_>) -> Options
    ensures { result ≡ options_of (rows_of (found_of given.now)) }
{
    Options {
        uid: narrow(number_of(given, "uid", 0, ID_MAX)),
        gid: narrow(number_of(given, "gid", 0, ID_MAX)),
        inline: narrow_to_byte(number_of(given, "inline", 1, UNITS_MAX)),
        invalidates: flag_of(given, "invalidate"),
        number: number_of(given, "client", 1, CLIENT_NUMBER_MAX),
        tries: narrow_to_byte(number_of(given, "tries", 0, TRIES_MAX)),
        jobs: narrow_to_byte(number_of(given, "jobs", 1, JOBS_MAX)),
        seed: number_of(given, "seed", 0, SEED_MAX),
        clients: narrow(number_of(given, "clients", 1, CLIENTS_MAX)),
        calls: narrow(number_of(given, "calls", 1, CALLS_MAX)),
        log: flag_of(given, "log"),
    }
}

/// A number as a `u32`, if it is one.
fn narrow(value: Option<u64>) -> Option<u32>
    ensures { result ≡ narrow value }
{
    match value {
        Some(value) => {
            if value > u64::from(u32::MAX) {
                None
            } else {
                Some(value as u32)
            }
        }
        None => None,
    }
}

/// A number as a `u8`, if it is one.
fn narrow_to_byte(value: Option<u64>) -> Option<u8>
    ensures { result ≡ narrow_to_byte value }
{
    match value {
        Some(value) => {
            if value > u64::from(u8::MAX) {
                None
            } else {
                Some(value as u8)
            }
        }
        None => None,
    }
}

/// The positionals.
fn positionals_of<'a>(subcommand: Subcommand, given: &ArgMatches<'a>) -> Positionals<&'a str>
    ensures { plain_positionals result ≡ positionals_of subcommand (rows_of (found_of given.now)) }
{
    let first = match subcommand {
        Subcommand::Serve | Subcommand::Gate => text_of(given, "CONFIG"),
        _ => text_of(given, "ADDR"),
    };
    Positionals {
        count: arity(subcommand),
        first,
        second: text_of(given, "EXPORT"),
        third: text_of(given, "PATH"),
        fourth: text_of(given, "TARGET"),
    }
}

/// The command that matches spell.
fn matched<'a>(matches: &ArgMatches<'a>) -> Option<Command<&'a str>>
    ensures { option_map plain_command result ≡ spelled (subcommand_rows_of matches.now) }
{
    let (name, given) = matches.subcommand()?;
    let subcommand = subcommand_named(name)?;
    command_of(
        subcommand,
        options_of(given),
        positionals_of(subcommand, given),
    )
}

/// Reads words that are no line: clap says whether they spell a command in another way, ask for help, or are refused.
fn read_other<'a>(alloc: Global, words: &'a [String]) -> Result<Command<&'a str>, WordsFault>
    ensures { ReadsOther (map string_bytes words.entry.now) result }
{
    let program = program(alloc)?;
    let matches = match program.try_get_matches_from(words) {
        Ok(matches) => matches,
        Err(error) => return Err(fault_of_error(alloc, &error)),
    };
    let command = match matched(&matches) {
        Some(command) => command,
        None => return Err(WordsFault::Bad),
    };
    if is_command(&command) {
        Ok(command)
    } else {
        Err(WordsFault::Bad)
    }
}

/// Reads the words of a run. A line gives its command, and takes no memory. Other words that clap takes give the command
/// that they spell, which is always one that a line can ask for.
pub fn read_words<'a>(alloc: Global, words: &'a [String]) -> Result<Command<&'a str>, WordsFault>
    ensures is { Reads (map string_bytes words.entry.now) result }
    ensures possible { IfOk result (λ command. is_command (plain_command command) ≡ true) }
{
    match read_line(words) {
        Some(command) => Ok(command),
        None => read_other(alloc, words),
    }
}
