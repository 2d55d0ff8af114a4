//! The options of a line.

ghost use Rattle.std.specs.Prelude.{◌≡◌};
ghost use Rattle.nr_words.specs.Lines.{option_named, with_invalidate, with_log, with_value};

use crate::limits::{
    CALLS_MAX, CLIENT_NUMBER_MAX, CLIENTS_MAX, ID_MAX, JOBS_MAX, SEED_MAX, TRIES_MAX, UNITS_MAX,
};
use crate::numbers::numeral_within;

/// An option.
#[derive(Clone, Copy)]
pub(crate) enum OptionName {
    Uid,
    Gid,
    Inline,
    Invalidate,
    Client,
    Tries,
    Jobs,
    Seed,
    Clients,
    Calls,
    Log,
}

/// The values of the options that are given, and whether `--invalidate` and `--log` are, which have no value.
#[derive(Clone, Copy)]
pub(crate) struct Options {
    pub(crate) uid: Option<u32>,
    pub(crate) gid: Option<u32>,
    pub(crate) inline: Option<u8>,
    pub(crate) invalidates: bool,
    pub(crate) number: Option<u64>,
    pub(crate) tries: Option<u8>,
    pub(crate) jobs: Option<u8>,
    pub(crate) seed: Option<u64>,
    pub(crate) clients: Option<u32>,
    pub(crate) calls: Option<u32>,
    pub(crate) log: bool,
}

/// The option that a word names.
pub(crate) fn option_named(word: &str) -> Option<OptionName>
    ensures { result ≡ option_named word.now }
{
    match word {
        "--uid" => Some(OptionName::Uid),
        "--gid" => Some(OptionName::Gid),
        "--inline" => Some(OptionName::Inline),
        "--invalidate" => Some(OptionName::Invalidate),
        "--client" => Some(OptionName::Client),
        "--tries" => Some(OptionName::Tries),
        "--jobs" => Some(OptionName::Jobs),
        "--seed" => Some(OptionName::Seed),
        "--clients" => Some(OptionName::Clients),
        "--calls" => Some(OptionName::Calls),
        "--log" => Some(OptionName::Log),
        _ => None,
    }
}

/// The options with one more that has a value, if it was not given before and its value is in its range.
pub(crate) fn with_value(options: Options, name: OptionName, word: &str) -> Option<Options>
    ensures { result ≡ with_value options name word.now }
{
    match name {
        OptionName::Uid => match (options.uid, numeral_within(0, ID_MAX, word.as_bytes())) {
            (None, Some(value)) => Some(Options {
                uid: Some(value as u32),
                ..options
            }),
            _ => None,
        },
        OptionName::Gid => match (options.gid, numeral_within(0, ID_MAX, word.as_bytes())) {
            (None, Some(value)) => Some(Options {
                gid: Some(value as u32),
                ..options
            }),
            _ => None,
        },
        OptionName::Inline => match (
            options.inline,
            numeral_within(1, UNITS_MAX, word.as_bytes()),
        ) {
            (None, Some(value)) => Some(Options {
                inline: Some(value as u8),
                ..options
            }),
            _ => None,
        },
        OptionName::Invalidate | OptionName::Log => None,
        OptionName::Client => match (
            options.number,
            numeral_within(1, CLIENT_NUMBER_MAX, word.as_bytes()),
        ) {
            (None, Some(value)) => Some(Options {
                number: Some(value),
                ..options
            }),
            _ => None,
        },
        OptionName::Tries => match (options.tries, numeral_within(0, TRIES_MAX, word.as_bytes())) {
            (None, Some(value)) => Some(Options {
                tries: Some(value as u8),
                ..options
            }),
            _ => None,
        },
        OptionName::Jobs => match (options.jobs, numeral_within(1, JOBS_MAX, word.as_bytes())) {
            (None, Some(value)) => Some(Options {
                jobs: Some(value as u8),
                ..options
            }),
            _ => None,
        },
        OptionName::Seed => match (options.seed, numeral_within(0, SEED_MAX, word.as_bytes())) {
            (None, Some(value)) => Some(Options {
                seed: Some(value),
                ..options
            }),
            _ => None,
        },
        OptionName::Clients => match (
            options.clients,
            numeral_within(1, CLIENTS_MAX, word.as_bytes()),
        ) {
            (None, Some(value)) => Some(Options {
                clients: Some(value as u32),
                ..options
            }),
            _ => None,
        },
        OptionName::Calls => match (options.calls, numeral_within(1, CALLS_MAX, word.as_bytes())) {
            (None, Some(value)) => Some(Options {
                calls: Some(value as u32),
                ..options
            }),
            _ => None,
        },
    }
}

/// The options with `--invalidate`, if it was not given before.
pub(crate) fn with_invalidate(options: Options) -> Option<Options>
    ensures { result ≡ with_invalidate options }
{
    if options.invalidates {
        return None;
    }
    Some(Options {
        invalidates: true,
        ..options
    })
}

/// The options with `--log`, if it was not given before.
pub(crate) fn with_log(options: Options) -> Option<Options>
    ensures { result ≡ with_log options }
{
    if options.log {
        return None;
    }
    Some(Options {
        log: true,
        ..options
    })
}
