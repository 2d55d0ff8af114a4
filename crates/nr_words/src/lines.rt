//! The lines of the program: words in the one spelling that is never refused.

ghost use Rattle.std.specs.Prelude.{◌≡◌, ⊤, map, option_map, string_bytes};
ghost use Rattle.nr_words.specs.Lines.{takes, with_options, after_name, with_positional, is_positional, step, steps, start, arity, by_jobs, client, drill_of, get_of, subcommand_named, command_of, finished, line_of, plain_action, plain_state, plain_positionals, plain_command, plain_get};

use crate::commands::{Action, Client, Command, GetByJobs, NumberedClient};
use crate::limits::{DEFAULT_JOBS, DEFAULT_UNITS};
use crate::options::{OptionName, Options, option_named, with_invalidate, with_log, with_value};
use std::alloc::AllocError;

/// The first word after the program's name.
#[derive(Clone, Copy)]
pub(crate) enum Subcommand {
    Serve,
    Gate,
    Mount,
    List,
    Stat,
    ReadLink,
    MakeDirectory,
    Remove,
    Put,
    Get,
    Link,
    Drill,
}

/// The positionals, of which `count` are given.
pub(crate) struct Positionals<T> {
    pub(crate) count: usize,
    pub(crate) first: T,
    pub(crate) second: T,
    pub(crate) third: T,
    pub(crate) fourth: T,
}

impl<T: Copy> Clone for Positionals<T> {
    ghost is_clone = { λ x y. y ≡ x };

    ghost is_infallible = { λ _. ⊤ };

    fn clone(&self) -> Result<Positionals<T>, AllocError> {
        Ok(*self)
    }
}

impl<T: Copy> Copy for Positionals<T> {}

/// What the words so far give. After the name of an option its value is waited for.
struct State<T> {
    waiting: Option<OptionName>,
    options: Options,
    positionals: Positionals<T>,
}

impl<T: Copy> Clone for State<T> {
    ghost is_clone = { λ x y. y ≡ x };

    ghost is_infallible = { λ _. ⊤ };

    fn clone(&self) -> Result<State<T>, AllocError> {
        Ok(*self)
    }
}

impl<T: Copy> Copy for State<T> {}

/// The command that a word names.
pub(crate) fn subcommand_named(word: &str) -> Option<Subcommand>
    ensures { result ≡ subcommand_named word.now }
{
    match word {
        "serve" => Some(Subcommand::Serve),
        "gate" => Some(Subcommand::Gate),
        "mount" => Some(Subcommand::Mount),
        "ls" => Some(Subcommand::List),
        "stat" => Some(Subcommand::Stat),
        "readlink" => Some(Subcommand::ReadLink),
        "mkdir" => Some(Subcommand::MakeDirectory),
        "rm" => Some(Subcommand::Remove),
        "put" => Some(Subcommand::Put),
        "get" => Some(Subcommand::Get),
        "ln" => Some(Subcommand::Link),
        "drill" => Some(Subcommand::Drill),
        _ => None,
    }
}

/// Whether a command takes an option.
fn takes(subcommand: Subcommand, name: OptionName) -> bool
    ensures { result ≡ takes subcommand name }
{
    match subcommand {
        Subcommand::Serve | Subcommand::Gate => false,
        Subcommand::Drill => matches!(
            name,
            OptionName::Seed | OptionName::Clients | OptionName::Calls | OptionName::Log
        ),
        Subcommand::Get => matches!(
            name,
            OptionName::Uid
                | OptionName::Gid
                | OptionName::Inline
                | OptionName::Invalidate
                | OptionName::Client
                | OptionName::Tries
                | OptionName::Jobs
        ),
        _ => matches!(
            name,
            OptionName::Uid
                | OptionName::Gid
                | OptionName::Inline
                | OptionName::Invalidate
                | OptionName::Client
                | OptionName::Tries
        ),
    }
}

/// The number of positionals that a command takes.
pub(crate) fn arity(subcommand: Subcommand) -> usize
    ensures { result ≡ arity subcommand }
{
    match subcommand {
        Subcommand::Serve | Subcommand::Gate => 1,
        Subcommand::Mount => 2,
        Subcommand::Link => 4,
        Subcommand::Drill => 0,
        _ => 3,
    }
}

/// What is known with these options, if there are any. No value is waited for.
fn with_options<'a>(state: State<&'a str>, options: Option<Options>) -> Option<State<&'a str>>
    ensures { option_map plain_state result ≡ with_options (plain_state state.entry) options }
{
    let options = options?;
    Some(State {
        waiting: None,
        options,
        positionals: state.positionals,
    })
}

/// What is known after the name of an option: its value is waited for, if it has one.
fn after_name<'a>(state: State<&'a str>, name: OptionName) -> Option<State<&'a str>>
    ensures { option_map plain_state result ≡ after_name (plain_state state.entry) name }
{
    match name {
        OptionName::Invalidate => with_options(state, with_invalidate(state.options)),
        OptionName::Log => with_options(state, with_log(state.options)),
        _ => Some(State {
            waiting: Some(name),
            options: state.options,
            positionals: state.positionals,
        }),
    }
}

/// Whether a word can be a positional.
pub(crate) fn is_positional(word: &str) -> bool
    ensures { result ≡ is_positional word.now }
{
    match word.as_bytes() {
        [] => false,
        [first, ..] => *first != b'-',
    }
}

/// The positionals with one more after the others.
pub(crate) fn with_positional<'a>(
    positionals: Positionals<&'a str>,
    word: &'a str,
) -> Option<Positionals<&'a str>>
    ensures { option_map plain_positionals result ≡ with_positional (plain_positionals positionals.entry) word.entry.now }
{
    match positionals.count {
        0 => Some(Positionals {
            count: 1,
            first: word,
            ..positionals
        }),
        1 => Some(Positionals {
            count: 2,
            second: word,
            ..positionals
        }),
        2 => Some(Positionals {
            count: 3,
            third: word,
            ..positionals
        }),
        3 => Some(Positionals {
            count: 4,
            fourth: word,
            ..positionals
        }),
        _ => None,
    }
}

/// What is known after one more word.
fn step<'a>(subcommand: Subcommand, state: State<&'a str>, word: &'a str) -> Option<State<&'a str>>
    ensures { option_map plain_state result ≡ step subcommand (plain_state state.entry) word.entry.now }
{
    match state.waiting {
        Some(name) => with_options(state, with_value(state.options, name, word)),
        None => match option_named(word) {
            Some(name) => {
                if !takes(subcommand, name) {
                    return None;
                }
                after_name(state, name)
            }
            None => {
                if !is_positional(word) {
                    return None;
                }
                let positionals = with_positional(state.positionals, word)?;
                Some(State {
                    waiting: None,
                    options: state.options,
                    positionals,
                })
            }
        },
    }
}

/// A drill of a script that is read, or of one that is generated.
fn drill_of<'a>(
    seed: Option<u64>,
    clients: Option<u32>,
    calls: Option<u32>,
    log: bool,
) -> Option<Command<&'a str>>
    ensures { option_map plain_command result ≡ drill_of seed clients calls log }
{
    match (seed, clients, calls) {
        (None, None, None) => Some(Command::Drill { log }),
        (Some(seed), Some(clients), Some(calls)) => Some(Command::GeneratedDrill {
            seed,
            clients,
            calls,
            log,
        }),
        _ => None,
    }
}

/// The command of a client that does this, if both a number and tries are given, or neither.
fn client<'a>(
    options: Options,
    positionals: Positionals<&'a str>,
    action: Action<&'a str>,
) -> Option<Command<&'a str>>
    ensures { option_map plain_command result ≡ client options (plain_positionals positionals.entry) (plain_action action.entry) }
{
    let client = Client {
        addr: positionals.first,
        export: positionals.second,
        uid: options.uid.unwrap_or(0),
        gid: options.gid.unwrap_or(0),
        units: options.inline.unwrap_or(DEFAULT_UNITS),
        invalidates: options.invalidates,
        action,
    };
    match (options.number, options.tries) {
        (None, None) => Some(Command::Client { client }),
        (Some(number), Some(tries)) => Some(Command::NumberedClient {
            client: NumberedClient {
                client,
                number,
                tries,
            },
        }),
        _ => None,
    }
}

/// The `get` of these options and positionals, by this many jobs.
fn by_jobs<'a>(options: Options, positionals: Positionals<&'a str>, jobs: u8) -> GetByJobs<&'a str>
    ensures { plain_get result ≡ by_jobs options (plain_positionals positionals.entry) jobs }
{
    let units = options.inline.unwrap_or(DEFAULT_UNITS);
    GetByJobs {
        addr: positionals.first,
        export: positionals.second,
        path: positionals.third,
        uid: options.uid.unwrap_or(0),
        gid: options.gid.unwrap_or(0),
        units,
        invalidates: options.invalidates,
        jobs,
    }
}

/// The command of a `get` by this many jobs. By one it is a command as the others are; by several it has no number.
fn get_of<'a>(
    options: Options,
    positionals: Positionals<&'a str>,
    jobs: u8,
) -> Option<Command<&'a str>>
    ensures { option_map plain_command result ≡ get_of options (plain_positionals positionals.entry) jobs }
{
    if jobs == 1 {
        let path = positionals.third;
        return client(options, positionals, Action::Get { path });
    }
    match (options.number, options.tries) {
        (None, None) => Some(Command::GetByJobs {
            get: by_jobs(options, positionals, jobs),
        }),
        _ => None,
    }
}

/// The command of these options and positionals, if none is missing.
pub(crate) fn command_of<'a>(
    subcommand: Subcommand,
    options: Options,
    positionals: Positionals<&'a str>,
) -> Option<Command<&'a str>>
    ensures { option_map plain_command result ≡ command_of subcommand options (plain_positionals positionals.entry) }
{
    if positionals.count != arity(subcommand) {
        return None;
    }
    let path = positionals.third;
    let action = match subcommand {
        Subcommand::Serve => {
            return Some(Command::Serve {
                config: positionals.first,
            });
        }
        Subcommand::Gate => {
            return Some(Command::Gate {
                config: positionals.first,
            });
        }
        Subcommand::Drill => {
            return drill_of(options.seed, options.clients, options.calls, options.log);
        }
        Subcommand::Mount => Action::Mount,
        Subcommand::List => Action::List { path },
        Subcommand::Stat => Action::Stat { path },
        Subcommand::ReadLink => Action::ReadLink { path },
        Subcommand::MakeDirectory => Action::MakeDirectory { path },
        Subcommand::Remove => Action::Remove { path },
        Subcommand::Put => Action::Put { path },
        Subcommand::Get => {
            return get_of(options, positionals, options.jobs.unwrap_or(DEFAULT_JOBS));
        }
        Subcommand::Link => Action::Link {
            path,
            target: positionals.fourth,
        },
    };
    client(options, positionals, action)
}

/// The command, if no value is waited for.
fn finished<'a>(subcommand: Subcommand, state: State<&'a str>) -> Option<Command<&'a str>>
    ensures { option_map plain_command result ≡ finished subcommand (plain_state state.entry) }
{
    match state.waiting {
        Some(_) => None,
        None => command_of(subcommand, state.options, state.positionals),
    }
}

/// What is known after the words that follow the command.
fn steps<'a>(subcommand: Subcommand, words: &'a [String]) -> Option<State<&'a str>>
    ensures { option_map plain_state result ≡ steps subcommand start (map string_bytes words.entry.now) }
{
    let mut state = State {
        waiting: None,
        options: Options {
            uid: None,
            gid: None,
            inline: None,
            invalidates: false,
            number: None,
            tries: None,
            jobs: None,
            seed: None,
            clients: None,
            calls: None,
            log: false,
        },
        positionals: Positionals {
            count: 0,
            first: "",
            second: "",
            third: "",
            fourth: "",
        },
    };
    for word in words {
        state = step(subcommand, state, word.as_str())?;
    }
    Some(state)
}

/// The command of the words, if they are a line. Takes no memory.
pub fn read_line<'a>(words: &'a [String]) -> Option<Command<&'a str>>
    ensures { option_map plain_command result ≡ line_of (map string_bytes words.entry.now) }
{
    if words.len() < 2 {
        return None;
    }
    let subcommand = subcommand_named(words[1].as_str())?;
    let state = steps(subcommand, &words[2..])?;
    finished(subcommand, state)
}
