//! The words of a run, and the configurations of a server and of a gateway.
//!
//! A *line* is the program's name, a command, its positionals in order and, anywhere after the command, its options, each
//! at most once, as `--name value`. [`read_words`] gives the command of each line, whatever memory there is. Other words go
//! to clap: what it takes is done as the line of the same values, what it refuses is answered by its text, and `--help` and
//! `--version` by theirs. [`read_config`] reads the TOML document of a server,
//! [`read_gate_config`] that of a gateway.
//!
//! The crate opens and prints nothing.
#![tactic(auto)]

mod commands;
mod gate_settings;
mod laws;
mod limits;
mod lines;
mod numbers;
mod options;
mod program;
mod settings;
mod words;

pub use commands::{Action, Client, Command, GetByJobs, NumberedClient};
pub use gate_settings::{GateConfig, GateSettings, read_gate_config};
pub use laws::{lines_are_possible, options_that_ask};
pub use limits::{
    CALLS_MAX, CAPACITY_MAX, CLIENT_NUMBER_MAX, CLIENTS_MAX, CONNECTIONS_MAX, CREDITS_MAX,
    DEFAULT_JOBS, DEFAULT_UNITS, ID_MAX, JOBS_MAX, MOUNT_PATH_MAX, SEED_MAX, TRIES_MAX, UNITS_MAX,
};
pub use lines::read_line;
pub use settings::{Config, ConfigFault, Settings, read_config};
pub use words::{WordsFault, read_words};
