//! The server that a configuration asks for.
//!
//! It stands on `nr_words`, which reads the configuration, on `nr_plain`, whose server answers, and on `nr_host`, which serves the
//! connections. `nr_top` gives it a status.
//!
//! [`serve_config`] reads its input to the end, opens a server over a root alone, which is made at the first moment of the clock, listens,
//! serves as many connections as the configuration says, and prints how many there were and how long the journal is then. Or it stops
//! for a cause, a [`ServeStop`], each of which says what was done before. [`only_memory_stops`] says when only memory can stop it.
#![tactic(auto)]

mod laws;
mod serving;
mod stop;

pub use laws::only_memory_stops;
pub use serving::serve_config;
pub use stop::{ServeStop, stop_of_config, stop_of_read, stop_of_serve};
