//! The scripts of drills: their types, their grammar, and the scripts that are made from a seed.
#![tactic(auto)]

mod draft;
mod generator;
mod lines;
mod reading;
mod script;

pub use generator::{CALLS_MAX, make_script};
pub use reading::read_script;
pub use script::{Line, Script, ScriptFault};
