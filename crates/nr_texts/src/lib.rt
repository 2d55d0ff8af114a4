//! The words of scripts and captures: numbers, bytes in hexadecimal, forms and programs of calls, and the first line.
#![tactic(auto)]

mod forms;
mod opening;
mod program;
mod words;

pub use forms::{form_in, numbered_program, program_in};
pub use opening::{
    CAPACITY_MAX, CLIENTS_MAX, DEFAULT_CAPACITY, DEFAULT_UNITS, Opening, opening_in, sys_cred,
};
pub use program::Program;
pub use words::{
    NUMBER_MAX, arguments_in, bytes_in, cut, is, number_in, number_within, one_number, two_numbers,
    two_parts, words_of,
};
