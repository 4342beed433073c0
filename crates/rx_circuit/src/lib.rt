//! Circuits and value files: what a person writes and reads. The circuit language is that of `rx_language`, whose calls
//! are named here too. Value files are the named numbers that a client encrypts. Source: `docs/LANGUAGE.md`;
//! `docs/FORMATS.md`, Texts.
#![tactic(auto)]

mod inputs;
mod outputs;
mod reading;
mod values;

pub use inputs::{InputError, find_inputs};
pub use outputs::output_lines;
pub use reading::read_values;
pub use rx_language::{
    Circuit, Line, NameKind, Names, ParseError, Places, Step, Word, circuit_laws, parse,
};
pub use rx_meaning::{depth_bound, job_bound, takes, value};
pub use values::{ValueLine, Values};

#[cfg(test)]
mod tests;
