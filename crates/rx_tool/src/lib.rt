//! The program behind its words: a command is read from words, its files are read, and what it makes of
//! them is written and printed. The status says how it ended.
#![tactic(auto)]

mod bytes;
mod command;
mod commands;
mod engine;
mod laws;
mod outcome;
mod top;
mod words;

pub use laws::{both_ways_laws, circuit_way_laws, fold_way_laws, whole_way_laws};
pub use rx_crew::{Gate, OpenGate};
pub use top::tool;

/// The greatest length of a file that is read, in bytes.
const FILE_LIMIT: u64 = 536_870_912;
