//! What text files share (docs/FORMATS.md, Texts): lines, words, numerals, names, and the faults of a line.
#![tactic(auto)]

mod fault;
mod laws;
mod lines;
mod name;
mod numeral;

pub use fault::{LineCause, LineFault};
pub use laws::{line_laws, numeral_laws, word_laws};
pub use lines::{Lines, first_word, four_words, two_words};
pub use name::Name;
pub use numeral::{Numeral, number_below};

#[cfg(test)]
mod tests;
