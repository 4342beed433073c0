//! The circuit language: its words, its lines, circuits and their one text. Source: `docs/LANGUAGE.md`.
#![tactic(auto)]

mod circuit;
mod draft;
mod error;
mod form;
mod kind;
mod laws;
mod line;
mod line_error;
mod parsing;
mod spelled;
mod word;
mod writing;

pub use circuit::Circuit;
pub use error::ParseError;
pub use form::{Form, Rule, Tail};
pub use kind::NameKind;
pub use laws::circuit_laws;
pub use line::{Line, Names, Places, Step};
pub use parsing::parse;
pub use word::Word;

#[cfg(test)]
mod tests;
