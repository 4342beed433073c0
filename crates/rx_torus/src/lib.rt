//! Words of the torus: their distance, rounding and signed digits, lists of them, and the random streams
//! that they are drawn from. Sources are named as in docs/DEFINITIONS.md.
#![tactic(auto)]

mod kind;
mod nearest;
mod signed_digits;
mod stream;
mod words;

pub use kind::StreamKind;
pub use nearest::{distance, round_to};
pub use signed_digits::{digits, level_digits};
pub use stream::Stream;
pub use words::Words;

#[cfg(test)]
mod tests;
