//! Parameter sets (docs/NOISE.md, The sums): their fields, the four that have names, the worst-case sums and
//! the check that a set is accepted, parameter text, and the kinds of numbers.
#![tactic(auto)]

mod bounds;
mod kind;
mod params;
mod rotation;
mod space;
mod text;

pub use bounds::{Bounds, MOST_LEVELS, Refused, check, check_pairs};
pub use kind::Kind;
pub use params::{Params, named};
pub use rotation::Rotation;
pub use rx_text::{LineCause, LineFault, Name};
pub use space::{noise_limit, plaintexts};
pub use text::read_params;

#[cfg(test)]
mod tests;
