//! pen, and appends the cells of its result to a list.
#![tactic(auto)]

mod bitwise;
mod casts;
mod constants;
mod fills;
mod inverse;
mod operation;
mod shifts;

pub use bitwise::{and, or, xor};
pub use casts::cast;
pub use constants::constant;
pub use inverse::not;
pub use shifts::{between_blocks, sar, shl, shr};
