//! Planners of shifts by an encrypted amount (docs/PLANNERS.md): a stage for each low bit of the amount, which
//! moves the blocks or leaves them, and a flag for the other bits, which clears what the stages leave. Each
//! adds jobs to the net of a pen, and appends the cells of its result to a list.
#![tactic(auto)]

mod amount;
mod direction;
mod shifts;
mod signed;
mod stages;

pub use amount::low_bits;
pub use shifts::{shlv, shrv};
pub use signed::sarv;
