//! What operations on encrypted numbers cost: bootstraps, and the depth of their longest chain, by the number of
//! blocks (docs/LANGUAGE.md, Costs). Planners keep within these rows, and circuits are bounded by their sums.
#![tactic(auto)]

mod counts;
mod laws;
mod table;

pub use counts::{log_up, round_jobs, rounds};
pub use laws::{log_laws, round_laws};
pub use table::Cost;

#[cfg(test)]
mod tests;
