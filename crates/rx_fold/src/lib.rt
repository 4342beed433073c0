//! Folded nets: of equal jobs the first stands for all, and jobs that no output needs are left out.
#![tactic(auto)]

mod folding;
mod keys;
mod laws;
mod live;
mod moves;
mod numbers;
mod reps;
#[cfg(test)]
mod tests;

pub use folding::{FoldFault, fold};
pub use laws::fold_laws;
