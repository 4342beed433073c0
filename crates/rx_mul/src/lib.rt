//! Products of encrypted numbers: the products of all pairs of blocks, laid out in rows, rounds that bring the rows down to two,
//! and one sum.
#![tactic(auto)]

mod planner;
mod products;
mod rounds;

pub use planner::mul;
