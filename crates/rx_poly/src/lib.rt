//! Kernels on polynomials modulo `X^N + 1` whose coefficients are words, modulo 2^64. A polynomial is a
//! slice of its N coefficients, the coefficient of 1 first. Nothing here takes memory. Sources are named as in
//! docs/DEFINITIONS.md.
#![tactic(auto)]

mod boxes;
mod karatsuba;
mod lanes;
mod leaf;
mod plain;
mod products;
mod rotations;
mod sums;
#[cfg(test)]
mod tests;

pub use boxes::accumulator;
pub use plain::linear_add;
pub use products::{binary_product_add, product_add};
pub use rotations::{rotate_into, turn_away_into};
pub use sums::add_assign;
