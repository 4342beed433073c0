//! Sums of products of polynomials by their values at 32 points (`specs/Blocks.antt` of `rx_ring`): the points
//! of digits by sums and turns alone, those of a key once, as limbs, products at the points as sums over
//! windows, and the way up. No external product stands on them yet.
#![tactic(auto)]

mod evaluation;
mod key;
mod lanes;
mod limbs;
mod points;
mod products;
#[cfg(test)]
mod tests;
mod way_up;
mod whole;
mod windows;

pub use evaluation::evaluate;
pub use limbs::{divided, limbs_of};
pub use points::{digit_points, row_points};
pub use whole::{add_digit_products, add_products};
pub use windows::{window_sums, window_totals};
