//! Planned nets in the clear: each planner over both spaces and many widths, against the operation on whole numbers and
//! the cost table.
#![tactic(auto)]

#[cfg(test)]
mod clear;
#[cfg(test)]
mod division;
mod operands;
#[cfg(test)]
mod orders;
#[cfg(test)]
mod shifts;
#[cfg(test)]
mod tests;

pub use operands::{Operands, two_numbers};
