//! Compiled circuits in the clear: the net of each circuit is evaluated at the edges of its inputs and at drawn numbers,
//! and gives what the circuit's lines say; its jobs and its depth are within the stated ones.
#![tactic(auto)]

#[cfg(test)]
mod circuits;
mod clear;
#[cfg(test)]
mod tests;

pub use clear::{numbers_for, outputs_of};
