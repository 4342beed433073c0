//! Sample circuits with their inputs, made from a number by a linear recurrence. Source: `docs/LANGUAGE.md`, Samples.
#![tactic(auto)]

mod draws;
mod sample;

pub use sample::{Sample, make_sample};

#[cfg(test)]
mod tests;
