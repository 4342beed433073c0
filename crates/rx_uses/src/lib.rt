//! The use lists of a net: for each cell the terms that name it, linked by index.
#![tactic(auto)]

mod inputs;
mod laws;
mod linking;
mod terms;
#[cfg(test)]
mod tests;
mod uses;

pub use inputs::input_cells;
pub use laws::use_laws;
pub use uses::Uses;
