//! What a circuit means: the values of its outputs, the bootstraps that it takes and their depth. The definitions
//! are tables over words (docs/LANGUAGE.md), and know no blocks, carries or nets.
#![tactic(auto)]

mod bounds;
mod costs;
mod evaluation;
mod inputs;
mod laws;
mod operand;
mod operations;

pub use bounds::{depth_bound, job_bound};
pub use evaluation::value;
pub use inputs::takes;
pub use laws::{number_laws, sign_laws};
pub use operand::Operand;

#[cfg(test)]
mod tests;
