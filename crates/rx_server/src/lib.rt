//! What a server does beside the evaluation of a net: it finds the inputs of the net in ciphertext files,
//! and makes items of its outputs. Source: `docs/FORMATS.md`, Nets.
#![tactic(auto)]

mod fault;
mod inputs;
mod laws;
mod outputs;

pub use fault::{GatherError, InputFault};
pub use inputs::gather_inputs;
pub use laws::server_laws;
pub use outputs::output_items;

#[cfg(test)]
mod tests;
