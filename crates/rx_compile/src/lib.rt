//! Circuits to nets: a net of a circuit gives the values of the circuit, within the jobs and the depth that the cost
//! table says.
#![tactic(auto)]

mod arms;
mod compiler;
mod declaring;
mod fault;
mod giving;
mod kinds;
mod planning;

pub use compiler::compile;
pub use fault::CompileFault;
