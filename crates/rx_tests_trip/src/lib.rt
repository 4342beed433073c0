//! Circuits through the whole program, as tests over a store and a sink in memory: `compile`, and `trip`.
#![tactic(auto)]

#[cfg(test)]
mod circuits;
#[cfg(test)]
mod tests;
