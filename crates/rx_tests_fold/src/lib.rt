//! Folded nets through the whole program, as tests over a store and a sink in memory.
#![tactic(auto)]

#[cfg(test)]
mod files;
#[cfg(test)]
mod tests;
