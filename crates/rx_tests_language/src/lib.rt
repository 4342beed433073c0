//! Worked circuits through the whole program, as tests over a store and a sink in memory.
#![tactic(auto)]

#[cfg(test)]
mod tables;
#[cfg(test)]
mod tests;
