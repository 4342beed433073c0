//! Worked examples of the server's side of the whole program, as tests over a store and a sink in memory: server
//! keys, and nets that are evaluated.
#![tactic(auto)]

#[cfg(test)]
mod nets;
#[cfg(test)]
mod tables;
#[cfg(test)]
mod tests;
