//! Worked examples of the client's side of the whole program, as tests over a store and a sink in memory.
#![tactic(auto)]

#[cfg(test)]
mod tables;
#[cfg(test)]
mod tests;
#[cfg(test)]
mod texts;
#[cfg(test)]
mod too_long_store;
