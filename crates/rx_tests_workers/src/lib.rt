//! Runs by several workers: that two of them meet, that each job is run once, and that all write the same file.
#![tactic(auto)]

#[cfg(test)]
mod counter;
#[cfg(test)]
mod nets;
#[cfg(test)]
mod tests;
