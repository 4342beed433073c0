//! Nets that a crew evaluates: the blocks of the outputs, and the count of the jobs.
#![tactic(auto)]

#[cfg(test)]
mod tests;
