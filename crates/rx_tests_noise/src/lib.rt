//! Worked examples of lookups, with keys as they are made and with keys whose noises lie at their bounds.
#![tactic(auto)]

#[cfg(test)]
mod extremes;
#[cfg(test)]
mod tests;
