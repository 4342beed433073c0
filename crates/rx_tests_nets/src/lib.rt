//! Worked examples of nets that are evaluated through the whole program, each against its values in the clear.
#![tactic(auto)]

#[cfg(test)]
mod loud;
#[cfg(test)]
mod mixed;
#[cfg(test)]
mod plain;
#[cfg(test)]
mod tables;
#[cfg(test)]
mod tests;
