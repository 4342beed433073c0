//! Server keys, and the bootstrap by which a server looks up tables in ciphertexts. Sources are named as in
//! docs/DEFINITIONS.md.
#![tactic(auto)]

mod boot_key;
mod bootstrap;
mod clear;
mod fresh_rows;
mod hidden;
mod laws;
mod marks;
mod rotation;
mod rows;
mod scratch;
mod seeded;
mod server_key;
mod word_counts;

pub use boot_key::BootKey;
pub use bootstrap::bootstrap_into;
pub use fresh_rows::FreshRows;
pub use hidden::hide_number;
pub use laws::{budget_laws, lookup_laws};
pub use marks::mark_of;
pub use rotation::start_rotation;
pub use rows::encrypt_bits;
pub use scratch::BootScratch;
pub use seeded::{body_words, seeded_key_laws};
pub use server_key::{ServerKey, server_key_laws};
pub use word_counts::{boot_words, switch_words};

#[cfg(test)]
mod tests;
