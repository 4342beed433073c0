//! Ciphertexts over words: secret keys, fresh ciphertexts, phases and what they decode to, sums with a
//! weight, and the switches of the key and of the modulus. A ciphertext under a key of n bits is n mask words
//! and the body. Sources are named as in docs/DEFINITIONS.md.
#![tactic(auto)]

mod encrypt;
mod key;
mod made_rows;
mod modulus;
mod phases;
mod scaled;
mod seeded;
mod switch;

pub use encrypt::encrypt_into;
pub use key::SecretKey;
pub use made_rows::switch_row_into;
pub use modulus::mod_switch;
pub use phases::{decode, phase, unit};
pub use scaled::add_scaled;
pub use seeded::{draw_words, row_bodies};
pub use switch::{SwitchKey, switch_into};

#[cfg(test)]
mod tests;
