//! What a client does with its keys: it encrypts named numbers, and reads them again. Each block of a number holds one
//! digit of `message_bits` bits, the first the lowest. Source: handbook, integer (radix), named as in
//! `docs/DEFINITIONS.md`; files and lines `docs/FORMATS.md`.
#![tactic(auto)]

mod decrypt;
mod encrypt;
mod fresh_items;
mod laws;
#[cfg(test)]
mod tests;
mod widths;

pub use decrypt::{Damage, DecryptError, decrypt_items};
pub use encrypt::{encrypt_cipher, encrypt_values};
pub use laws::{encrypting_laws, reading_laws};
pub use widths::wrong_width_in;
