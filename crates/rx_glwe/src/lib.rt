//! Ciphertexts over polynomials: fresh rows, the external product with an encrypted bit, and the
//! extraction of a coefficient. A ciphertext is `glwe_dim` mask polynomials and the body, of `poly_size` words
//! each, coefficient 0 first. Sources are named as in docs/DEFINITIONS.md.
#![tactic(auto)]

mod digits;
mod external;
mod extract;
mod row;
mod scratch;
mod seeded_row;

pub use external::external_add;
pub use extract::extract_into;
pub use row::encrypt_row_into;
pub use scratch::GlweScratch;
pub use seeded_row::row_of_body;

#[cfg(test)]
mod tests;
