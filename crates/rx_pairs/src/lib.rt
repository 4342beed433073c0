//! The file of a pair key, in both directions. Source: `docs/FORMATS.md`, Pair files.
#![tactic(auto)]

mod laws;
mod pair_file;

pub use laws::pair_file_laws;
pub use pair_file::{decode_pairs, encode_pairs};

#[cfg(test)]
mod tests;
