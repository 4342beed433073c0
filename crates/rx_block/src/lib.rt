//! Blocks of numbers under encryption, with the tags that bound them: fresh blocks, weighted sums, lookups and what a
//! block decrypts to. Sources are named as in `docs/DEFINITIONS.md`.
#![tactic(auto)]

mod block;
mod decrypt;
mod fresh;
mod laws;
mod sums;
mod tables;

pub use block::{Block, Damaged, TagFault, Tags};
pub use decrypt::decrypt_block;
pub use fresh::{fresh_block, fresh_words_into};
pub use laws::{fresh_laws, keeps_laws};
pub use sums::{combine, mix_into};
pub use tables::lookup;

#[cfg(test)]
mod tests;
