//! Version 2 of server and ciphertext files: keys and fresh ciphertexts by their mask seed and their bodies, in both
//! directions; and the reading of either version. Source: `docs/FORMATS.md`, Seeded files.
#![tactic(auto)]

mod cipher;
mod fault;
mod filling;
mod fits;
mod fresh;
mod kind;
mod laws;
mod masks;
mod seeded_rows;
mod server;

pub use cipher::{
    SEEDED_HEAD_SIZE, decode_cipher, decode_seeded_cipher, encode_seeded_cipher, seeded_writer,
};
pub use fault::SeedFault;
pub use fresh::encode_fresh_server;
pub use kind::{FileKind, begins, file_kind};
pub use laws::seeded_file_laws;
pub use server::{decode_seeded_server, decode_server, encode_made_server, encode_seeded_server};

#[cfg(test)]
mod tests;
