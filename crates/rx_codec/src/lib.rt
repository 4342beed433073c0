//! The binary formats: client, server, ciphertext and net files, in both directions. Source: `docs/FORMATS.md`, Binary
//! files.
#![tactic(auto)]

mod cipher;
mod cipher_writer;
mod client;
mod fault;
mod laws;
mod lists;
mod named_fields;
mod net_file;
mod net_reading;
mod net_writing;
mod params_fields;
mod reader;
mod server;
mod shapes;
mod writer;

pub use cipher::{Cipher, Item, MOST_ITEMS, decode_cipher, encode_cipher, read_items};
pub use cipher_writer::{CipherWriter, HEAD_SIZE, item_size};
pub use client::{Client, decode_client, encode_client};
pub use fault::CodecFault;
pub use laws::file_laws;
pub use lists::{Blocks, Items};
pub use net_file::{decode_net, encode_net};
pub use params_fields::{read_fields, read_params, write_params};
pub use reader::{Reader, in_range, words_of};
pub use server::{decode_server, encode_server};
pub use shapes::block_words;
pub use writer::write_words;

#[cfg(test)]
mod tests;
