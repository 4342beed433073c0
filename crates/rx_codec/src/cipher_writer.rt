//! Writing a ciphertext file part after part: its head, and then for each item a head and its blocks. A file of the
//! right parts needs no `Cipher` and no words but those of one block.
ghost use Rattle.std.specs.Prelude.{◌≡◌, ◌≤◌, ◌++◌, IsTrue, IfOk, OnOk};
ghost use Rattle.rx_text.specs.Names.{is_name};
ghost use Rattle.rx_codec.specs.NamedFields.{named_bytes};
ghost use Rattle.rx_codec.specs.CipherFile.{cipher_head, block_bytes};

use crate::named_fields::write_name_and_form;
use crate::params_fields::write_params;
use crate::writer::write_words;
use rx_block::Tags;
use rx_params::{Kind, Name, Params};
use std::alloc::{AllocError, Global};
use std::marker::Model;

/// The bytes of the head of a file: the magic, the set and the number of the items.
pub const HEAD_SIZE: usize = 48;

/// The bytes of an item of so many blocks, each of so many words, as far as a size can be counted: with
/// `HEAD_SIZE` they are the size of a file.
pub fn item_size(name: &Name, blocks: usize, words: usize) -> usize {
    let block = words.saturating_mul(8).saturating_add(2);
    let head = name.as_bytes().len().saturating_add(3);
    blocks.saturating_mul(block).saturating_add(head)
}

/// A ciphertext file that is being written. In clauses it is the bytes so far; what they are where memory ran out is
/// not told.
#[derive(Drop)]
pub struct CipherWriter {
    bytes: Vec<u8>,
}

impl Model for CipherWriter {
    ghost use Rattle.std.specs.Prelude.{List, ℕ};

    ghost Value = { List ℕ };

    ghost view = { λ w. w.bytes.items };
}

impl CipherWriter {
    /// The head of a file of so many items. Memory is taken for a file of `size` bytes; one of more bytes takes more.
    pub fn new(
        alloc: Global,
        params: &Params,
        items: u32,
        size: usize,
    ) -> Result<CipherWriter, AllocError>
        ensures { IfOk result (λ file. file ≡ cipher_head params.now items) }
    {
        let mut bytes = Vec::with_capacity(alloc, size)?;
        bytes.extend_from_slice(b"RXE1")?;
        write_params(&mut bytes, params)?;
        bytes.extend_from_slice(&items.to_le_bytes())?;
        Ok(CipherWriter { bytes })
    }

    /// A file that begins with these bytes, without a copy.
    pub fn after(bytes: Vec<u8>) -> CipherWriter
        ensures { result ≡ bytes.items }
    {
        CipherWriter { bytes }
    }

    /// Adds the head of an item: its name and its form. Its blocks come next.
    pub fn item(&mut self, name: &Name, kind: Kind, bits: u32) -> Result<(), AllocError>
        requires bits { bits ≤ 64 }
        ensures value { OnOk result (self.new ≡ self.old ++ named_bytes name.now kind bits) }
        ensures named { OnOk result (IsTrue (is_name name.now)) }
    {
        write_name_and_form(&mut self.bytes, name, kind, bits)
    }

    /// Adds a block: its degree and its noise tag, a byte each, and the lent words, eight bytes each.
    pub fn block(&mut self, words: &[u64], tags: Tags) -> Result<(), AllocError>
        ensures { OnOk result (self.new ≡ self.old ++ block_bytes
            (record { words = words.now; degree = tags.degree; noise = tags.noise })) }
    {
        self.bytes.push(tags.degree)?;
        self.bytes.push(tags.noise)?;
        write_words(&mut self.bytes, words)
    }

    /// The bytes of the file, without a copy.
    pub fn finish(self) -> Vec<u8>
        ensures { result.items ≡ self }
    {
        let CipherWriter { bytes } = self;
        bytes
    }
}
