//! The items of value lines: fresh blocks, as values or spelled into a file one after another.
ghost use Rattle.std.specs.Prelude.{◌≡◌, ◌⊎◌, ◌+◌, ◌*◌, ◌^◌, ◌<◌, ◌++◌, IfOk, OnOk, length, map};
ghost use Rattle.std.specs.List.{flat_map};
ghost use Rattle.rx_params.specs.Acceptance.{FieldsInRange};
ghost use Rattle.rx_params.specs.Derived.{large_dim};
ghost use Rattle.rx_params.specs.Kinds.{block_count, digit_at as digit_of};
ghost use Rattle.rx_circuit.specs.Values.{AreValues, IsValueLine};
ghost use Rattle.rx_codec.specs.CipherFile.{block_bytes, item_bytes};
ghost use Rattle.rx_seeded.specs.SeededCipher.{short_block, short_item};
ghost use Rattle.rx_client.specs.Encrypt.{line_block as line_block_of, line_item, items_from};

use rx_block::{Block, Tags, fresh_words_into};
use rx_circuit::ValueLine;
use rx_codec::{Blocks, CipherWriter, Item};
use rx_lwe::SecretKey;
use rx_params::Params;
use rx_torus::Words;
use std::alloc::{AllocError, Global};

/// What all blocks of a file are encrypted with: the large key of a set, and the seeds of the masks and the noises.
#[derive(Drop)]
pub(crate) struct Encryption<'a> {
    pub(crate) p: &'a Params,
    pub(crate) key: &'a SecretKey,
    pub(crate) mask_seed: &'a [u8; 32],
    pub(crate) noise_seed: &'a [u8; 32],
}

impl<'a> Encryption<'a> {
    /// The items of some lines.
    pub(crate) fn items(&self, alloc: Global, lines: &[ValueLine]) -> Result<Vec<Item>, AllocError>
        requires fields { FieldsInRange self.now.p.now }
        requires values { AreValues lines.now }
        ensures { IfOk result (λ items. items.items ≡ items_from self.now.p.now self.now.key.now
            self.now.mask_seed.now self.now.noise_seed.now 0 lines.now) }
    {
        let mut items = Vec::with_capacity(alloc, lines.len())?;
        let mut number = 0;
        for line in lines {
            let item = self.item(alloc, number, line)?;
            items.push(item)?;
            number += line.kind.block_count(self.p.message_bits, line.bits);
        }
        Ok(items)
    }

    /// The item of a line, whose first block has this number.
    fn item(&self, alloc: Global, number: u32, line: &ValueLine) -> Result<Item, AllocError>
        requires fields { FieldsInRange self.now.p.now }
        requires line { IsValueLine line.now }
        requires numbers { number + 64 < 2 ^ 32 }
        ensures { IfOk result (λ item. item ≡ line_item self.now.p.now self.now.key.now
            self.now.mask_seed.now self.now.noise_seed.now number line.now) }
    {
        let count = line.kind.block_count(self.p.message_bits, line.bits);
        let mut blocks = Vec::with_capacity(alloc, count as usize)?;
        for i in 0..count {
            let block = self.block(alloc, number, line, i)?;
            blocks.push(block)?;
        }
        Ok(Item {
            name: line.name,
            kind: line.kind,
            bits: line.bits,
            blocks: Blocks::from_vec(blocks),
        })
    }

    /// Block i of a line whose first block has this number, in words of its own.
    fn block(
        &self,
        alloc: Global,
        number: u32,
        line: &ValueLine,
        i: u32,
    ) -> Result<Block, AllocError>
        requires fields { FieldsInRange self.now.p.now }
        requires line { IsValueLine line.now }
        requires numbers { number + 64 < 2 ^ 32 }
        requires here { i < block_count line.now.kind self.now.p.now.message_bits line.now.bits }
        ensures { IfOk result (λ block. block ≡ line_block_of self.now.p.now self.now.key.now
            self.now.mask_seed.now self.now.noise_seed.now number line.now i) }
    {
        let mut words = vec![in alloc; 0; self.key.bits().len() + 1]?;
        let tags = self.block_into(number, line, i, &mut words);
        Ok(Block {
            words: Words::from_vec(words),
            degree: tags.degree,
            noise: tags.noise,
        })
    }

    /// Makes block i of a line, whose first block has this number, in the lent words, and gives its tags.
    fn block_into(&self, number: u32, line: &ValueLine, i: u32, words: &mut [u64]) -> Tags
        requires fields { FieldsInRange self.now.p.now }
        requires line { IsValueLine line.now }
        requires numbers { number + 64 < 2 ^ 32 }
        requires here { i < block_count line.now.kind self.now.p.now.message_bits line.now.bits }
        requires room { length words.old ≡ length self.now.key.now + 1 }
        ensures { line_block_of self.now.p.now self.now.key.now
            self.now.mask_seed.now self.now.noise_seed.now number line.now i
            ≡ record { words = words.new; degree = result.degree; noise = result.noise } }
    {
        let digit = digit_at(self.p.message_bits, line.value, i);
        fresh_words_into(
            self.p,
            self.key,
            self.mask_seed,
            self.noise_seed,
            number + i,
            line.kind,
            digit,
            words,
        )
    }

    /// Adds the items of some lines to a seeded file, of each block its body alone. Each block is made in the lent
    /// words.
    pub(crate) fn write_items(
        &self,
        file: &mut CipherWriter,
        words: &mut [u64],
        lines: &[ValueLine],
    ) -> Result<(), AllocError>
        requires fields { FieldsInRange self.now.p.now }
        requires key { length self.now.key.now ≡ large_dim self.now.p.now }
        requires values { AreValues lines.now }
        requires room { length words.old ≡ length self.now.key.now + 1 }
        ensures { OnOk result (file.new ≡ file.old ++ flat_map item_bytes
            (map (short_item self.now.p.now) (items_from self.now.p.now self.now.key.now
            self.now.mask_seed.now self.now.noise_seed.now 0 lines.now))) }
    {
        let mut number = 0;
        for line in lines {
            self.write_item(file, words, number, line)?;
            number += line.kind.block_count(self.p.message_bits, line.bits);
        }
        Ok(())
    }

    /// Adds the item of a line, whose first block has this number.
    fn write_item(
        &self,
        file: &mut CipherWriter,
        words: &mut [u64],
        number: u32,
        line: &ValueLine,
    ) -> Result<(), AllocError>
        requires fields { FieldsInRange self.now.p.now }
        requires key { length self.now.key.now ≡ large_dim self.now.p.now }
        requires line { IsValueLine line.now }
        requires numbers { number + 64 < 2 ^ 32 }
        requires room { length words.old ≡ length self.now.key.now + 1 }
        ensures { OnOk result (file.new ≡ file.old ++ item_bytes (short_item self.now.p.now
            (line_item self.now.p.now self.now.key.now
            self.now.mask_seed.now self.now.noise_seed.now number line.now))) }
    {
        file.item(&line.name, line.kind, line.bits)?;
        for i in 0..line.kind.block_count(self.p.message_bits, line.bits) {
            self.write_block(file, words, number, line, i)?;
        }
        Ok(())
    }

    /// Adds the body of block i of a line, whose first block has this number.
    fn write_block(
        &self,
        file: &mut CipherWriter,
        words: &mut [u64],
        number: u32,
        line: &ValueLine,
        i: u32,
    ) -> Result<(), AllocError>
        requires fields { FieldsInRange self.now.p.now }
        requires key { length self.now.key.now ≡ large_dim self.now.p.now }
        requires line { IsValueLine line.now }
        requires numbers { number + 64 < 2 ^ 32 }
        requires here { i < block_count line.now.kind self.now.p.now.message_bits line.now.bits }
        requires room { length words.old ≡ length self.now.key.now + 1 }
        ensures { OnOk result (file.new ≡ file.old ++ block_bytes (short_block self.now.p.now
            (line_block_of self.now.p.now self.now.key.now
            self.now.mask_seed.now self.now.noise_seed.now number line.now i))) }
    {
        let tags = self.block_into(number, line, i, words);
        file.block(&words[self.key.bits().len()..], tags)
    }
}

/// Digit i of a value, the lowest first.
fn digit_at(message_bits: u32, value: u64, i: u32) -> u8
    requires bits { (message_bits ≡ 2) ⊎ (message_bits ≡ 3) }
    requires within { message_bits * i < 64 }
    ensures { result ≡ digit_of message_bits value i }
{
    (value >> (message_bits * i) & ((1 << message_bits) - 1)) as u8
}
