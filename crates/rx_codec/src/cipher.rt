//! The ciphertext file: named numbers under encryption.
ghost use Rattle.std.specs.Prelude.{◌≡◌, ◌≤◌, ◌<◌, ◌^◌, ◌++◌, IsTrue, IfOk, OnOk, Ok, []};
ghost use Rattle.rx_text.specs.Names.{is_name};
ghost use Rattle.rx_params.specs.Acceptance.{Accepts};
ghost use Rattle.rx_codec.specs.declared.cipher.Cipher.{Cipher};
ghost use Rattle.rx_codec.specs.Reading.{GivesExactlyAt, GivesAt, Gives};
ghost use Rattle.rx_codec.specs.CipherFile.{CipherFile, IsWritable, item_bytes, cipher_from, items_at, item_at, blocks_at, block_at, has_item as item_has_name};
ghost use Rattle.rx_codec.specs.NamedFields.{name_at};

use crate::CodecFault;
use crate::cipher_writer::{CipherWriter, HEAD_SIZE, item_size};
use crate::lists::{Blocks, Items};
use crate::named_fields::{new_name, read_form, read_name_size};
use crate::params_fields::read_params;
use crate::reader::{Reader, in_range};
use crate::shapes::block_words;
use rx_block::{Block, Tags};
use rx_params::{Kind, Name, Params, noise_limit};
use rx_torus::Words;
use std::alloc::{AllocError, Global};

/// The most items of a file.
pub const MOST_ITEMS: u32 = 64;

/// A named number under encryption.
#[derive(Debug, Drop)]
pub struct Item {
    /// No other item of the file has it.
    pub name: Name,
    /// An int or a bit.
    pub kind: Kind,
    /// The bits of the number: a multiple of the message bits, up to 64, or 1 for a bit.
    pub bits: u32,
    /// The blocks, the least first.
    pub blocks: Blocks,
}

/// The numbers of a ciphertext file. One that was read is as its parts say, and one that is to be written has to be.
#[derive(Debug, Drop)]
pub struct Cipher {
    /// The set of all items, which is accepted.
    pub params: Params,
    /// At most 64.
    pub items: Items,
}

/// The cipher that a file spells, or its first fault.
pub fn decode_cipher(alloc: Global, bytes: &[u8]) -> Result<Cipher, CodecFault>
    ensures exact { Gives (λ c. c) result (cipher_from bytes.now) }
    ensures found { IfOk result (λ c. CipherFile bytes.now c) }
    ensures only { (c : Cipher) → CipherFile bytes.now c → Gives (λ c. c) result (Ok c) }
{
    read_cipher(alloc, bytes)
}

#[tactic(auto, unfolding(crate::specs::CipherFile::cipher_from))]
fn read_cipher(alloc: Global, bytes: &[u8]) -> Result<Cipher, CodecFault>
    ensures { Gives (λ c. c) result (cipher_from bytes.now) }
{
    let mut reader = Reader::after_magic(bytes, b"RXE1")?;
    let params = read_params(&mut reader)?;
    let at = reader.at();
    let count = reader.u32()?;
    in_range(count <= MOST_ITEMS, at)?;
    let items = read_items(alloc, &mut reader, &params, block_words(&params), count)?;
    reader.end()?;
    Ok(Cipher {
        params,
        items: Items::from_vec(items),
    })
}

/// So many items of a set, each of whose blocks has so many words, or the first fault of theirs.
pub fn read_items(
    alloc: Global,
    reader: &mut Reader,
    params: &Params,
    size: usize,
    count: u32,
) -> Result<Vec<Item>, CodecFault>
    requires accepted { Accepts params.now }
    requires few { size < 2 ^ 24 }
    ensures value { GivesAt (λ items. items.items) reader.new.at result
        (items_at size params.now count [] reader.old.file reader.old.at) }
    ensures file { reader.new.file ≡ reader.old.file }
{
    let mut items = Vec::new(alloc);
    for _ in 0..count {
        let item = read_item(alloc, reader, params, size, items.as_slice())?;
        items.push(item)?;
    }
    Ok(items)
}

#[tactic(auto, unfolding(crate::specs::CipherFile::item_at))]
fn read_item(
    alloc: Global,
    reader: &mut Reader,
    params: &Params,
    size: usize,
    before: &[Item],
) -> Result<Item, CodecFault>
    requires accepted { Accepts params.now }
    requires few { size < 2 ^ 24 }
    ensures value { GivesAt (λ item. item) reader.new.at result
        (item_at size params.now before.now reader.old.file reader.old.at) }
    ensures file { reader.new.file ≡ reader.old.file }
{
    let name = read_name(reader, before)?;
    let (kind, bits) = read_form(reader, params.message_bits)?;
    let count = kind.block_count(params.message_bits, bits);
    let blocks = read_blocks(alloc, reader, params, size, kind, count)?;
    Ok(Item {
        name,
        kind,
        bits,
        blocks: Blocks::from_vec(blocks),
    })
}

#[tactic(auto, unfolding(crate::specs::NamedFields::name_at))]
fn read_name(reader: &mut Reader, before: &[Item]) -> Result<Name, CodecFault>
    ensures value { GivesExactlyAt (λ name. name) reader.new.at result
        (name_at (λ name. item_has_name name before.now) reader.old.file reader.old.at) }
    ensures file { reader.new.file ≡ reader.old.file }
{
    let size = read_name_size(reader)?;
    let at = reader.at();
    let text = reader.bytes(size)?;
    new_name(text, has_item(text, before), at)
}

/// Whether one of these items has the name.
fn has_item(name: &[u8], items: &[Item]) -> bool
    ensures { result ≡ item_has_name name.now items.now }
{
    items.iter().any(|item| item.name.as_bytes() == name)
}

fn read_blocks(
    alloc: Global,
    reader: &mut Reader,
    params: &Params,
    size: usize,
    kind: Kind,
    count: u32,
) -> Result<Vec<Block>, CodecFault>
    requires accepted { Accepts params.now }
    requires few { size < 2 ^ 24 }
    ensures value { GivesAt (λ blocks. blocks.items) reader.new.at result
        (blocks_at size params.now kind count [] reader.old.file reader.old.at) }
    ensures file { reader.new.file ≡ reader.old.file }
{
    let mut blocks = Vec::new(alloc);
    for _ in 0..count {
        let block = read_block(alloc, reader, params, size, kind)?;
        blocks.push(block)?;
    }
    Ok(blocks)
}

#[tactic(auto, unfolding(crate::specs::CipherFile::block_at))]
fn read_block(
    alloc: Global,
    reader: &mut Reader,
    params: &Params,
    size: usize,
    kind: Kind,
) -> Result<Block, CodecFault>
    requires accepted { Accepts params.now }
    requires few { size < 2 ^ 24 }
    ensures value { GivesAt (λ block. block) reader.new.at result
        (block_at size params.now kind reader.old.file reader.old.at) }
    ensures file { reader.new.file ≡ reader.old.file }
{
    let at = reader.at();
    let degree = reader.u8()?;
    in_range(degree <= kind.greatest(params.message_bits), at)?;
    let at = reader.at();
    let noise = reader.u8()?;
    in_range((1..=noise_limit(params.message_bits)).contains(&noise), at)?;
    let words = reader.words(alloc, size)?;
    Ok(Block {
        words: Words::from_vec(words),
        degree,
        noise,
    })
}

/// The one file of a cipher that keeps to the ranges of the format.
pub fn encode_cipher(alloc: Global, value: &Cipher) -> Result<Vec<u8>, AllocError>
    requires { IsWritable value.now }
    ensures { IfOk result (λ bytes. CipherFile bytes.items value.now) }
{
    let items = value.items.as_slice();
    let count = items.len() as u32;
    let mut file = CipherWriter::new(alloc, &value.params, count, file_size(value))?;
    for item in items {
        write_item(&mut file, item)?;
    }
    Ok(file.finish())
}

/// The bytes of the file, as far as a size can be counted.
fn file_size(value: &Cipher) -> usize
    requires { IsWritable value.now }
{
    let words = block_words(&value.params);
    let mut size = HEAD_SIZE;
    for item in value.items.as_slice() {
        let blocks = item.blocks.as_slice().len();
        size = size.saturating_add(item_size(&item.name, blocks, words));
    }
    size
}

fn write_item(file: &mut CipherWriter, item: &Item) -> Result<(), AllocError>
    requires { item.now.bits ≤ 64 }
    ensures value { OnOk result (file.new ≡ file.old ++ item_bytes item.now) }
    ensures named { OnOk result (IsTrue (is_name item.now.name)) }
{
    file.item(&item.name, item.kind, item.bits)?;
    for block in item.blocks.as_slice() {
        let tags = Tags {
            degree: block.degree,
            noise: block.noise,
        };
        file.block(block.words.as_slice(), tags)?;
    }
    Ok(())
}
