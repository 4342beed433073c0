//! The seeded ciphertext file: a set, a mask seed, and named numbers by the bodies of their blocks.
ghost use Rattle.std.specs.Prelude.{◌≡◌, ◌≤◌, ◌<◌, ◌++◌, length, map, IfOk, OnOk, Ok, IsTrue, List, ℕ};
ghost use Rattle.std.specs.List.{flat_map, AllByRecursion};
ghost use Rattle.rx_text.specs.Names.{is_name};
ghost use Rattle.rx_params.specs.Acceptance.{Accepts};
ghost use Rattle.rx_codec.specs.declared.cipher.Cipher.{Cipher};
ghost use Rattle.rx_codec.specs.Reading.{Gives};
ghost use Rattle.rx_codec.specs.CipherFile.{IsCipher, IsWritable, IsWritableItem, IsSizedItem, item_bytes};
ghost use Rattle.rx_seeded.specs.Masks.{IsSeed, Seeds};
ghost use Rattle.rx_seeded.specs.SeededCipher.{SeededCipher, bodies_from, full_cipher, seeded_cipher_bytes, seeded_cipher_from, seeded_cipher_head, short_item, wrong_cipher_mask};
ghost use Rattle.rx_seeded.specs.Versions.{CipherRead, any_cipher_from};

use crate::SeedFault;
use crate::filling::full_items;
use crate::fits::seed_fits;
use crate::kind::begins;
use crate::masks::wrong_in_items;
use rx_block::Tags;
use rx_codec::{
    Cipher, CipherWriter, CodecFault, Item, Items, MOST_ITEMS, Reader, block_words, in_range,
    item_size, read_items, read_params, write_params,
};
use rx_params::Params;
use std::alloc::{AllocError, Global};

/// The bytes of the head of a seeded file: the magic, the set, the mask seed and the number of the items. With those of
/// `item_size` for blocks of one word they are the size of a file.
pub const SEEDED_HEAD_SIZE: usize = 80;

/// The bytes of the head of a version 1 file.
const HEAD_SIZE: u64 = 48;

/// What a seeded file holds: a set, a mask seed, and items whose blocks have bodies alone.
#[derive(Debug, Drop)]
pub(crate) struct Bodies {
    /// The set of all items, which is accepted.
    params: Params,
    /// What the masks are drawn from.
    mask_seed: [u8; 32],
    /// At most 64.
    items: Items,
}

/// The cipher that a file of either version spells, or its first fault.
pub fn decode_cipher(alloc: Global, bytes: &[u8]) -> Result<Cipher, CodecFault>
    ensures exact { Gives (λ c. c) result (any_cipher_from bytes.now) }
    ensures found { IfOk result (λ c. CipherRead bytes.now c) }
    ensures only { (c : Cipher) → CipherRead bytes.now c → Gives (λ c. c) result (Ok c) }
{
    read_cipher(alloc, bytes)
}

/// The same, read by its version.
fn read_cipher(alloc: Global, bytes: &[u8]) -> Result<Cipher, CodecFault>
    ensures { Gives (λ c. c) result (any_cipher_from bytes.now) }
{
    if begins(bytes, b"RXE2") {
        read_seeded(alloc, bytes)
    } else {
        rx_codec::decode_cipher(alloc, bytes)
    }
}

/// The cipher that a seeded file spells, or its first fault. The masks are drawn once the file was read to its end.
pub fn decode_seeded_cipher(alloc: Global, bytes: &[u8]) -> Result<Cipher, CodecFault>
    ensures exact { Gives (λ c. c) result (seeded_cipher_from bytes.now) }
    ensures found { IfOk result (λ c. (mask_seed : List ℕ) × SeededCipher bytes.now mask_seed c) }
{
    read_seeded(alloc, bytes)
}

fn read_seeded(alloc: Global, bytes: &[u8]) -> Result<Cipher, CodecFault>
    ensures { Gives (λ c. c) result (seeded_cipher_from bytes.now) }
{
    match read_bodies(alloc, bytes) {
        Ok(bodies) => Ok(filled(alloc, &bodies)?),
        Err(fault) => Err(fault),
    }
}

/// The cipher of these bodies.
fn filled(alloc: Global, bodies: &Bodies) -> Result<Cipher, AllocError>
    requires accepted { Accepts bodies.now.params }
    requires count { length bodies.now.items ≤ 64 }
    requires items { AllByRecursion (IsSizedItem 1 bodies.now.params) bodies.now.items }
    ensures { IfOk result (λ cipher. cipher ≡ full_cipher bodies.now) }
{
    let short = bodies.items.as_slice();
    let items = full_items(alloc, &bodies.params, &bodies.mask_seed, short)?;
    Ok(Cipher {
        params: bodies.params,
        items: Items::from_vec(items),
    })
}

/// What a seeded file holds, or its first fault.
fn read_bodies(alloc: Global, bytes: &[u8]) -> Result<Bodies, CodecFault>
    ensures value { Gives (λ b. b) result (bodies_from bytes.now) }
    ensures accepted { IfOk result (λ b. Accepts b.params) }
    ensures count { IfOk result (λ b. length b.items ≤ 64) }
    ensures items { IfOk result (λ b. AllByRecursion (IsSizedItem 1 b.params) b.items) }
{
    read_fields(alloc, bytes)
}

#[tactic(auto, unfolding(crate::specs::SeededCipher::bodies_from))]
fn read_fields(alloc: Global, bytes: &[u8]) -> Result<Bodies, CodecFault>
    ensures { Gives (λ b. b) result (bodies_from bytes.now) }
{
    let mut reader = Reader::after_magic(bytes, b"RXE2")?;
    let params = read_params(&mut reader)?;
    let mut mask_seed = [0; 32];
    mask_seed.copy_from_slice(reader.bytes(32)?);
    let at = reader.at();
    let count = reader.u32()?;
    in_range(count <= MOST_ITEMS, at)?;
    let items = read_items(alloc, &mut reader, &params, 1, count)?;
    reader.end()?;
    Ok(Bodies {
        params,
        mask_seed,
        items: Items::from_vec(items),
    })
}

/// The one seeded file of a mask seed and a cipher that keeps to the ranges of the format. It is refused where a mask
/// word is not the one that the seed draws.
pub fn encode_seeded_cipher(
    alloc: Global,
    value: &Cipher,
    mask_seed: &[u8; 32],
) -> Result<Vec<u8>, SeedFault>
    requires { IsWritable value.now }
    ensures { Seeds (wrong_cipher_mask mask_seed.now value.now)
        (λ bytes. SeededCipher bytes.items mask_seed.now value.now) result }
{
    seed_fits(mask_seed);
    let p = &value.params;
    let mut room = vec![in alloc; 0; block_words(p)]?;
    match wrong_in_items(p, mask_seed, HEAD_SIZE, value.items.as_slice(), &mut room) {
        Some(at) => Err(SeedFault::Mask { at }),
        None => Ok(spell(alloc, value, mask_seed)?),
    }
}

/// The file of a mask seed and the bodies of a cipher.
fn spell(alloc: Global, value: &Cipher, mask_seed: &[u8; 32]) -> Result<Vec<u8>, AllocError>
    requires { IsWritable value.now }
    ensures bytes { IfOk result (λ bytes.
        bytes.items ≡ seeded_cipher_bytes mask_seed.now value.now) }
    ensures fits { IfOk result (λ _. IsCipher value.now) }
{
    let items = value.items.as_slice();
    let size = file_size(value);
    let mut file = seeded_writer(alloc, &value.params, mask_seed, items.len() as u32, size)?;
    for item in items {
        write_bodies(&mut file, &value.params, item)?;
    }
    Ok(file.finish())
}

/// The head of a seeded file of so many items, to which they are added with blocks of one word, the body. Memory is taken
/// for a file of `size` bytes; one of more bytes takes more.
pub fn seeded_writer(
    alloc: Global,
    params: &Params,
    mask_seed: &[u8; 32],
    items: u32,
    size: usize,
) -> Result<CipherWriter, AllocError>
    ensures file { IfOk result (λ file. file ≡ seeded_cipher_head params.now mask_seed.now items) }
    ensures seed { IfOk result (λ _. IsSeed mask_seed.now) }
{
    seed_fits(mask_seed);
    let mut bytes = Vec::with_capacity(alloc, size)?;
    bytes.extend_from_slice(b"RXE2")?;
    write_params(&mut bytes, params)?;
    bytes.extend_from_slice(mask_seed)?;
    bytes.extend_from_slice(&items.to_le_bytes())?;
    Ok(CipherWriter::after(bytes))
}

/// The bytes of the file, as far as a size can be counted.
fn file_size(value: &Cipher) -> usize {
    let mut size = SEEDED_HEAD_SIZE;
    for item in value.items.as_slice() {
        size = size.saturating_add(item_size(&item.name, item.blocks.as_slice().len(), 1));
    }
    size
}

/// Adds an item by the bodies of its blocks.
fn write_bodies(file: &mut CipherWriter, p: &Params, item: &Item) -> Result<(), AllocError>
    requires accepted { Accepts p.now }
    requires item { IsWritableItem p.now item.now }
    ensures value { OnOk result (file.new ≡ file.old ++ item_bytes (short_item p.now item.now)) }
    ensures named { OnOk result (IsTrue (is_name item.now.name)) }
{
    let masks = p.large_dim() as usize;
    file.item(&item.name, item.kind, item.bits)?;
    for block in item.blocks.as_slice() {
        let tags = Tags {
            degree: block.degree,
            noise: block.noise,
        };
        file.block(&block.words.as_slice()[masks..], tags)?;
    }
    Ok(())
}
