//! Items of bodies alone, with the masks that a seed draws.
ghost use Rattle.std.specs.Prelude.{◌≡◌, ◌≤◌, ◌+◌, ◌<◌, ◌^◌, ◌++◌, ◌∷◌, [], IfOk, length};
ghost use Rattle.std.specs.List.{AllByRecursion};
ghost use Rattle.rx_params.specs.Acceptance.{Accepts};
ghost use Rattle.rx_params.specs.Derived.{large_dim};
ghost use Rattle.rx_codec.specs.CipherFile.{IsSizedItem};
ghost use Rattle.rx_lwe.specs.Seeded.{drawn_words};
ghost use Rattle.rx_seeded.specs.SeededCipher.{HasWords, block_masks, full_block as block_filled, full_blocks as blocks_filled, full_item as item_filled, full_items as items_filled};

use rx_block::Block;
use rx_codec::{Blocks, Item, block_words};
use rx_lwe::draw_words;
use rx_params::Params;
use rx_torus::{Stream, StreamKind, Words};
use std::alloc::{AllocError, Global};

/// Items whose blocks have bodies alone, at most 64, with the masks that the seed draws; the blocks are numbered from 0.
pub(crate) fn full_items(
    alloc: Global,
    p: &Params,
    mask_seed: &[u8; 32],
    short: &[Item],
) -> Result<Vec<Item>, AllocError>
    requires accepted { Accepts p.now }
    requires count { length short.now ≤ 64 }
    requires items { AllByRecursion (IsSizedItem 1 p.now) short.now }
    ensures { IfOk result (λ items. items.items ≡ items_filled p.now mask_seed.now 0 short.now) }
{
    let mut items = Vec::with_capacity(alloc, short.len())?;
    let mut number = 0;
    for item in short {
        let full = full_item(alloc, p, mask_seed, number, item)?;
        items.push(full)?;
        number += item.blocks.as_slice().len() as u32;
    }
    Ok(items)
}

/// An item with the masks of its blocks, the first of which has this number.
fn full_item(
    alloc: Global,
    p: &Params,
    mask_seed: &[u8; 32],
    number: u32,
    item: &Item,
) -> Result<Item, AllocError>
    requires accepted { Accepts p.now }
    requires item { IsSizedItem 1 p.now item.now }
    requires numbers { number + length item.now.blocks < 2 ^ 32 }
    ensures { IfOk result (λ full. full ≡ item_filled p.now mask_seed.now number item.now) }
{
    let blocks = full_blocks(alloc, p, mask_seed, number, item.blocks.as_slice())?;
    Ok(Item {
        name: item.name,
        kind: item.kind,
        bits: item.bits,
        blocks: Blocks::from_vec(blocks),
    })
}

/// Blocks with their masks, the first of which has this number.
fn full_blocks(
    alloc: Global,
    p: &Params,
    mask_seed: &[u8; 32],
    number: u32,
    short: &[Block],
) -> Result<Vec<Block>, AllocError>
    requires accepted { Accepts p.now }
    requires numbers { number + length short.now < 2 ^ 32 }
    requires bodies { AllByRecursion (HasWords 1) short.now }
    ensures { IfOk result (λ blocks. blocks.items
        ≡ blocks_filled p.now mask_seed.now number short.now) }
{
    let mut blocks = Vec::with_capacity(alloc, short.len())?;
    for (i, block) in short.iter().enumerate() {
        let full = full_block(alloc, p, mask_seed, number + i as u32, block)?;
        blocks.push(full)?;
    }
    Ok(blocks)
}

/// A block with its masks.
fn full_block(
    alloc: Global,
    p: &Params,
    mask_seed: &[u8; 32],
    number: u32,
    block: &Block,
) -> Result<Block, AllocError>
    requires accepted { Accepts p.now }
    requires body { HasWords 1 block.now }
    ensures { IfOk result (λ full. full ≡ block_filled p.now mask_seed.now number block.now) }
{
    let body = block.words.as_slice()[0];
    let words = full_words(alloc, p, mask_seed, number, body)?;
    Ok(Block {
        words: Words::from_vec(words),
        degree: block.degree,
        noise: block.noise,
    })
}

/// The masks of the block of this number, and its body.
fn full_words(
    alloc: Global,
    p: &Params,
    mask_seed: &[u8; 32],
    number: u32,
    body: u64,
) -> Result<Vec<u64>, AllocError>
    requires accepted { Accepts p.now }
    ensures { IfOk result (λ words. words.items
        ≡ drawn_words (large_dim p.now) (block_masks mask_seed.now number) ++ body ∷ []) }
{
    let masks = p.large_dim() as usize;
    let mut words = vec![in alloc; 0; masks + 1]?;
    let mut stream = Stream::new(mask_seed, StreamKind::BlockMask.stream_number(number));
    write_words(&mut stream, masks, body, &mut words);
    Ok(words)
}

/// Writes so many masks of a stream, at least one, and then the body.
pub(crate) fn write_words(stream: &mut Stream, masks: usize, body: u64, out: &mut [u64])
    requires some { 0 < masks }
    requires room { length out.old ≡ masks + 1 }
    ensures { out.new ≡ drawn_words masks stream.old ++ body ∷ [] }
{
    draw_words(stream, &mut out[..masks]);
    out[masks] = body;
}
