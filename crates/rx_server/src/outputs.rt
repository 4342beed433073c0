//! The outputs of a net, as the items of a ciphertext file.
ghost use Rattle.std.specs.Prelude.{◌≡◌, List, IfOk, map, take, drop};
ghost use Rattle.std.specs.Vec.Iter.{into_iter_items};
ghost use Rattle.rx_block.specs.declared.block.Block.{Block};
ghost use Rattle.rx_block.specs.Outputs.{output_blocks};
ghost use Rattle.rx_server.specs.Outputs.{items_over, output_item};

use rx_block::Block;
use rx_codec::{Blocks, Item, Items};
use rx_net::NetOutput;
use std::alloc::{AllocError, Global};
use std::vec::IntoIter;

/// The items of the outputs of a net, over the blocks of all outputs, one output's after another: as many for each as
/// it has cells. No words are copied.
pub fn output_items(
    alloc: Global,
    outputs: &[NetOutput],
    blocks: Blocks,
) -> Result<Items, AllocError>
    ensures in_turn { IfOk result (λ items. items ≡ items_over outputs.now blocks) }
    ensures of_cells { IfOk result (λ items.
        (cells : List Block) → blocks ≡ output_blocks cells outputs.now →
        items ≡ map (output_item cells) outputs.now) }
{
    let mut items = Vec::with_capacity(alloc, outputs.len())?;
    let mut rest = blocks.into_vec().into_iter();
    for output in outputs {
        let own = first_blocks(alloc, &mut rest, output.cells.as_slice().len())?;
        items.push(Item {
            name: output.name,
            kind: output.kind,
            bits: output.bits,
            blocks: Blocks::from_vec(own),
        })?;
    }
    Ok(Items::from_vec(items))
}

/// The first blocks of those that are left, so many, or all where fewer are left.
fn first_blocks(
    alloc: Global,
    rest: &mut IntoIter<Block>,
    count: usize,
) -> Result<Vec<Block>, AllocError>
    ensures { IfOk result (λ blocks. (blocks.items ≡ take count (into_iter_items rest.old))
        × (into_iter_items rest.new ≡ drop count (into_iter_items rest.old))) }
{
    let mut blocks = Vec::with_capacity(alloc, count)?;
    for _ in 0..count {
        match rest.next() {
            Some(block) => blocks.push(block)?,
            None => break,
        }
    }
    Ok(blocks)
}
