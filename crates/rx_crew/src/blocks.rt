//! Blocks in memory of their own: made as zeros, and copied.
ghost use Rattle.std.specs.Prelude.{◌≡◌, ◌+◌, ◌≤◌, ◌<◌, ◌^◌, IfOk, EachIndex, slice_index, length, take, replicate};
ghost use Rattle.std.specs.List.{AllByRecursion};
ghost use Rattle.rx_params.specs.Acceptance.{FieldsInRange};
ghost use Rattle.rx_block.specs.Combine.{AreBlocksOf};
ghost use Rattle.rx_block.specs.Outputs.{numbered_blocks};
ghost use Rattle.rx_crew.specs.Evaluation.{zero_block, block_words, AreWordsOf};

use rx_block::Block;
use rx_net::Net;
use rx_params::Params;
use rx_torus::Words;
use std::alloc::{AllocError, Global};

/// A block of zeros.
fn zero_block(alloc: Global, p: &Params) -> Result<Block, AllocError>
    requires { FieldsInRange p.now }
    ensures { IfOk result (λ block. block ≡ zero_block p.now) }
{
    let words = vec![in alloc; 0; p.large_dim() as usize + 1]?;
    Ok(Block {
        words: Words::from_vec(words),
        degree: 0,
        noise: 0,
    })
}

/// So many blocks of zeros.
pub(crate) fn zero_blocks(alloc: Global, p: &Params, count: usize) -> Result<Vec<Block>, AllocError>
    requires { FieldsInRange p.now }
    ensures { IfOk result (λ blocks. blocks.items ≡ replicate count (zero_block p.now)) }
{
    let mut blocks = Vec::new(alloc);
    for _ in 0..count {
        blocks.push(zero_block(alloc, p)?)?;
    }
    Ok(blocks)
}

/// The blocks of the inputs of a net, and then one of zeros for each job.
pub(crate) fn first_cells(
    alloc: Global,
    p: &Params,
    net: &Net,
    inputs: &[Block],
) -> Result<Vec<Block>, AllocError>
    requires fields { FieldsInRange p.now }
    requires sizes { AreBlocksOf p.now inputs.now }
    ensures inputs { IfOk result (λ cells. take (length inputs.now) cells.items ≡ inputs.now) }
    ensures count { IfOk result (λ cells.
        length cells.items ≡ length inputs.now + length net.now.jobs) }
    ensures sizes { IfOk result (λ cells. AreBlocksOf p.now cells.items) }
{
    let mut cells = zero_blocks(alloc, p, inputs.len() + net.jobs.as_slice().len())?;
    copy_blocks(p, inputs, &mut cells);
    Ok(cells)
}

/// The words of blocks, one block after another.
pub(crate) fn input_words(alloc: Global, inputs: &[Block]) -> Result<Vec<u64>, AllocError>
    ensures { IfOk result (λ words. words.items ≡ block_words inputs.now) }
{
    let mut words = Vec::new(alloc);
    for block in inputs {
        words.extend_from_slice(block.words.as_slice())?;
    }
    Ok(words)
}

fn copy_words(from: &[u64], to: &mut [u64])
    requires { length from.now ≡ length to.old }
    ensures copied { to.new ≡ from.now }
    ensures words { EachIndex to.new (λ i. slice_index to.new i < 2 ^ 64) }
{
    to.copy_from_slice(from);
}

/// Writes a block over one of as many words.
fn copy_block(from: &Block, to: &mut Block)
    requires { length from.now.words ≡ length to.old.words }
    ensures copied { to.new ≡ from.now }
    ensures words { EachIndex to.new.words (λ i. slice_index to.new.words i < 2 ^ 64) }
{
    copy_words(from.words.as_slice(), to.words.as_mut_slice());
    to.degree = from.degree;
    to.noise = from.noise;
}

/// Writes blocks over the first ones of the others.
fn copy_blocks(p: &Params, from: &[Block], to: &mut [Block])
    requires room { length from.now ≤ length to.old }
    requires sizes { AreBlocksOf p.now from.now }
    requires room_sizes { AreBlocksOf p.now to.old }
    ensures copied { take (length from.now) to.new ≡ from.now }
    ensures sizes { AreBlocksOf p.now to.new }
{
    for (number, block) in from.iter().enumerate() {
        copy_block(block, &mut to[number]);
    }
}

/// Writes the blocks of these numbers over the others, which are as many as the numbers.
pub(crate) fn copy_numbered(p: &Params, from: &[Block], numbers: &[u32], to: &mut [Block])
    requires count { length numbers.now ≡ length to.old }
    requires there { AllByRecursion (λ c. c < length from.now) numbers.now }
    requires sizes { AreBlocksOf p.now from.now }
    requires room_sizes { AreBlocksOf p.now to.old }
    ensures copied { to.new ≡ numbered_blocks from.now numbers.now }
    ensures sizes { AreBlocksOf p.now to.new }
    ensures words { AreWordsOf to.new }
{
    for (place, number) in numbers.iter().enumerate() {
        copy_block(&from[*number as usize], &mut to[place]);
    }
}
