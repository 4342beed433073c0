//! The inputs of a net among the items of ciphertext files.
ghost use Rattle.std.specs.Prelude.{◌≡◌, ◌≤◌, ◌++◌, ◌∷◌, [], OnOk, MatchResult, None, Some, length};
ghost use Rattle.std.specs.Option.{option_copied, option_to_list};
ghost use Rattle.rx_server.specs.Inputs.{Gathers, found_fault, item_fault, tags_fault, named, items_of};

use crate::{GatherError, InputFault};
use rx_block::Block;
use rx_codec::{Cipher, Item};
use rx_net::NetInput;
use rx_params::Name;
use rx_torus::Words;
use std::alloc::{AllocError, Global};

/// The blocks of all inputs, in the order of the net, each a copy of a block of its item. Each input is looked up once.
/// The error is the first input that the items of all files do not give as the net wants it, or want of memory.
pub fn gather_inputs(
    alloc: Global,
    inputs: &[NetInput],
    ciphers: &[Cipher],
) -> Result<Vec<Block>, GatherError>
    ensures { Gathers inputs.now (items_of ciphers.now) result }
{
    let mut blocks = Vec::new(alloc);
    for input in inputs {
        let item = wanted_item(input, ciphers)?;
        copy_blocks(alloc, &mut blocks, item.blocks.as_slice())?;
    }
    Ok(blocks)
}

/// The only item that has the name of an input, where it is as the net wants it.
fn wanted_item<'a>(input: &NetInput, ciphers: &'a [Cipher]) -> Result<&'a Item, InputFault>
    ensures { MatchResult result
        (λ item. (named input.now.name (items_of ciphers.now) ≡ item.now ∷ [])
        × (item_fault input.now item.now ≡ None))
        (λ fault. found_fault input.now (named input.now.name (items_of ciphers.now))
        ≡ Some fault) }
{
    let item = only_item(input, ciphers)?;
    check_item(input, item)?;
    Ok(item)
}

/// The only item that has the name of an input.
fn only_item<'a>(input: &NetInput, ciphers: &'a [Cipher]) -> Result<&'a Item, InputFault>
    ensures { MatchResult result
        (λ item. named input.now.name (items_of ciphers.now) ≡ item.now ∷ [])
        (λ fault. found_fault input.now (named input.now.name (items_of ciphers.now))
        ≡ Some fault) }
{
    let mut found = None;
    for cipher in ciphers {
        found = only_among(&input.name, found, cipher.items.as_slice())?;
    }
    found.ok_or(InputFault::Missing(input.name))
}

/// The only item that has the name, among one that was found before and these.
fn only_among<'a>(
    name: &Name,
    before: Option<&'a Item>,
    items: &'a [Item],
) -> Result<Option<&'a Item>, InputFault>
    ensures { MatchResult result
        (λ found. option_to_list (option_copied before.entry) ++ named name.now items.now
        ≡ option_to_list (option_copied found))
        (λ fault. (2 ≤ length (option_to_list (option_copied before.entry)
        ++ named name.now items.now))
        × (fault ≡ InputFault.Twice name.now)) }
{
    let mut found = before;
    for item in items {
        if item.name == *name {
            if found.is_some() {
                return Err(InputFault::Twice(*name));
            }
            found = Some(item);
        }
    }
    Ok(found)
}

/// Tests the item that has the name of an input.
fn check_item(input: &NetInput, item: &Item) -> Result<(), InputFault>
    ensures { MatchResult result (λ _. item_fault input.now item.now ≡ None)
        (λ fault. item_fault input.now item.now ≡ Some fault) }
{
    if item.kind == input.kind && item.bits == input.bits {
        check_tags(input, item.blocks.as_slice())
    } else {
        Err(InputFault::Form(input.name))
    }
}

/// Tests the degree and then the noise tag of each block, from the least, against those of the input.
fn check_tags(input: &NetInput, blocks: &[Block]) -> Result<(), InputFault>
    ensures { MatchResult result (λ _. tags_fault input.now blocks.now ≡ None)
        (λ fault. tags_fault input.now blocks.now ≡ Some fault) }
{
    for block in blocks {
        if block.degree > input.degree {
            return Err(InputFault::Degree {
                name: input.name,
                value: block.degree,
                limit: input.degree,
            });
        }
        if block.noise > input.noise {
            return Err(InputFault::Noise {
                name: input.name,
                value: block.noise,
                limit: input.noise,
            });
        }
    }
    Ok(())
}

/// Adds copies of blocks.
fn copy_blocks(alloc: Global, out: &mut Vec<Block>, blocks: &[Block]) -> Result<(), AllocError>
    ensures { OnOk result (out.new.items ≡ out.old.items ++ blocks.now) }
{
    for block in blocks {
        let words = block.words.as_slice().to_vec(alloc)?;
        out.push(Block {
            words: Words::from_vec(words),
            degree: block.degree,
            noise: block.noise,
        })?;
    }
    Ok(())
}
