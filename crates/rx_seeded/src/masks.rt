//! Mask words that a seed does not draw, by their places in a version 1 file.
ghost use Rattle.std.specs.Prelude.{◌≡◌, ◌+◌, ◌*◌, ◌<◌, ◌≤◌, ◌^◌, length};
ghost use Rattle.std.specs.List.{AllByRecursion};
ghost use Rattle.rx_params.specs.Acceptance.{Accepts};
ghost use Rattle.rx_params.specs.Derived.{large_dim};
ghost use Rattle.rx_codec.specs.CipherFile.{IsWritableItem};
ghost use Rattle.rx_seeded.specs.Masks.{first_unlike as first_unlike_of};
ghost use Rattle.rx_seeded.specs.SeededCipher.{HasWords, wrong_in_blocks as wrong_among_blocks, wrong_in_items as wrong_among_items};

use crate::filling::write_words;
use rx_block::Block;
use rx_codec::Item;
use rx_params::Params;
use rx_torus::{Stream, StreamKind};

/// The place of the first of these words that the other list, which is as long, does not have. The words stand from
/// `at` on, eight bytes each.
pub(crate) fn first_unlike(at: u64, words: &[u64], others: &[u64]) -> Option<u64>
    requires same { length words.now ≡ length others.now }
    requires room { at + 8 * length words.now < 2 ^ 64 }
    ensures { result ≡ first_unlike_of at words.now others.now }
{
    for i in 0..words.len() {
        if words[i] != others[i] {
            return Some(at + 8 * i as u64);
        }
    }
    None
}

/// The place of the first mask word of some items that the seed does not draw. The items, at most 64, stand from `at` on,
/// and their blocks are numbered from 0. There is room for the words of a block.
pub(crate) fn wrong_in_items(
    p: &Params,
    mask_seed: &[u8; 32],
    at: u64,
    items: &[Item],
    room: &mut [u64],
) -> Option<u64>
    requires accepted { Accepts p.now }
    requires count { length items.now ≤ 64 }
    requires items { AllByRecursion (IsWritableItem p.now) items.now }
    requires place { at < 2 ^ 32 }
    requires room { length room.old ≡ large_dim p.now + 1 }
    ensures { result ≡ wrong_among_items p.now mask_seed.now 0 at items.now }
{
    let width = 2 + 8 * room.len() as u64;
    let mut number = 0;
    let mut place = at;
    for item in items {
        let blocks = item.blocks.as_slice();
        let start = place + item.name.as_bytes().len() as u64 + 3;
        let wrong = wrong_in_blocks(p, mask_seed, number, start, blocks, room);
        if wrong.is_some() {
            return wrong;
        }
        number += blocks.len() as u32;
        place = start + width * blocks.len() as u64;
    }
    None
}

/// That of the blocks of a number, which stand and are numbered on from here.
fn wrong_in_blocks(
    p: &Params,
    mask_seed: &[u8; 32],
    number: u32,
    at: u64,
    blocks: &[Block],
    room: &mut [u64],
) -> Option<u64>
    requires accepted { Accepts p.now }
    requires count { length blocks.now ≤ 64 }
    requires blocks { AllByRecursion (HasWords (large_dim p.now + 1)) blocks.now }
    requires numbers { number < 2 ^ 31 }
    requires place { at < 2 ^ 40 }
    requires room { length room.old ≡ large_dim p.now + 1 }
    ensures { result ≡ wrong_among_blocks p.now mask_seed.now number at blocks.now }
{
    let masks = p.large_dim() as usize;
    let width = 2 + 8 * room.len() as u64;
    for (i, block) in blocks.iter().enumerate() {
        let words = block.words.as_slice();
        let row = StreamKind::BlockMask.stream_number(number + i as u32);
        let mut stream = Stream::new(mask_seed, row);
        write_words(&mut stream, masks, words[masks], room);
        let wrong = first_unlike(at + width * i as u64 + 2, words, room);
        if wrong.is_some() {
            return wrong;
        }
    }
    None
}
