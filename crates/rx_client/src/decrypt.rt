//! Reading numbers under encryption.
ghost use Rattle.std.specs.Prelude.{◌≡◌, None, Some, MatchResult, length, string_bytes};
ghost use Rattle.std.specs.List.{AllByRecursion};
ghost use Rattle.rx_params.specs.Acceptance.{Accepts, FieldsInRange};
ghost use Rattle.rx_params.specs.Derived.{large_dim};
ghost use Rattle.rx_codec.specs.CipherFile.{IsItem};
ghost use Rattle.rx_client.specs.Decrypt.{damage_in, item_number as number_of_item};
ghost use Rattle.rx_client.specs.Reads.{Reads, ReadsKept};
ghost use Rattle.rx_client.specs.declared.decrypt.DecryptError.TheVariants.{Damaged, Memory};

use crate::laws::reading_laws;
use rx_block::decrypt_block;
use rx_codec::Item;
use rx_lwe::SecretKey;
use rx_params::{Name, Params};
use std::alloc::{AllocError, AllocFailed, Global};
use thiserror::Error;

/// A block that decodes to a number above its degree.
#[derive(Debug, Drop)]
pub struct Damage {
    /// The item's name.
    pub name: Name,
    /// The block's place in its item, from 0.
    pub block: u32,
    /// The number that it decodes to, below `2 * 4^message_bits`.
    pub decoded: u32,
    /// Its degree.
    pub degree: u8,
}

/// Why items could not be read.
#[derive(Debug, Drop, Error)]
pub enum DecryptError {
    /// The first block, in the order of items and blocks, that decodes to a number above its degree.
    #[error("a block is damaged")]
    Damaged(Damage),
    /// Memory ran out.
    #[error("out of memory")]
    Memory,
}

impl From<Damage> for DecryptError {
    ghost from_gives = { λ damage error. error ≡ Damaged damage };

    fn from(damage: Damage) -> DecryptError {
        DecryptError::Damaged(damage)
    }
}

impl From<AllocError> for DecryptError {
    ghost from_gives = { λ _ error. error ≡ Memory };

    fn from(_: AllocError) -> DecryptError {
        DecryptError::Memory
    }
}

impl<T: Drop> From<AllocFailed<T>> for DecryptError {
    ghost from_gives = { λ _ error. error ≡ Memory };

    fn from(_: AllocFailed<T>) -> DecryptError {
        DecryptError::Memory
    }
}

/// A line for each item of an accepted set, under its large key: the item's name, a space, its number and a line
/// feed. Where the blocks keep digits, that is the digits' number.
pub fn decrypt_items(
    alloc: Global,
    p: &Params,
    key: &SecretKey,
    items: &[Item],
) -> Result<String, DecryptError>
    requires accepted { Accepts p.now }
    requires key { length key.now ≡ large_dim p.now }
    requires items { AllByRecursion (IsItem p.now) items.now }
    ensures exact { Reads string_bytes p.now key.now items.now result }
    ensures kept { ReadsKept string_bytes p.now key.now items.now result }
{
    reading_laws();
    let mut lines = String::new(alloc);
    for item in items {
        let name = item.name.as_str();
        let number = item_number(p, key, item)?;
        write!(lines, "{name} {number}\n")?;
    }
    Ok(lines)
}

/// The number of an item, or its first block that exceeds its degree.
fn item_number(p: &Params, key: &SecretKey, item: &Item) -> Result<u64, Damage>
    requires fields { FieldsInRange p.now }
    requires key { length key.now ≡ large_dim p.now }
    requires item { IsItem p.now item.now }
    ensures { MatchResult result
        (λ number. (damage_in p.now key.now item.now.name 0 item.now.blocks ≡ None)
        × (number ≡ number_of_item p.now key.now item.now))
        (λ damage. damage_in p.now key.now item.now.name 0 item.now.blocks ≡ Some damage) }
{
    let mut number = 0;
    for (place, block) in item.blocks.as_slice().iter().enumerate() {
        let place = place as u32;
        match decrypt_block(p, key, block) {
            Ok(digit) => number += u64::from(digit) << (p.message_bits * place),
            Err(damaged) => {
                return Err(Damage {
                    name: item.name,
                    block: place,
                    decoded: damaged.decoded,
                    degree: damaged.degree,
                });
            }
        }
    }
    Ok(number)
}
