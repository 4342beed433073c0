//! What a block holds.
ghost use Rattle.std.specs.Prelude.{◌≡◌, ◌+◌, ℕ, Ok, length};
ghost use Rattle.rx_params.specs.Acceptance.{FieldsInRange, Accepts};
ghost use Rattle.rx_block.specs.Keeps.{Keeps, decrypted};

use crate::{Block, Damaged};
use rx_lwe::{SecretKey, decode, phase};
use rx_params::Params;

/// The number that a block decodes to, or both numbers where it exceeds the degree. Under an accepted set
/// that is the number which the block keeps. The block has a word for each bit of the large key and one more.
/// Source: `docs/NOISE.md`, The theorem.
#[tactic(auto, using(crate::proofs::KeptNumbers::kept_number))]
pub fn decrypt_block(p: &Params, key: &SecretKey, block: &Block) -> Result<u8, Damaged>
    requires fields { FieldsInRange p.now }
    requires words { length block.now.words ≡ length key.now + 1 }
    ensures exact { result ≡ decrypted p.now key.now block.now }
    ensures keeps { Accepts p.now → (x : ℕ) → Keeps p.now key.now block.now x → result ≡ Ok x }
{
    let decoded = decode(phase(key, block.words.as_slice()), p.message_bits);
    if decoded <= u32::from(block.degree) {
        Ok(decoded as u8)
    } else {
        Err(Damaged {
            decoded,
            degree: block.degree,
        })
    }
}
