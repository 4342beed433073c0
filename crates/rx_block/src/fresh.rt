//! Fresh blocks.
ghost use Rattle.std.specs.Prelude.{◌≡◌, ◌+◌, ◌≤◌, length, IfOk};
ghost use Rattle.rx_params.specs.Acceptance.{FieldsInRange};
ghost use Rattle.rx_params.specs.Kinds.{greatest};
ghost use Rattle.rx_block.specs.Fresh.{fresh};

use crate::{Block, Tags};
use rx_lwe::{SecretKey, encrypt_into, unit};
use rx_params::{Kind, Params};
use rx_torus::{Stream, StreamKind, Words};
use std::alloc::{AllocError, Global};

/// Writes the words of the fresh block of a value into `words`, which has a place for each bit of the key
/// and one more, and gives its tags. It is block `number` of its file: the seeds of its mask and of its
/// noise serve each block of the file once. The value is at most `2^message_bits - 1`, and at most 1 in a
/// bit. Source: handbook, shortint (blocks); the draws `docs/FORMATS.md`, Random streams.
pub fn fresh_words_into(
    p: &Params,
    key: &SecretKey,
    mask_seed: &[u8; 32],
    noise_seed: &[u8; 32],
    number: u32,
    kind: Kind,
    value: u8,
    words: &mut [u64],
) -> Tags
    requires fields { FieldsInRange p.now }
    requires value { value ≤ greatest kind p.now.message_bits }
    requires room { length words.old ≡ length key.now + 1 }
    ensures { fresh p.now key.now mask_seed.now noise_seed.now number kind value
        ≡ record { words = words.new; degree = result.degree; noise = result.noise } }
{
    let mut mask = Stream::new(mask_seed, StreamKind::BlockMask.stream_number(number));
    let mut noise = Stream::new(noise_seed, StreamKind::BlockNoise.stream_number(number));
    let message = unit(p.message_bits) * u64::from(value);
    encrypt_into(key, &mut mask, &mut noise, p.glwe_bound, message, words);
    Tags {
        degree: kind.greatest(p.message_bits),
        noise: 1,
    }
}

/// The fresh block of a value, as `fresh_words_into` makes it, in words of its own.
pub fn fresh_block(
    alloc: Global,
    p: &Params,
    key: &SecretKey,
    mask_seed: &[u8; 32],
    noise_seed: &[u8; 32],
    number: u32,
    kind: Kind,
    value: u8,
) -> Result<Block, AllocError>
    requires fields { FieldsInRange p.now }
    requires value { value ≤ greatest kind p.now.message_bits }
    ensures block { IfOk result
        (λ block. block ≡ fresh p.now key.now mask_seed.now noise_seed.now number kind value) }
    ensures size { IfOk result (λ block. length block.words ≡ length key.now + 1) }
{
    let mut words = vec![in alloc; 0; key.bits().len() + 1]?;
    let tags = fresh_words_into(
        p, key, mask_seed, noise_seed, number, kind, value, &mut words,
    );
    Ok(Block {
        words: Words::from_vec(words),
        degree: tags.degree,
        noise: tags.noise,
    })
}
