//! The rows of a made switch key, drawn as docs/FORMATS.md says, Random streams.
ghost use Rattle.std.specs.Prelude.{◌≡◌, ◌*◌, ◌+◌, ◌<◌, IfOk, length};
ghost use Rattle.rx_params.specs.Acceptance.{FieldsInRange};
ghost use Rattle.rx_params.specs.Derived.{large_dim};
ghost use Rattle.rx_lwe.specs.SwitchKeys.{switch_row, switch_key_words, switch_size};

use crate::{SecretKey, encrypt_into};
use rx_params::Params;
use rx_torus::{Stream, StreamKind};
use std::alloc::{AllocError, Global};

/// The words of the switch key of two keys, its masks drawn from one seed and its noises from another.
pub(crate) fn made_words(
    alloc: Global,
    p: &Params,
    large: &SecretKey,
    small: &SecretKey,
    mask_seed: &[u8; 32],
    noise_seed: &[u8; 32],
) -> Result<Vec<u64>, AllocError>
    requires fields { FieldsInRange p.now }
    requires large_size { length large.now ≡ large_dim p.now }
    requires small_size { length small.now ≡ p.now.lwe_dim }
    ensures { IfOk result (λ words.
        words.items
        ≡ switch_key_words p.now large.now small.now mask_seed.now noise_seed.now) }
{
    let rows = (p.glwe_dim * p.poly_size * p.ks_level) as usize;
    let mut words = vec![in alloc; 0; rows * (p.lwe_dim as usize + 1)]?;
    write_rows(p, large, small, mask_seed, noise_seed, &mut words);
    Ok(words)
}

/// Writes all rows, in order.
fn write_rows(
    p: &Params,
    large: &SecretKey,
    small: &SecretKey,
    mask_seed: &[u8; 32],
    noise_seed: &[u8; 32],
    out: &mut [u64],
)
    requires fields { FieldsInRange p.now }
    requires large_size { length large.now ≡ large_dim p.now }
    requires small_size { length small.now ≡ p.now.lwe_dim }
    requires room { length out.old ≡ switch_size p.now }
    ensures { out.new ≡ switch_key_words p.now large.now small.now mask_seed.now noise_seed.now }
{
    let width = p.lwe_dim as usize + 1;
    for row in 0..p.glwe_dim * p.poly_size * p.ks_level {
        let start = row as usize * width;
        let words = &mut out[start..start + width];
        switch_row_into(p, large, small, mask_seed, noise_seed, row, words);
    }
}

/// Writes the row of a number, from 0: `lwe_dim` mask words and the body. Row `u * ks_level + t` hides bit u of
/// the large key at the weight of level t, with masks from one seed and the noise from another. The large key has
/// `glwe_dim * poly_size` bits, the small one `lwe_dim`, and `out` has `lwe_dim + 1` words.
pub fn switch_row_into(
    p: &Params,
    large: &SecretKey,
    small: &SecretKey,
    mask_seed: &[u8; 32],
    noise_seed: &[u8; 32],
    row: u32,
    out: &mut [u64],
)
    requires fields { FieldsInRange p.now }
    requires large_size { length large.now ≡ large_dim p.now }
    requires small_size { length small.now ≡ p.now.lwe_dim }
    requires place { row < large_dim p.now * p.now.ks_level }
    requires room { length out.old ≡ p.now.lwe_dim + 1 }
    ensures { out.new ≡ switch_row p.now large.now small.now mask_seed.now noise_seed.now row }
{
    let bit = large.bits()[(row / p.ks_level) as usize];
    let level = row % p.ks_level + 1;
    let message = bit << (64 - p.ks_base_log * level);
    let mut mask = Stream::new(mask_seed, StreamKind::SwitchMask.stream_number(row));
    let mut noise = Stream::new(noise_seed, StreamKind::SwitchNoise.stream_number(row));
    encrypt_into(small, &mut mask, &mut noise, p.lwe_bound, message, out);
}
