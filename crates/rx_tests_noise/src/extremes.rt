//! Server keys whose noises all lie at one end of their bounds.
ghost use Rattle.std.specs.Prelude.{◌≡◌, ◌+◌, ◌<◌, ◌≤◌, IfOk, length};
ghost use Rattle.rx_params.specs.Acceptance.{FieldsInRange};
ghost use Rattle.rx_lwe.specs.SwitchKeys.{switch_size};
ghost use Rattle.rx_boot.specs.BootKeys.{boot_size};

use rx_boot::ServerKey;
use rx_lwe::{SecretKey, phase};
use rx_params::Params;
use std::alloc::{AllocError, Global};

/// The end of the bounds at which all noises lie.
#[derive(Clone, Copy, Debug)]
pub enum End {
    /// All noises are `2^bound`.
    Most,
    /// All noises are `-2^bound`.
    Least,
}

impl End {
    /// The noise at this end of the bounds of `2^bound`, as a word.
    pub fn noise(self, bound: u32) -> u64 {
        let most = 1u64.rotate_left(bound);
        match self {
            End::Most => most,
            End::Least => most.wrapping_neg(),
        }
    }
}

/// The words of a server key, with each noise at this end: it has the masks and the secret of a key that was made. The
/// bootstrapping words come first, and then the switch words.
pub fn extreme_words(
    alloc: Global,
    made: &ServerKey,
    small: &SecretKey,
    large: &SecretKey,
    end: End,
) -> Result<Vec<u64>, AllocError>
    requires small_size { length small.now ≡ made.now.params.lwe_dim }
    ensures { IfOk result (λ words. length words.items
        ≡ boot_size made.now.params + switch_size made.now.params) }
{
    let p = &made.params;
    let mut boot = made.boot.words().to_vec(alloc)?;
    write_boot_bodies(p, small, large, end.noise(p.glwe_bound), &mut boot);
    let mut switch = made.switch.words().to_vec(alloc)?;
    write_switch_bodies(p, small, large, end.noise(p.lwe_bound), &mut switch);
    boot.extend_from_slice(&switch)?;
    Ok(boot)
}

/// The words of a ciphertext over polynomials.
fn row_size(p: &Params) -> usize
    requires { FieldsInRange p.now }
    ensures some { 0 < result }
    ensures bound { result ≤ 20480 }
{
    (p.glwe_dim as usize + 1) * p.poly_size as usize
}

/// The words of the rows of all levels.
fn levels_size(p: &Params) -> usize
    requires { FieldsInRange p.now }
    ensures some { 0 < result }
    ensures bound { result ≤ 614400 }
{
    p.pbs_level as usize * row_size(p)
}

/// Writes the body of each bootstrapping row.
fn write_boot_bodies(
    p: &Params,
    small: &SecretKey,
    large: &SecretKey,
    noise: u64,
    words: &mut [u64],
)
    requires { FieldsInRange p.now }
{
    let size = (p.glwe_dim as usize + 1) * levels_size(p);
    for (bit, rows) in small.bits().iter().zip(words.chunks_exact_mut(size)) {
        write_bit_bodies(p, *bit, large, noise, rows);
    }
}

/// Writes the body of each row of a bit: for each polynomial of a ciphertext those of all levels.
fn write_bit_bodies(p: &Params, bit: u64, large: &SecretKey, noise: u64, words: &mut [u64])
    requires { FieldsInRange p.now }
{
    let n = p.poly_size as usize;
    for (polynomial, rows) in words.chunks_exact_mut(levels_size(p)).enumerate() {
        // The weight of level t is `2^(64 - pbs_base_log * t)` times the bit.
        let mut weight = bit;
        for row in rows.chunks_exact_mut(row_size(p)) {
            weight = weight.rotate_right(p.pbs_base_log);
            let place = row.len().saturating_sub(n);
            let (masks, body) = row.split_at_mut(place);
            body.fill(noise);
            hide(weight, large.bits().chunks_exact(n).nth(polynomial), body);
            for (mask, key) in masks.chunks_exact(n).zip(large.bits().chunks_exact(n)) {
                add_product(mask, key, body);
            }
        }
    }
}

/// Adds what a row hides to its body: the opposite of a key polynomial times a weight, or the weight itself where
/// there is no such polynomial.
fn hide(weight: u64, key: Option<&[u64]>, body: &mut [u64]) {
    match key {
        Some(bits) => {
            for (word, bit) in body.iter_mut().zip(bits) {
                *word = word.wrapping_sub(weight.wrapping_mul(*bit));
            }
        }
        None => {
            if let Some(first) = body.first_mut() {
                *first = first.wrapping_add(weight);
            }
        }
    }
}

/// Adds the product of a mask and a key polynomial, modulo `X^n + 1`, to a body.
fn add_product(mask: &[u64], key: &[u64], body: &mut [u64]) {
    let n = body.len();
    for (j, bit) in key.iter().enumerate() {
        for (i, word) in mask.iter().enumerate() {
            let term = word.wrapping_mul(*bit);
            if let Some(place) = body.get_mut(i + j) {
                *place = place.wrapping_add(term);
            } else if let Some(place) = body.get_mut(i + j - n) {
                *place = place.wrapping_sub(term);
            }
        }
    }
}

/// Writes the body of each switch row.
fn write_switch_bodies(
    p: &Params,
    small: &SecretKey,
    large: &SecretKey,
    noise: u64,
    words: &mut [u64],
)
    requires fields { FieldsInRange p.now }
    requires small_size { length small.now ≡ p.now.lwe_dim }
{
    let row_size = p.lwe_dim as usize + 1;
    let bit_size = p.ks_level as usize * row_size;
    for (bit, rows) in large.bits().iter().zip(words.chunks_exact_mut(bit_size)) {
        // What level t hides is `2^(64 - ks_base_log * t)` times the bit.
        let mut hidden = *bit;
        for row in rows.chunks_exact_mut(row_size) {
            hidden = hidden.rotate_right(p.ks_base_log);
            let missing = hidden.wrapping_add(noise).wrapping_sub(phase(small, row));
            if let Some(body) = row.last_mut() {
                *body = body.wrapping_add(missing);
            }
        }
    }
}
