//! The switch of ciphertexts from the large key to the small one (CJP, key switching).
ghost use Rattle.std.specs.Prelude.{◌≡◌, ℕ, ℤ, pos, neg_ℤ, ◌-ℤ◌, ◌*ℤ◌, ◌≤ℤ◌, ◌+◌, ◌*◌, ◌<◌, ◌^◌, IfOk, length, get_or};
ghost use Rattle.rx_laws.specs.Sum.{sum_to};
ghost use Rattle.rx_laws.specs.Digits.{digit};
ghost use Rattle.rx_laws.specs.Words.{of_words, of_numbers, AreWords};
ghost use Rattle.rx_ring.specs.Keys.{IsSwitch, level_weight};
ghost use Rattle.rx_params.specs.Acceptance.{FieldsInRange};
ghost use Rattle.rx_params.specs.Derived.{large_dim};
ghost use Rattle.rx_lwe.specs.SwitchKeys.{IsSized, switch_key, switch_key_words, switch_rows, switch_size, switched_words};

use crate::made_rows::made_words;
use crate::{SecretKey, add_scaled};
use rx_params::{MOST_LEVELS, Params};
use rx_torus::{Words, digits};
use std::alloc::{AllocError, Global};
use std::marker::Model;

/// A key that switches ciphertexts from the large key to the small one. For each bit of the large key and
/// each level of the digits, the highest first, it has a row of words, which hide that bit, times the weight
/// of the level, under the small key. Contracts see its sizes and its words.
#[derive(Drop)]
pub struct SwitchKey {
    big: usize,
    small: usize,
    base_log: u32,
    levels: u32,
    words: Words,
}

impl Model for SwitchKey {
    ghost use Rattle.rx_lwe.specs.SwitchKeys.{SwitchRows, IsSized};

    ghost Value = { SwitchRows };

    ghost view = { λ k. record {
      big = k.big;
      small = k.small;
      base_log = k.base_log;
      levels = k.levels;
      words = k.words;
    } };

    ghost invariant = { λ k. IsSized (record {
      big = k.big;
      small = k.small;
      base_log = k.base_log;
      levels = k.levels;
      words = k.words;
    }) };
}

impl SwitchKey {
    /// The switch key of the two keys of a set, its masks drawn from one seed and its noises from another.
    /// The large key has `glwe_dim * poly_size` bits, the small one `lwe_dim`. The phase of each row is within
    /// `2^lwe_bound` of what it hides. The error is want of memory.
    pub fn make(
        alloc: Global,
        p: &Params,
        large: &SecretKey,
        small: &SecretKey,
        mask_seed: &[u8; 32],
        noise_seed: &[u8; 32],
    ) -> Result<SwitchKey, AllocError>
        requires fields { FieldsInRange p.now }
        requires large_size { length large.now ≡ large_dim p.now }
        requires small_size { length small.now ≡ p.now.lwe_dim }
        ensures made { IfOk result (λ key.
            key ≡ switch_key p.now
            (switch_key_words p.now large.now small.now mask_seed.now noise_seed.now)) }
        ensures near { IfOk result (λ key.
            IsSwitch
            (large_dim p.now)
            p.now.lwe_dim
            p.now.ks_level
            (2 ^ p.now.lwe_bound)
            (level_weight p.now.ks_base_log)
            (of_words large.now)
            (of_words small.now)
            (switch_rows key)) }
    {
        let words = made_words(alloc, p, large, small, mask_seed, noise_seed)?;
        Ok(SwitchKey::of_words(p, Words::from_vec(words)))
    }

    /// The switch key of a set with these words, without a copy: a row of `lwe_dim + 1` words for each bit
    /// of the large key and each of the `ks_level` levels.
    pub fn of_words(p: &Params, words: Words) -> SwitchKey
        requires fields { FieldsInRange p.now }
        requires size { length words ≡ switch_size p.now }
        ensures { result ≡ switch_key p.now words }
    {
        SwitchKey {
            big: (p.glwe_dim * p.poly_size) as usize,
            small: p.lwe_dim as usize,
            base_log: p.ks_base_log,
            levels: p.ks_level,
            words,
        }
    }

    /// The words, row by row, each with its body last.
    pub fn words(&self) -> &[u64]
        ensures value { result.now ≡ self.now.words }
        ensures sized { IsSized self.now }
    {
        self.words.as_slice()
    }

    /// The words of row (u, t), the body last.
    fn row(&self, u: usize, t: usize) -> &[u64]
        requires place { u < self.now.big }
        requires level { t < self.now.levels }
        ensures size { length result.now ≡ self.now.small + 1 }
        ensures numbers { (i : ℕ) → i < self.now.small + 1 → of_words result.now i
            ≡ switch_rows self.now u t i }
    {
        let width = self.small + 1;
        let start = (u * self.levels as usize + t) * width;
        &self.words.as_slice()[start..start + width]
    }

    /// Subtracts some digits, one of each level, times the rows of mask place u.
    fn subtract_rows(&self, u: usize, digits: &[i64], out: &mut [u64])
        requires place { u < self.now.big }
        requires levels { length digits.now ≡ self.now.levels }
        requires low { (t : ℕ) → t < length digits.now
            → neg_ℤ (pos (2 ^ 23)) ≤ℤ get_or digits.now t (pos 0) }
        requires size { length out.old ≡ self.now.small + 1 }
        ensures { AreWords
            (self.now.small + 1)
            (λ i. of_words out.old i -ℤ sum_to self.now.levels (λ t.
            of_numbers digits.now t *ℤ switch_rows self.now u t i))
            out.new }
    {
        for (t, digit) in digits.iter().enumerate() {
            add_scaled(out, -digit, self.row(u, t));
        }
    }

    /// Subtracts the digits of the word of mask place u times the rows of that place.
    fn subtract_word(&self, u: usize, word: u64, out: &mut [u64])
        requires place { u < self.now.big }
        requires size { length out.old ≡ self.now.small + 1 }
        ensures { AreWords
            (self.now.small + 1)
            (λ i. of_words out.old i
            -ℤ sum_to self.now.levels (λ t.
            digit self.now.base_log self.now.levels word t *ℤ switch_rows self.now u t i))
            out.new }
    {
        let mut places = [0; MOST_LEVELS as usize];
        let used = &mut places[..self.levels as usize];
        digits(word, self.base_log, self.levels, used);
        self.subtract_rows(u, used, out);
    }
}

/// Writes the words of a ciphertext under the large key, switched to the small key, into `out`. Each has a
/// mask word for each bit of its key, and then the body.
pub fn switch_into(key: &SwitchKey, input: &[u64], out: &mut [u64])
    requires input_size { length input.now ≡ key.now.big + 1 }
    requires out_size { length out.old ≡ key.now.small + 1 }
    ensures { out.new ≡ switched_words key.now input.now }
{
    out.fill(0);
    out[key.small] = input[key.big];
    for u in 0..key.big {
        key.subtract_word(u, input[u], out);
    }
}
