//! The bootstrapping key (CJP, GGSW).
ghost use Rattle.std.specs.Prelude.{◌≡◌, IfOk, length};
ghost use Rattle.rx_params.specs.Acceptance.{FieldsInRange};
ghost use Rattle.rx_params.specs.Derived.{large_dim};
ghost use Rattle.rx_boot.specs.BootKeys.{boot_key_words, boot_size};

use crate::encrypt_bits;
use rx_lwe::SecretKey;
use rx_params::{Params, Rotation};
use rx_torus::Words;
use std::alloc::{AllocError, Global};
use std::marker::Model;

/// The rows by which a bootstrap turns its accumulator: for each bit of the small key its encryption, as
/// `(glwe_dim + 1) * pbs_level` rows of `glwe_dim + 1` polynomials of `poly_size` words. Contracts see the list
/// of all words.
#[derive(Drop)]
pub struct BootKey {
    words: Words,
}

impl Model for BootKey {
    ghost use Rattle.std.specs.Prelude.{List, ℕ};

    ghost Value = { List ℕ };

    ghost view = { λ k. k.words };
}

impl BootKey {
    /// The rows for the `lwe_dim` bits of the small key, under the large key of `glwe_dim * poly_size` bits. The
    /// masks come from one seed and the noises from another; each row has a stream of its own in each. The error
    /// is want of memory.
    pub fn make(
        alloc: Global,
        p: &Params,
        small: &SecretKey,
        large: &SecretKey,
        mask_seed: &[u8; 32],
        noise_seed: &[u8; 32],
    ) -> Result<BootKey, AllocError>
        requires fields { FieldsInRange p.now }
        requires small_size { length small.now ≡ p.now.lwe_dim }
        requires large_size { length large.now ≡ large_dim p.now }
        ensures words { IfOk result (λ key.
            key ≡ boot_key_words p.now small.now large.now mask_seed.now noise_seed.now) }
        ensures size { IfOk result (λ key. length key ≡ boot_size p.now) }
    {
        let bits = small.bits();
        let words = encrypt_bits(alloc, p, Rotation::Bits, bits, large, mask_seed, noise_seed)?;
        Ok(BootKey {
            words: Words::from_vec(words),
        })
    }

    /// A key of these words, however many they are, without a copy.
    pub fn from_words(words: Words) -> BootKey
        ensures { result ≡ words }
    {
        BootKey { words }
    }

    /// The words, row after row.
    pub fn words(&self) -> &[u64]
        ensures { result.now ≡ self.now }
    {
        self.words.as_slice()
    }
}
