//! Pair keys.
ghost use Rattle.std.specs.Prelude.{◌≡◌, ◌+◌, IfOk, length, take, drop};
ghost use Rattle.rx_params.specs.Acceptance.{PairAccepts};
ghost use Rattle.rx_lwe.specs.Secret.{small_key, large_key};
ghost use Rattle.rx_lwe.specs.SwitchKeys.{switch_key, switch_size};
ghost use Rattle.rx_multi.specs.PairKeys.{IsPairKey, pair_key, pair_size};

use crate::bits::pair_bits;
use crate::word_counts::pair_row_words;
use rx_boot::encrypt_bits;
use rx_lwe::{SecretKey, SwitchKey};
use rx_params::{Params, Rotation};
use rx_torus::Words;
use std::alloc::{AllocError, Global};
use std::marker::Model;

/// What a server evaluates with by pairs of key bits: a set that is accepted for pairs, the rows of the three
/// products of each pair, and a switch key of that set. Contracts see the set and the two lists of words.
#[derive(Drop)]
pub struct PairKey {
    /// The set, which is accepted for pairs.
    pub params: Params,
    rows: Vec<u64>,
    switch: SwitchKey,
}

impl Model for PairKey {
    ghost use Rattle.std.specs.Prelude.{◌≡◌, length};
    ghost use Rattle.rx_params.specs.Acceptance.{PairAccepts};
    ghost use Rattle.rx_lwe.specs.SwitchKeys.{switch_key};
    ghost use Rattle.rx_multi.specs.PairKeys.{PairWords, pair_size};

    ghost Value = { PairWords };

    ghost view = { λ k. record { params = k.params; rows = k.rows.items; switch = k.switch.words } };

    ghost invariant = { λ k. PairAccepts k.params × (length k.rows.items ≡ pair_size k.params)
        × (k.switch ≡ switch_key k.params k.switch.words) };
}

impl PairKey {
    /// The pair key of a client: its secret bits and noises come from the client's seed, its masks from the
    /// mask seed. The phase of each row is within the set's bound of what it hides. The error is want of
    /// memory.
    pub fn make(
        alloc: Global,
        p: &Params,
        client_seed: &[u8; 32],
        mask_seed: &[u8; 32],
    ) -> Result<PairKey, AllocError>
        requires { PairAccepts p.now }
        ensures made { IfOk result (λ key. key ≡ pair_key p.now client_seed.now mask_seed.now) }
        ensures near { IfOk result (λ key.
            IsPairKey (small_key p.now client_seed.now) (large_key p.now client_seed.now) key) }
    {
        let small = SecretKey::small(alloc, p, client_seed)?;
        let large = SecretKey::large(alloc, p, client_seed)?;
        let bits = pair_bits(alloc, small.bits())?;
        let rows = encrypt_bits(
            alloc,
            p,
            Rotation::Pairs,
            &bits,
            &large,
            mask_seed,
            client_seed,
        )?;
        let switch = SwitchKey::make(alloc, p, &large, &small, mask_seed, client_seed)?;
        Ok(PairKey {
            params: *p,
            rows,
            switch,
        })
    }

    /// The pair key of a set with a copy of these words: first those of the rows of the pairs, as many as
    /// `pair_row_words` says, then those of the switch rows, as many as `pair_switch_words`. The error is want
    /// of memory.
    pub fn of_words(alloc: Global, p: &Params, words: &[u64]) -> Result<PairKey, AllocError>
        requires accepted { PairAccepts p.now }
        requires size { length words.now ≡ pair_size p.now + switch_size p.now }
        ensures { IfOk result (λ key. key ≡ record {
          params = p.now;
          rows = take (pair_size p.now) words.now;
          switch = drop (pair_size p.now) words.now;
        }) }
    {
        let (rows, switch) = words.split_at(pair_row_words(p));
        let rows = rows.to_vec(alloc)?;
        let switch = Words::from_vec(switch.to_vec(alloc)?);
        Ok(PairKey {
            params: *p,
            rows,
            switch: SwitchKey::of_words(p, switch),
        })
    }

    /// The words of the rows of all pairs: for each pair its three products, in order, and for each product
    /// `(glwe_dim + 1) * pbs_level` rows of `glwe_dim + 1` polynomials.
    pub fn rows(&self) -> &[u64]
        ensures value { result.now ≡ self.now.rows }
        ensures size { length result.now ≡ pair_size self.now.params }
        ensures accepted { PairAccepts self.now.params }
    {
        self.rows.as_slice()
    }

    /// The switch rows.
    pub fn switch(&self) -> &SwitchKey
        ensures { result.now ≡ switch_key self.now.params self.now.switch }
    {
        &self.switch
    }
}
