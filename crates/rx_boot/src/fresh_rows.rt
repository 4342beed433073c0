//! The rows of a client's server key, one at a time, for whoever keeps less of them than the whole key.
ghost use Rattle.std.specs.Prelude.{◌≡◌, ◌+◌, ◌*◌, ◌<◌, IfOk, length};
ghost use Rattle.rx_params.specs.Acceptance.{Accepts};
ghost use Rattle.rx_lwe.specs.Seeded.{switch_row_count};
ghost use Rattle.rx_glwe.specs.Sizes.{glwe_size};
ghost use Rattle.rx_boot.specs.BootKeys.{boot_row_count};
ghost use Rattle.rx_boot.specs.FreshRows.{fresh_boot_row, fresh_switch_row};

use crate::rows::{RowSource, write_row};
use rx_lwe::{SecretKey, switch_row_into};
use rx_params::{Params, Rotation};
use std::alloc::{AllocError, Global};
use std::marker::Model;

/// The rows of the server key that a client's seed and a mask seed make: each is made when it is asked for.
/// Contracts see the set, which is accepted, and the two seeds.
#[derive(Drop)]
pub struct FreshRows {
    params: Params,
    client_seed: [u8; 32],
    mask_seed: [u8; 32],
    small: SecretKey,
    large: SecretKey,
}

impl Model for FreshRows {
    ghost use Rattle.std.specs.Prelude.{◌≡◌};
    ghost use Rattle.rx_params.specs.Acceptance.{Accepts};
    ghost use Rattle.rx_lwe.specs.Secret.{small_key, large_key};
    ghost use Rattle.rx_boot.specs.FreshRows.{KeySeeds};

    ghost Value = { KeySeeds };

    ghost view = { λ r. record {
      params = r.params;
      client_seed = r.client_seed;
      mask_seed = r.mask_seed;
    } };

    ghost invariant = { λ r. Accepts r.params × (r.small ≡ small_key r.params r.client_seed)
        × (r.large ≡ large_key r.params r.client_seed) };
}

impl FreshRows {
    /// The rows of an accepted set and two seeds: secret bits and noises come from the client's seed, masks from
    /// the mask seed. The error is want of memory.
    pub fn new(
        alloc: Global,
        p: &Params,
        client_seed: &[u8; 32],
        mask_seed: &[u8; 32],
    ) -> Result<FreshRows, AllocError>
        requires { Accepts p.now }
        ensures { IfOk result (λ rows. rows ≡ record {
          params = p.now;
          client_seed = client_seed.now;
          mask_seed = mask_seed.now;
        }) }
    {
        let small = SecretKey::small(alloc, p, client_seed)?;
        let large = SecretKey::large(alloc, p, client_seed)?;
        Ok(FreshRows {
            params: *p,
            client_seed: *client_seed,
            mask_seed: *mask_seed,
            small,
            large,
        })
    }

    /// The set.
    pub fn params(&self) -> &Params
        ensures value { result.now ≡ self.now.params }
        ensures accepted { Accepts result.now }
    {
        &self.params
    }

    /// Writes the bootstrapping row of a number, from 0: `glwe_dim` mask polynomials and the body. `out` has room
    /// for them, and `scratch` for four polynomials, of which nothing is read and nothing is kept.
    pub fn boot_row_into(&self, row: u32, scratch: &mut [u64], out: &mut [u64])
        requires place { row < boot_row_count self.now.params }
        requires scratch { length scratch.old ≡ 4 * self.now.params.poly_size }
        requires size { length out.old ≡ glwe_size self.now.params }
        ensures { out.new ≡ fresh_boot_row self.now row }
    {
        let bits = self.small.bits();
        let source = RowSource {
            p: &self.params,
            rotation: Rotation::Bits,
            bits,
            large: &self.large,
            mask_seed: &self.mask_seed,
            noise_seed: &self.client_seed,
        };
        write_row(&source, row, scratch, out);
    }

    /// Writes the switch row of a number, from 0: `lwe_dim` masks and the body, for which `out` has room.
    pub fn switch_row_into(&self, row: u32, out: &mut [u64])
        requires place { row < switch_row_count self.now.params }
        requires size { length out.old ≡ self.now.params.lwe_dim + 1 }
        ensures { out.new ≡ fresh_switch_row self.now row }
    {
        switch_row_into(
            &self.params,
            &self.large,
            &self.small,
            &self.mask_seed,
            &self.client_seed,
            row,
            out,
        );
    }
}
