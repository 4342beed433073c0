//! Room for a bootstrap.
ghost use Rattle.std.specs.Prelude.{◌≡◌, IfOk};
ghost use Rattle.rx_params.specs.Acceptance.{FieldsInRange};

use rx_glwe::GlweScratch;
use rx_params::Params;
use std::alloc::{AllocError, Global};
use std::marker::Model;

/// Room for the bootstraps of a set: the `lwe_dim + 1` words of the switched input, the ciphertext over
/// polynomials that turns, as much again for what a turn multiplies, and what its external product needs.
/// Contracts see the set that it was made for.
#[derive(Drop)]
pub struct BootScratch {
    params: Params,
    pub(crate) switched: Vec<u64>,
    pub(crate) turning: Vec<u64>,
    pub(crate) away: Vec<u64>,
    pub(crate) product: GlweScratch,
}

impl Model for BootScratch {
    ghost use Rattle.std.specs.Prelude.{◌≡◌, ◌+◌, length};
    ghost use Rattle.rx_params.specs.declared.params.Params.{Params};
    ghost use Rattle.rx_glwe.specs.Sizes.{glwe_size};

    ghost Value = { Params };

    ghost view = { λ s. s.params };

    ghost invariant = { λ s. (length s.switched.items ≡ s.params.lwe_dim + 1)
        × (length s.turning.items ≡ glwe_size s.params) × (length s.away.items ≡ glwe_size s.params)
        × (s.product ≡ s.params) };
}

impl BootScratch {
    /// Room for a set. The error is want of memory.
    pub fn new(alloc: Global, p: &Params) -> Result<BootScratch, AllocError>
        requires { FieldsInRange p.now }
        ensures { IfOk result (λ scratch. scratch ≡ p.now) }
    {
        let size = (p.glwe_dim as usize + 1) * p.poly_size as usize;
        Ok(BootScratch {
            params: *p,
            switched: vec![in alloc; 0; p.lwe_dim as usize + 1]?,
            turning: vec![in alloc; 0; size]?,
            away: vec![in alloc; 0; size]?,
            product: GlweScratch::new(alloc, p)?,
        })
    }
}
