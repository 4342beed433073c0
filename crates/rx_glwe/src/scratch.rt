//! Room for an external product.
ghost use Rattle.std.specs.Prelude.{◌≡◌, IfOk};
ghost use Rattle.rx_params.specs.Acceptance.{FieldsInRange};

use rx_params::Params;
use std::alloc::{AllocError, Global};
use std::marker::Model;

/// Room for the external products of a set: the digits of one polynomial at all `pbs_level` levels, and the
/// four polynomials of words that a product needs to be fast. Contracts see the set that it was made for.
#[derive(Drop)]
pub struct GlweScratch {
    params: Params,
    pub(crate) digits: Vec<i64>,
    pub(crate) product: Vec<u64>,
}

impl Model for GlweScratch {
    ghost use Rattle.std.specs.Prelude.{◌≡◌, ◌*◌, length};
    ghost use Rattle.rx_params.specs.declared.params.Params.{Params};

    ghost Value = { Params };

    ghost view = { λ s. s.params };

    ghost invariant = { λ s. (length s.digits.items ≡ s.params.pbs_level * s.params.poly_size)
        × (length s.product.items ≡ 4 * s.params.poly_size) };
}

impl GlweScratch {
    /// Room for a set. The error is want of memory.
    pub fn new(alloc: Global, p: &Params) -> Result<GlweScratch, AllocError>
        requires { FieldsInRange p.now }
        ensures { IfOk result (λ scratch. scratch ≡ p.now) }
    {
        let n = p.poly_size as usize;
        Ok(GlweScratch {
            params: *p,
            digits: vec![in alloc; 0; p.pbs_level as usize * n]?,
            product: vec![in alloc; 0; 4 * n]?,
        })
    }
}
