//! Room for a bootstrap by pairs.
ghost use Rattle.std.specs.Prelude.{◌≡◌, IfOk};
ghost use Rattle.rx_params.specs.Acceptance.{FieldsInRange};

use rx_glwe::GlweScratch;
use rx_params::Params;
use std::alloc::{AllocError, Global};
use std::marker::Model;

/// Room for the turns by pairs of a set: the rows that a pair multiplies by, the ciphertext that a turn makes,
/// and what its external product needs. Contracts see the set that it was made for.
#[derive(Drop)]
pub(crate) struct TurnRoom {
    params: Params,
    pub(crate) rows: Vec<u64>,
    pub(crate) next: Vec<u64>,
    pub(crate) product: GlweScratch,
}

impl Model for TurnRoom {
    ghost use Rattle.std.specs.Prelude.{◌≡◌, length};
    ghost use Rattle.rx_params.specs.declared.params.Params.{Params};
    ghost use Rattle.rx_glwe.specs.Sizes.{glwe_size, ggsw_size};

    ghost Value = { Params };

    ghost view = { λ s. s.params };

    ghost invariant = { λ s. (length s.rows.items ≡ ggsw_size s.params)
        × (length s.next.items ≡ glwe_size s.params) × (s.product ≡ s.params) };
}

impl TurnRoom {
    fn new(alloc: Global, p: &Params) -> Result<TurnRoom, AllocError>
        requires { FieldsInRange p.now }
        ensures { IfOk result (λ room. room ≡ p.now) }
    {
        let count = p.glwe_dim as usize + 1;
        let size = count * p.poly_size as usize;
        Ok(TurnRoom {
            params: *p,
            rows: vec![in alloc; 0; count * p.pbs_level as usize * size]?,
            next: vec![in alloc; 0; size]?,
            product: GlweScratch::new(alloc, p)?,
        })
    }
}

/// Room for the bootstraps by pairs of a set: the `lwe_dim + 1` words of the switched input, the ciphertext
/// over polynomials that turns, and what its turns need. Contracts see the set that it was made for.
#[derive(Drop)]
pub struct PairScratch {
    params: Params,
    pub(crate) switched: Vec<u64>,
    pub(crate) turning: Vec<u64>,
    pub(crate) turns: TurnRoom,
}

impl Model for PairScratch {
    ghost use Rattle.std.specs.Prelude.{◌≡◌, ◌+◌, length};
    ghost use Rattle.rx_params.specs.declared.params.Params.{Params};
    ghost use Rattle.rx_glwe.specs.Sizes.{glwe_size};

    ghost Value = { Params };

    ghost view = { λ s. s.params };

    ghost invariant = { λ s. (length s.switched.items ≡ s.params.lwe_dim + 1)
        × (length s.turning.items ≡ glwe_size s.params) × (s.turns ≡ s.params) };
}

impl PairScratch {
    /// Room for a set. The error is want of memory.
    pub fn new(alloc: Global, p: &Params) -> Result<PairScratch, AllocError>
        requires { FieldsInRange p.now }
        ensures { IfOk result (λ scratch. scratch ≡ p.now) }
    {
        let size = (p.glwe_dim as usize + 1) * p.poly_size as usize;
        Ok(PairScratch {
            params: *p,
            switched: vec![in alloc; 0; p.lwe_dim as usize + 1]?,
            turning: vec![in alloc; 0; size]?,
            turns: TurnRoom::new(alloc, p)?,
        })
    }
}
