//! How many words the two parts of a pair key have.
ghost use Rattle.std.specs.Prelude.{◌≡◌, ◌^◌, ◌≤◌};
ghost use Rattle.rx_params.specs.Acceptance.{PairAccepts};
ghost use Rattle.rx_lwe.specs.SwitchKeys.{switch_size};
ghost use Rattle.rx_multi.specs.PairKeys.{pair_size};

use rx_params::{Params, Rotation};

/// How many words the rows of the pairs of a set that is accepted for pairs have, at most 2^24.
pub fn pair_row_words(p: &Params) -> usize
    requires { PairAccepts p.now }
    ensures value { result ≡ pair_size p.now }
    ensures few { result ≤ 2 ^ 24 }
{
    let size = (p.glwe_dim as usize + 1) * p.poly_size as usize;
    let bits = Rotation::Pairs.encrypted_count(p) as usize;
    bits * ((p.glwe_dim as usize + 1) * p.pbs_level as usize * size)
}

/// How many words the switch rows of a set that is accepted for pairs have, at most 2^24.
#[tactic(auto, unfolding(rx_params::specs::Derived::large_dim))]
pub fn pair_switch_words(p: &Params) -> usize
    requires { PairAccepts p.now }
    ensures value { result ≡ switch_size p.now }
    ensures few { result ≤ 2 ^ 24 }
{
    let rows = p.glwe_dim as usize * p.poly_size as usize * p.ks_level as usize;
    rows * (p.lwe_dim as usize + 1)
}
