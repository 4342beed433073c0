//! Marks of a set: the places round the torus at which a bootstrap counts.
ghost use Rattle.std.specs.Prelude.{◌≡◌, ◌*◌, ◌^◌, ◌<◌, ◌≤◌};
ghost use Rattle.rx_ring.specs.Switch.{mark};
ghost use Rattle.rx_params.specs.Acceptance.{FieldsInRange};
ghost use Rattle.rx_boot.specs.Bootstrap.{half_mark};

use rx_lwe::mod_switch;
use rx_params::Params;

/// The mark nearest to a word, of the `2 * poly_size` marks of a set.
pub fn mark_of(p: &Params, word: u64) -> u32
    requires { FieldsInRange p.now }
    ensures value { result ≡ mark (half_mark p.now) (2 * p.now.poly_size) word }
    ensures bound { result < 2 * p.now.poly_size }
{
    mod_switch(word, log_size(p))
}

/// The number of coefficients of a polynomial is this power of two.
fn log_size(p: &Params) -> u32
    requires { FieldsInRange p.now }
    ensures value { 2 ^ result ≡ p.now.poly_size }
    ensures low { 6 ≤ result }
    ensures high { result ≤ 12 }
{
    p.poly_size.ilog2()
}
