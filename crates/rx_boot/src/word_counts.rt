//! How many words the two parts of a server key have.
ghost use Rattle.std.specs.Prelude.{◌≡◌, ◌^◌, ◌≤◌};
ghost use Rattle.rx_params.specs.Acceptance.{Accepts};
ghost use Rattle.rx_lwe.specs.SwitchKeys.{switch_size};
ghost use Rattle.rx_boot.specs.BootKeys.{boot_size};

use rx_params::Params;

/// How many words the bootstrapping rows of an accepted set have, at most 2^24.
pub fn boot_words(params: &Params) -> usize
    requires { Accepts params.now }
    ensures value { result ≡ boot_size params.now }
    ensures few { result ≤ 2 ^ 24 }
{
    let size = (params.glwe_dim as usize + 1) * params.poly_size as usize;
    params.lwe_dim as usize * ((params.glwe_dim as usize + 1) * params.pbs_level as usize * size)
}

/// How many words the switch rows of an accepted set have, at most 2^24.
#[tactic(auto, unfolding(rx_params::specs::Derived::large_dim))]
pub fn switch_words(params: &Params) -> usize
    requires { Accepts params.now }
    ensures value { result ≡ switch_size params.now }
    ensures few { result ≤ 2 ^ 24 }
{
    let rows = params.glwe_dim as usize * params.poly_size as usize * params.ks_level as usize;
    rows * (params.lwe_dim as usize + 1)
}
