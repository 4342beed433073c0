//! The sizes, in words of 64 bits, that a set gives its blocks and its server key.
ghost use Rattle.std.specs.Prelude.{◌≡◌, ◌+◌, ◌^◌, ◌≤◌};
ghost use Rattle.rx_params.specs.Acceptance.{Accepts};
ghost use Rattle.rx_params.specs.Derived.{large_dim, key_words};

use rx_boot::{boot_words, switch_words};
use rx_params::Params;

/// The words of a block: its mask and its body.
#[tactic(auto, unfolding(rx_params::specs::Derived::large_dim))]
pub fn block_words(params: &Params) -> usize
    requires { Accepts params.now }
    ensures value { result ≡ large_dim params.now + 1 }
    ensures few { result ≤ 16385 }
{
    params.large_dim() as usize + 1
}

/// The words of a server key.
pub fn key_words(params: &Params) -> usize
    requires { Accepts params.now }
    ensures value { result ≡ key_words params.now }
    ensures few { result ≤ 2 ^ 24 }
{
    boot_words(params) + switch_words(params)
}
