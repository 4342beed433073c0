//! Server keys (CJP, bootstrapping key).
ghost use Rattle.std.specs.Prelude.{◌≡◌, ◌+◌, IfOk, length, take, drop};
ghost use Rattle.rx_params.specs.Acceptance.{Accepts};
ghost use Rattle.rx_lwe.specs.Secret.{small_key, large_key};
ghost use Rattle.rx_lwe.specs.SwitchKeys.{switch_key, switch_size};
ghost use Rattle.rx_boot.specs.BootKeys.{boot_size};
ghost use Rattle.rx_boot.specs.ServerKeys.{IsServerKey, server_key};
ghost use Rattle.rx_boot.specs.Laws.{ServerKeyLaws};

use crate::BootKey;
use crate::word_counts::boot_words;
use rx_lwe::{SecretKey, SwitchKey};
use rx_params::Params;
use rx_torus::Words;
use std::alloc::{AllocError, Global};
use std::marker::Model;

/// What a server evaluates with: an accepted set, a bootstrapping key and a switch key of that set. Contracts
/// see the set and the two lists of words.
#[derive(Drop)]
pub struct ServerKey {
    /// The set, which is accepted.
    pub params: Params,
    /// The bootstrapping rows.
    pub boot: BootKey,
    /// The switch rows.
    pub switch: SwitchKey,
}

impl Model for ServerKey {
    ghost use Rattle.std.specs.Prelude.{◌≡◌, length};
    ghost use Rattle.rx_params.specs.Acceptance.{Accepts};
    ghost use Rattle.rx_lwe.specs.SwitchKeys.{switch_key};
    ghost use Rattle.rx_boot.specs.BootKeys.{boot_size};
    ghost use Rattle.rx_boot.specs.ServerKeys.{ServerWords};

    ghost Value = { ServerWords };

    ghost view = { λ k. record { params = k.params; boot = k.boot; switch = k.switch.words } };

    ghost invariant = { λ k. Accepts k.params × (length k.boot ≡ boot_size k.params)
        × (k.switch ≡ switch_key k.params k.switch.words) };
}

impl ServerKey {
    /// The server key of a client: its secret bits and noises come from the client's seed, its masks from
    /// the mask seed. The phase of each row is within the set's bound of what it hides. The error is want of
    /// memory.
    pub fn make(
        alloc: Global,
        p: &Params,
        client_seed: &[u8; 32],
        mask_seed: &[u8; 32],
    ) -> Result<ServerKey, AllocError>
        requires { Accepts p.now }
        ensures made { IfOk result (λ key. key ≡ server_key p.now client_seed.now mask_seed.now) }
        ensures near { IfOk result (λ key.
            IsServerKey (small_key p.now client_seed.now) (large_key p.now client_seed.now) key) }
    {
        let small = SecretKey::small(alloc, p, client_seed)?;
        let large = SecretKey::large(alloc, p, client_seed)?;
        Ok(ServerKey {
            params: *p,
            boot: BootKey::make(alloc, p, &small, &large, mask_seed, client_seed)?,
            switch: SwitchKey::make(alloc, p, &large, &small, mask_seed, client_seed)?,
        })
    }

    /// The server key of a set with a copy of these words: first those of the bootstrapping rows, as many as
    /// `boot_words` says, then those of the switch rows, as many as `switch_words`. The error is want of
    /// memory.
    pub fn of_words(alloc: Global, p: &Params, words: &[u64]) -> Result<ServerKey, AllocError>
        requires accepted { Accepts p.now }
        requires size { length words.now ≡ boot_size p.now + switch_size p.now }
        ensures { IfOk result (λ key. key ≡ record {
          params = p.now;
          boot = take (boot_size p.now) words.now;
          switch = drop (boot_size p.now) words.now;
        }) }
    {
        let (boot, switch) = words.split_at(boot_words(p));
        let boot = Words::from_vec(boot.to_vec(alloc)?);
        let switch = Words::from_vec(switch.to_vec(alloc)?);
        Ok(ServerKey {
            params: *p,
            boot: BootKey::from_words(boot),
            switch: SwitchKey::of_words(p, switch),
        })
    }
}

/// The server key of a client's seed is one of the secret that the seed makes, and has the sizes of its
/// set.
pub fn server_key_laws()
    ensures { ServerKeyLaws }
{}
