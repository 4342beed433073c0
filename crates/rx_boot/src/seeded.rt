//! Server keys whose masks a seed draws, as docs/FORMATS.md says, Random streams: keys of their bodies, and the
//! bodies of keys.
ghost use Rattle.std.specs.Prelude.{◌≡◌, ◌*◌, ◌≤◌, ◌^◌, IfOk, length};
ghost use Rattle.rx_params.specs.Acceptance.{Accepts, FieldsInRange};
ghost use Rattle.rx_lwe.specs.Seeded.{switch_row_count};
ghost use Rattle.rx_glwe.specs.Sizes.{glwe_size};
ghost use Rattle.rx_boot.specs.BootKeys.{boot_row_count};
ghost use Rattle.rx_boot.specs.Seeded.{body_size, boot_body_size, key_bodies, key_of_bodies, seeded_boot};
ghost use Rattle.rx_boot.specs.SeededLaws.{SeededKeyLaws};

use crate::{BootKey, ServerKey};
use rx_glwe::row_of_body;
use rx_lwe::{SwitchKey, row_bodies};
use rx_params::Params;
use rx_torus::{Stream, StreamKind, Words};
use std::alloc::{AllocError, Global};

impl ServerKey {
    /// The server key of a set whose masks the seed draws, with these bodies: first a polynomial for each
    /// bootstrapping row, then a word for each switch row, as many as `body_words` says. The error is want of
    /// memory.
    pub fn of_bodies(
        alloc: Global,
        p: &Params,
        mask_seed: &[u8; 32],
        bodies: &[u64],
    ) -> Result<ServerKey, AllocError>
        requires accepted { Accepts p.now }
        requires size { length bodies.now ≡ body_size p.now }
        ensures { IfOk result (λ key. key ≡ key_of_bodies p.now mask_seed.now bodies.now) }
    {
        let (boot, switch) = bodies.split_at(boot_body_words(p));
        let words = Words::from_vec(seeded_words(alloc, p, mask_seed, boot)?);
        Ok(ServerKey {
            params: *p,
            boot: BootKey::from_words(words),
            switch: SwitchKey::of_bodies(alloc, p, mask_seed, switch)?,
        })
    }

    /// The bodies of all rows: the polynomials of the bootstrapping rows, and then the words of the switch
    /// rows. The error is want of memory.
    pub fn bodies(&self, alloc: Global) -> Result<Vec<u64>, AllocError>
        ensures bodies { IfOk result (λ bodies. bodies.items ≡ key_bodies self.now) }
        ensures size { IfOk result (λ bodies. length bodies.items ≡ body_size self.now.params) }
    {
        let p = &self.params;
        let wide = p.poly_size as usize;
        let masks = p.glwe_dim as usize * wide;
        let boot = self.boot.words();
        let mut bodies = row_bodies(alloc, masks, wide, boot_rows(p), boot)?;
        let switch = self.switch.words();
        let last = row_bodies(alloc, p.lwe_dim as usize, 1, switch_rows(p), switch)?;
        bodies.extend_from_slice(&last)?;
        Ok(bodies)
    }
}

/// How many words the bodies of a server key of an accepted set have, at most 2^24.
pub fn body_words(p: &Params) -> usize
    requires { Accepts p.now }
    ensures value { result ≡ body_size p.now }
    ensures few { result ≤ 2 ^ 24 }
{
    boot_body_words(p) + switch_rows(p)
}

/// How many words those of the bootstrapping rows have.
fn boot_body_words(p: &Params) -> usize
    requires { Accepts p.now }
    ensures value { result ≡ boot_body_size p.now }
    ensures few { result ≤ 2 ^ 24 }
{
    boot_rows(p) * p.poly_size as usize
}

/// How many bootstrapping rows there are.
fn boot_rows(p: &Params) -> usize
    requires { FieldsInRange p.now }
    ensures value { result ≡ boot_row_count p.now }
    ensures few { result ≤ 2 ^ 24 }
{
    p.lwe_dim as usize * ((p.glwe_dim as usize + 1) * p.pbs_level as usize)
}

/// How many switch rows there are.
#[tactic(auto, unfolding(rx_params::specs::Derived::large_dim))]
fn switch_rows(p: &Params) -> usize
    requires { FieldsInRange p.now }
    ensures value { result ≡ switch_row_count p.now }
    ensures few { result ≤ 2 ^ 24 }
{
    p.glwe_dim as usize * p.poly_size as usize * p.ks_level as usize
}

/// The words of all bootstrapping rows with these bodies.
fn seeded_words(
    alloc: Global,
    p: &Params,
    mask_seed: &[u8; 32],
    bodies: &[u64],
) -> Result<Vec<u64>, AllocError>
    requires fields { FieldsInRange p.now }
    requires size { length bodies.now ≡ boot_body_size p.now }
    ensures { IfOk result (λ words. words.items ≡ seeded_boot p.now mask_seed.now bodies.now) }
{
    let width = (p.glwe_dim as usize + 1) * p.poly_size as usize;
    let mut words = vec![in alloc; 0; boot_rows(p) * width]?;
    write_rows(p, mask_seed, bodies, &mut words);
    Ok(words)
}

/// Writes all bootstrapping rows, in order.
fn write_rows(p: &Params, mask_seed: &[u8; 32], bodies: &[u64], out: &mut [u64])
    requires fields { FieldsInRange p.now }
    requires size { length bodies.now ≡ boot_body_size p.now }
    requires room { length out.old ≡ boot_row_count p.now * glwe_size p.now }
    ensures { out.new ≡ seeded_boot p.now mask_seed.now bodies.now }
{
    let wide = p.poly_size as usize;
    let width = (p.glwe_dim as usize + 1) * wide;
    for row in 0..p.lwe_dim * ((p.glwe_dim + 1) * p.pbs_level) {
        let place = row as usize;
        let mut mask = Stream::new(mask_seed, StreamKind::BootMask.stream_number(row));
        let body = &bodies[place * wide..place * wide + wide];
        let words = &mut out[place * width..place * width + width];
        row_of_body(p, &mut mask, body, words);
    }
}

/// A key of bodies has these bodies, and the masks of a made key are those that its mask seed draws.
pub fn seeded_key_laws()
    ensures { SeededKeyLaws }
{}
