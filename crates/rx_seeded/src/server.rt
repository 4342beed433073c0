//! The seeded server file: a set, a mask seed and the bodies of a server key.
ghost use Rattle.std.specs.Prelude.{◌≡◌, ◌++◌, ◌+◌, ◌*◌, ◌<◌, ◌^◌, codes, length, IfOk, IfErr, Ok, List, ℕ};
ghost use Rattle.std.specs.Option.{option_or};
ghost use Rattle.rx_params.specs.Acceptance.{Accepts};
ghost use Rattle.rx_torus.specs.declared.kind.StreamKind.TheVariants.{BootMask, SwitchMask};
ghost use Rattle.rx_params.specs.Derived.{large_dim};
ghost use Rattle.rx_lwe.specs.Seeded.{switch_row_count};
ghost use Rattle.rx_boot.specs.BootKeys.{boot_row_count};
ghost use Rattle.rx_boot.specs.ServerKeys.{ServerWords};
ghost use Rattle.rx_boot.specs.Seeded.{body_size, key_of_bodies, key_bodies, redrawn_key};
ghost use Rattle.rx_codec.specs.Reading.{Gives, GivesExactly, IsFaultOf};
ghost use Rattle.rx_codec.specs.ParamsFields.{params_bytes};
ghost use Rattle.rx_codec.specs.WordFields.{words_in};
ghost use Rattle.rx_codec.specs.ServerFile.{IsServer};
ghost use Rattle.rx_seeded.specs.Masks.{Seeds, first_unlike as first_unlike_of};
ghost use Rattle.rx_seeded.specs.SeededServer.{SeededServer, seeded_server_bytes, seeded_server_from, wrong_server_mask};
ghost use Rattle.rx_seeded.specs.Versions.{ServerRead, any_server_from};

use crate::SeedFault;
use crate::fits::{key_fits, seed_fits};
use crate::kind::begins;
use crate::masks::first_unlike;
use crate::seeded_rows::{Rows, row_words};
use rx_boot::{BootKey, ServerKey, body_words};
use rx_codec::{CodecFault, Reader, read_params, write_params, write_words};
use rx_lwe::SwitchKey;
use rx_params::Params;
use rx_torus::{StreamKind, Words};
use std::alloc::{AllocError, Global};

/// The bytes of a seeded file before its bodies: the magic, the fields of the set and the mask seed.
const SEEDED_HEAD_SIZE: usize = 76;

/// The bytes of a version 1 file before its words: the magic and the fields of the set.
const HEAD_SIZE: u64 = 44;

/// The server key that a file of either version spells, or its first fault. No memory is taken before the file was read
/// to its end.
pub fn decode_server(alloc: Global, bytes: &[u8]) -> Result<ServerKey, CodecFault>
    ensures exact { Gives (λ k. k) result (any_server_from bytes.now) }
    ensures fault { IfErr result (IsFaultOf (any_server_from bytes.now)) }
    ensures found { IfOk result (λ k. ServerRead bytes.now k) }
    ensures only { (k : ServerWords) → ServerRead bytes.now k → Gives (λ k. k) result (Ok k) }
{
    read_server(alloc, bytes)
}

/// The same, read by its version.
fn read_server(alloc: Global, bytes: &[u8]) -> Result<ServerKey, CodecFault>
    ensures exact { Gives (λ k. k) result (any_server_from bytes.now) }
    ensures fault { IfErr result (IsFaultOf (any_server_from bytes.now)) }
{
    if begins(bytes, b"RXS2") {
        read_seeded(alloc, bytes)
    } else {
        rx_codec::decode_server(alloc, bytes)
    }
}

/// The server key that a seeded file spells, or its first fault. No memory is taken before the file was read to its end.
pub fn decode_seeded_server(alloc: Global, bytes: &[u8]) -> Result<ServerKey, CodecFault>
    ensures exact { Gives (λ k. k) result (seeded_server_from bytes.now) }
    ensures fault { IfErr result (IsFaultOf (seeded_server_from bytes.now)) }
    ensures found { IfOk result (λ k. (mask_seed : List ℕ) × SeededServer bytes.now mask_seed k) }
{
    read_seeded(alloc, bytes)
}

fn read_seeded(alloc: Global, bytes: &[u8]) -> Result<ServerKey, CodecFault>
    ensures exact { Gives (λ k. k) result (seeded_server_from bytes.now) }
    ensures fault { IfErr result (IsFaultOf (seeded_server_from bytes.now)) }
{
    let (params, mask_seed, bodies) = read_fields(bytes)?;
    Ok(key_in(alloc, &params, &mask_seed, bodies)?)
}

/// The set of a file, its mask seed and the bytes of its bodies, or its first fault. The file is read to its end, and no
/// memory is taken.
#[tactic(auto, unfolding(crate::specs::SeededServer::seeded_server_from, rx_codec::specs::WordFields::words_at))]
fn read_fields(bytes: &[u8]) -> Result<(Params, [u8; 32], &[u8]), CodecFault>
    ensures value { GivesExactly (λ f. key_of_bodies f.0 f.1 (words_in (body_size f.0) f.2.now))
        result (seeded_server_from bytes.now) }
    ensures accepted { IfOk result (λ f. Accepts f.0) }
    ensures size { IfOk result (λ f. length f.2.now ≡ 8 * body_size f.0) }
{
    let mut reader = Reader::after_magic(bytes, b"RXS2")?;
    let params = read_params(&mut reader)?;
    let mut mask_seed = [0; 32];
    mask_seed.copy_from_slice(reader.bytes(32)?);
    let bodies = reader.bytes(8 * body_words(&params))?;
    reader.end()?;
    Ok((params, mask_seed, bodies))
}

/// The key of a set and a mask seed whose bodies these bytes are.
fn key_in(
    alloc: Global,
    p: &Params,
    mask_seed: &[u8; 32],
    bytes: &[u8],
) -> Result<ServerKey, AllocError>
    requires accepted { Accepts p.now }
    requires size { length bytes.now ≡ 8 * body_size p.now }
    ensures { IfOk result (λ k.
        k ≡ key_of_bodies p.now mask_seed.now (words_in (body_size p.now) bytes.now)) }
{
    let rows = boot_rows(p);
    let (front, back) = bytes.split_at(8 * (rows.count as usize * rows.wide));
    let boot = row_words(alloc, rows, mask_seed, front)?;
    let switch = row_words(alloc, switch_rows(p), mask_seed, back)?;
    Ok(ServerKey {
        params: *p,
        boot: BootKey::from_words(Words::from_vec(boot)),
        switch: SwitchKey::of_words(p, Words::from_vec(switch)),
    })
}

/// The bootstrapping rows of a set.
fn boot_rows(p: &Params) -> Rows
    requires { Accepts p.now }
    ensures rows { result ≡ record {
      kind = BootMask;
      masks = large_dim p.now;
      wide = p.now.poly_size;
      count = boot_row_count p.now;
    } }
    ensures some { 0 < result.masks }
    ensures narrow { result.masks + result.wide < 2 ^ 24 }
{
    let masks = p.large_dim() as usize;
    Rows {
        kind: StreamKind::BootMask,
        masks,
        wide: p.poly_size as usize,
        count: p.lwe_dim * ((p.glwe_dim + 1) * p.pbs_level),
    }
}

/// The switch rows of a set.
fn switch_rows(p: &Params) -> Rows
    requires { Accepts p.now }
    ensures { result ≡ record {
      kind = SwitchMask;
      masks = p.now.lwe_dim;
      wide = 1;
      count = switch_row_count p.now;
    } }
{
    Rows {
        kind: StreamKind::SwitchMask,
        masks: p.lwe_dim as usize,
        wide: 1,
        count: p.large_dim() * p.ks_level,
    }
}

/// The one seeded file of a mask seed and a server key: 76 bytes, and eight more for each word of the bodies. It is
/// refused where a mask word is not the one that the seed draws.
pub fn encode_seeded_server(
    alloc: Global,
    key: &ServerKey,
    mask_seed: &[u8; 32],
) -> Result<Vec<u8>, SeedFault>
    ensures { Seeds (wrong_server_mask mask_seed.now key.now)
        (λ bytes. SeededServer bytes.items mask_seed.now key.now) result }
{
    key_fits(key);
    seed_fits(mask_seed);
    let bodies = key.bodies(alloc)?;
    check_masks(alloc, key, mask_seed, &bodies)?;
    Ok(spell(alloc, key, mask_seed, &bodies)?)
}

/// The same of a key whose masks are known to be those that the seed draws, as of one that was made with it.
pub fn encode_made_server(
    alloc: Global,
    key: &ServerKey,
    mask_seed: &[u8; 32],
) -> Result<Vec<u8>, AllocError>
    requires drawn { redrawn_key mask_seed.now key.now ≡ key.now }
    ensures file { IfOk result (λ bytes. SeededServer bytes.items mask_seed.now key.now) }
{
    key_fits(key);
    seed_fits(mask_seed);
    let bodies = key.bodies(alloc)?;
    spell(alloc, key, mask_seed, &bodies)
}

/// Whether the masks of a key, whose bodies these are, are those that the seed draws.
fn check_masks(
    alloc: Global,
    key: &ServerKey,
    mask_seed: &[u8; 32],
    bodies: &[u64],
) -> Result<(), SeedFault>
    requires fits { IsServer key.now }
    requires bodies { bodies.now ≡ key_bodies key.now }
    requires size { length bodies.now ≡ body_size key.now.params }
    ensures { Seeds (wrong_server_mask mask_seed.now key.now)
        (λ _. redrawn_key mask_seed.now key.now ≡ key.now) result }
{
    let drawn = ServerKey::of_bodies(alloc, &key.params, mask_seed, bodies)?;
    match wrong_mask(key, &drawn) {
        Some(at) => Err(SeedFault::Mask { at }),
        None => Ok(()),
    }
}

/// The place of the first word of a key that another one of its set has not, in the version 1 file.
fn wrong_mask(key: &ServerKey, drawn: &ServerKey) -> Option<u64>
    requires { drawn.now.params ≡ key.now.params }
    ensures { result ≡ option_or
        (first_unlike_of 44 key.now.boot drawn.now.boot)
        (first_unlike_of (44 + 8 * length key.now.boot) key.now.switch drawn.now.switch) }
{
    let boot = key.boot.words();
    match first_unlike(HEAD_SIZE, boot, drawn.boot.words()) {
        Some(at) => Some(at),
        None => {
            let at = HEAD_SIZE + 8 * boot.len() as u64;
            first_unlike(at, key.switch.words(), drawn.switch.words())
        }
    }
}

/// The file of a set, a mask seed and these bodies.
fn spell(
    alloc: Global,
    key: &ServerKey,
    mask_seed: &[u8; 32],
    bodies: &[u64],
) -> Result<Vec<u8>, AllocError>
    requires bodies { bodies.now ≡ key_bodies key.now }
    requires size { length bodies.now ≡ body_size key.now.params }
    ensures { IfOk result (λ bytes. bytes.items ≡ seeded_server_bytes mask_seed.now key.now) }
{
    let mut out = seeded_head(alloc, &key.params, mask_seed)?;
    write_words(&mut out, bodies)?;
    Ok(out)
}

/// The head of the seeded file of a set and a mask seed. Memory is taken for the whole file.
pub(crate) fn seeded_head(
    alloc: Global,
    p: &Params,
    mask_seed: &[u8; 32],
) -> Result<Vec<u8>, AllocError>
    requires { Accepts p.now }
    ensures { IfOk result (λ bytes.
        bytes.items ≡ codes "RXS2" ++ params_bytes p.now ++ mask_seed.now) }
{
    let mut out = Vec::with_capacity(alloc, SEEDED_HEAD_SIZE + 8 * body_words(p))?;
    out.extend_from_slice(b"RXS2")?;
    write_params(&mut out, p)?;
    out.extend_from_slice(mask_seed)?;
    Ok(out)
}
