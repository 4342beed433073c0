//! The rows of the bits that a key encrypts, in the order of their numbers (docs/FORMATS.md, Random streams).
ghost use Rattle.std.specs.Prelude.{◌≡◌, ◌<◌, ◌≤◌, ◌*◌, IfOk, length};
ghost use Rattle.rx_params.specs.Acceptance.{FieldsInRange};
ghost use Rattle.rx_params.specs.Derived.{large_dim, encrypted_count};
ghost use Rattle.rx_glwe.specs.Sizes.{glwe_size};
ghost use Rattle.rx_boot.specs.BootKeys.{key_rows, key_row_count, numbered_row, mask_kind, noise_kind, rows_size};

use crate::hidden::hide;
use rx_glwe::encrypt_row_into;
use rx_lwe::SecretKey;
use rx_params::{Params, Rotation};
use rx_torus::{Stream, StreamKind};
use std::alloc::{AllocError, Global};

/// The words of the rows of a rotation, `glwe_dim + 1` polynomials each: for each bit `(glwe_dim + 1) *
/// pbs_level` rows that encrypt it under the large key. There are as many bits as `encrypted_count` of the
/// rotation says. The masks come from one seed and the noises from another. The error is want of memory.
pub fn encrypt_bits(
    alloc: Global,
    p: &Params,
    rotation: Rotation,
    bits: &[u64],
    large: &SecretKey,
    mask_seed: &[u8; 32],
    noise_seed: &[u8; 32],
) -> Result<Vec<u64>, AllocError>
    requires fields { FieldsInRange p.now }
    requires bits_size { length bits.now ≡ encrypted_count rotation p.now }
    requires large_size { length large.now ≡ large_dim p.now }
    ensures { IfOk result (λ words. words.items
        ≡ key_rows rotation p.now bits.now large.now mask_seed.now noise_seed.now) }
{
    let n = p.poly_size as usize;
    let count = p.glwe_dim as usize + 1;
    let rows = bits.len() * (count * p.pbs_level as usize);
    let mut room = vec![in alloc; 0; 4 * n]?;
    let mut words = vec![in alloc; 0; rows * (count * n)]?;
    let source = RowSource {
        p,
        rotation,
        bits,
        large,
        mask_seed,
        noise_seed,
    };
    write_rows(&source, &mut room, &mut words);
    Ok(words)
}

/// Of what the rows of a rotation are made: the bits that they encrypt, the large key under which they do,
/// and the seeds of the masks and of the noises.
#[derive(Drop)]
pub(crate) struct RowSource<'a> {
    pub p: &'a Params,
    pub rotation: Rotation,
    pub bits: &'a [u64],
    pub large: &'a SecretKey,
    pub mask_seed: &'a [u8; 32],
    pub noise_seed: &'a [u8; 32],
}

/// Writes all rows, in order. There is room for four polynomials.
fn write_rows(source: &RowSource<'_>, room: &mut [u64], out: &mut [u64])
    requires fields { FieldsInRange source.now.p.now }
    requires bits_size { length source.now.bits.now ≡ encrypted_count source.now.rotation source.now.p.now }
    requires large_size { length source.now.large.now ≡ large_dim source.now.p.now }
    requires room { length room.old ≡ 4 * source.now.p.now.poly_size }
    requires size { length out.old ≡ key_row_count source.now.rotation source.now.p.now * glwe_size source.now.p.now }
    ensures { out.new ≡ key_rows source.now.rotation source.now.p.now source.now.bits.now
        source.now.large.now source.now.mask_seed.now source.now.noise_seed.now }
{
    let p = source.p;
    let width = (p.glwe_dim as usize + 1) * p.poly_size as usize;
    for row in 0..source.rotation.encrypted_count(p) * ((p.glwe_dim + 1) * p.pbs_level) {
        let place = row as usize * width;
        let words = &mut out[place..place + width];
        write_row(source, row, room, words);
    }
}

/// Writes the row of a number. There is room for four polynomials: what the row hides, and what encrypts
/// it.
pub(crate) fn write_row(source: &RowSource<'_>, row: u32, room: &mut [u64], out: &mut [u64])
    requires fields { FieldsInRange source.now.p.now }
    requires bits_size { length source.now.bits.now ≡ encrypted_count source.now.rotation source.now.p.now }
    requires large_size { length source.now.large.now ≡ large_dim source.now.p.now }
    requires place { row < key_row_count source.now.rotation source.now.p.now }
    requires room { length room.old ≡ 4 * source.now.p.now.poly_size }
    requires size { length out.old ≡ glwe_size source.now.p.now }
    ensures { out.new ≡ numbered_row source.now.rotation source.now.p.now source.now.bits.now
        source.now.large.now source.now.mask_seed.now source.now.noise_seed.now row }
{
    let p = source.p;
    let rotation = source.rotation;
    let (hidden, scratch) = room.split_at_mut(p.poly_size as usize);
    hide(p, rotation, source.bits, source.large, row, hidden);
    let mut mask = Stream::new(source.mask_seed, mask_kind(rotation).stream_number(row));
    let mut noise = Stream::new(source.noise_seed, noise_kind(rotation).stream_number(row));
    encrypt_row_into(p, source.large, &mut mask, &mut noise, hidden, out, scratch);
}

fn mask_kind(rotation: Rotation) -> StreamKind
    ensures { result ≡ mask_kind rotation }
{
    match rotation {
        Rotation::Bits => StreamKind::BootMask,
        Rotation::Pairs => StreamKind::PairMask,
    }
}

fn noise_kind(rotation: Rotation) -> StreamKind
    ensures { result ≡ noise_kind rotation }
{
    match rotation {
        Rotation::Bits => StreamKind::BootNoise,
        Rotation::Pairs => StreamKind::PairNoise,
    }
}
