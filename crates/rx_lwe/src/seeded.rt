//! Rows whose masks a seed draws, as docs/FORMATS.md says, Random streams: words from their bodies, and the
//! bodies of words.
ghost use Rattle.std.specs.Prelude.{◌≡◌, ◌+◌, ◌*◌, ◌<◌, ◌++◌, ◌∷◌, [], IfOk, length};
ghost use Rattle.rx_torus.specs.Streams.{drawn_by};
ghost use Rattle.rx_params.specs.Acceptance.{FieldsInRange};
ghost use Rattle.rx_lwe.specs.SwitchKeys.{switch_key, switch_size};
ghost use Rattle.rx_lwe.specs.Seeded.{drawn_words, seeded_switch, switch_row_count, row_bodies as bodies_of_rows};

use crate::SwitchKey;
use rx_params::Params;
use rx_torus::{Stream, StreamKind, Words};
use std::alloc::{AllocError, Global};

impl SwitchKey {
    /// The switch key of a set whose masks the seed draws, with these bodies, one for each row: a row for each
    /// bit of the large key and each of the `ks_level` levels. The error is want of memory.
    pub fn of_bodies(
        alloc: Global,
        p: &Params,
        mask_seed: &[u8; 32],
        bodies: &[u64],
    ) -> Result<SwitchKey, AllocError>
        requires fields { FieldsInRange p.now }
        requires size { length bodies.now ≡ switch_row_count p.now }
        ensures { IfOk result (λ key.
            key ≡ switch_key p.now (seeded_switch p.now mask_seed.now bodies.now)) }
    {
        let words = seeded_words(alloc, p, mask_seed, bodies)?;
        Ok(SwitchKey::of_words(p, Words::from_vec(words)))
    }
}

/// The words of all rows.
fn seeded_words(
    alloc: Global,
    p: &Params,
    mask_seed: &[u8; 32],
    bodies: &[u64],
) -> Result<Vec<u64>, AllocError>
    requires fields { FieldsInRange p.now }
    requires size { length bodies.now ≡ switch_row_count p.now }
    ensures { IfOk result (λ words. words.items ≡ seeded_switch p.now mask_seed.now bodies.now) }
{
    let rows = (p.glwe_dim * p.poly_size * p.ks_level) as usize;
    let mut words = vec![in alloc; 0; rows * (p.lwe_dim as usize + 1)]?;
    write_rows(p, mask_seed, bodies, &mut words);
    Ok(words)
}

/// Writes all rows, in order.
fn write_rows(p: &Params, mask_seed: &[u8; 32], bodies: &[u64], out: &mut [u64])
    requires fields { FieldsInRange p.now }
    requires size { length bodies.now ≡ switch_row_count p.now }
    requires room { length out.old ≡ switch_size p.now }
    ensures { out.new ≡ seeded_switch p.now mask_seed.now bodies.now }
{
    let masks = p.lwe_dim as usize;
    let width = masks + 1;
    for row in 0..p.glwe_dim * p.poly_size * p.ks_level {
        let start = row as usize * width;
        let mut mask = Stream::new(mask_seed, StreamKind::SwitchMask.stream_number(row));
        let words = &mut out[start..start + width];
        write_row(&mut mask, masks, bodies[row as usize], words);
    }
}

/// Writes one row: so many masks, and its body.
fn write_row(mask: &mut Stream, masks: usize, body: u64, out: &mut [u64])
    requires some { 0 < masks }
    requires room { length out.old ≡ masks + 1 }
    ensures { out.new ≡ drawn_words masks mask.old ++ body ∷ [] }
{
    draw_words(mask, &mut out[..masks]);
    out[masks] = body;
}

/// Writes the next words of a stream into `out`, which has at least one.
pub fn draw_words(stream: &mut Stream, out: &mut [u64])
    requires some { 0 < length out.old }
    ensures drawn { out.new ≡ drawn_words (length out.old) stream.old }
    ensures after { stream.new ≡ drawn_by (length out.old) stream.old }
{
    for word in out.iter_mut() {
        *word = stream.next_torus();
    }
}

/// The bodies of so many rows, in order. Each row is so many masks and then a body of so many words. The error
/// is want of memory.
pub fn row_bodies(
    alloc: Global,
    masks: usize,
    wide: usize,
    rows: usize,
    words: &[u64],
) -> Result<Vec<u64>, AllocError>
    requires { length words.now ≡ rows * (masks + wide) }
    ensures { IfOk result (λ bodies. bodies.items ≡ bodies_of_rows masks wide rows words.now) }
{
    let mut bodies = Vec::with_capacity(alloc, rows * wide)?;
    for row in 0..rows {
        let start = row * (masks + wide) + masks;
        bodies.extend_from_slice(&words[start..start + wide])?;
    }
    Ok(bodies)
}
