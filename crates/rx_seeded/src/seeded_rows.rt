//! The words of the rows of a seeded server file: masks that the seed draws, and bodies out of the bytes of the file. Each
//! word is written once into the row, and the row goes behind the others.
ghost use Rattle.std.specs.Prelude.{◌≡◌, ◌++◌, ◌+◌, ◌*◌, ◌<◌, ◌^◌, IfOk, OnOk, length};
ghost use Rattle.rx_lwe.specs.Seeded.{drawn_words, seeded_rows};
ghost use Rattle.rx_codec.specs.WordFields.{words_in};
ghost use Rattle.rx_seeded.specs.Masks.{row_masks};

use rx_lwe::draw_words;
use rx_torus::{Stream, StreamKind};
use std::alloc::{AllocError, Global};

/// Rows of one kind: so many of them, each of so many masks, at least one, and of a body of so many words.
#[derive(Clone, Copy, Debug)]
pub(crate) struct Rows {
    /// What their masks are drawn for.
    pub kind: StreamKind,
    /// The masks of a row: the first words of its stream.
    pub masks: usize,
    /// The words of a body.
    pub wide: usize,
    /// How many rows there are.
    pub count: u32,
}

/// The words of all rows, in order, with the bodies that these bytes are. The error is want of memory.
pub(crate) fn row_words(
    alloc: Global,
    rows: Rows,
    mask_seed: &[u8; 32],
    bodies: &[u8],
) -> Result<Vec<u64>, AllocError>
    requires some { 0 < rows.masks }
    requires narrow { rows.masks + rows.wide < 2 ^ 24 }
    requires size { length bodies.now ≡ 8 * (rows.count * rows.wide) }
    ensures { IfOk result (λ words. words.items ≡ seeded_rows (row_masks rows.kind mask_seed.now)
        rows.masks rows.wide rows.count (words_in (rows.count * rows.wide) bodies.now)) }
{
    let width = rows.masks + rows.wide;
    let mut row = vec![in alloc; 0; width]?;
    let mut out = Vec::with_capacity(alloc, rows.count as usize * width)?;
    add_rows(rows, mask_seed, bodies, &mut row, &mut out)?;
    Ok(out)
}

/// Adds all rows. There is room for one.
fn add_rows(
    rows: Rows,
    mask_seed: &[u8; 32],
    bodies: &[u8],
    row: &mut [u64],
    out: &mut Vec<u64>,
) -> Result<(), AllocError>
    requires some { 0 < rows.masks }
    requires room { length row.old ≡ rows.masks + rows.wide }
    requires size { length bodies.now ≡ 8 * (rows.count * rows.wide) }
    ensures { OnOk result (out.new.items ≡ out.old.items
        ++ seeded_rows (row_masks rows.kind mask_seed.now) rows.masks rows.wide rows.count
        (words_in (rows.count * rows.wide) bodies.now)) }
{
    let size = 8 * rows.wide;
    for number in 0..rows.count {
        let start = number as usize * size;
        let mut stream = Stream::new(mask_seed, rows.kind.stream_number(number));
        let body = &bodies[start..start + size];
        write_row(rows, &mut stream, body, row);
        out.extend_from_slice(row)?;
    }
    Ok(())
}

/// Writes a row: the next words of a stream as its masks, and the words that the bytes are.
fn write_row(rows: Rows, stream: &mut Stream, body: &[u8], row: &mut [u64])
    requires some { 0 < rows.masks }
    requires room { length row.old ≡ rows.masks + rows.wide }
    requires body { length body.now ≡ 8 * rows.wide }
    ensures { row.new ≡ drawn_words rows.masks stream.old ++ words_in rows.wide body.now }
{
    let (front, back) = row.split_at_mut(rows.masks);
    draw_words(stream, front);
    words_into(body, back);
}

/// Writes the words that the bytes are, eight bytes each, the least first.
fn words_into(bytes: &[u8], out: &mut [u64])
    requires { length bytes.now ≡ 8 * length out.old }
    ensures { out.new ≡ words_in (length out.old) bytes.now }
{
    for i in 0..out.len() {
        let word = &bytes[8 * i..8 * i + 8];
        out[i] = u64::from_le_bytes([
            word[0], word[1], word[2], word[3], word[4], word[5], word[6], word[7],
        ]);
    }
}
