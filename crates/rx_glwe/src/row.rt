//! Fresh rows (CJP, GLWE), drawn as docs/FORMATS.md says, Random streams.
ghost use Rattle.std.specs.Prelude.{◌≡◌, ◌+◌, ◌*◌, ◌<◌, ◌≤◌, ◌+ℤ◌, pos, length, EachIndex, slice_index};
ghost use Rattle.rx_laws.specs.Sum.{sum_to};
ghost use Rattle.rx_laws.specs.Words.{of_words, AreWords};
ghost use Rattle.rx_ring.specs.Polynomial.{product};
ghost use Rattle.rx_ring.specs.Parts.{of_parts};
ghost use Rattle.rx_torus.specs.Streams.{draw, drawn_by, uniform};
ghost use Rattle.rx_params.specs.Acceptance.{FieldsInRange};
ghost use Rattle.rx_params.specs.Derived.{large_dim};
ghost use Rattle.rx_glwe.specs.Sizes.{glwe_size};
ghost use Rattle.rx_glwe.specs.Rows.{glwe_row};

use rx_lwe::SecretKey;
use rx_params::Params;
use rx_poly::binary_product_add;
use rx_torus::Stream;

/// Writes the words that hide a polynomial under the large key into `out`: `glwe_dim` mask polynomials, the
/// next words of `mask`, and then the body, with the next `poly_size` numbers of `noise`, from
/// `-2^glwe_bound` to `2^glwe_bound`. The polynomial to hide has `poly_size` words, `out` has `glwe_dim + 1`
/// polynomials, and `scratch` has at least two, of which nothing is read and nothing is kept. With three it is fast.
#[tactic(auto, unfolding(rx_params::specs::Derived::large_dim))]
pub fn encrypt_row_into(
    p: &Params,
    key: &SecretKey,
    mask: &mut Stream,
    noise: &mut Stream,
    hidden: &[u64],
    out: &mut [u64],
    scratch: &mut [u64],
)
    requires fields { FieldsInRange p.now }
    requires key { length key.now ≡ large_dim p.now }
    requires hidden { length hidden.now ≡ p.now.poly_size }
    requires room { length out.old ≡ glwe_size p.now }
    requires scratch { 2 * p.now.poly_size ≤ length scratch.old }
    ensures row { out.new ≡ glwe_row p.now key.now mask.old noise.old (of_words hidden.now) }
    ensures mask_after { mask.new ≡ drawn_by (large_dim p.now) mask.old }
    ensures noise_after { noise.new ≡ drawn_by p.now.poly_size noise.old }
{
    let count = p.glwe_dim as usize;
    let (masks, body) = out.split_at_mut(count * p.poly_size as usize);
    draw_masks(mask, masks);
    draw_noised(noise, p.glwe_bound, hidden, body);
    add_products(count, key.bits(), masks, body, scratch);
}

/// Writes the draws of a stream, in order.
fn draw_masks(mask: &mut Stream, masks: &mut [u64])
    requires some { 0 < length masks.old }
    ensures drawn { AreWords (length masks.old) (λ i. pos (draw mask.old i)) masks.new }
    ensures after { mask.new ≡ drawn_by (length masks.old) mask.old }
{
    for word in masks.iter_mut() {
        *word = mask.next_torus();
    }
}

/// Writes a polynomial with a noise added to each coefficient.
fn draw_noised(noise: &mut Stream, bound: u32, hidden: &[u64], body: &mut [u64])
    requires bound { bound ≤ 40 }
    requires same { length hidden.now ≡ length body.old }
    requires some { 0 < length body.old }
    ensures noised { AreWords
        (length body.old)
        (λ i. of_words hidden.now i +ℤ uniform bound (draw noise.old i))
        body.new }
    ensures after { noise.new ≡ drawn_by (length body.old) noise.old }
{
    for i in 0..body.len() {
        body[i] = hidden[i].wrapping_add_signed(noise.tuniform(bound));
    }
}

/// Adds the products of the polynomials of the key and those of the masks to a polynomial.
fn add_products(count: usize, bits: &[u64], masks: &[u64], body: &mut [u64], scratch: &mut [u64])
    requires bits { length bits.now ≡ count * length body.old }
    requires binary { EachIndex bits.now (λ i. slice_index bits.now i < 2) }
    requires masks { length masks.now ≡ count * length body.old }
    requires room { 2 * length body.old ≤ length scratch.old }
    ensures { AreWords
        (length body.old)
        (λ i. of_words body.old i
        +ℤ sum_to count (λ j. product
        (length body.old)
        (of_parts (length body.old) bits.now j)
        (of_parts (length body.old) masks.now j)
        i))
        body.new }
{
    let n = body.len();
    for j in 0..count {
        binary_product_add(
            body,
            &bits[j * n..(j + 1) * n],
            &masks[j * n..(j + 1) * n],
            scratch,
        );
    }
}
