//! The external product (CJP, external product).
ghost use Rattle.std.specs.Prelude.{◌≡◌, ◌≤◌, ◌*◌, ◌+ℤ◌, ◌+◌, length};
ghost use Rattle.rx_laws.specs.Words.{of_numbers};
ghost use Rattle.rx_ring.specs.Polynomial.{product};
ghost use Rattle.rx_ring.specs.Parts.{of_parts, AreParts};
ghost use Rattle.rx_params.specs.Acceptance.{FieldsInRange};
ghost use Rattle.rx_glwe.specs.Sizes.{glwe_size, ggsw_size};
ghost use Rattle.rx_glwe.specs.Levels.{levels_added};
ghost use Rattle.rx_glwe.specs.External.{external_of};

use crate::GlweScratch;
use crate::digits::write_digits;
use rx_params::Params;
use rx_poly::product_add;

/// Adds the external product of an encrypted bit and a ciphertext to `acc`, modulo 2^64. The bit has
/// `(glwe_dim + 1) * pbs_level` rows, those of a polynomial together and the highest level first, and each
/// row, the ciphertext and `acc` have `glwe_dim + 1` polynomials of `poly_size` words. `scratch` is room for
/// the same set.
pub fn external_add(
    scratch: &mut GlweScratch,
    p: &Params,
    ggsw: &[u64],
    input: &[u64],
    acc: &mut [u64],
)
    requires fields { FieldsInRange p.now }
    requires room { scratch.old ≡ p.now }
    requires bit { length ggsw.now ≡ ggsw_size p.now }
    requires input { length input.now ≡ glwe_size p.now }
    requires acc { length acc.old ≡ glwe_size p.now }
    ensures added { AreParts p.now.poly_size (p.now.glwe_dim + 1)
        (λ q i. of_parts p.now.poly_size acc.old q i +ℤ external_of p.now ggsw.now input.now q i)
        acc.new }
    ensures room { scratch.new ≡ p.now }
{
    let digits = scratch.digits.as_mut_slice();
    let product = scratch.product.as_mut_slice();
    let n = p.poly_size as usize;
    let count = p.glwe_dim as usize + 1;
    let rows = p.pbs_level as usize * acc.len();
    for j in 0..count {
        write_digits(p, &input[j * n..(j + 1) * n], digits);
        levels_add(p, digits, &ggsw[j * rows..(j + 1) * rows], acc, product);
    }
}

/// Adds, for each level, its polynomial of digits times each polynomial of its row.
fn levels_add(p: &Params, digits: &[i64], rows: &[u64], acc: &mut [u64], scratch: &mut [u64])
    requires fields { FieldsInRange p.now }
    requires digits { length digits.now ≡ p.now.pbs_level * p.now.poly_size }
    requires rows { length rows.now ≡ p.now.pbs_level * glwe_size p.now }
    requires acc { length acc.old ≡ glwe_size p.now }
    requires room { 2 * p.now.poly_size ≤ length scratch.old }
    ensures { AreParts p.now.poly_size (p.now.glwe_dim + 1)
        (levels_added p.now digits.now rows.now acc.old p.now.pbs_level) acc.new }
{
    let n = p.poly_size as usize;
    let size = acc.len();
    for t in 0..p.pbs_level as usize {
        row_add(
            p.glwe_dim as usize + 1,
            &digits[t * n..(t + 1) * n],
            &rows[t * size..(t + 1) * size],
            acc,
            scratch,
        );
    }
}

/// Adds a polynomial of small numbers times each polynomial of a row to that of `acc`.
fn row_add(count: usize, small: &[i64], row: &[u64], acc: &mut [u64], scratch: &mut [u64])
    requires room { 2 * length small.now ≤ length scratch.old }
    requires row { length row.now ≡ length acc.old }
    requires parts { length acc.old ≡ count * length small.now }
    ensures { AreParts
        (length small.now)
        count
        (λ q i. of_parts (length small.now) acc.old q i
        +ℤ product (length small.now) (of_numbers small.now)
        (of_parts (length small.now) row.now q) i)
        acc.new }
{
    let n = small.len();
    for q in 0..count {
        product_add(
            &mut acc[q * n..(q + 1) * n],
            small,
            &row[q * n..(q + 1) * n],
            scratch,
        );
    }
}
