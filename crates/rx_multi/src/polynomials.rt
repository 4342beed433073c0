//! The rows that a pair multiplies by: 1, and for each product of the pair's bits its rows turned, less
//! themselves.
ghost use Rattle.std.specs.Prelude.{◌≡◌, ℕ, ◌+ℤ◌, ◌*ℤ◌, pos, ◌+◌, ◌*◌, ◌/◌, ◌%◌, ◌^◌, ◌<◌, ◌≤◌, length};
ghost use Rattle.rx_laws.specs.Sum.{sum_to};
ghost use Rattle.rx_laws.specs.Words.{of_words, AreWords};
ghost use Rattle.rx_ring.specs.Parts.{of_parts, AreParts};
ghost use Rattle.rx_ring.specs.Polynomial.{unit_polynomial};
ghost use Rattle.rx_ring.specs.Pairs.{one_rows, pair_amount};
ghost use Rattle.rx_ring.specs.Rotation.{turned_away};
ghost use Rattle.rx_params.specs.Acceptance.{FieldsInRange};
ghost use Rattle.rx_glwe.specs.Sizes.{ggsw_size};
ghost use Rattle.rx_multi.specs.Turns.{row_parts, chosen_part};

use crate::turns::Amounts;
use rx_boot::hide_number;
use rx_params::Params;
use rx_poly::{add_assign, turn_away_into};

/// Writes the rows of a pair, from the rows of its three products. There is room for a polynomial.
pub(crate) fn write_rows(
    p: &Params,
    products: &[u64],
    amounts: &Amounts,
    room: &mut [u64],
    rows: &mut [u64],
)
    requires fields { FieldsInRange p.now }
    requires products_size { length products.now ≡ 3 * ggsw_size p.now }
    requires first_in { amounts.now.first < 2 * p.now.poly_size }
    requires second_in { amounts.now.second < 2 * p.now.poly_size }
    requires room_size { length room.old ≡ p.now.poly_size }
    requires size { length rows.old ≡ ggsw_size p.now }
    ensures { AreParts p.now.poly_size (row_parts p.now)
        (chosen_part p.now products.now amounts.now.first amounts.now.second) rows.new }
{
    let n = p.poly_size as usize;
    let count = p.glwe_dim as usize + 1;
    let parts = count * p.pbs_level as usize * count;
    for place in 0..parts {
        let polynomial = &mut rows[place * n..(place + 1) * n];
        hide_number(one_at(p, place), polynomial);
        add_products(products, parts, place, amounts, room, polynomial);
    }
}

/// Adds what each of the three products adds to a polynomial, by its place among the `parts` polynomials of a
/// product.
fn add_products(
    products: &[u64],
    parts: usize,
    place: usize,
    amounts: &Amounts,
    room: &mut [u64],
    out: &mut [u64],
)
    requires some { 0 < length out.old }
    requires few { length out.old ≤ 4096 }
    requires place_in { place < parts }
    requires products_size { length products.now ≡ 3 * (parts * length out.old) }
    requires first_in { amounts.now.first < 2 * length out.old }
    requires second_in { amounts.now.second < 2 * length out.old }
    requires room_size { length room.old ≡ length out.old }
    ensures { AreWords (length out.old)
        (λ x. of_words out.old x +ℤ sum_to 3 (λ e. turned_away
        (length out.old)
        (pair_amount (length out.old) e amounts.now.first amounts.now.second)
        (of_parts (length out.old) products.now)
        (e * parts + place)
        x))
        out.new }
{
    let n = out.len();
    for e in 0..3usize {
        let part = e * parts + place;
        let amount = amounts.of_product(n as u32, e);
        turn_away_into(room, &products[part * n..(part + 1) * n], amount);
        add_assign(out, room);
    }
}

/// The first coefficient of a polynomial of the encryption of 1, by its place.
fn one_at(p: &Params, place: usize) -> u64
    requires { FieldsInRange p.now }
    ensures { (x : ℕ) → pos result *ℤ unit_polynomial x
        ≡ one_rows
        p.now.pbs_base_log
        (place / (p.now.glwe_dim + 1) / p.now.pbs_level)
        (place / (p.now.glwe_dim + 1) % p.now.pbs_level)
        (place % (p.now.glwe_dim + 1))
        x }
{
    let count = p.glwe_dim as usize + 1;
    let level = (place / count % p.pbs_level as usize) as u32;
    if place % count == place / count / p.pbs_level as usize {
        two_to(64 - p.pbs_base_log * (level + 1))
    } else {
        0
    }
}

fn two_to(exponent: u32) -> u64
    requires { exponent ≤ 63 }
    ensures { result ≡ 2 ^ exponent }
{
    1 << exponent
}
