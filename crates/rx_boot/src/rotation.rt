//! The blind rotation (CJP, blind rotation).
ghost use Rattle.std.specs.Prelude.{◌≡◌, ℕ, ◌+ℤ◌, ◌+◌, ◌-◌, ◌*◌, ◌<◌, ◌≤◌, length, get_or};
ghost use Rattle.rx_laws.specs.Decode.{plaintexts};
ghost use Rattle.rx_laws.specs.Torus.{word};
ghost use Rattle.rx_ring.specs.Polynomial.{turns};
ghost use Rattle.rx_ring.specs.Parts.{of_parts, AreParts};
ghost use Rattle.rx_ring.specs.Switch.{mark};
ghost use Rattle.rx_ring.specs.Rotation.{turned_away};
ghost use Rattle.rx_params.specs.Acceptance.{FieldsInRange, Accepts};
ghost use Rattle.rx_glwe.specs.Sizes.{glwe_size, ggsw_size};
ghost use Rattle.rx_glwe.specs.External.{external_of};
ghost use Rattle.rx_boot.specs.BootKeys.{boot_size};
ghost use Rattle.rx_boot.specs.Bootstrap.{half_mark, table_accumulator, rotation_of};

use crate::clear::clear;
use crate::marks::mark_of;
use rx_glwe::{GlweScratch, external_add};
use rx_params::Params;
use rx_poly::{accumulator, rotate_into, turn_away_into};

/// The blind rotation of the accumulator of a table by a switched ciphertext, written into `turning`. `away`
/// is room.
pub(crate) fn rotate(
    product: &mut GlweScratch,
    p: &Params,
    rows: &[u64],
    table: &[u8],
    switched: &[u64],
    away: &mut [u64],
    turning: &mut [u64],
)
    requires accepted { Accepts p.now }
    requires product_room { product.old ≡ p.now }
    requires rows_size { length rows.now ≡ boot_size p.now }
    requires table_size { length table.now ≡ plaintexts p.now.message_bits }
    requires switched_size { length switched.now ≡ p.now.lwe_dim + 1 }
    requires away_size { length away.old ≡ glwe_size p.now }
    requires turning_size { length turning.old ≡ glwe_size p.now }
    ensures rotated { AreParts
        p.now.poly_size
        (p.now.glwe_dim + 1)
        (rotation_of p.now rows.now table.now switched.now)
        turning.new }
    ensures product_stays { product.new ≡ p.now }
{
    let n = p.poly_size as usize;
    let count = p.glwe_dim as usize + 1;
    let width = count * p.pbs_level as usize * (count * n);
    start_rotation(p, table, switched[p.lwe_dim as usize], away, turning);
    for i in 0..p.lwe_dim as usize {
        let bit = &rows[i * width..(i + 1) * width];
        turn(product, p, bit, mark_of(p, switched[i]), away, turning);
    }
}

/// The ciphertext before the first turn: its masks are 0, and its body is the accumulator of the table,
/// turned back by the mark of the switched body, a word. There is room for a polynomial.
pub fn start_rotation(p: &Params, table: &[u8], body: u64, room: &mut [u64], turning: &mut [u64])
    requires fields { FieldsInRange p.now }
    requires wide { 2 * plaintexts p.now.message_bits ≤ p.now.poly_size }
    requires table_size { length table.now ≡ plaintexts p.now.message_bits }
    requires room_size { length room.old ≡ glwe_size p.now }
    requires turning_size { length turning.old ≡ glwe_size p.now }
    ensures masks { (q i : ℕ) → q < p.now.glwe_dim → i < p.now.poly_size
        → get_or turning.new (q * p.now.poly_size + i) 0 ≡ 0 }
    ensures body { (i : ℕ) → i < p.now.poly_size →
        get_or turning.new (p.now.glwe_dim * p.now.poly_size + i) 0
        ≡ word (turns
        p.now.poly_size
        (table_accumulator p.now table.now)
        (2 * p.now.poly_size - mark (half_mark p.now) (2 * p.now.poly_size) body)
        i) }
{
    let n = p.poly_size as usize;
    let (masks, rotated) = turning.split_at_mut(p.glwe_dim as usize * n);
    let table_polynomial = &mut room[..n];
    let around = 2 * p.poly_size;
    clear(masks);
    accumulator(table, p.message_bits, table_polynomial);
    rotate_into(
        rotated,
        table_polynomial,
        (around - mark_of(p, body)) % around,
    );
}

/// One turn: what the encrypted bit chooses of the turned ciphertext less itself is added.
fn turn(
    product: &mut GlweScratch,
    p: &Params,
    bit: &[u64],
    amount: u32,
    away: &mut [u64],
    turning: &mut [u64],
)
    requires fields { FieldsInRange p.now }
    requires product_room { product.old ≡ p.now }
    requires bit_size { length bit.now ≡ ggsw_size p.now }
    requires amount_in { amount < 2 * p.now.poly_size }
    requires away_size { length away.old ≡ glwe_size p.now }
    requires turning_size { length turning.old ≡ glwe_size p.now }
    ensures away { AreParts
        p.now.poly_size
        (p.now.glwe_dim + 1)
        (turned_away p.now.poly_size amount (of_parts p.now.poly_size turning.old))
        away.new }
    ensures added { AreParts
        p.now.poly_size
        (p.now.glwe_dim + 1)
        (λ q i. of_parts p.now.poly_size turning.old q i +ℤ external_of p.now bit.now away.new q i)
        turning.new }
    ensures product_stays { product.new ≡ p.now }
{
    turn_away(p, turning, amount, away);
    external_add(product, p, bit, away, turning);
}

/// Writes each polynomial of a ciphertext, turned by the amount, less itself.
fn turn_away(p: &Params, glwe: &[u64], amount: u32, away: &mut [u64])
    requires fields { FieldsInRange p.now }
    requires size { length glwe.now ≡ glwe_size p.now }
    requires amount_in { amount < 2 * p.now.poly_size }
    requires away_size { length away.old ≡ glwe_size p.now }
    ensures { AreParts
        p.now.poly_size
        (p.now.glwe_dim + 1)
        (turned_away p.now.poly_size amount (of_parts p.now.poly_size glwe.now))
        away.new }
{
    let n = p.poly_size as usize;
    let count = p.glwe_dim as usize + 1;
    for j in 0..count {
        let polynomial = &glwe[j * n..(j + 1) * n];
        turn_away_into(&mut away[j * n..(j + 1) * n], polynomial, amount);
    }
}
