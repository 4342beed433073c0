//! The blind rotation by pairs.
ghost use Rattle.std.specs.Prelude.{◌≡◌, ◌+◌, ◌-◌, ◌*◌, ◌/◌, ◌<◌, ◌≤◌, length};
ghost use Rattle.rx_laws.specs.Decode.{plaintexts};
ghost use Rattle.rx_ring.specs.Polynomial.{turns};
ghost use Rattle.rx_ring.specs.Parts.{AreParts};
ghost use Rattle.rx_ring.specs.Pairs.{pair_amount, pair_turn};
ghost use Rattle.rx_params.specs.Acceptance.{FieldsInRange, PairAccepts};
ghost use Rattle.rx_glwe.specs.Sizes.{glwe_size, ggsw_size};
ghost use Rattle.rx_boot.specs.BootKeys.{boot_rows};
ghost use Rattle.rx_boot.specs.Bootstrap.{marks, table_accumulator};
ghost use Rattle.rx_multi.specs.PairKeys.{pair_size};
ghost use Rattle.rx_multi.specs.Turns.{turned_by};
ghost use Rattle.rx_multi.specs.PairBootstrap.{pair_rotation_of, Starts};

use crate::polynomials::write_rows;
use crate::scratch::TurnRoom;
use rx_boot::{mark_of, start_rotation};
use rx_glwe::external_add;
use rx_params::Params;

/// How far the two bits of a pair turn, each below twice the coefficients of a polynomial.
#[derive(Clone, Copy)]
pub(crate) struct Amounts {
    pub(crate) first: u32,
    pub(crate) second: u32,
}

impl Amounts {
    ghost use Rattle.std.specs.Prelude.{◌≡◌, ◌*◌, ◌<◌, ◌≤◌};
    ghost use Rattle.rx_ring.specs.Pairs.{pair_amount};

    /// How far a product of the two bits turns, by its number from 0 to 2, for polynomials of n coefficients.
    #[tactic(auto, unfolding(rx_ring::specs::Pairs::pair_amount))]
    pub(crate) fn of_product(&self, n: u32, product: usize) -> u32
        requires few { n ≤ 4096 }
        requires product { product < 3 }
        requires first { self.now.first < 2 * n }
        requires second { self.now.second < 2 * n }
        ensures value { result ≡ pair_amount n product self.now.first self.now.second }
        ensures bound { result < 2 * n }
    {
        match product {
            0 => self.first,
            1 => self.second,
            _ => (self.first + self.second) % (2 * n),
        }
    }
}

/// The blind rotation of the accumulator of a table by a switched ciphertext, written into `turning`.
pub(crate) fn rotate(
    room: &mut TurnRoom,
    p: &Params,
    rows: &[u64],
    table: &[u8],
    switched: &[u64],
    turning: &mut [u64],
)
    requires accepted { PairAccepts p.now }
    requires room { room.old ≡ p.now }
    requires rows_size { length rows.now ≡ pair_size p.now }
    requires table_size { length table.now ≡ plaintexts p.now.message_bits }
    requires switched_size { length switched.now ≡ p.now.lwe_dim + 1 }
    requires turning_size { length turning.old ≡ glwe_size p.now }
    ensures rotated { AreParts p.now.poly_size (p.now.glwe_dim + 1)
        (pair_rotation_of p.now rows.now table.now switched.now) turning.new }
    ensures room_stays { room.new ≡ p.now }
{
    start(room, p, table, switched[p.lwe_dim as usize], turning);
    let width = products_size(p);
    for i in 0..p.lwe_dim as usize / 2 {
        let first = mark_of(p, switched[2 * i]);
        let second = mark_of(p, switched[2 * i + 1]);
        let amounts = Amounts { first, second };
        let products = &rows[i * width..(i + 1) * width];
        turn(room, p, products, &amounts, turning);
    }
}

/// How many words the rows of the three products of a pair have.
fn products_size(p: &Params) -> usize
    requires { FieldsInRange p.now }
    ensures { result ≡ 3 * ggsw_size p.now }
{
    let size = (p.glwe_dim as usize + 1) * p.poly_size as usize;
    3 * ((p.glwe_dim as usize + 1) * p.pbs_level as usize * size)
}

/// The ciphertext before the first turn, as that of the bootstrap by single bits.
fn start(room: &mut TurnRoom, p: &Params, table: &[u8], body: u64, turning: &mut [u64])
    requires fields { FieldsInRange p.now }
    requires wide { 2 * plaintexts p.now.message_bits ≤ p.now.poly_size }
    requires room { room.old ≡ p.now }
    requires table_size { length table.now ≡ plaintexts p.now.message_bits }
    requires turning_size { length turning.old ≡ glwe_size p.now }
    ensures started { Starts p.now table.now body turning.new }
    ensures room_stays { room.new ≡ p.now }
{
    let next = room.next.as_mut_slice();
    start_rotation(p, table, body, next, turning);
}

/// One turn by a pair, whose three products have these rows.
fn turn(room: &mut TurnRoom, p: &Params, products: &[u64], amounts: &Amounts, turning: &mut [u64])
    requires fields { FieldsInRange p.now }
    requires room { room.old ≡ p.now }
    requires products_size { length products.now ≡ 3 * ggsw_size p.now }
    requires first_in { amounts.now.first < 2 * p.now.poly_size }
    requires second_in { amounts.now.second < 2 * p.now.poly_size }
    requires turning_size { length turning.old ≡ glwe_size p.now }
    ensures turned { AreParts p.now.poly_size (p.now.glwe_dim + 1)
        (turned_by p.now products.now amounts.now.first amounts.now.second turning.old) turning.new }
    ensures room_stays { room.new ≡ p.now }
{
    let rows = room.rows.as_mut_slice();
    let next = room.next.as_mut_slice();
    write_rows(
        p,
        products,
        amounts,
        &mut next[..p.poly_size as usize],
        rows,
    );
    next.fill(0);
    external_add(&mut room.product, p, rows, turning, next);
    turning.copy_from_slice(next);
}
