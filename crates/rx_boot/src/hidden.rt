//! What the rows of a key hide (CJP, GGSW; the signs docs/FORMATS.md, Random streams).
ghost use Rattle.std.specs.Prelude.{◌≡◌, ◌+◌, ◌/◌, ◌%◌, ◌<◌, ◌*ℤ◌, pos, neg_ℤ, length};
ghost use Rattle.rx_laws.specs.Words.{of_words, AreWords};
ghost use Rattle.rx_ring.specs.Polynomial.{unit_polynomial};
ghost use Rattle.rx_params.specs.Acceptance.{FieldsInRange};
ghost use Rattle.rx_params.specs.Derived.{large_dim, encrypted_count};
ghost use Rattle.rx_boot.specs.BootKeys.{ggsw_row_count, key_row_count, row_hidden};

use crate::clear::clear;
use rx_lwe::SecretKey;
use rx_params::{Params, Rotation};

/// Writes what the row of a number hides: the opposite of a key polynomial times the bit, or the bit itself
/// as the polynomial's first coefficient, each times the weight of the row's level.
pub(crate) fn hide(
    p: &Params,
    rotation: Rotation,
    bits: &[u64],
    large: &SecretKey,
    number: u32,
    hidden: &mut [u64],
)
    requires fields { FieldsInRange p.now }
    requires bits_size { length bits.now ≡ encrypted_count rotation p.now }
    requires large_size { length large.now ≡ large_dim p.now }
    requires number { number < key_row_count rotation p.now }
    requires room { length hidden.old ≡ p.now.poly_size }
    ensures { AreWords
        p.now.poly_size
        (row_hidden
        p.now
        bits.now
        large.now
        (number / ggsw_row_count p.now)
        (number / p.now.pbs_level % (p.now.glwe_dim + 1))
        (number % p.now.pbs_level))
        hidden.new }
{
    let level = number % p.pbs_level;
    let polynomial = number / p.pbs_level % (p.glwe_dim + 1);
    let bit = bits[(number / ((p.glwe_dim + 1) * p.pbs_level)) as usize];
    let weight = bit << (64 - p.pbs_base_log * (level + 1));
    if polynomial < p.glwe_dim {
        let n = p.poly_size as usize;
        let place = polynomial as usize * n;
        hide_opposite(weight, &large.bits()[place..place + n], hidden);
    } else {
        hide_number(weight, hidden);
    }
}

/// The opposite of a polynomial times a word.
fn hide_opposite(weight: u64, polynomial: &[u64], hidden: &mut [u64])
    requires { length polynomial.now ≡ length hidden.old }
    ensures { AreWords (length hidden.old)
        (λ i. neg_ℤ (pos weight *ℤ of_words polynomial.now i)) hidden.new }
{
    for i in 0..hidden.len() {
        hidden[i] = weight.wrapping_mul(polynomial[i]).wrapping_neg();
    }
}

/// Writes a word as a polynomial: its first coefficient.
pub fn hide_number(weight: u64, hidden: &mut [u64])
    requires { 0 < length hidden.old }
    ensures { AreWords (length hidden.old) (λ i. pos weight *ℤ unit_polynomial i) hidden.new }
{
    clear(hidden);
    hidden[0] = weight;
}
