//! Products of polynomials (CJP, the ring). Long ones are made of products of halves. In a short one a multiple
//! of `X^j` times one polynomial is added for each coefficient j of the other, and all those powers lie side by
//! side in one list of 2N words.
ghost use Rattle.std.specs.Prelude.{◌≡◌, ◌+ℤ◌, ◌*◌, ◌%◌, ◌<◌, ◌≤◌, IsTrue, length, slice_index, EachIndex};
ghost use Rattle.rx_laws.specs.Words.{AreWords, of_words, of_numbers};
ghost use Rattle.rx_ring.specs.Polynomial.{product};
ghost use Rattle.rx_poly.specs.Turns.{HoldsTurns};

use crate::karatsuba::product_by_halves;
use crate::lanes::LANES;
use crate::sums::{add_assign, add_terms};

/// From so many coefficients on a product is made of three products of halves.
const SPLIT: usize = 128;

/// Adds the product of `small` and `big` to `acc`, all of one length N, modulo 2^64. `scratch` has at least
/// 2N words; what it holds is not read, and what it holds afterwards is not told. With 4N words or more it is
/// fast where N is 128 or more and a power of two.
pub fn product_add(acc: &mut [u64], small: &[i64], big: &[u64], scratch: &mut [u64])
    requires same_small { length small.now ≡ length acc.old }
    requires same_big { length big.now ≡ length acc.old }
    requires room { 2 * length acc.old ≤ length scratch.old }
    ensures added { AreWords
        (length acc.old)
        (λ i. of_words acc.old i +ℤ product (length acc.old) (of_numbers small.now)
        (of_words big.now) i)
        acc.new }
    ensures scratch_stays { length scratch.new ≡ length scratch.old }
{
    let n = acc.len();
    if is_split(n) && n <= scratch.len() / 4 {
        let (digits, rest) = scratch.split_at_mut(n);
        write_digits(digits, small);
        product_by_halves(acc, digits, big, rest);
    } else {
        product_add_by_turns(acc, small, big, scratch);
    }
}

/// Whether products of n coefficients are made of those of halves.
fn is_split(n: usize) -> bool
    ensures { IsTrue result → n % 8 ≡ 0 }
{
    n >= SPLIT && n % (2 * LANES) == 0
}

/// Writes the words of numbers.
fn write_digits(out: &mut [u64], small: &[i64])
    requires same { length small.now ≡ length out.old }
    ensures { AreWords (length out.old) (of_numbers small.now) out.new }
{
    for i in 0..out.len() {
        out[i] = small[i].cast_unsigned();
    }
}

/// The same, four terms at a time.
fn product_add_by_turns(acc: &mut [u64], small: &[i64], big: &[u64], scratch: &mut [u64])
    requires same_small { length small.now ≡ length acc.old }
    requires same_big { length big.now ≡ length acc.old }
    requires room { 2 * length acc.old ≤ length scratch.old }
    ensures added { AreWords
        (length acc.old)
        (λ i. of_words acc.old i +ℤ product (length acc.old) (of_numbers small.now)
        (of_words big.now) i)
        acc.new }
    ensures scratch_stays { length scratch.new ≡ length scratch.old }
{
    lay_out_turns(big, scratch);
    let n = acc.len();
    for four in 0..n.div_ceil(4) {
        let first = 4 * four;
        let end = n.min(first + 4);
        add_terms(
            acc,
            &small[first..end],
            &scratch[n - end + 1..n - first + n],
        );
    }
}

/// Adds the product of `bits`, each 0 or 1, and `big` to `acc`, all of one length N, modulo 2^64. `scratch`
/// has at least 2N words; what it holds is not read, and what it holds afterwards is not told. With 3N words or
/// more it is fast where N is 128 or more and a power of two.
pub fn binary_product_add(acc: &mut [u64], bits: &[u64], big: &[u64], scratch: &mut [u64])
    requires same_bits { length bits.now ≡ length acc.old }
    requires same_big { length big.now ≡ length acc.old }
    requires room { 2 * length acc.old ≤ length scratch.old }
    requires binary { EachIndex bits.now (λ j. slice_index bits.now j < 2) }
    ensures added { AreWords
        (length acc.old)
        (λ i. of_words acc.old i +ℤ product (length acc.old) (of_words bits.now)
        (of_words big.now) i)
        acc.new }
    ensures scratch_stays { length scratch.new ≡ length scratch.old }
{
    let n = acc.len();
    if is_split(n) && n <= scratch.len() / 3 {
        product_by_halves(acc, bits, big, scratch);
    } else {
        binary_product_add_by_turns(acc, bits, big, scratch);
    }
}

/// The same, one turn after another.
fn binary_product_add_by_turns(acc: &mut [u64], bits: &[u64], big: &[u64], scratch: &mut [u64])
    requires same_bits { length bits.now ≡ length acc.old }
    requires same_big { length big.now ≡ length acc.old }
    requires room { 2 * length acc.old ≤ length scratch.old }
    requires binary { EachIndex bits.now (λ j. slice_index bits.now j < 2) }
    ensures added { AreWords
        (length acc.old)
        (λ i. of_words acc.old i +ℤ product (length acc.old) (of_words bits.now)
        (of_words big.now) i)
        acc.new }
    ensures scratch_stays { length scratch.new ≡ length scratch.old }
{
    lay_out_turns(big, scratch);
    let n = acc.len();
    for j in 0..n {
        let bit = bits[j];
        if bit == 1 {
            add_assign(acc, &scratch[n - j..n - j + n]);
        }
    }
}

/// Writes `big` with its sign turned, and then `big`: the coefficients of `X^t` times `big` begin t places
/// before its own.
fn lay_out_turns(big: &[u64], scratch: &mut [u64])
    requires { 2 * length big.now ≤ length scratch.old }
    ensures turns { HoldsTurns (length big.now) (of_words big.now) scratch.new }
    ensures scratch_stays { length scratch.new ≡ length scratch.old }
{
    let n = big.len();
    for i in 0..n {
        scratch[i] = big[i].wrapping_neg();
        scratch[n + i] = big[i];
    }
}
