//! The products of the bits of each pair that a pair key encrypts.
ghost use Rattle.std.specs.Prelude.{◌≡◌, ◌*◌, ◌/◌, ◌<◌, ◌≤◌, IfOk, length, EachIndex, slice_index};
ghost use Rattle.rx_ring.specs.Pairs.{pair_bit};
ghost use Rattle.rx_multi.specs.PairKeys.{pair_bits};

use std::alloc::{AllocError, Global};

/// The three products of the two bits of each pair, in order: the first bit without the second, the second
/// without the first, and both. The error is want of memory.
pub(crate) fn pair_bits(alloc: Global, bits: &[u64]) -> Result<Vec<u64>, AllocError>
    requires { EachIndex bits.now (λ i. slice_index bits.now i < 2) }
    ensures { IfOk result (λ products. products.items ≡ pair_bits bits.now) }
{
    let mut products = vec![in alloc; 0; 3 * (bits.len() / 2)]?;
    write_products(bits, &mut products);
    Ok(products)
}

/// Writes all products.
fn write_products(bits: &[u64], out: &mut [u64])
    requires binary { EachIndex bits.now (λ i. slice_index bits.now i < 2) }
    requires size { length out.old ≡ 3 * (length bits.now / 2) }
    ensures { out.new ≡ pair_bits bits.now }
{
    for place in 0..out.len() {
        let first = bits[2 * (place / 3)];
        let second = bits[2 * (place / 3) + 1];
        out[place] = pair_bit(place % 3, first, second);
    }
}

/// One product of two bits, by its number from 0 to 2.
#[tactic(auto, unfolding(rx_ring::specs::Pairs::pair_bit))]
fn pair_bit(product: usize, first: u64, second: u64) -> u64
    requires product { product < 3 }
    requires first { first ≤ 1 }
    requires second { second ≤ 1 }
    ensures { result ≡ pair_bit product first second }
{
    match product {
        0 => first * (1 - second),
        1 => (1 - first) * second,
        _ => first * second,
    }
}
