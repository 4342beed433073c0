//! Adds products of polynomials as often as asked, for `bench/bootstrap` and `bench/growth` to time:
//! `bench_products N COUNT ROOM` with polynomials of N coefficients, at most 4096, and room for ROOM polynomials, from
//! 2 to 4 (4 if left out). Prints a word of the sum.
#![tactic(auto)]

ghost use Rattle.std.specs.Prelude.{◌≡◌, ◌*◌, ◌<◌, ◌≤◌, length};

use rx_poly::product_add;
use std::alloc::{AllocError, Global};
use std::{env, io};

fn main(rt: HostRuntime) -> io::Result<()> {
    let mut words = env::args(&rt)?.skip(1);
    let n = match words.next() {
        Some(word) => word.parse::<usize>().unwrap_or(0),
        None => 0,
    };
    let count = match words.next() {
        Some(word) => word.parse::<u32>().unwrap_or(0),
        None => 0,
    };
    let room = match words.next() {
        Some(word) => word.parse::<usize>().unwrap_or(0),
        None => 4,
    };
    if n == 0 || n > 4096 || room < 2 || room > 4 {
        return println!(rt; "bench_products N COUNT ROOM, N from 1 to 4096, ROOM from 2 to 4");
    }
    match multiplied(rt.alloc(), n, room, count) {
        Ok(word) => println!(rt; "{word}"),
        Err(_) => println!(rt; "out of memory"),
    }
}

/// The middle word of a sum of that many products of n coefficients, made in room for so many polynomials.
fn multiplied(alloc: Global, n: usize, room: usize, count: u32) -> Result<u64, AllocError>
    requires some { 0 < n }
    requires few { n ≤ 4096 }
    requires enough { 2 ≤ room }
    requires at_most { room ≤ 4 }
{
    let mut small = vec![in alloc; 0i64; n]?;
    let mut big = vec![in alloc; 0u64; n]?;
    let mut acc = vec![in alloc; 0u64; n]?;
    let mut scratch = vec![in alloc; 0u64; room * n]?;
    fill(small.as_mut_slice(), big.as_mut_slice());
    let sum = acc.as_mut_slice();
    add_often(
        sum,
        small.as_slice(),
        big.as_slice(),
        scratch.as_mut_slice(),
        count,
    );
    Ok(sum[n / 2])
}

/// Small numbers like digits, and words like a key's.
fn fill(small: &mut [i64], big: &mut [u64])
    requires same { length big.old ≡ length small.old }
    requires few { length small.old ≤ 4096 }
{
    for i in 0..small.len() {
        small[i] = (i as i64 * 7919) % 4096 - 2048;
        big[i] = (i as u64).wrapping_mul(0x9E37_79B9_7F4A_7C15);
    }
}

/// Adds the product as often as asked.
fn add_often(acc: &mut [u64], small: &[i64], big: &[u64], scratch: &mut [u64], count: u32)
    requires same_small { length small.now ≡ length acc.old }
    requires same_big { length big.now ≡ length acc.old }
    requires room { 2 * length acc.old ≤ length scratch.old }
{
    for _ in 0..count {
        product_add(acc, small, big, scratch);
    }
}
