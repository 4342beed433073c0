//! Draws as many random torus words as the first argument says, and prints their exclusive or. It is what the
//! words alone cost, for `bench/encrypt` to compare with.
#![tactic(auto)]

use rand_chacha::ChaCha20Rng;
use rand_core::SeedableRng;
use rand_core::utils::NextWord;
use std::{env, io};

fn main(rt: HostRuntime) -> io::Result<()> {
    let count = match env::args(&rt)?.nth(1) {
        Some(word) => word.parse::<u64>().unwrap_or(0),
        None => 0,
    };
    let all = draw(count);
    println!(rt; "{all}")
}

/// The exclusive or of that many torus words of the seed of zeros.
fn draw(count: u64) -> u64 {
    let mut words = ChaCha20Rng::from_seed([0; 32]);
    let mut all = 0;
    for _ in 0..count {
        let low = words.next_word();
        let high = words.next_word();
        all ^= u64::from(low) + 0x1_0000_0000 * u64::from(high);
    }
    all
}
