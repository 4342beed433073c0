//! The switch of the modulus (CJP, modulus switching).
ghost use Rattle.std.specs.Prelude.{◌≡◌, ◌+◌, ◌-◌, ◌^◌, ◌<◌, ◌≤◌};
ghost use Rattle.rx_ring.specs.Switch.{mark};

/// The nearest of `2^(log_n + 1)` marks, at equal distances on the torus, to a word, a tie going up. Marks
/// are counted from 0, and `log_n` is from 6 to 12.
pub fn mod_switch(word: u64, log_n: u32) -> u32
    requires low { 6 ≤ log_n }
    requires high { log_n ≤ 12 }
    ensures value { result ≡ mark (2 ^ (62 - log_n)) (2 ^ (log_n + 1)) word }
    ensures bound { result < 2 ^ (log_n + 1) }
{
    let halves = word >> (62 - log_n);
    (halves.div_ceil(2) % (1 << (log_n + 1))) as u32
}
