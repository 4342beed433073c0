//! The distance of a word on the torus (CJP, torus), and the nearest multiple of a power of two.
ghost use Rattle.std.specs.Prelude.{◌≡◌, ◌-◌, ◌^◌, ◌≤◌, pos, min};
ghost use Rattle.rx_laws.specs.Torus.{distance};
ghost use Rattle.rx_laws.specs.Digits.{rounded};

/// The distance of a word to the nearest multiple of 2^64, at most 2^63.
pub fn distance(x: u64) -> u64
    ensures nearest { result ≡ distance (pos x) }
    ensures lesser { result ≡ min x (2 ^ 64 - x) }
{
    x.min(x.wrapping_neg())
}

/// The multiple of 2^(64 - bits) that is nearest to a word, a tie going up, modulo 2^64. There is a
/// multiple for each number of that many bits, from 1 to 63.
pub fn round_to(word: u64, bits: u32) -> u64
    requires low { 1 ≤ bits }
    requires high { bits ≤ 63 }
    ensures { result ≡ rounded word bits }
{
    let step = 1u64 << (64 - bits);
    let sum = word.wrapping_add(step / 2);
    sum - sum % step
}
