//! The signed digits of a word (CJP, gadget decomposition): all of one word, with the carries from the lowest
//! up, or those of one level of many words, each cut out by itself.
ghost use Rattle.std.specs.Prelude.{◌≡◌, ℕ, ℤ, pos, neg_ℤ, ◌+ℤ◌, ◌-ℤ◌, ◌*ℤ◌, ◌≤ℤ◌, ◌<ℤ◌, ◌-◌, ◌*◌, ◌/◌, ◌%◌, ◌^◌, ◌<◌, ◌≤◌, length, get_or};
ghost use Rattle.rx_laws.specs.Digits.{IsDigits, digit};
ghost use Rattle.rx_torus.specs.Offsets.{halves, offset};

use crate::round_to;

/// The lowest signed digit of a number, and what is left above it.
fn split_digit(rest: u64, base_log: u32) -> (i64, u64)
    requires base_low { 1 ≤ base_log }
    requires base_high { base_log ≤ 24 }
    ensures whole { pos rest ≡ pos result.1 *ℤ pos (2 ^ base_log) +ℤ result.0 }
    ensures low { neg_ℤ (pos (2 ^ (base_log - 1))) ≤ℤ result.0 }
    ensures high { result.0 <ℤ pos (2 ^ (base_log - 1)) }
{
    let base = 1u64 << base_log;
    let low = rest % base;
    if low < base / 2 {
        (low as i64, rest / base)
    } else {
        (low as i64 - base as i64, rest / base + 1)
    }
}

/// Writes the signed digits of a word into `out`, which has `levels` places, the highest first. Of `levels`
/// digits of `base_log` bits, from 1 to 24, each lies from `-2^(base_log - 1)` to `2^(base_log - 1) - 1`, and
/// together they stand for the word, rounded to `base_log * levels` bits, at most 60. The carry out of the
/// first digit is dropped.
pub fn digits(word: u64, base_log: u32, levels: u32, out: &mut [i64])
    requires base_low { 1 ≤ base_log }
    requires base_high { base_log ≤ 24 }
    requires levels_low { 1 ≤ levels }
    requires all { base_log * levels ≤ 60 }
    requires places { length out.old ≡ levels }
    ensures { IsDigits word base_log levels out.new }
{
    let bits = base_log * levels;
    let mut rest = round_to(word, bits) >> (64 - bits);
    let count = out.len();
    for done in 0..count {
        let (digit, next) = split_digit(rest, base_log);
        out[count - 1 - done] = digit;
        rest = next;
    }
}

/// Writes the digits of one level of some words, each word by itself: `level` counts from 0, the highest, and
/// the digits are those that `digits` gives.
pub fn level_digits(words: &[u64], base_log: u32, levels: u32, level: u32, out: &mut [i64])
    requires base_low { 1 ≤ base_log }
    requires base_high { base_log ≤ 24 }
    requires all { base_log * levels ≤ 60 }
    requires level { level < levels }
    requires same { length out.old ≡ length words.now }
    ensures { (x : ℕ) → x < length words.now →
        get_or out.new x (pos 0) ≡ digit base_log levels (get_or words.now x 0) level }
{
    let start = digit_offset(base_log, levels);
    let place = 64 - base_log * (level + 1);
    for x in 0..out.len() {
        out[x] = digit_at(words[x].wrapping_add(start), place, base_log);
    }
}

/// Half a digit at each of some levels, and half of the last place.
fn digit_offset(base_log: u32, levels: u32) -> u64
    requires base_low { 1 ≤ base_log }
    requires levels_low { 1 ≤ levels }
    requires all { base_log * levels ≤ 60 }
    ensures { result ≡ offset base_log levels }
{
    let bits = base_log * levels;
    let mut sum = 0u64;
    for _ in 0..levels {
        sum = (sum << base_log) + (1 << (base_log - 1));
    }
    (sum << (64 - bits)) + (1 << (63 - bits))
}

/// The digit that begins at this place of a word to which the offset was added.
#[inline(always)]
fn digit_at(word: u64, place: u32, base_log: u32) -> i64
    requires base_low { 1 ≤ base_log }
    requires base_high { base_log ≤ 24 }
    requires place { place < 64 }
    ensures { result ≡ pos (word / 2 ^ place % 2 ^ base_log) -ℤ pos (2 ^ (base_log - 1)) }
{
    let base = 1u64 << base_log;
    ((word >> place) % base) as i64 - (base / 2) as i64
}
