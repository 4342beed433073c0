//! Numbers of 69 bits as six limbs with a sign, and the way back: the number that 32 times it is known of.
ghost use Rattle.std.specs.Prelude.{ℕ, ℤ, pos, ◌≡◌, ◌-ℤ◌, ◌+◌, ◌*◌, ◌/◌, ◌%◌, ◌^◌, ◌<◌, ◌≤◌, get_or};
ghost use Rattle.rx_laws.specs.Torus.{word};
ghost use Rattle.rx_ring.specs.Limbs.{limb_at};
ghost use Rattle.rx_ring.specs.Recovery.{Recovers};

/// Half of the range of each limb, which has 10, 10, 10, 8, 15 and 16 bits.
const HALVES: [u128; 6] = [512, 512, 512, 128, 16_384, 32_768];

/// The six limbs of a number below `2^69`, low first: of 10, 10, 10, 8, 15 and 16 bits, each with a sign.
pub fn limbs_of(v: u128) -> [i16; 6]
    requires size { v < 2 ^ 69 }
    ensures { (l : ℕ) → l < 6 → get_or result l (pos 0) ≡ limb_at l v }
{
    let (first, rest) = split(v, HALVES[0]);
    let (second, rest) = split(rest, HALVES[1]);
    let (third, rest) = split(rest, HALVES[2]);
    let (fourth, rest) = split(rest, HALVES[3]);
    let (fifth, rest) = split(rest, HALVES[4]);
    let (sixth, _) = split(rest, HALVES[5]);
    [first, second, third, fourth, fifth, sixth]
}

/// The lowest limb of a number, in `[-half, half)`, and what is left of the number without it.
fn split(v: u128, half: u128) -> (i16, u128)
    requires low { 1 ≤ half }
    requires high { half ≤ 2 ^ 15 }
    requires size { v < 2 ^ 69 }
    ensures limb { result.0 ≡ pos ((v + half) % (2 * half)) -ℤ pos half }
    ensures rest { result.1 ≡ (v + half) / (2 * half) }
    ensures smaller { result.1 < 2 ^ 69 }
{
    let moved = v + half;
    let low = (moved % (2 * half)) as i32 - half as i32;
    (low as i16, moved / (2 * half))
}

/// The word of a number of which 32 times it is known, as `low + 2^30 high` modulo `2^69`: 32 divides
/// `low`.
pub fn divided(low: i64, high: u64) -> u64
    ensures { (part c : ℤ) → word part ≡ high → Recovers low part c → result ≡ word c }
{
    (low >> 5).cast_unsigned().wrapping_add(high << 25)
}
