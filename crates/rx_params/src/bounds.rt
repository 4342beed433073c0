//! The worst-case sums of a parameter set, and the check that it is accepted.
ghost use Rattle.std.specs.Prelude.{◌≡◌, ◌↔◌, ℕ, ◌+◌, ◌*◌, ◌^◌, ◌<◌, ◌≤◌, ◌&&◌, IsOk, IfErr, IsTrue, Some, nat_le, take};
ghost use Rattle.rx_params.specs.Derived.{words_by, bounds_by, step_by, large_dim, switch_of, round_of};
ghost use Rattle.rx_params.specs.Acceptance.{Accepts, PairAccepts, FieldsInRange, checked, pair_checked, checked_by, refusal_by, whole_turns, limited, is_within, is_poly_size, most_levels};
ghost use Rattle.rx_laws.specs.Decode.{plaintexts};

use crate::space::{noise_limit, plaintexts};
use crate::{Params, Rotation};
use thiserror::Error;

/// The worst-case sums of a set, in units of 2^-64 of the torus.
#[derive(Clone, Copy, Debug, PartialEq, Eq)]
pub struct Bounds {
    /// The noise that one turn of the bootstrap adds.
    pub step: u128,
    /// The noise of what a bootstrap gives.
    pub boot: u128,
    /// The noise of a block whose noise tag is 1.
    pub base: u128,
    /// The noise that the key switch adds.
    pub switch: u128,
    /// The noise that the rounding before the rotation adds.
    pub round: u128,
    /// The greatest noise that reaches the table of a bootstrap.
    pub left: u128,
    /// What that noise has to stay below: half a unit.
    pub right: u128,
}

/// Why a set is not accepted.
#[derive(Clone, Copy, Debug, PartialEq, Eq, Error)]
pub enum Refused {
    /// A field, by its place from 1 to 10, or the number of words of a server key as field 11, is outside its
    /// limit with this value.
    #[error("field {field} is outside its limit with {value}")]
    Limit { field: u32, value: u64 },
    /// The polynomials have `n` coefficients, fewer than two for each of the `p` numbers of a block.
    #[error("{n} coefficients are too few for {p} numbers")]
    NarrowBox { n: u32, p: u32 },
    /// The greatest noise is not below its limit, both in the units of `Bounds`.
    #[error("the noise {left} is not below {right}")]
    Noise { left: u128, right: u128 },
}

/// The most levels that a word may have digits of, in a bootstrap and in a switch of keys.
pub const MOST_LEVELS: u32 = 30;

/// The most words of a server key: 2^24.
const MOST_KEY_WORDS: u64 = 0x100_0000;

/// The worst-case sums of a set that is accepted, or the first reason why it is not: a limit, the fields in
/// their order and the number of key words as field 11, then too few coefficients, then the noise.
pub fn check(p: &Params) -> Result<Bounds, Refused>
    ensures exact { result ≡ checked p.now }
    ensures accepted { IsOk result ↔ Accepts p.now }
{
    check_by(p, Rotation::Bits)
}

/// The same for the rotation by pairs of key bits: the sums of its bootstraps, and the first reason by the words
/// of a pair key and those sums. Field 4 is also outside its limit where the bits of the small key are no pairs.
pub fn check_pairs(p: &Params) -> Result<Bounds, Refused>
    ensures exact { result ≡ pair_checked p.now }
    ensures accepted { IsOk result ↔ PairAccepts p.now }
{
    check_by(p, Rotation::Pairs)
}

/// The check for either rotation.
fn check_by(p: &Params, rotation: Rotation) -> Result<Bounds, Refused>
    ensures { result ≡ checked_by rotation p.now }
{
    check_fields(p, rotation)?;
    check_key(p, rotation)?;
    check_box(p, rotation)?;
    let bounds = sums(p, rotation);
    if bounds.left < bounds.right {
        Ok(bounds)
    } else {
        Err(Refused::Noise {
            left: bounds.left,
            right: bounds.right,
        })
    }
}

impl Params {
    ghost use Rattle.std.specs.Prelude.{◌↔◌, IsTrue};
    ghost use Rattle.rx_params.specs.Acceptance.{FieldsInRange};

    /// Whether each of the ten fields is within its limit, as the calls that take a set require.
    pub fn is_in_range(&self) -> bool
        ensures { IsTrue result ↔ FieldsInRange self.now }
    {
        check_fields(self, Rotation::Bits).is_ok()
    }
}

/// Tests the ten fields, in their order.
fn check_fields(p: &Params, rotation: Rotation) -> Result<(), Refused>
    ensures in_range { IsOk result ↔ (FieldsInRange p.now × IsTrue (whole_turns rotation p.now.lwe_dim)) }
    ensures first { IfErr result (λ refused. refusal_by rotation p.now ≡ Some refused) }
{
    let fields = limited_fields(p, rotation);
    for (place, &(value, is_inside)) in fields.iter().enumerate() {
        if !is_inside {
            return Err(Refused::Limit {
                field: place as u32 + 1,
                value: u64::from(value),
            });
        }
    }
    Ok(())
}

/// The ten fields in their order, and whether each is within its limit.
fn limited_fields(p: &Params, rotation: Rotation) -> [(u32, bool); 10]
    ensures { result ≡ take 10 (limited rotation p.now) }
{
    [
        (p.message_bits, is_within(2, 3, p.message_bits)),
        (p.glwe_dim, is_within(1, 4, p.glwe_dim)),
        (p.poly_size, is_poly_size(p.poly_size)),
        (p.lwe_dim, is_turn_dim(rotation, p.lwe_dim)),
        (p.pbs_base_log, is_within(1, 24, p.pbs_base_log)),
        (p.pbs_level, are_digits(p.pbs_base_log, p.pbs_level)),
        (p.ks_base_log, is_within(1, 24, p.ks_base_log)),
        (p.ks_level, are_digits(p.ks_base_log, p.ks_level)),
        (p.glwe_bound, is_within(0, 40, p.glwe_bound)),
        (p.lwe_bound, is_within(0, 40, p.lwe_bound)),
    ]
}

fn is_within(low: u32, high: u32, n: u32) -> bool
    ensures { result ≡ is_within low high n }
{
    low <= n && n <= high
}

fn is_poly_size(n: u32) -> bool
    ensures { result ≡ is_poly_size n }
{
    matches!(n, 64 | 128 | 256 | 512 | 1024 | 2048 | 4096)
}

/// Whether a small key may have so many bits, which a rotation takes in whole turns.
fn is_turn_dim(rotation: Rotation, bits: u32) -> bool
    ensures { result ≡ (whole_turns rotation bits && is_within 1 1024 bits) }
{
    rotation.whole_turns(bits) && is_within(1, 1024, bits)
}

/// Whether a word may have that many digits of that many bits.
fn are_digits(base_log: u32, level: u32) -> bool
    ensures { result ≡ (is_within 1 most_levels level && nat_le (base_log * level) 60) }
{
    is_within(1, MOST_LEVELS, level) && base_log.saturating_mul(level) <= 60
}

/// Refuses a set whose key has too many words.
fn check_key(p: &Params, rotation: Rotation) -> Result<(), Refused>
    requires fields { FieldsInRange p.now }
    requires whole { IsTrue (whole_turns rotation p.now.lwe_dim) }
    ensures few { IsOk result ↔ (words_by rotation p.now ≤ 2 ^ 24) }
    ensures many { IfErr result (λ refused. refusal_by rotation p.now ≡ Some refused) }
{
    let words = key_words(p, rotation);
    if words <= MOST_KEY_WORDS {
        Ok(())
    } else {
        Err(Refused::Limit {
            field: 11,
            value: words,
        })
    }
}

/// The words of a key: those of the rows of its encrypted bits, and those of the switch rows.
fn key_words(p: &Params, rotation: Rotation) -> u64
    requires { FieldsInRange p.now }
    ensures { result ≡ words_by rotation p.now }
{
    let row = u64::from((p.glwe_dim + 1) * p.poly_size);
    let rows = u64::from(rotation.encrypted_count(p) * (p.glwe_dim + 1) * p.pbs_level);
    let switch_rows = u64::from(p.glwe_dim * p.poly_size * p.ks_level);
    rows * row + switch_rows * u64::from(p.lwe_dim + 1)
}

/// Refuses a set with fewer than two coefficients for each number of a block.
fn check_box(p: &Params, rotation: Rotation) -> Result<(), Refused>
    requires fields { FieldsInRange p.now }
    requires whole { IsTrue (whole_turns rotation p.now.lwe_dim) }
    requires key { words_by rotation p.now ≤ 2 ^ 24 }
    ensures wide { IsOk result ↔ (2 * plaintexts p.now.message_bits ≤ p.now.poly_size) }
    ensures narrow { IfErr result (λ refused. refusal_by rotation p.now ≡ Some refused) }
{
    let numbers = u32::from(plaintexts(p.message_bits));
    if 2 * numbers <= p.poly_size {
        Ok(())
    } else {
        Err(Refused::NarrowBox {
            n: p.poly_size,
            p: numbers,
        })
    }
}

/// The worst-case sums.
fn sums(p: &Params, rotation: Rotation) -> Bounds
    requires { FieldsInRange p.now }
    ensures { result ≡ bounds_by rotation p.now }
{
    let step = step(p, rotation);
    let boot = u128::from(rotation.turn_count(p)) * step;
    let base = boot.max(two_to(p.glwe_bound));
    let switch = switch(p);
    let round = round(p);
    Bounds {
        step,
        boot,
        base,
        switch,
        round,
        left: u128::from(noise_limit(p.message_bits)) * base + switch + round,
        right: two_to(62 - 2 * p.message_bits),
    }
}

/// The noise that one turn of the bootstrap adds.
fn step(p: &Params, rotation: Rotation) -> u128
    requires { FieldsInRange p.now }
    ensures value { result ≡ step_by rotation p.now }
    ensures bound { result ≤ 2 ^ 87 }
{
    let rest = two_to(63 - p.pbs_base_log * p.pbs_level);
    let products = u128::from((p.glwe_dim + 1) * p.pbs_level * p.poly_size);
    let product = two_to(p.pbs_base_log - 1 + p.glwe_bound);
    let noise = u128::from(rotation.noise_count()) * product;
    let words = u128::from(1 + p.large_dim());
    rest * words + products * noise
}

/// The noise that the key switch adds.
fn switch(p: &Params) -> u128
    requires { FieldsInRange p.now }
    ensures value { result ≡ switch_of p.now }
    ensures bound { result ≤ 2 ^ 84 }
{
    let rest = two_to(63 - p.ks_base_log * p.ks_level);
    let products = u128::from(p.glwe_dim * p.poly_size * p.ks_level);
    let product = two_to(p.ks_base_log - 1 + p.lwe_bound);
    let words = u128::from(p.large_dim());
    words * rest + products * product
}

/// The noise that the rounding before the rotation adds.
fn round(p: &Params) -> u128
    requires { FieldsInRange p.now }
    ensures value { result ≡ round_of p.now }
    ensures bound { result ≤ 2 ^ 73 }
{
    u128::from(p.lwe_dim + 1) * (two_to(62) / u128::from(p.poly_size))
}

fn two_to(exponent: u32) -> u128
    requires { exponent ≤ 63 }
    ensures value { result ≡ 2 ^ exponent }
    ensures bound { result ≤ 2 ^ 63 }
{
    1 << exponent
}
