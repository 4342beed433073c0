//! Lookups where all noises lie at their bounds.
ghost use Rattle.std.specs.Prelude.{◌≡◌, ◌+◌, IfOk, length};
ghost use Rattle.rx_params.specs.Derived.{large_dim};

use crate::extremes::{End, extreme_words};
use rx_boot::{BootScratch, ServerKey, bootstrap_into};
use rx_lwe::{SecretKey, encrypt_into, phase, unit};
use rx_params::{Bounds, Params, check, named};
use rx_torus::{Stream, distance};
use std::alloc::{AllocError, Global};
use std::process::Abort;
use std::test::Fail;

/// A table whose entries all differ, and none stands beside the next number.
const APART: [u8; 16] = [3, 10, 1, 8, 15, 6, 13, 4, 11, 2, 9, 0, 7, 14, 5, 12];

const SEED: [u8; 32] = [7; 32];

/// The greatest sum of noise tags that a lookup may be given.
const MOST_NOISE: u128 = 5;

/// The bounds of an accepted set.
fn bounds(rt: &impl Abort, p: &Params) -> Bounds {
    match check(p) {
        Ok(bounds) => bounds,
        Err(_) => panic!(rt; "an accepted set"),
    }
}

/// Each body of a made key lies between those of the two ends, and its masks are those of both.
#[test]
fn the_ends_lie_round_a_made_key(rt: HostRuntime) -> Result<(), Fail> {
    let alloc = rt.alloc();
    let Some(p) = named("rx-test") else {
        panic!(rt; "a set of that name");
    };
    let made = ServerKey::make(alloc, &p, &SEED, &[8; 32])?;
    let small = SecretKey::small(alloc, &made.params, &SEED)?;
    let large = SecretKey::large(alloc, &made.params, &SEED)?;
    let most = extreme_words(alloc, &made, &small, &large, End::Most)?;
    let least = extreme_words(alloc, &made, &small, &large, End::Least)?;
    let words = made.boot.words().iter().chain(made.switch.words());
    for ((word, most), least) in words.zip(&most).zip(&least) {
        let width = most.wrapping_sub(*least);
        assert!(rt; [0, 2 << 17, 2 << 20].contains(&width), "{width}");
        assert!(rt; word.wrapping_sub(*least) <= width, "{word}");
    }
    Ok(())
}

#[test]
fn lookups_bear_all_noise_of_made_keys(rt: HostRuntime) -> Result<(), Fail> {
    for set in ["rx-test", "rx-k2"] {
        let Some(p) = named(set) else {
            panic!(rt; "a set of that name");
        };
        let key = ServerKey::make(rt.alloc(), &p, &SEED, &[8; 32])?;
        assert_eq!(rt; key.params.message_bits, 2);
        let large = SecretKey::large(rt.alloc(), &key.params, &SEED)?;
        assert_lookups(&rt, &key, &large)?;
    }
    Ok(())
}

#[test]
fn lookups_bear_all_noise_of_extreme_keys(rt: HostRuntime) -> Result<(), Fail> {
    for set in ["rx-test", "rx-k2"] {
        let Some(p) = named(set) else {
            panic!(rt; "a set of that name");
        };
        let made = ServerKey::make(rt.alloc(), &p, &SEED, &[8; 32])?;
        let p = &made.params;
        assert_eq!(rt; p.message_bits, 2);
        let small = SecretKey::small(rt.alloc(), p, &SEED)?;
        let large = SecretKey::large(rt.alloc(), p, &SEED)?;
        for end in [End::Most, End::Least] {
            let words = extreme_words(rt.alloc(), &made, &small, &large, end)?;
            let key = ServerKey::of_words(rt.alloc(), p, &words)?;
            assert_lookups(&rt, &key, &large)?;
        }
    }
    Ok(())
}

/// Asserts that all numbers are looked up right, as far above and below their places as the noise of an input may
/// reach, and that no output is farther from its entry than a bootstrap may leave it.
fn assert_lookups<R: AllocGlobal + Abort>(
    rt: &R,
    key: &ServerKey,
    large: &SecretKey,
) -> Result<(), Fail>
    requires message_bits { key.now.params.message_bits ≡ 2 }
    requires key_size { length large.now ≡ large_dim key.now.params }
{
    let bounds = bounds(rt, &key.params);
    let noise = u64::try_from(bounds.base.saturating_mul(MOST_NOISE))?;
    for (place, entry) in APART.iter().enumerate() {
        let middle = place as u64 * unit(2);
        for input in [middle.wrapping_add(noise), middle.wrapping_sub(noise)] {
            let input = cipher_of(rt.alloc(), large, input)?;
            let output = looked_up(rt.alloc(), key, large, &input)?;
            let far = distance(output.wrapping_sub(u64::from(*entry) * unit(2)));
            assert!(rt; u128::from(far) <= bounds.boot, "{far} at {place}");
        }
    }
    Ok(())
}

/// A ciphertext of this phase, with a mask that is drawn.
fn cipher_of(alloc: Global, large: &SecretKey, wanted: u64) -> Result<Vec<u64>, AllocError>
    ensures { IfOk result (λ words. length words.items ≡ length large.now + 1) }
{
    let mut mask = Stream::new(&[9; 32], wanted);
    let mut noise = Stream::new(&[10; 32], wanted);
    let mut words = vec![in alloc; 0; large.bits().len() + 1]?;
    encrypt_into(large, &mut mask, &mut noise, 0, 0, &mut words);
    let missing = wanted.wrapping_sub(phase(large, &words));
    if let Some(body) = words.last_mut() {
        *body = body.wrapping_add(missing);
    }
    Ok(words)
}

/// The phase of what a bootstrap gives for a ciphertext.
fn looked_up(
    alloc: Global,
    key: &ServerKey,
    large: &SecretKey,
    input: &[u64],
) -> Result<u64, AllocError>
    requires message_bits { key.now.params.message_bits ≡ 2 }
    requires key_size { length large.now ≡ large_dim key.now.params }
    requires input_size { length input.now ≡ length large.now + 1 }
{
    let mut scratch = BootScratch::new(alloc, &key.params)?;
    let mut output = vec![in alloc; 0; large.bits().len() + 1]?;
    bootstrap_into(&mut scratch, key, &APART, input, &mut output);
    Ok(phase(large, &output))
}
