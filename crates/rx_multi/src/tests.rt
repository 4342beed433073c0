//! Pair keys of rx-test: their words, and each number looked up in two tables.
ghost use Rattle.std.specs.Prelude.{◌≡◌, ◌<◌, length};

use crate::{PairKey, PairScratch, pair_bootstrap_into};
use rx_lwe::{SecretKey, decode, encrypt_into, phase, unit};
use rx_params::{check_pairs, named};
use rx_torus::Stream;
use std::test::Fail;

const CLIENT_SEED: [u8; 32] = [7; 32];

const NEXT: [u8; 16] = [1, 2, 3, 4, 5, 6, 7, 8, 9, 10, 11, 12, 13, 14, 15, 0];

const MIXED: [u8; 16] = [7, 3, 15, 0, 12, 1, 9, 14, 2, 10, 5, 13, 8, 4, 11, 6];

#[test]
fn a_made_key_is_read_again(rt: HostRuntime) -> Result<(), Fail> {
    let Some(p) = named("rx-test") else {
        panic!(rt; "a set of that name");
    };
    if check_pairs(&p).is_err() {
        panic!(rt; "a set that is accepted for pairs");
    }
    let key = PairKey::make(rt.alloc(), &p, &CLIENT_SEED, &[8; 32])?;
    assert_eq!(rt; key.rows().len(), 24_576);
    assert_eq!(rt; key.switch().words().len(), 13_824);
    let mut words = Vec::new(rt.alloc());
    words.extend_from_slice(key.rows())?;
    words.extend_from_slice(key.switch().words())?;
    let again = PairKey::of_words(rt.alloc(), &key.params, &words)?;
    assert_eq!(rt; again.rows(), key.rows());
    assert_eq!(rt; again.switch().words(), key.switch().words());
    Ok(())
}

#[test]
fn each_number_is_looked_up(rt: HostRuntime) -> Result<(), Fail> {
    let Some(p) = named("rx-test") else {
        panic!(rt; "a set of that name");
    };
    if check_pairs(&p).is_err() {
        panic!(rt; "a set that is accepted for pairs");
    }
    let key = PairKey::make(rt.alloc(), &p, &CLIENT_SEED, &[8; 32])?;
    assert_eq!(rt; key.params.message_bits, 2);
    for table in [&NEXT, &MIXED] {
        for number in 0..16u32 {
            let found = looked_up(&rt, &key, table, number)?;
            assert_eq!(rt; found, u32::from(table[number as usize]), "{number}");
        }
    }
    Ok(())
}

/// What the bootstrap of a fresh ciphertext of a number decodes to, under the key of the client's seed.
fn looked_up(rt: &HostRuntime, key: &PairKey, table: &[u8], number: u32) -> Result<u32, Fail>
    requires message_bits { key.now.params.message_bits ≡ 2 }
    requires table_size { length table.now ≡ 16 }
    requires number { number < 16 }
{
    let large = SecretKey::large(rt.alloc(), &key.params, &CLIENT_SEED)?;
    let mut mask = Stream::new(&[9; 32], u64::from(number));
    let mut noise = Stream::new(&[10; 32], u64::from(number));
    let mut input = vec![in rt.alloc(); 0; large.bits().len() + 1]?;
    let message = u64::from(number) * unit(2);
    encrypt_into(&large, &mut mask, &mut noise, 17, message, &mut input);
    let mut scratch = PairScratch::new(rt.alloc(), &key.params)?;
    let mut output = vec![in rt.alloc(); 0; large.bits().len() + 1]?;
    pair_bootstrap_into(&mut scratch, key, table, &input, &mut output);
    Ok(decode(phase(&large, &output), 2))
}
