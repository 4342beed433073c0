//! A key that is read again, and numbers that are looked up.
ghost use Rattle.std.specs.Prelude.{◌≡◌, ◌<◌, length};
ghost use Rattle.rx_params.specs.Derived.{large_dim};

use crate::{BootScratch, ServerKey, bootstrap_into};
use rx_lwe::{SecretKey, decode, encrypt_into, phase, unit};
use rx_params::named;
use rx_torus::Stream;
use std::test::Fail;

const NEXT: [u8; 16] = [1, 2, 3, 4, 5, 6, 7, 8, 9, 10, 11, 12, 13, 14, 15, 0];

const SAME: [u8; 16] = [0, 1, 2, 3, 4, 5, 6, 7, 8, 9, 10, 11, 12, 13, 14, 15];

#[test]
fn a_made_key_is_read_again(rt: HostRuntime) -> Result<(), Fail> {
    let Some(p) = named("rx-test") else {
        panic!(rt; "a set of that name");
    };
    let key = ServerKey::make(rt.alloc(), &p, &[7; 32], &[8; 32])?;
    let boot = key.boot.words();
    let switch = key.switch.words();
    assert_eq!(rt; boot.len(), 16_384);
    assert_eq!(rt; switch.len(), 13_824);
    let mut words = Vec::new(rt.alloc());
    words.extend_from_slice(boot)?;
    words.extend_from_slice(switch)?;
    let again = ServerKey::of_words(rt.alloc(), &key.params, &words)?;
    assert_eq!(rt; again.boot.words(), boot);
    assert_eq!(rt; again.switch.words(), switch);
    Ok(())
}

#[test]
fn a_made_key_is_made_again_of_its_bodies(rt: HostRuntime) -> Result<(), Fail> {
    let Some(p) = named("rx-test") else {
        panic!(rt; "a set of that name");
    };
    let key = ServerKey::make(rt.alloc(), &p, &[7; 32], &[8; 32])?;
    let bodies = key.bodies(rt.alloc())?;
    assert_eq!(rt; bodies.len(), 9_728);
    let again = ServerKey::of_bodies(rt.alloc(), &key.params, &[8; 32], &bodies)?;
    assert_eq!(rt; again.boot.words(), key.boot.words());
    assert_eq!(rt; again.switch.words(), key.switch.words());
    Ok(())
}

#[test]
fn a_number_is_looked_up(rt: HostRuntime) -> Result<(), Fail> {
    let Some(p) = named("rx-test") else {
        panic!(rt; "a set of that name");
    };
    let key = ServerKey::make(rt.alloc(), &p, &[7; 32], &[8; 32])?;
    assert_eq!(rt; key.params.message_bits, 2);
    let large = SecretKey::large(rt.alloc(), &key.params, &[7; 32])?;
    assert_eq!(rt; looked_up(&rt, &key, &large, &NEXT, 3)?, 4);
    assert_eq!(rt; looked_up(&rt, &key, &large, &SAME, 0)?, 0);
    assert_eq!(rt; looked_up(&rt, &key, &large, &SAME, 15)?, 15);
    Ok(())
}

/// What the bootstrap of a fresh ciphertext of a number decodes to.
fn looked_up(
    rt: &HostRuntime,
    key: &ServerKey,
    large: &SecretKey,
    table: &[u8],
    number: u32,
) -> Result<u32, Fail>
    requires message_bits { key.now.params.message_bits ≡ 2 }
    requires key_size { length large.now ≡ large_dim key.now.params }
    requires table_size { length table.now ≡ 16 }
    requires number { number < 16 }
{
    let mut mask = Stream::new(&[9; 32], u64::from(number));
    let mut noise = Stream::new(&[10; 32], u64::from(number));
    let mut input = vec![in rt.alloc(); 0; large.bits().len() + 1]?;
    let message = u64::from(number) * unit(2);
    encrypt_into(large, &mut mask, &mut noise, 17, message, &mut input);
    let mut scratch = BootScratch::new(rt.alloc(), &key.params)?;
    let mut output = vec![in rt.alloc(); 0; large.bits().len() + 1]?;
    bootstrap_into(&mut scratch, key, table, &input, &mut output);
    Ok(decode(phase(large, &output), 2))
}
