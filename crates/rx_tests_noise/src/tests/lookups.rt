//! Every number of a block, looked up in three tables.
ghost use Rattle.std.specs.Prelude.{◌≡◌, ◌<◌, length};
ghost use Rattle.rx_params.specs.Derived.{large_dim};

use rx_boot::{BootScratch, ServerKey, bootstrap_into};
use rx_lwe::{SecretKey, decode, encrypt_into, phase, unit};
use rx_params::named;
use rx_torus::Stream;
use std::test::Fail;

const SAME: [u8; 16] = [0, 1, 2, 3, 4, 5, 6, 7, 8, 9, 10, 11, 12, 13, 14, 15];

const NEXT: [u8; 16] = [1, 2, 3, 4, 5, 6, 7, 8, 9, 10, 11, 12, 13, 14, 15, 0];

const DOWN: [u8; 16] = [15, 14, 13, 12, 11, 10, 9, 8, 7, 6, 5, 4, 3, 2, 1, 0];

#[test]
fn every_number_is_looked_up(rt: HostRuntime) -> Result<(), Fail> {
    let Some(p) = named("rx-test") else {
        panic!(rt; "a set of that name");
    };
    let key = ServerKey::make(rt.alloc(), &p, &[7; 32], &[8; 32])?;
    assert_eq!(rt; key.params.message_bits, 2);
    let large = SecretKey::large(rt.alloc(), &key.params, &[7; 32])?;
    assert_eq!(rt; first_wrong(&rt, &key, &large)?, None);
    Ok(())
}

/// The first number that is looked up wrong in one of three tables.
fn first_wrong(rt: &HostRuntime, key: &ServerKey, large: &SecretKey) -> Result<Option<u32>, Fail>
    requires message_bits { key.now.params.message_bits ≡ 2 }
    requires key_size { length large.now ≡ large_dim key.now.params }
{
    for number in 0..16 {
        let up = if number < 15 { number + 1 } else { 0 };
        if looked_up(rt, key, large, &SAME, number)? != number
            || looked_up(rt, key, large, &NEXT, number)? != up
            || looked_up(rt, key, large, &DOWN, number)? != 15 - number
        {
            return Ok(Some(number));
        }
    }
    Ok(None)
}

/// What the bootstrap of a fresh ciphertext of a number decodes to.
fn looked_up(
    rt: &HostRuntime,
    key: &ServerKey,
    large: &SecretKey,
    table: &[u8],
    number: u32,
) -> Result<u32, Fail>
    requires message_bits { key.now.params.message_bits ≡ 2 }
    requires key_size { length large.now ≡ large_dim key.now.params }
    requires table_size { length table.now ≡ 16 }
    requires number { number < 16 }
{
    let mut mask = Stream::new(&[9; 32], u64::from(number));
    let mut noise = Stream::new(&[10; 32], u64::from(number));
    let mut input = vec![in rt.alloc(); 0; large.bits().len() + 1]?;
    let message = u64::from(number) * unit(2);
    encrypt_into(large, &mut mask, &mut noise, 17, message, &mut input);
    let mut scratch = BootScratch::new(rt.alloc(), &key.params)?;
    let mut output = vec![in rt.alloc(); 0; large.bits().len() + 1]?;
    bootstrap_into(&mut scratch, key, table, &input, &mut output);
    Ok(decode(phase(large, &output), 2))
}
