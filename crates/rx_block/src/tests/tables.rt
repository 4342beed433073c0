//! A table looked up in a fresh block.
use crate::{decrypt_block, fresh_block, lookup};
use rx_boot::{BootScratch, ServerKey};
use rx_lwe::SecretKey;
use rx_params::{Kind, named};
use std::test::Fail;

#[test]
fn one_more_is_looked_up(rt: HostRuntime) -> Result<(), Fail> {
    let Some(set) = named("rx-test") else {
        panic!(rt; "a set of that name");
    };
    let server = ServerKey::make(rt.alloc(), &set, &[1; 32], &[4; 32])?;
    let p = &server.params;
    assert_eq!(rt; p.message_bits, 2);
    let key = SecretKey::large(rt.alloc(), p, &[1; 32])?;
    let mut scratch = BootScratch::new(rt.alloc(), p)?;
    let block = fresh_block(rt.alloc(), p, &key, &[2; 32], &[3; 32], 0, Kind::Int, 3)?;
    let mut out = fresh_block(rt.alloc(), p, &key, &[2; 32], &[3; 32], 1, Kind::Bit, 0)?;
    let table = [1, 2, 3, 4, 5, 6, 7, 8, 9, 10, 11, 12, 13, 14, 15, 0];
    assert_eq!(rt; block.degree, 3);
    lookup(&mut scratch, &server, &block, &table, &mut out);
    assert_eq!(rt; out.degree, 4);
    assert_eq!(rt; out.noise, 1);
    assert_eq!(rt; decrypt_block(p, &key, &out), Ok(4));
    Ok(())
}
