//! Blocks that come back, and one that is damaged.
use crate::{Damaged, decrypt_block, fresh_block};
use rx_lwe::SecretKey;
use rx_params::{Kind, named};
use std::test::Fail;

#[test]
fn a_fresh_block_decrypts_to_its_number(rt: HostRuntime) -> Result<(), Fail> {
    let Some(p) = named("rx-test") else {
        panic!(rt; "a set of that name");
    };
    assert_eq!(rt; p.message_bits, 2);
    let key = SecretKey::large(rt.alloc(), &p, &[1; 32])?;
    for value in 0..4 {
        let number = u32::from(value);
        let block = fresh_block(
            rt.alloc(),
            &p,
            &key,
            &[2; 32],
            &[3; 32],
            number,
            Kind::Int,
            value,
        )?;
        assert_eq!(rt; block.words.as_slice().len(), 257);
        assert_eq!(rt; block.degree, 3);
        assert_eq!(rt; block.noise, 1);
        assert_eq!(rt; decrypt_block(&p, &key, &block), Ok(value));
    }
    let bit = fresh_block(rt.alloc(), &p, &key, &[2; 32], &[3; 32], 4, Kind::Bit, 1)?;
    assert_eq!(rt; bit.degree, 1);
    assert_eq!(rt; decrypt_block(&p, &key, &bit), Ok(1));
    Ok(())
}

#[test]
fn a_number_above_the_degree_is_damage(rt: HostRuntime) -> Result<(), Fail> {
    let Some(p) = named("rx-test") else {
        panic!(rt; "a set of that name");
    };
    assert_eq!(rt; p.message_bits, 2);
    let key = SecretKey::large(rt.alloc(), &p, &[1; 32])?;
    let mut block = fresh_block(rt.alloc(), &p, &key, &[2; 32], &[3; 32], 0, Kind::Int, 3)?;
    block.degree = 2;
    let damaged = Damaged {
        decoded: 3,
        degree: 2,
    };
    assert_eq!(rt; decrypt_block(&p, &key, &block), Err(damaged));
    let text = format!(in rt.alloc(); "{damaged}")?;
    assert_eq!(rt; text.as_str(), "decoded 3 above the degree 2");
    Ok(())
}
