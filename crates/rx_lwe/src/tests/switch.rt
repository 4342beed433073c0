//! Worked values, and a ciphertext that keeps its number under the small key.
use crate::{
    SecretKey, SwitchKey, add_scaled, decode, encrypt_into, mod_switch, phase, switch_into, unit,
};
use rx_params::named;
use rx_torus::Stream;
use std::test::Fail;

#[test]
fn a_word_goes_to_its_nearest_mark(rt: HostRuntime) {
    let half_step = 0x20_0000_0000_0000;
    for (word, mark) in [
        (half_step - 1, 0),
        (half_step, 1),
        (u64::MAX - half_step + 1, 0),
    ] {
        assert_eq!(rt; mod_switch(word, 9), mark, "at {word}");
    }
}

#[test]
fn a_weight_may_be_below_zero(rt: HostRuntime) {
    let mut acc = [5, 0];
    add_scaled(&mut acc, -2, &[3, 1]);
    assert_eq!(rt; acc, [u64::MAX, u64::MAX - 1]);
}

#[test]
fn a_switched_ciphertext_keeps_its_number(rt: HostRuntime) -> Result<(), Fail> {
    let Some(p) = named("rx-test") else {
        panic!(rt; "a set of that name");
    };
    let large = SecretKey::large(rt.alloc(), &p, &[7; 32])?;
    let small = SecretKey::small(rt.alloc(), &p, &[7; 32])?;
    assert_eq!(rt; large.bits().len(), 256);
    assert_eq!(rt; small.bits().len(), 8);
    let key = SwitchKey::make(rt.alloc(), &p, &large, &small, &[8; 32], &[7; 32])?;
    assert_eq!(rt; key.words().len(), 256 * 6 * 9);
    for number in [0, 11, 31] {
        let mut mask = Stream::new(&[9; 32], u64::from(number));
        let mut noise = Stream::new(&[10; 32], u64::from(number));
        let message = u64::from(number) * unit(2);
        let mut fresh = vec![in rt.alloc(); 0; large.bits().len() + 1]?;
        encrypt_into(&large, &mut mask, &mut noise, 17, message, &mut fresh);
        let mut switched = vec![in rt.alloc(); 0; small.bits().len() + 1]?;
        switch_into(&key, &fresh, &mut switched);
        assert_eq!(rt; decode(phase(&small, &switched), 2), number);
    }
    Ok(())
}
