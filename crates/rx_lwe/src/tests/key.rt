//! Worked values, and messages that come back.
use crate::{SecretKey, decode, encrypt_into, phase, unit};
use rx_params::named;
use rx_torus::Stream;
use std::test::Fail;

#[test]
fn a_phase_is_the_body_less_the_mask_times_the_key(rt: HostRuntime) -> Result<(), Fail> {
    let bits = vec![in rt.alloc(); 1, 1]?;
    let key = SecretKey { bits };
    assert_eq!(rt; key.bits().len(), 2);
    assert_eq!(rt; phase(&key, &[1 << 63, 3, 1]), 9223372036854775806);
    Ok(())
}

#[test]
fn a_number_reaches_half_a_unit_down(rt: HostRuntime) {
    let unit = unit(2);
    assert_eq!(rt; unit, 576460752303423488);
    let rows = [
        (3 * unit - unit / 2, 3),
        (3 * unit - unit / 2 - 1, 2),
        (u64::MAX, 0),
    ];
    for (phase, number) in rows {
        assert_eq!(rt; decode(phase, 2), number, "at {phase}");
    }
}

#[test]
fn a_message_comes_back(rt: HostRuntime) -> Result<(), Fail> {
    let Some(p) = named("rx-test") else {
        panic!(rt; "a set of that name");
    };
    let key = SecretKey::large(rt.alloc(), &p, &[7; 32])?;
    assert_eq!(rt; key.bits().len(), 256);
    for number in [0, 3, 15, 31] {
        let mut mask = Stream::new(&[8; 32], u64::from(number));
        let mut noise = Stream::new(&[9; 32], u64::from(number));
        let message = u64::from(number) * unit(2);
        let mut words = vec![in rt.alloc(); 0; key.bits().len() + 1]?;
        encrypt_into(&key, &mut mask, &mut noise, 17, message, &mut words);
        assert_eq!(rt; decode(phase(&key, &words), 2), number);
    }
    Ok(())
}
