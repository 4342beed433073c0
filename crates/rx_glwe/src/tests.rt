//! A polynomial that comes back from a row, a gadget that gives its input back, and worked places.
ghost use Rattle.std.specs.Prelude.{◌≡◌, length};

use crate::{GlweScratch, encrypt_row_into, external_add, extract_into, row_of_body};
use rx_lwe::{SecretKey, decode, phase, unit};
use rx_params::named;
use rx_poly::binary_product_add;
use rx_torus::Stream;
use std::test::Fail;

/// The phase of a row with one mask polynomial.
fn phases(key: &SecretKey, row: &[u64; 512]) -> [u64; 256]
    requires { length key.now ≡ 256 }
{
    let mut phases = [0u64; 256];
    binary_product_add(&mut phases, key.bits(), &row[..256], &mut [0; 512]);
    for i in 0..256 {
        phases[i] = row[256 + i].wrapping_sub(phases[i]);
    }
    phases
}

#[test]
#[tactic(auto, unfolding(rx_params::specs::Derived::large_dim))]
fn a_row_hides_a_polynomial(rt: HostRuntime) -> Result<(), Fail> {
    let Some(p) = named("rx-test") else {
        panic!(rt; "a set of that name");
    };
    assert_eq!(rt; p.poly_size, 256);
    assert_eq!(rt; p.glwe_dim, 1);
    assert_eq!(rt; p.message_bits, 2);
    let key = SecretKey::large(rt.alloc(), &p, &[7; 32])?;
    assert_eq!(rt; key.bits().len(), 256);
    let mut mask = Stream::new(&[8; 32], 0);
    let mut noise = Stream::new(&[9; 32], 0);
    let mut hidden = [0u64; 256];
    for i in 0..256 {
        hidden[i] = (i as u64 % 32) * unit(2);
    }
    let mut row = [0u64; 512];
    let mut scratch = [0u64; 512];
    encrypt_row_into(
        &p,
        &key,
        &mut mask,
        &mut noise,
        &hidden,
        &mut row,
        &mut scratch,
    );
    let mut again = [0u64; 512];
    row_of_body(&p, &mut Stream::new(&[8; 32], 0), &row[256..], &mut again);
    assert_eq!(rt; again, row);
    for (i, phase) in phases(&key, &row).iter().enumerate() {
        assert!(rt; *phase != hidden[i], "no noise at {i}");
        assert_eq!(rt; u64::from(decode(*phase, 2)), i as u64 % 32, "at {i}");
    }
    let mut words = [0u64; 257];
    extract_into(&p, &row, &mut words);
    assert_eq!(rt; decode(phase(&key, &words), 2), 0);
    Ok(())
}

/// Each row has the weight of its level as coefficient 0 of the polynomial that it is for.
#[test]
fn the_rows_of_weights_give_the_rounded_input(rt: HostRuntime) -> Result<(), Fail> {
    let Some(p) = named("rx-test") else {
        panic!(rt; "a set of that name");
    };
    assert_eq!(rt; p.poly_size, 256);
    assert_eq!(rt; p.glwe_dim, 1);
    assert_eq!(rt; p.pbs_level, 2);
    let mut rows = [0u64; 2048];
    for (row, weight) in [1u64 << 52, 1 << 40, 1 << 52, 1 << 40].iter().enumerate() {
        rows[row * 512 + row / 2 * 256] = *weight;
    }
    let mut input = [0u64; 512];
    input[0] = 5 << 40;
    input[255] = 0xFFFF_FFFF_FFFF_FFFF;
    input[256] = 0x8000_0180_0000_0000;
    let mut acc = [1u64; 512];
    let mut scratch = GlweScratch::new(rt.alloc(), &p)?;
    external_add(&mut scratch, &p, &rows, &input, &mut acc);
    for (place, word) in [
        (0usize, (5u64 << 40) + 1),
        (1, 1),
        (255, 1),
        (256, 0x8000_0200_0000_0001),
        (511, 1),
    ] {
        assert_eq!(rt; acc[place], word, "at {place}");
    }
    Ok(())
}

#[test]
#[tactic(auto, unfolding(rx_params::specs::Derived::large_dim))]
fn coefficient_0_is_extracted(rt: HostRuntime) {
    let Some(p) = named("rx-k2") else {
        panic!(rt; "a set of that name");
    };
    assert_eq!(rt; p.poly_size, 256);
    assert_eq!(rt; p.glwe_dim, 2);
    let mut glwe = [0u64; 768];
    for i in 0..768 {
        glwe[i] = i as u64 + 1;
    }
    let mut out = [0u64; 513];
    extract_into(&p, &glwe, &mut out);
    for (place, word) in [
        (0usize, 1u64),
        (1, 0u64.wrapping_sub(256)),
        (255, 0u64.wrapping_sub(2)),
        (256, 257),
        (257, 0u64.wrapping_sub(512)),
        (511, 0u64.wrapping_sub(258)),
        (512, 513),
    ] {
        assert_eq!(rt; out[place], word, "at {place}");
    }
}
