//! Numbers that come back, widths that do not fit, and a block that is damaged.
ghost use Rattle.std.specs.Prelude.{◌≡◌, ◌≤◌, None, IfOk, length};
ghost use Rattle.std.specs.List.{AllByRecursion};
ghost use Rattle.rx_params.specs.Acceptance.{Accepts};
ghost use Rattle.rx_params.specs.Derived.{large_dim};
ghost use Rattle.rx_params.specs.Kinds.{greatest};
ghost use Rattle.rx_circuit.specs.Values.{AreValues};
ghost use Rattle.rx_codec.specs.CipherFile.{IsItem};
ghost use Rattle.rx_client.specs.Encrypt.{first_width};

use crate::{DecryptError, decrypt_items, encrypt_cipher, encrypt_values, wrong_width_in};
use rx_block::decrypt_block;
use rx_circuit::ValueLine;
use rx_codec::{Blocks, Item};
use rx_lwe::SecretKey;
use rx_params::{Kind, Name, Params, named};
use rx_seeded::{decode_cipher, encode_seeded_cipher};
use std::alloc::Global;
use std::process::Abort;
use std::test::Fail;

const CLIENT_SEED: [u8; 32] = [0; 32];

const MASK_SEED: [u8; 32] = [0x11; 32];

const NOISE_SEED: [u8; 32] = [0; 32];

fn line(rt: &impl Abort, kind: Kind, name: &str, bits: u32, value: u64) -> ValueLine
    ensures { result ≡ record { kind = kind; name = name.now; bits = bits; value = value } }
{
    let Some(name) = Name::of(name.as_bytes()) else {
        panic!(rt; "a name");
    };
    ValueLine {
        kind,
        name,
        bits,
        value,
    }
}

/// The items of some lines under the key of the client's seed.
fn items_of(
    alloc: Global,
    p: &Params,
    key: &SecretKey,
    lines: &[ValueLine],
) -> Result<Vec<Item>, Fail>
    requires accepted { Accepts p.now }
    requires key { length key.now ≡ large_dim p.now }
    requires values { AreValues lines.now }
    requires widths { first_width p.now.message_bits lines.now ≡ None }
    ensures { IfOk result (λ items. AllByRecursion (IsItem p.now) items.items) }
{
    let file = encrypt_values(alloc, p, key, &MASK_SEED, &NOISE_SEED, lines)?;
    let cipher = decode_cipher(alloc, file.as_slice())?;
    Ok(cipher.items.into_vec())
}

/// What a client reads of lines that it encrypted.
fn text_of(alloc: Global, p: &Params, lines: &[ValueLine]) -> Result<String, Fail>
    requires accepted { Accepts p.now }
    requires values { AreValues lines.now }
    requires widths { first_width p.now.message_bits lines.now ≡ None }
{
    let key = SecretKey::large(alloc, p, &CLIENT_SEED)?;
    let items = items_of(alloc, p, &key, lines)?;
    Ok(decrypt_items(alloc, p, &key, &items)?)
}

/// An item with another degree in its first block.
fn with_degree(p: &Params, item: Item, degree: u8) -> Item
    requires item { IsItem p.now item }
    requires degree { degree ≤ greatest item.kind p.now.message_bits }
    ensures { IsItem p.now result }
{
    let mut blocks = item.blocks.into_vec();
    if let Some(block) = blocks.first_mut() {
        block.degree = degree;
    }
    Item {
        name: item.name,
        kind: item.kind,
        bits: item.bits,
        blocks: Blocks::from_vec(blocks),
    }
}

#[test]
fn a_number_becomes_its_digits(rt: HostRuntime) -> Result<(), Fail> {
    let Some(p) = named("rx-test") else {
        panic!(rt; "a set of that name");
    };
    let key = SecretKey::large(rt.alloc(), &p, &CLIENT_SEED)?;
    let lines = [line(&rt, Kind::Int, "a", 8, 200)];
    let items = items_of(rt.alloc(), &p, &key, &lines)?;
    assert_eq!(rt; items.len(), 1);
    let mut digits = Vec::new(rt.alloc());
    for block in items[0].blocks.as_slice() {
        digits.push(decrypt_block(&p, &key, block)?)?;
    }
    assert_eq!(rt; digits.as_slice(), [0, 2, 0, 3].as_slice());
    let text = decrypt_items(rt.alloc(), &p, &key, &items)?;
    assert_eq!(rt; text.as_str(), "a 200\n");
    Ok(())
}

#[test]
fn numbers_come_back(rt: HostRuntime) -> Result<(), Fail> {
    let Some(p) = named("rx-test") else {
        panic!(rt; "a set of that name");
    };
    let lines = [
        line(&rt, Kind::Bit, "on", 1, 1),
        line(&rt, Kind::Int, "six", 6, 33),
        line(&rt, Kind::Int, "two", 2, 3),
        line(&rt, Kind::Bit, "off", 1, 0),
        line(&rt, Kind::Int, "all", 64, 18446744073709551615),
    ];
    let text = text_of(rt.alloc(), &p, &lines)?;
    let expected = "on 1\nsix 33\ntwo 3\noff 0\nall 18446744073709551615\n";
    assert_eq!(rt; text.as_str(), expected);
    Ok(())
}

#[test]
fn the_file_is_that_of_its_cipher(rt: HostRuntime) -> Result<(), Fail> {
    let Some(p) = named("rx-test") else {
        panic!(rt; "a set of that name");
    };
    let key = SecretKey::large(rt.alloc(), &p, &CLIENT_SEED)?;
    let lines = [
        line(&rt, Kind::Int, "six", 6, 33),
        line(&rt, Kind::Bit, "on", 1, 1),
    ];
    let file = encrypt_values(rt.alloc(), &p, &key, &MASK_SEED, &NOISE_SEED, &lines)?;
    assert_eq!(rt; file.capacity(), file.len());
    let cipher = encrypt_cipher(rt.alloc(), &p, &key, &MASK_SEED, &NOISE_SEED, &lines)?;
    let same = encode_seeded_cipher(rt.alloc(), &cipher, &MASK_SEED)?;
    assert_eq!(rt; same.as_slice(), file.as_slice());
    assert_eq!(rt; same.capacity(), same.len());
    let read = decode_cipher(rt.alloc(), file.as_slice())?;
    let items = read.items.as_slice();
    assert_eq!(rt; items.len(), 2);
    assert_eq!(rt; items[1].name.as_str(), "on");
    Ok(())
}

#[test]
fn a_number_of_three_message_bits_comes_back(rt: HostRuntime) -> Result<(), Fail> {
    let Some(p) = named("rx-3-3") else {
        panic!(rt; "a set of that name");
    };
    let lines = [line(&rt, Kind::Int, "w", 9, 300)];
    let text = text_of(rt.alloc(), &p, &lines)?;
    assert_eq!(rt; text.as_str(), "w 300\n");
    Ok(())
}

#[test]
fn a_lowered_degree_is_damage(rt: HostRuntime) -> Result<(), Fail> {
    let Some(p) = named("rx-test") else {
        panic!(rt; "a set of that name");
    };
    let key = SecretKey::large(rt.alloc(), &p, &CLIENT_SEED)?;
    let lines = [line(&rt, Kind::Int, "a", 8, 203)];
    let mut items = items_of(rt.alloc(), &p, &key, &lines)?;
    let Some(item) = items.pop() else {
        panic!(rt; "an item");
    };
    assert!(rt; item.kind == Kind::Int);
    let lowered = [with_degree(&p, item, 2)];
    match decrypt_items(rt.alloc(), &p, &key, &lowered) {
        Err(DecryptError::Damaged(damage)) => {
            assert_eq!(rt; damage.name.as_str(), "a");
            assert_eq!(rt; damage.block, 0);
            assert_eq!(rt; damage.decoded, 3);
            assert_eq!(rt; damage.degree, 2);
        }
        _ => panic!(rt; "a damaged block"),
    }
    Ok(())
}

#[test]
fn widths_are_multiples_of_the_message_bits(rt: HostRuntime) {
    let lines = [
        line(&rt, Kind::Bit, "b", 1, 0),
        line(&rt, Kind::Int, "a", 9, 0),
        line(&rt, Kind::Int, "c", 8, 0),
    ];
    let wrong = wrong_width_in(2, &lines).expect(&rt, "a wrong width");
    assert_eq!(rt; wrong.name.as_str(), "a");
    let wrong = wrong_width_in(3, &lines).expect(&rt, "a wrong width");
    assert_eq!(rt; wrong.name.as_str(), "c");
    assert!(rt; wrong_width_in(3, &lines[..2]).is_none());
}
