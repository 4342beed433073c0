//! Makes a key of a set and bootstraps one ciphertext as often as asked, for `bench/bootstrap` and `bench/pairs` to
//! time: `bench_bootstraps SET COUNT`, with a server key, and `bench_bootstraps SET COUNT pairs`, with a pair key. Prints
//! what the last output decrypts to.
#![tactic(auto)]

ghost use Rattle.std.specs.Prelude.{◌≡◌, ◌+◌, ◌<◌, IfOk, length};
ghost use Rattle.rx_laws.specs.Decode.{plaintexts};
ghost use Rattle.rx_params.specs.Acceptance.{Accepts, PairAccepts, FieldsInRange};
ghost use Rattle.rx_params.specs.Derived.{large_dim};

use rx_block::{Block, decrypt_block, fresh_block, lookup};
use rx_boot::{BootScratch, ServerKey};
use rx_lwe::SecretKey;
use rx_multi::{PairKey, PairScratch, pair_bootstrap_into};
use rx_params::{Kind, Params, Rotation, check_pairs, named};
use std::alloc::{AllocError, Global};
use std::{env, io};

const SEED: [u8; 32] = [0; 32];

/// A table whose entries are their indices.
const INDICES: [u8; 64] = [
    0, 1, 2, 3, 4, 5, 6, 7, 8, 9, 10, 11, 12, 13, 14, 15, 16, 17, 18, 19, 20, 21, 22, 23, 24, 25,
    26, 27, 28, 29, 30, 31, 32, 33, 34, 35, 36, 37, 38, 39, 40, 41, 42, 43, 44, 45, 46, 47, 48, 49,
    50, 51, 52, 53, 54, 55, 56, 57, 58, 59, 60, 61, 62, 63,
];

fn main(rt: HostRuntime) -> io::Result<()> {
    let mut words = env::args(&rt)?.skip(1);
    let Some(word) = words.next() else {
        return println!(rt; "bench_bootstraps SET COUNT [pairs]");
    };
    let Some(set) = named(word.as_str()) else {
        return println!(rt; "no set has that name");
    };
    let count = match words.next() {
        Some(word) => word.parse::<u32>().unwrap_or(0),
        None => 0,
    };
    let rotation = match words.next() {
        Some(_) => Rotation::Pairs,
        None => Rotation::Bits,
    };
    if check_pairs(&set).is_err() {
        return println!(rt; "the set is not accepted for pairs");
    }
    match bootstrapped(rt.alloc(), &set, rotation, count) {
        Ok(number) => println!(rt; "{number}"),
        Err(_) => println!(rt; "out of memory"),
    }
}

/// The number that a lookup of the identity gives for a fresh block of 1, looked up that many times.
#[tactic(auto, unfolding(rx_block::specs::Fresh::fresh))]
fn bootstrapped(alloc: Global, p: &Params, rotation: Rotation, count: u32) -> Result<u8, AllocError>
    requires accepted { Accepts p.now }
    requires pairs { PairAccepts p.now }
{
    let secret = SecretKey::large(alloc, p, &SEED)?;
    let block = fresh_block(alloc, p, &secret, &[2; 32], &[3; 32], 0, Kind::Bit, 1)?;
    let out = fresh_block(alloc, p, &secret, &[2; 32], &[3; 32], 1, Kind::Bit, 0)?;
    let out = match rotation {
        Rotation::Bits => by_bits(alloc, p, &block, out, count)?,
        Rotation::Pairs => by_pairs(alloc, p, &block, out, count)?,
    };
    Ok(decrypt_block(p, &secret, &out).unwrap_or(u8::MAX))
}

/// Makes a server key, and looks the identity up with it in the block as often as asked.
#[tactic(auto, unfolding(rx_boot::specs::ServerKeys::server_key))]
fn by_bits(
    alloc: Global,
    p: &Params,
    block: &Block,
    mut out: Block,
    count: u32,
) -> Result<Block, AllocError>
    requires accepted { Accepts p.now }
    requires degree { block.now.degree < plaintexts p.now.message_bits }
    requires words { length block.now.words ≡ large_dim p.now + 1 }
    requires out { length out.words ≡ large_dim p.now + 1 }
    ensures { IfOk result (λ looked_up. length looked_up.words ≡ large_dim p.now + 1) }
{
    let key = ServerKey::make(alloc, p, &SEED, &[1; 32])?;
    let mut scratch = BootScratch::new(alloc, p)?;
    look_up_often(&mut scratch, &key, block, identity(p), &mut out, count);
    Ok(out)
}

/// The same with a pair key.
#[tactic(auto, unfolding(rx_multi::specs::PairKeys::pair_key))]
fn by_pairs(
    alloc: Global,
    p: &Params,
    block: &Block,
    mut out: Block,
    count: u32,
) -> Result<Block, AllocError>
    requires accepted { PairAccepts p.now }
    requires words { length block.now.words ≡ large_dim p.now + 1 }
    requires out { length out.words ≡ large_dim p.now + 1 }
    ensures { IfOk result (λ looked_up. length looked_up.words ≡ large_dim p.now + 1) }
{
    let key = PairKey::make(alloc, p, &SEED, &[1; 32])?;
    let mut scratch = PairScratch::new(alloc, p)?;
    let words = block.words.as_slice();
    look_up_by_pairs(
        &mut scratch,
        &key,
        words,
        identity(p),
        out.words.as_mut_slice(),
        count,
    );
    Ok(out)
}

/// The table of a set whose entries are their indices.
fn identity(p: &Params) -> &'static [u8]
    requires { FieldsInRange p.now }
    ensures { length result.now ≡ plaintexts p.now.message_bits }
{
    if p.message_bits == 2 {
        &INDICES[..16]
    } else {
        &INDICES[..64]
    }
}

/// Looks the table up in the block as often as asked.
fn look_up_often(
    scratch: &mut BootScratch,
    key: &ServerKey,
    block: &Block,
    table: &[u8],
    out: &mut Block,
    count: u32,
)
    requires room { scratch.old ≡ key.now.params }
    requires table { length table.now ≡ plaintexts key.now.params.message_bits }
    requires degree { block.now.degree < plaintexts key.now.params.message_bits }
    requires words { length block.now.words ≡ large_dim key.now.params + 1 }
    requires out { length out.old.words ≡ large_dim key.now.params + 1 }
    ensures { length out.new.words ≡ length out.old.words }
{
    for _ in 0..count {
        lookup(scratch, key, block, table, out);
    }
}

/// The same with a pair key, over the words of two ciphertexts.
fn look_up_by_pairs(
    scratch: &mut PairScratch,
    key: &PairKey,
    input: &[u64],
    table: &[u8],
    out: &mut [u64],
    count: u32,
)
    requires room { scratch.old ≡ key.now.params }
    requires table { length table.now ≡ plaintexts key.now.params.message_bits }
    requires input { length input.now ≡ large_dim key.now.params + 1 }
    requires out { length out.old ≡ large_dim key.now.params + 1 }
    ensures { length out.new ≡ length out.old }
{
    for _ in 0..count {
        pair_bootstrap_into(scratch, key, table, input, out);
    }
}
