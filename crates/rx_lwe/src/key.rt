//! Secret keys, drawn as docs/FORMATS.md says, Random streams.
ghost use Rattle.std.specs.Prelude.{◌≡◌, ◌<◌, ◌%◌, ◌++◌, IfOk, OnOk, EachIndex, slice_index, length, map};
ghost use Rattle.std.specs.List.{range_with_len};
ghost use Rattle.rx_torus.specs.Kinds.{stream_number};
ghost use Rattle.rx_torus.specs.Streams.{torus_word};
ghost use Rattle.rx_params.specs.Acceptance.{FieldsInRange};
ghost use Rattle.rx_params.specs.Derived.{large_dim};
ghost use Rattle.rx_lwe.specs.Secret.{large_key, small_key};

use rx_params::Params;
use rx_torus::{Stream, StreamKind};
use std::alloc::{AllocError, Global};
use std::marker::Model;

/// A secret key: one or more bits, each a word of 0 or 1. Contracts see the list of them.
#[derive(Drop)]
pub struct SecretKey {
    pub(crate) bits: Vec<u64>,
}

impl Model for SecretKey {
    ghost use Rattle.std.specs.Prelude.{List, ℕ, ◌<◌, EachIndex, slice_index, length};

    ghost Value = { List ℕ };

    ghost view = { λ k. k.bits.items };

    ghost invariant = { λ k. (0 < length k.bits.items)
        × EachIndex k.bits.items (λ i. slice_index k.bits.items i < 2) };
}

impl SecretKey {
    /// The large key of a seed: for each of the `glwe_dim` polynomials, `poly_size` bits of a stream of
    /// its own, coefficient 0 first. The error is want of memory.
    pub fn large(alloc: Global, p: &Params, seed: &[u8; 32]) -> Result<SecretKey, AllocError>
        requires { FieldsInRange p.now }
        ensures key { IfOk result (λ key. key ≡ large_key p.now seed.now) }
        ensures size { IfOk result (λ key. length key ≡ large_dim p.now) }
    {
        let mut bits = Vec::new(alloc);
        for row in 0..p.glwe_dim {
            push_bits(&mut bits, seed, StreamKind::LargeKey, row, p.poly_size)?;
        }
        Ok(SecretKey { bits })
    }

    /// The small key of a seed: `lwe_dim` bits of one stream. The error is want of memory.
    pub fn small(alloc: Global, p: &Params, seed: &[u8; 32]) -> Result<SecretKey, AllocError>
        requires { FieldsInRange p.now }
        ensures key { IfOk result (λ key. key ≡ small_key p.now seed.now) }
        ensures size { IfOk result (λ key. length key ≡ p.now.lwe_dim) }
    {
        let mut bits = Vec::new(alloc);
        push_bits(&mut bits, seed, StreamKind::SmallKey, 0, p.lwe_dim)?;
        Ok(SecretKey { bits })
    }

    /// The bits, in order.
    pub fn bits(&self) -> &[u64]
        ensures value { result.now ≡ self.now }
        ensures some { 0 < length result.now }
        ensures binary { EachIndex result.now (λ i. slice_index result.now i < 2) }
    {
        self.bits.as_slice()
    }
}

/// Adds the first bits of the stream of a row.
fn push_bits(
    bits: &mut Vec<u64>,
    seed: &[u8; 32],
    kind: StreamKind,
    row: u32,
    count: u32,
) -> Result<(), AllocError>
    ensures { OnOk result
        (bits.new.items
        ≡ bits.old.items ++ map (λ i. torus_word seed.now (stream_number kind row) i % 2)
        (range_with_len 0 count)) }
{
    let mut stream = Stream::new(seed, kind.stream_number(row));
    for _ in 0..count {
        bits.push(stream.next_bit())?;
    }
    Ok(())
}
