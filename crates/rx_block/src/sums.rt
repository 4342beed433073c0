//! Weighted sums of blocks.
ghost use Rattle.std.specs.Prelude.{◌≡◌, pos, ◌+ℤ◌, ◌*ℤ◌, ◌+◌, ◌-◌, ◌*◌, ◌^◌, ◌≤◌, ◌⊎◌, Ok, Err, MatchResult, OnOk, length};
ghost use Rattle.std.specs.Int.RustNames.{unsigned_abs};
ghost use Rattle.rx_laws.specs.Decode.{plaintexts};
ghost use Rattle.rx_params.specs.Acceptance.{FieldsInRange};
ghost use Rattle.rx_params.specs.Derived.{large_dim};
ghost use Rattle.rx_net.specs.Limits.{most_terms};
ghost use Rattle.rx_net.specs.Tags.{negative_part, positive_part, low_of, high_of, noise_of};
ghost use Rattle.rx_block.specs.Combine.{AreCellsOf, AreBlocksOf, combined, mixed_words, degree_in, noise_in};
ghost use Rattle.rx_block.specs.Noise.{KeepsSum};

use crate::{Block, TagFault};
use rx_lwe::{add_scaled, unit};
use rx_net::{TagSums, Term};
use rx_params::{Params, noise_limit, plaintexts};

/// The weighted sum of blocks, with a constant added: a term names its block by the place in `blocks`.
/// There are at most 16 terms; the blocks and `out` have the words of the set's blocks. The degree of the
/// sum is the greatest number that it may give, and its noise tag the sum of the tags, each times the size
/// of its weight: so it keeps the weighted sum of what the blocks keep. After a refusal `out` is as before.
/// Source: handbook, shortint (degree, noise level); the limits `docs/NOISE.md`.
pub fn combine(
    p: &Params,
    blocks: &[Block],
    terms: &[Term],
    constant: i16,
    out: &mut Block,
) -> Result<(), TagFault>
    requires fields { FieldsInRange p.now }
    requires few { length terms.now ≤ most_terms }
    requires cells { AreCellsOf blocks.now terms.now }
    requires words { AreBlocksOf p.now blocks.now }
    requires room { length out.old.words ≡ large_dim p.now + 1 }
    ensures exact { MatchResult result
        (λ _. combined p.now blocks.now terms.now constant ≡ Ok out.new)
        (λ fault. (combined p.now blocks.now terms.now constant ≡ Err fault)
        × (out.new ≡ out.old)) }
    ensures size { length out.new.words ≡ length out.old.words }
    ensures keeps { OnOk result (KeepsSum p.now blocks.now terms.now constant out.new) }
{
    let TagSums { low, high, noise } = tag_sums(blocks, terms, constant);
    if low < 0 || high > greatest_number(p.message_bits) {
        return Err(TagFault::Range { low, high });
    }
    if noise > u32::from(noise_limit(p.message_bits)) {
        return Err(TagFault::Noise { sum: noise });
    }
    mix_into(p, blocks, terms, constant, out.words.as_mut_slice());
    out.degree = high as u8;
    out.noise = noise as u8;
    Ok(())
}

/// The greatest number that a block holds.
fn greatest_number(message_bits: u32) -> i32
    requires { (message_bits ≡ 2) ⊎ (message_bits ≡ 3) }
    ensures { result ≡ pos (plaintexts message_bits - 1) }
{
    i32::from(plaintexts(message_bits)) - 1
}

/// The words of a weighted sum of blocks, with a constant added, whatever their tags are. The blocks and
/// `out` have the words of the set's blocks.
pub fn mix_into(p: &Params, blocks: &[Block], terms: &[Term], constant: i16, out: &mut [u64])
    requires fields { FieldsInRange p.now }
    requires cells { AreCellsOf blocks.now terms.now }
    requires words { AreBlocksOf p.now blocks.now }
    requires room { length out.old ≡ large_dim p.now + 1 }
    ensures { out.new ≡ mixed_words p.now blocks.now terms.now constant }
{
    out.fill(0);
    for term in terms {
        let words = blocks[term.cell as usize].words.as_slice();
        add_scaled(out, i64::from(term.weight), words);
    }
    let units = i64::from(constant).cast_unsigned();
    let message = unit(p.message_bits).wrapping_mul(units);
    let body = out.len() - 1;
    out[body] = out[body].wrapping_add(message);
}

/// What the tags of blocks say of a weighted sum of them.
fn tag_sums(blocks: &[Block], terms: &[Term], constant: i16) -> TagSums
    requires few { length terms.now ≤ most_terms }
    requires cells { AreCellsOf blocks.now terms.now }
    ensures low { result.low ≡ low_of (degree_in blocks.now) constant terms.now }
    ensures high { result.high ≡ high_of (degree_in blocks.now) constant terms.now }
    ensures noise { result.noise ≡ noise_of (noise_in blocks.now) terms.now }
{
    let mut sums = TagSums::of_constant(constant);
    for term in terms {
        let block = &blocks[term.cell as usize];
        sums = sums.with(term.weight, block.degree, block.noise);
    }
    sums
}
