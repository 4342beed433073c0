//! Weighted sums of operands that stand one after another.
ghost use Rattle.std.specs.Prelude.{◌≡◌, ℕ, ◌+◌, ◌*◌, ◌<◌, ◌≤◌, length, get_or};
ghost use Rattle.rx_laws.specs.Words.{words_below};
ghost use Rattle.rx_params.specs.Derived.{large_dim};
ghost use Rattle.rx_params.specs.Acceptance.{FieldsInRange};
ghost use Rattle.rx_crew.specs.Kernel.{mixed_operands};

use rx_lwe::{add_scaled, unit};
use rx_net::Term;
use rx_params::Params;

/// Writes the weighted sum of the operands of at most 16 terms, with a constant, in units, added to its body. Each has the
/// words of a block.
pub(crate) fn mix_operands(
    p: &Params,
    terms: &[Term],
    constant: i16,
    operands: &[u64],
    out: &mut [u64],
)
    requires fields { FieldsInRange p.now }
    requires few { length terms.now ≤ 16 }
    requires operands { length operands.now ≡ length terms.now * (large_dim p.now + 1) }
    requires room { length out.old ≡ large_dim p.now + 1 }
    ensures { out.new ≡ words_below (large_dim p.now + 1)
        (mixed_operands p.now terms.now constant operands.now) }
{
    out.fill(0);
    let size = out.len();
    for (place, term) in terms.iter().enumerate() {
        let words = words_at(operands, place, size);
        add_scaled(out, i64::from(term.weight), words);
    }
    let units = i64::from(constant).cast_unsigned();
    let message = unit(p.message_bits).wrapping_mul(units);
    let body = out.len() - 1;
    out[body] = out[body].wrapping_add(message);
}

/// The words of one of some operands, which have so many words each.
fn words_at(operands: &[u64], place: usize, size: usize) -> &[u64]
    requires { place * size + size ≤ length operands.now }
    ensures size { length result.now ≡ size }
    ensures words { (i : ℕ) → i < size
        → get_or result.now i 0 ≡ get_or operands.now (place * size + i) 0 }
{
    let start = place * size;
    &operands[start..start + size]
}
