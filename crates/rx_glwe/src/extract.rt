//! The extraction of coefficient 0 (CJP, sample extraction).
ghost use Rattle.std.specs.Prelude.{◌≡◌, ◌+◌, ◌<◌, length};
ghost use Rattle.rx_laws.specs.Words.{of_words, AreWords};
ghost use Rattle.rx_ring.specs.Polynomial.{turned};
ghost use Rattle.rx_params.specs.Acceptance.{FieldsInRange};
ghost use Rattle.rx_params.specs.Derived.{large_dim};
ghost use Rattle.rx_glwe.specs.Sizes.{glwe_size};
ghost use Rattle.rx_glwe.specs.External.{extracted_words};

use rx_params::Params;

/// Writes coefficient 0 of a ciphertext over polynomials into `out`, as a ciphertext over words under the
/// flattened key: `glwe_dim * poly_size` mask words and the body.
#[tactic(auto, unfolding(rx_params::specs::Derived::large_dim))]
pub fn extract_into(p: &Params, glwe: &[u64], out: &mut [u64])
    requires fields { FieldsInRange p.now }
    requires glwe { length glwe.now ≡ glwe_size p.now }
    requires room { length out.old ≡ large_dim p.now + 1 }
    ensures { out.new ≡ extracted_words p.now glwe.now }
{
    let n = p.poly_size as usize;
    let count = p.glwe_dim as usize;
    for j in 0..count {
        extract_mask(&glwe[j * n..(j + 1) * n], &mut out[j * n..(j + 1) * n]);
    }
    out[count * n] = glwe[count * n];
}

/// Writes what meets each bit of a key polynomial at coefficient 0 of its product with a mask polynomial.
fn extract_mask(mask: &[u64], out: &mut [u64])
    requires some { 0 < length mask.now }
    requires same { length mask.now ≡ length out.old }
    ensures { AreWords (length out.old) (λ i. turned (length out.old) (of_words mask.now) i 0)
        out.new }
{
    out[0] = mask[0];
    for i in 1..mask.len() {
        out[i] = mask[mask.len() - i].wrapping_neg();
    }
}
