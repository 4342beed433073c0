//! Rows whose masks are drawn, from their bodies.
ghost use Rattle.std.specs.Prelude.{◌≡◌, ◌++◌, length};
ghost use Rattle.rx_torus.specs.Streams.{drawn_by};
ghost use Rattle.rx_params.specs.Acceptance.{FieldsInRange};
ghost use Rattle.rx_params.specs.Derived.{large_dim};
ghost use Rattle.rx_lwe.specs.Seeded.{drawn_words};
ghost use Rattle.rx_glwe.specs.Sizes.{glwe_size};

use rx_lwe::draw_words;
use rx_params::Params;
use rx_torus::Stream;

/// Writes a row into `out`: `glwe_dim` mask polynomials, the next words of `mask`, and then this body of
/// `poly_size` words. `out` has `glwe_dim + 1` polynomials.
#[tactic(auto, unfolding(rx_params::specs::Derived::large_dim))]
pub fn row_of_body(p: &Params, mask: &mut Stream, body: &[u64], out: &mut [u64])
    requires fields { FieldsInRange p.now }
    requires body { length body.now ≡ p.now.poly_size }
    requires room { length out.old ≡ glwe_size p.now }
    ensures row { out.new ≡ drawn_words (large_dim p.now) mask.old ++ body.now }
    ensures mask_after { mask.new ≡ drawn_by (large_dim p.now) mask.old }
{
    let (masks, last) = out.split_at_mut((p.glwe_dim * p.poly_size) as usize);
    draw_words(mask, masks);
    last.copy_from_slice(body);
}
