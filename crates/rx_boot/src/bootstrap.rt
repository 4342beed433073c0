//! The bootstrap (CJP, programmable bootstrapping).
ghost use Rattle.std.specs.Prelude.{◌≡◌, ◌+◌, length};
ghost use Rattle.rx_laws.specs.Decode.{plaintexts};
ghost use Rattle.rx_params.specs.Derived.{large_dim};
ghost use Rattle.rx_boot.specs.Bootstrap.{bootstrapped};
ghost use Rattle.rx_boot.specs.Noise.{LooksUp};

use crate::rotation::rotate;
use crate::{BootScratch, ServerKey};
use rx_glwe::extract_into;
use rx_lwe::switch_into;

/// Looks up a table in a ciphertext under the large key: writes a ciphertext of the table's entry at the
/// number that `input` holds into `out`. The table has `4^message_bits` entries, and both ciphertexts have
/// `glwe_dim * poly_size + 1` words, whichever they are. Where the input holds a number within the greatest
/// noise that a lookup may be given, the output holds its entry within the noise of a bootstrap (docs/NOISE.md,
/// The theorem). It takes no memory.
pub fn bootstrap_into(
    scratch: &mut BootScratch,
    key: &ServerKey,
    table: &[u8],
    input: &[u64],
    out: &mut [u64],
)
    requires room { scratch.old ≡ key.now.params }
    requires table_size { length table.now ≡ plaintexts key.now.params.message_bits }
    requires input_size { length input.now ≡ large_dim key.now.params + 1 }
    requires out_size { length out.old ≡ large_dim key.now.params + 1 }
    ensures output { out.new ≡ bootstrapped key.now table.now input.now }
    ensures looks_up { LooksUp key.now table.now input.now out.new }
    ensures room_stays { scratch.new ≡ key.now.params }
{
    let p = &key.params;
    let switched = scratch.switched.as_mut_slice();
    let away = scratch.away.as_mut_slice();
    let turning = scratch.turning.as_mut_slice();
    switch_into(&key.switch, input, switched);
    rotate(
        &mut scratch.product,
        p,
        key.boot.words(),
        table,
        switched,
        away,
        turning,
    );
    extract_into(p, turning, out);
}
