//! The bootstrap by pairs of key bits.
ghost use Rattle.std.specs.Prelude.{◌≡◌, ◌+◌, length};
ghost use Rattle.rx_laws.specs.Decode.{plaintexts};
ghost use Rattle.rx_params.specs.Derived.{large_dim};
ghost use Rattle.rx_multi.specs.PairBootstrap.{pair_bootstrapped, PairLooksUp};

use crate::turns::rotate;
use crate::{PairKey, PairScratch};
use rx_glwe::extract_into;
use rx_lwe::switch_into;

/// Looks up a table in a ciphertext under the large key, as `rx_boot::bootstrap_into` does, by half the turns:
/// writes a ciphertext of the table's entry at the number that `input` holds into `out`. The table has
/// `4^message_bits` entries, and both ciphertexts have `glwe_dim * poly_size + 1` words, whichever they are.
/// Where the input holds a number within the greatest noise that a lookup by pairs may be given, the output
/// holds its entry within the noise of a bootstrap by pairs (docs/NOISE.md, The theorem). It takes no memory.
pub fn pair_bootstrap_into(
    scratch: &mut PairScratch,
    key: &PairKey,
    table: &[u8],
    input: &[u64],
    out: &mut [u64],
)
    requires room { scratch.old ≡ key.now.params }
    requires table_size { length table.now ≡ plaintexts key.now.params.message_bits }
    requires input_size { length input.now ≡ large_dim key.now.params + 1 }
    requires out_size { length out.old ≡ large_dim key.now.params + 1 }
    ensures output { out.new ≡ pair_bootstrapped key.now table.now input.now }
    ensures looks_up { PairLooksUp key.now table.now input.now out.new }
    ensures room_stays { scratch.new ≡ key.now.params }
{
    let p = &key.params;
    let switched = scratch.switched.as_mut_slice();
    let turning = scratch.turning.as_mut_slice();
    switch_into(key.switch(), input, switched);
    rotate(&mut scratch.turns, p, key.rows(), table, switched, turning);
    extract_into(p, turning, out);
}
