//! The digits of a polynomial, level by level (CJP, gadget decomposition).
ghost use Rattle.std.specs.Prelude.{◌≡◌, ◌*◌, length};
ghost use Rattle.rx_params.specs.Acceptance.{FieldsInRange};
ghost use Rattle.rx_glwe.specs.Levels.{AreLevels};

use rx_params::Params;
use rx_torus::level_digits;

/// Writes the digits of the words of a polynomial: for each of `pbs_level` levels, the highest first, the
/// polynomial of the digits of that level.
pub(crate) fn write_digits(p: &Params, words: &[u64], out: &mut [i64])
    requires fields { FieldsInRange p.now }
    requires words { length words.now ≡ p.now.poly_size }
    requires room { length out.old ≡ p.now.pbs_level * p.now.poly_size }
    ensures { AreLevels p.now (p.now.poly_size) words.now out.new }
{
    let n = words.len();
    for level in 0..p.pbs_level {
        let start = level as usize * n;
        let digits = &mut out[start..start + n];
        level_digits(words, p.pbs_base_log, p.pbs_level, level, digits);
    }
}
