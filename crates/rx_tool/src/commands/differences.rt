//! Differences of files from a set of parameters.
ghost use Rattle.std.specs.Prelude.{◌≡◌, length};
ghost use Rattle.rx_tool.specs.Answers.{Yields};
ghost use Rattle.rx_tool.specs.Refusals.{space_difference, set_difference};
ghost use Rattle.rx_tool.specs.Run.{AreOfSet};
ghost use Rattle.rx_tool.specs.Words.{texts};

use crate::commands::shared::stop_for;
use crate::outcome::Stop;
use rx_codec::Cipher;
use rx_params::Params;
use rx_report::{Difference, first_difference, mismatch};
use std::alloc::Global;

/// Whether the file of this name has the message bits of the set as its space.
pub fn check_space(alloc: Global, set: &Params, name: &str, space: u32) -> Result<(), Stop>
    ensures { Yields (space_difference name.now set.now space)
        (λ _. space ≡ set.now.message_bits) result }
{
    if set.message_bits == space {
        return Ok(());
    }
    let difference = Difference {
        field: 1,
        first: set.message_bits,
        other: space,
    };
    Err(stop_for(mismatch(alloc, name, difference)))
}

/// Whether all ciphers are of the set, each of the name at its place.
pub fn check_sets(
    alloc: Global,
    set: &Params,
    names: &[String],
    ciphers: &[Cipher],
) -> Result<(), Stop>
    requires { length ciphers.now ≡ length names.now }
    ensures { Yields (set_difference set.now (texts names.now) ciphers.now)
        (λ _. AreOfSet set.now ciphers.now) result }
{
    for (place, cipher) in ciphers.iter().enumerate() {
        if let Some(difference) = first_difference(set, &cipher.params) {
            return Err(stop_for(mismatch(alloc, names[place].as_str(), difference)));
        }
    }
    Ok(())
}
