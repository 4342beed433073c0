//! Tables looked up in blocks.
ghost use Rattle.std.specs.Prelude.{◌≡◌, ◌+◌, ◌<◌, length};
ghost use Rattle.rx_laws.specs.Decode.{plaintexts};
ghost use Rattle.rx_params.specs.Derived.{large_dim};
ghost use Rattle.rx_block.specs.Lookup.{looked_up};
ghost use Rattle.rx_block.specs.Noise.{KeepsEntry};

use crate::Block;
use rx_boot::{BootScratch, ServerKey, bootstrap_into};
use rx_net::greatest_between;

/// Looks a table of `4^message_bits` entries up in a block: `out` becomes a block of the table's entry at
/// the block's number, with a noise tag of 1 and the greatest entry up to the block's degree as its degree.
/// Where the block keeps a number and that degree is below `4^message_bits`, `out` keeps the number's entry.
/// Both have the words of the set's blocks. Source: handbook, shortint (lookup tables).
pub fn lookup(
    scratch: &mut BootScratch,
    key: &ServerKey,
    block: &Block,
    table: &[u8],
    out: &mut Block,
)
    requires room { scratch.old ≡ key.now.params }
    requires table { length table.now ≡ plaintexts key.now.params.message_bits }
    requires degree { block.now.degree < plaintexts key.now.params.message_bits }
    requires words { length block.now.words ≡ large_dim key.now.params + 1 }
    requires out { length out.old.words ≡ large_dim key.now.params + 1 }
    ensures block { out.new ≡ looked_up key.now table.now block.now }
    ensures size { length out.new.words ≡ length out.old.words }
    ensures room { scratch.new ≡ key.now.params }
    ensures keeps { KeepsEntry key.now table.now block.now out.new }
{
    let words = block.words.as_slice();
    bootstrap_into(scratch, key, table, words, out.words.as_mut_slice());
    out.degree = greatest_between(table, 0, usize::from(block.degree));
    out.noise = 1;
}
