//! The laws of blocks, as a contract can name them.
ghost use Rattle.rx_block.specs.Laws.{FreshLaws};
ghost use Rattle.rx_block.specs.NoiseLaws.{KeepsLaws};

use rx_boot::lookup_laws;

/// The phase of a fresh block is within the noise bound of its number times the unit, so the block decodes
/// to that number, and keeps it. Source: `docs/NOISE.md`.
pub fn fresh_laws()
    ensures { FreshLaws }
{}

/// A weighted sum of blocks that is not refused keeps the weighted sum of what they keep; a block that is
/// looked up keeps the table's entry, where the degree that it is given is below `4^message_bits`; and a block
/// decrypts to what it keeps. Source: `docs/NOISE.md`.
pub fn keeps_laws()
    ensures { KeepsLaws }
{
    lookup_laws();
}
