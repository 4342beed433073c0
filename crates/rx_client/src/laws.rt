//! The laws of items that keep numbers, as contracts can name them.
ghost use Rattle.rx_client.specs.Laws.{EncryptingLaws, ReadingLaws};

use rx_block::keeps_laws;

/// Items whose blocks keep digits decrypt to the digits' numbers, and none of their blocks is damaged.
pub fn reading_laws()
    ensures { ReadingLaws }
{
    keeps_laws();
}

/// The items of encrypted lines keep the lines' digits, and these are the digits of the lines' numbers.
pub fn encrypting_laws()
    ensures { EncryptingLaws }
{}
