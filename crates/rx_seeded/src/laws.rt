//! The laws of seeded files, as a contract can name them.
ghost use Rattle.rx_seeded.specs.Laws.{SeededFileLaws};

use rx_boot::seeded_key_laws;
use rx_codec::file_laws;

/// A file of either version is read exactly where it reads as what is read; and a value with a seeded file has no mask
/// word that the seed does not draw.
pub fn seeded_file_laws()
    ensures { SeededFileLaws }
{
    seeded_key_laws();
    file_laws();
}
