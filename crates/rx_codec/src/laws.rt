//! The law of the formats.
ghost use Rattle.rx_codec.specs.Laws.{FileLaws};

use rx_net::net_laws;

/// A file is read exactly where it reads as what is read, and what is written reads as what was written. So what is
/// encoded and decoded again is the same value; today what is decoded and encoded again gives the same bytes, too.
pub fn file_laws()
    ensures { FileLaws }
{
    net_laws();
}
