//! The law of the pair file, as a contract can name it.
ghost use Rattle.rx_pairs.specs.Laws.{PairFileLaws};

/// A pair file is read exactly where it reads as what is read, and what is written reads as what was written. No file is
/// both a pair file and a server file: each is of another format to the reader of the other.
pub fn pair_file_laws()
    ensures { PairFileLaws }
{}
