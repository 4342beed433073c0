//! The laws of use lists.
ghost use Rattle.rx_uses.specs.Laws.{UseLaws};

/// The use lists of a net have each term that names a cell, and nothing else: each node once, in one list, in the order
/// of jobs and places.
pub fn use_laws()
    ensures { UseLaws }
{}
