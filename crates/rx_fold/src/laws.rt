//! The laws of folded nets.
ghost use Rattle.rx_fold.specs.Laws.{FoldLaws};

/// What the folded net of a legal net is.
pub fn fold_laws()
    ensures { FoldLaws }
{}
