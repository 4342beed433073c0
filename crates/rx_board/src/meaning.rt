//! What the rule of a board means.
ghost use Rattle.rx_board.specs.Meaning.{LawsMean};

/// The rule counts over all views. This law says what that means of single views and jobs: a taken job is held by one
/// view and no other, a present job was run once and stands in one list of jobs run, its words are those of its cell,
/// and the count of a job is the number of its uses of job cells that are not credited.
pub fn laws_mean()
    ensures { LawsMean }
{}
