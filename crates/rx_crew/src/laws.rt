//! The laws of evaluated cells, as a contract can name them.
ghost use Rattle.std.specs.Prelude.{◌≡◌};
ghost use Rattle.rx_net.specs.Legal.{Legal};
ghost use Rattle.rx_crew.specs.Evaluation.{AreInputs};
ghost use Rattle.rx_crew.specs.Noise.{KeepsCells};
ghost use Rattle.rx_crew.specs.Laws.{EvaluationLaws, KeepingLaws};

use rx_block::{Block, keeps_laws};
use rx_boot::{ServerKey, lookup_laws};
use rx_net::Net;

/// What is evaluated has a block for each cell: that of an input as it was given, that of a job with the
/// degree that the net declares and a noise tag of 1, all with the words of the cells.
pub fn evaluation_laws()
    ensures { EvaluationLaws }
{}

/// Under an accepted set, for every secret of which the key is a server key, each cell of a legal net keeps
/// the value that the net gives it, where the inputs keep theirs.
pub fn keeping_laws()
    ensures { KeepingLaws }
{
    lookup_laws();
    keeps_laws();
}

/// The same of a server key that is there: its set is accepted, and it has the rows of its set.
pub(crate) fn cells_keep(key: &ServerKey, net: &Net, inputs: &[Block])
    requires legal { Legal net.now }
    requires space { net.now.space ≡ key.now.params.message_bits }
    requires inputs { AreInputs key.now.params net.now inputs.now }
    ensures { KeepsCells key.now net.now inputs.now }
{
    keeping_laws();
    // Who reads a field of the key knows that its set is accepted, and how many rows it has.
    let _ = &key.params;
}
