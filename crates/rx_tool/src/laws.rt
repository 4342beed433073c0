//! The laws of the whole way, for nets and for circuits, and of both versions of files, as contracts can name them.
ghost use Rattle.rx_tool.specs.WholeWay.{WholeWayLaws};
ghost use Rattle.rx_tool.specs.CircuitWay.{CircuitWayLaws};
ghost use Rattle.rx_tool.specs.BothWays.{BothWaysLaws};
ghost use Rattle.rx_tool.specs.FoldWay.{FoldWayLaws};

use rx_boot::server_key_laws;
use rx_client::{encrypting_laws, reading_laws};
use rx_codec::file_laws;
use rx_crew::keeping_laws;
use rx_fold::fold_laws;
use rx_seeded::seeded_file_laws;
use rx_server::server_laws;

/// What a client encrypts, a server evaluates under the client's server key and the client decrypts, are the
/// numbers that the net gives for the plain value lines; and no block is damaged.
pub fn whole_way_laws()
    ensures { WholeWayLaws }
{
    server_key_laws();
    encrypting_laws();
    keeping_laws();
    server_laws();
    reading_laws();
}

/// The same for a circuit and a net that is compiled of it: where the value lines hold the circuit's inputs, the
/// client decrypts the circuit's values; and no block is damaged.
pub fn circuit_way_laws()
    ensures { CircuitWayLaws }
{
    whole_way_laws();
}

/// What `migrate` writes `expand` gives back, and the other way round.
pub fn both_ways_laws()
    ensures { BothWaysLaws }
{
    file_laws();
    seeded_file_laws();
}

/// A net that is compiled of a circuit stays one when it is folded, so the whole way of a circuit holds of it; and a
/// run with either net writes the same file.
pub fn fold_way_laws()
    ensures { FoldWayLaws }
{
    fold_laws();
    file_laws();
    seeded_file_laws();
    server_laws();
}
