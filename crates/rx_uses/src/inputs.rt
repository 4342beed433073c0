//! How many cells the inputs of a net have.
ghost use Rattle.std.specs.Prelude.{◌≡◌, ◌≤◌};
ghost use Rattle.rx_net.specs.Cells.{input_cells};
ghost use Rattle.rx_net.specs.Legal.{Legal};

use rx_net::Net;

/// The number of input cells of a legal net, at most 2,048. Job `j` has the cell that follows them by `j`.
pub fn input_cells(net: &Net) -> u32
    requires { Legal net.now }
    ensures count { result ≡ input_cells net.now.space net.now.inputs }
    ensures few { result ≤ 2048 }
{
    let mut count = 0;
    for input in net.inputs.as_slice() {
        count += input.kind.block_count(net.space, input.bits);
    }
    count
}
