//! The laws of legal nets, and of numbers of several digits.
ghost use Rattle.rx_net.specs.Laws.{NetLaws, NumberLaws};

/// A net is legal exactly where it has no fault; a legal net has at most 67,584 cells, its jobs' numbers fit the types
/// that hold them, and no cell passes its degree; what a net extends; and the words of the cells.
pub fn net_laws()
    ensures { NetLaws }
{}

/// A number below `2^(message_bits·count)` is the number of its `count` digits to the base `2^message_bits`, and so many
/// digits are those of their number, which is below that power.
pub fn number_laws()
    ensures { NumberLaws }
{}
