//! Value files: named numbers, one a line.
use rx_params::{Kind, Name};
use std::marker::Model;

/// A line of a value file. What is said of its numbers and of its name holds of the lines of `Values`.
#[derive(Clone, Copy, Debug, PartialEq, Eq)]
pub struct ValueLine {
    /// An int or a bit.
    pub kind: Kind,
    /// No other line of the file has it.
    pub name: Name,
    /// 1 to 64 for an int, and 1 for a bit.
    pub bits: u32,
    /// Below two to the number of bits.
    pub value: u64,
}

/// The lines of a value file: at most 64, within their ranges, and no name twice.
#[derive(Debug, Drop)]
pub struct Values {
    pub(crate) lines: Vec<ValueLine>,
}

impl Model for Values {
    ghost use Rattle.std.specs.Prelude.{List};
    ghost use Rattle.rx_circuit.specs.declared.values.ValueLine.{ValueLine as Line};
    ghost use Rattle.rx_circuit.specs.Values.{AreValues};

    ghost Value = { List Line };

    ghost view = { λ v. v.lines.items };

    ghost invariant = { λ v. AreValues v.lines.items };
}

impl Values {
    ghost use Rattle.std.specs.Prelude.{◌≡◌};
    ghost use Rattle.rx_circuit.specs.Values.{AreValues};

    /// The lines in their order.
    pub fn lines(&self) -> &[ValueLine]
        ensures lines { result.now ≡ self.now }
        ensures values { AreValues self.now }
    {
        &self.lines
    }
}
