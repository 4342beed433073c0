//! A value and its kind.
use rx_language::NameKind;

/// A value of a kind, below two to its bits; of a number with a sign its residue.
#[derive(Clone, Copy, Debug, PartialEq, Eq)]
pub struct Operand {
    pub kind: NameKind,
    pub value: u64,
}
