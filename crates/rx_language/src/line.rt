//! The lines of a circuit, and what is known of each.
use crate::{NameKind, Word};
use rx_list::Listed;
use rx_params::Name;

/// Names of arguments.
pub type Names = Listed<Name>;

/// The places of lines.
pub type Places = Listed<usize>;

/// A line of a circuit after line 1. What is said of its parts holds of the lines of a `Circuit`.
#[derive(Debug, Drop)]
pub struct Line {
    /// The first word.
    pub word: Word,
    /// The name that the line defines, or that `out` gives out.
    pub name: Name,
    /// The names of the arguments; none for `out`.
    pub args: Names,
    /// The numeral of `const`, `constw`, `shl` and `shr`, else 0.
    pub number: u64,
    /// The stated width, 0 where none is stated.
    pub width: u32,
}

/// What is known of a line by the lines before it.
#[derive(Debug, Drop)]
pub struct Step {
    /// The kind of the name that the line defines, or that `out` gives out.
    pub kind: NameKind,
    /// The places of the lines that define its arguments, in their order, counted from 0 for the line after line 1; of
    /// `out` the place of the line that defines the name.
    pub sources: Places,
}
