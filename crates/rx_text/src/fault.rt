//! What is wrong with a line of a text.

/// Why a line is wrong. A reader tries the causes of its format in this order, as its own contract says.
#[derive(Clone, Copy, Debug, PartialEq, Eq)]
pub enum LineCause {
    /// The line has no spelling of its format, or has no line feed at its end, or is missing.
    Form,
    /// A numeral is outside its range.
    Number,
    /// A name that no earlier line defines.
    Unknown,
    /// A name of another kind than the line wants.
    Kind,
    /// A name that an earlier line has.
    Again,
    /// One line, input or output more than a text may have.
    Limit,
}

/// The first line of a text that is wrong, counted from 1, and why.
#[derive(Clone, Copy, Debug, PartialEq, Eq)]
pub struct LineFault {
    /// From 1; where a line is missing, the number that it would have.
    pub line: u32,
    /// The first cause that the line has.
    pub cause: LineCause,
}
