//! What is done to two numbers, block by block.

/// A sum, a difference, or the second number with its sign turned, for which the first is not looked at.
#[derive(Clone, Copy, Debug, PartialEq, Eq)]
pub enum Operation {
    /// `a + b`; what goes from block to block are carries.
    Sum,
    /// `a - b`; what goes from block to block are borrows.
    Difference,
    /// `-b`; what goes from block to block are borrows.
    Negation,
}
