//! One part of a weighted sum.
ghost use Rattle.std.specs.Prelude.{◌≡◌, pos, neg_ℤ, ◌*ℤ◌, ◌≤ℤ◌};

/// A cell and its weight in a sum.
#[derive(Clone, Copy, Debug, PartialEq, Eq)]
pub struct Term {
    /// The number of the cell, from 0; in a legal net that of an earlier one.
    pub cell: u32,
    /// How often the number of the cell counts, -128 to 127.
    pub weight: i8,
}

/// A weight times a number, at most 32,640 in size.
pub(crate) fn scaled(weight: i8, number: u8) -> i32
    ensures value { result ≡ weight *ℤ pos number }
    ensures low { neg_ℤ (pos 32640) ≤ℤ result }
    ensures high { result ≤ℤ pos 32640 }
{
    i32::from(weight) * i32::from(number)
}
