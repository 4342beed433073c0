//! The two directions, and blocks in the order of each.
ghost use Rattle.std.specs.Prelude.{◌≡◌, IfOk};
ghost use Rattle.rx_shift.specs.Shifts.{opposite, in_order};

use std::alloc::{AllocError, Global};

/// Where a shift moves the bits of a number to.
#[derive(Clone, Copy)]
pub(crate) enum Direction {
    /// To the higher places.
    Up,
    /// To the lower places.
    Down,
}

impl Direction {
    /// The other direction.
    pub(crate) fn opposite(self) -> Direction
        ensures { result ≡ opposite self }
    {
        match self {
            Direction::Up => Direction::Down,
            Direction::Down => Direction::Up,
        }
    }
}

/// The blocks in the order in which a shift passes them.
pub(crate) fn in_order(
    alloc: Global,
    direction: Direction,
    blocks: &[u32],
) -> Result<Vec<u32>, AllocError>
    ensures { IfOk result (λ ordered. ordered.items ≡ in_order direction blocks.now) }
{
    let mut ordered = Vec::from_slice(alloc, blocks)?;
    match direction {
        Direction::Up => {}
        Direction::Down => ordered.reverse(),
    }
    Ok(ordered)
}
