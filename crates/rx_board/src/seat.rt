//! A seat that only a board makes.
use crate::view::RawSeat;
use std::marker::Model;

/// One caller's place at a board: between calls it holds no job. A board makes the first and splits the others off it,
/// and nothing else makes one.
#[derive(Drop)]
pub struct Seat {
    /// The seat of the table.
    pub(crate) inner: RawSeat,
    /// Each job with a number below this is known.
    pub(crate) below: u32,
}

impl Model for Seat {
    ghost use Rattle.std.specs.Prelude.{◌≡◌, ◌<◌, ℕ, Contains, None, []};
    ghost use Rattle.rx_board.specs.Seats.{Standing};

    ghost Value = { Standing };

    ghost view = { λ t. record {
      table_id = t.inner.table_id;
      id = t.inner.id;
      view = t.inner.me.0;
    } };

    ghost invariant = { λ t. (t.inner.me.0.held ≡ None) × (t.inner.me.1 ≡ [])
        × ((j : ℕ) → j < t.below → Contains t.inner.me.0.known j) };
}
