//! Workers that drain a board: each has a seat, a desk and a kernel of its own. They are made before the board is shared,
//! run at once, and their seats are joined afterwards (docs/BOARD.md).
#![tactic(auto)]

mod crew;
mod draining;
mod worker;

pub use crew::{start, work};
pub use worker::{SureKernel, Worker};
