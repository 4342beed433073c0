//! A board: a table of atomic words on which workers claim the jobs of a net, write the cells of those they hold and
//! publish them, without a lock. Each cell is written once, and contracts say which words stand in it (docs/BOARD.md).
#![tactic(auto)]

mod board;
mod closed;
mod desk;
mod kernel;
mod meaning;
mod plays;
mod seat;
#[cfg(test)]
mod tests;
mod view;

pub use board::Board;
pub use closed::Closed;
pub use desk::Desk;
pub use kernel::{Kernel, KernelFault};
pub use meaning::laws_mean;
pub use seat::Seat;
pub use view::{Found, Held, Plan, Step, View};
