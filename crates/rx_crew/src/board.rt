//! The limits of a run: its workers, and the words of its board.
ghost use Rattle.std.specs.Prelude.{◌≡◌, ◌≤◌};
ghost use Rattle.rx_params.specs.Acceptance.{Accepts};
ghost use Rattle.rx_net.specs.Limits.{most_jobs};
ghost use Rattle.rx_crew.specs.Board.{board_words};

use rx_params::Params;

/// The most workers of a run.
pub const MOST_WORKERS: u32 = 64;

/// The most words of a board.
pub const MOST_BOARD_WORDS: u64 = 1 << 25;

/// How many words of 64 bits the board of so many jobs of a set has: one, and for each job its words, its state and its
/// count.
#[tactic(auto, unfolding(rx_params::specs::Derived::large_dim))]
pub fn board_words(params: &Params, jobs: usize) -> u64
    requires accepted { Accepts params.now }
    requires jobs { jobs ≤ most_jobs }
    ensures { result ≡ board_words params.now jobs }
{
    1 + jobs as u64 * (u64::from(params.large_dim()) + 3)
}
