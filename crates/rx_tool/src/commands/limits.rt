//! The limits of a run: its workers, its jobs, and the words of its board.
ghost use Rattle.std.specs.Prelude.{◌≡◌};
ghost use Rattle.rx_params.specs.Acceptance.{Accepts};
ghost use Rattle.rx_tool.specs.Answers.{Yields};
ghost use Rattle.rx_tool.specs.Refusals.{IsWithinLimits, limits_refusal};

use crate::commands::shared::stop_for;
use crate::outcome::Stop;
use rx_crew::{MOST_BOARD_WORDS, MOST_WORKERS, board_words};
use rx_net::MOST_JOBS;
use rx_params::Params;
use rx_report::{many_jobs, wide_board, wrong_workers};
use std::alloc::Global;

/// Whether the workers are from 1 to 64, then whether the jobs are at most 65,536, and then whether the board of
/// so many jobs is within its limit.
pub fn check_limits(alloc: Global, set: &Params, workers: u64, jobs: u64) -> Result<(), Stop>
    requires { Accepts set.now }
    ensures { Yields (limits_refusal set.now workers jobs)
        (λ _. IsWithinLimits set.now workers jobs) result }
{
    if workers < 1 || workers > u64::from(MOST_WORKERS) {
        return Err(stop_for(wrong_workers(alloc, workers)));
    }
    if jobs > MOST_JOBS as u64 {
        return Err(stop_for(many_jobs(alloc, jobs)));
    }
    let words = board_words(set, jobs as usize);
    if words > MOST_BOARD_WORDS {
        return Err(stop_for(wide_board(alloc, words)));
    }
    Ok(())
}
