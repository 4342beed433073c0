//! Why a command is refused, and the line that reports it. Source: `docs/FORMATS.md`, Reports.
#![tactic(auto)]

mod difference;
mod refusal;
mod reports;

pub use difference::{Difference, first_difference};
pub use refusal::{Kind, Refusal};
pub use reports::{
    damaged, malformed_binary, malformed_text, many_jobs, mismatch, not_accepted, too_long,
    wide_board, wrong_input, wrong_mask, wrong_width, wrong_workers,
};

#[cfg(test)]
mod tests;
