//! The kit of planners (docs/PLANNERS.md). A planner adds jobs to the net of a pen and gives cells of it. Its
//! one contract is `Planned`: which cells, of what degrees, after how many jobs, how deep, and what they hold
//! for every input. The functions here add one job, or one for each block, and speak of whole numbers: no
//! weight and no list of terms is seen.
#![tactic(auto)]

mod blocks;
mod differences;
mod jobs;
mod rows;
mod sums;
mod tables;

pub use blocks::{against, blockwise, each};
pub use differences::{difference, difference_with_borrow};
pub use jobs::{fixed, pair, single, triple};
pub use rows::{carry_row, digit_row, nought, product_row};
pub use sums::sum;
pub use tables::{carry_table, digit_table, table_of, unit_of, zero_table};
