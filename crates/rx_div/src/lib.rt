//! The planner of division (docs/PLANNERS.md). It adds jobs to the net of a pen, and appends the
//! cells of the quotient and of the remainder to two lists.
#![tactic(auto)]

mod digits;
mod division;
mod steps;
mod taking;

pub use division::div_rem;
