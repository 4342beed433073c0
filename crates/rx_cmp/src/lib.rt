//! Selections and comparisons of numbers of blocks (docs/PLANNERS.md). Each adds jobs to the net of a pen,
//! and appends the cells of its result to a list.
#![tactic(auto)]

mod any;
mod equality;
mod extremes;
mod order;
mod selection;

pub use any::any_set;
pub use equality::{eq, ne};
pub use extremes::{max, min, smax, smin};
pub use order::{ge, gt, le, lt, sge, sgt, sle, slt};
pub use selection::select;
