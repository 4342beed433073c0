//! Sums and differences of encrypted numbers: carries and borrows by a prefix of states, or by a balanced
//! tree of them where only what goes out at the end is wanted.
#![tactic(auto)]

mod lookups;
mod operation;
mod planners;
mod prefix;
mod states;
mod tables;
mod tree;

pub use operation::Operation;
pub use planners::{add, borrow_out, carry_out, neg, passed_out, sub};
pub use states::first_states;
pub use tree::top;
