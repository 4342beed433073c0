//! Nets (docs/FORMATS.md, Nets): straight programs over cells. A cell holds a number, and has a degree and a
//! noise tag as a block has in the TFHE-rs handbook, shortint (degree, noise level).
#![tactic(auto)]

mod evaluate;
mod fault;
mod job_words;
mod laws;
mod legality;
mod lists;
mod net;
mod pen;
mod tag_sums;
mod tags;
mod term;
#[cfg(test)]
mod tests;

pub use evaluate::{are_within, depth, plain};
pub use fault::NetFault;
pub use job_words::JobWords;
pub use laws::{net_laws, number_laws};
pub use legality::{MOST_INPUTS, MOST_JOBS, MOST_OUTPUTS, MOST_TERMS, legal};
pub use lists::{Cells, Jobs, NetInputs, NetOutputs, Table, Terms};
pub use net::{Job, Net, NetInput, NetOutput};
pub use pen::{NetPen, PenError};
pub use tag_sums::TagSums;
pub use tags::greatest_between;
pub use term::Term;
