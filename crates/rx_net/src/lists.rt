//! The lists that nets are made of.
use crate::net::{Job, NetInput, NetOutput};
use crate::term::Term;
use rx_list::Listed;

/// The terms of a job, at most 16 in a legal net.
pub type Terms = Listed<Term>;

/// The entries of a job's table, for the indices from 0, `4^space` of them in a legal net.
pub type Table = Listed<u8>;

/// Cells of a net, by their numbers from 0.
pub type Cells = Listed<u32>;

/// The inputs of a net, in order, at most 64 in a legal net.
pub type NetInputs = Listed<NetInput>;

/// The jobs of a net, in order, at most 65,536 in a legal net.
pub type Jobs = Listed<Job>;

/// The outputs of a net, in order, at most 64 in a legal net.
pub type NetOutputs = Listed<NetOutput>;
