//! Nets: inputs, jobs and outputs.
use crate::lists::{Cells, Jobs, NetInputs, NetOutputs, Table, Terms};
use rx_params::{Kind, Name};

/// One bootstrap: the table is looked up at the weighted sum of earlier cells and the constant.
#[derive(Debug, Drop)]
pub struct Job {
    /// At most 16. A weight of 0 and a cell that is named twice are lawful.
    pub terms: Terms,
    /// Added to the sum of the terms.
    pub constant: i16,
    /// One entry for each index from 0 to `4^space - 1`, none of them above that.
    pub table: Table,
    /// The greatest entry that the sum can reach.
    pub degree: u8,
}

/// A named number that a net is given. Its blocks are cells that follow those of the inputs before it.
#[derive(Clone, Copy, Debug)]
pub struct NetInput {
    /// No earlier input has it.
    pub name: Name,
    /// An int or a bit.
    pub kind: Kind,
    /// The bits of the number: a multiple of the space, up to 64, or 1 for a bit.
    pub bits: u32,
    /// The greatest value of each of its blocks: at most `2^space - 1`, or 1 for a bit.
    pub degree: u8,
    /// The noise tag of each of its blocks: 1 to `2^space + 1`.
    pub noise: u8,
}

/// A named number that a net gives.
#[derive(Debug, Drop)]
pub struct NetOutput {
    /// No earlier output has it.
    pub name: Name,
    /// An int or a bit.
    pub kind: Kind,
    /// The bits of the number: a multiple of the space, up to 64, or 1 for a bit.
    pub bits: u32,
    /// The cells of its blocks, the least first: one for each `space` bits, or one for a bit. The degree of each is at
    /// most `2^space - 1`, or 1 for a bit.
    pub cells: Cells,
}

/// A straight program over cells. The blocks of the inputs are the first cells, in order, and job `j` is the
/// cell that follows all input cells by `j`. Any values can be held; `legal` says whether they have the ranges
/// that are said here.
#[derive(Debug, Drop)]
pub struct Net {
    /// The message bits of a block, 2 or 3.
    pub space: u32,
    /// In the order of their cells.
    pub inputs: NetInputs,
    /// In the order of their cells, which is that of the evaluation.
    pub jobs: Jobs,
    /// In the order in which they are given.
    pub outputs: NetOutputs,
}
