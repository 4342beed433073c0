//! The rule of the table, and what each step tells.
ghost use Rattle.rx_board.specs.Rule.{Lawful, plan_of, fresh, spent};
ghost use Rattle.rx_board.specs.Steps.{given, both_of, looked, counted_load, read_word, claimed, stored, credited, published, given_back};

use crate::kernel::Kernel;
use crate::view::View;
use atomic_table::{Join, Play, Split, TableRule};
use rx_net::Net;
use std::marker::PhantomData;
use std::snapshot::Snapshot;

/// What a board is told when it is made.
#[derive(Drop)]
pub struct Ground<'a, K> {
    /// The net whose jobs are run.
    pub net: &'a Net,
    /// The words of the input cells.
    pub inputs: &'a [u64],
    /// How many words a cell has.
    pub width: u64,
    /// The kernel as it was then.
    pub kernel: Snapshot<K>,
}

/// The rule of a board: its words and views are lawful.
pub struct Order<K> {
    kernel: PhantomData<K>,
}

impl<'a, K: Kernel> TableRule<(), View, Ground<'a, K>> for Order<K> {
    ghost holds = { λ g. Lawful
        (plan_of K.words_of (K.basis g.kernel.value) g.net.now g.width g.inputs.now) };

    ghost first = { λ g. fresh
        (plan_of K.words_of (K.basis g.kernel.value) g.net.now g.width g.inputs.now) };
}

/// Loads the state of a job.
pub struct Look;

impl Play<(), View> for Look {
    ghost then = { looked };
}

/// Loads the count of a job.
pub struct LookCount;

impl Play<(), View> for LookCount {
    ghost then = { counted_load };
}

/// Loads a word of a cell.
pub struct ReadWord;

impl Play<(), View> for ReadWord {
    ghost then = { read_word };
}

/// Claims a job.
pub struct Claim;

impl Play<(), View> for Claim {
    ghost then = { claimed };
}

/// Stores the next word of the held job's cell.
pub struct Store;

impl Play<(), View> for Store {
    ghost then = { stored };
}

/// Credits the next use of the held job's cell.
pub struct Credit;

impl Play<(), View> for Credit {
    ghost then = { credited };
}

/// Publishes the held job.
pub struct Publish;

impl Play<(), View> for Publish {
    ghost then = { published };
}

/// Gives the held job back.
pub struct GiveBack;

impl Play<(), View> for GiveBack {
    ghost then = { given_back };
}

/// Splits a seat off another.
pub struct Cut;

impl Split<View> for Cut {
    ghost left = { λ v. v };

    ghost right = { given };
}

/// Joins a seat to another.
pub struct Glue;

impl Join<View> for Glue {
    ghost both = { both_of };

    ghost spent = { spent };
}
