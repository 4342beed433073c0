//! The table that workers share.
ghost use Rattle.std.specs.Prelude.{IfOk, ◌≡◌, ◌+◌, ◌*◌, ◌<◌, ◌≤◌, length};
ghost use Rattle.rx_net.specs.Legal.{Legal};
ghost use Rattle.rx_uses.specs.Uses.{IsUsesOf};
ghost use Rattle.rx_board.specs.Rule.{input_count, plan_of, fresh, job_count};
ghost use Rattle.rx_board.specs.Seats.{IsOf};
ghost use Rattle.rx_board.specs.Closing.{IsClosedWith};

use crate::closed::Closed;
use crate::kernel::Kernel;
use crate::plays::{Ground, Order};
use crate::seat::Seat;
use crate::view::View;
use atomic_table::Table;
use opening::{first_cell, opening_words};
use rx_net::Net;
use rx_uses::Uses;
use std::alloc::{AllocError, Global};
use std::marker::Model;
use std::snapshot::Snapshot;

mod calls;
mod cells;
mod opening;
mod run;
mod seeking;
mod steps;

/// A board of one net, whose words callers change by atomic steps. Contracts see its table's name, the kernel's basis
/// and its plan: net, width and the words of all cells.
#[derive(Drop)]
pub struct Board<'a, K: Kernel> {
    /// One spare word, and for each job its state, its count and the words of its cell.
    table: Table<(), View, Ground<'a, K>, Order<K>, Global>,
    /// The net whose jobs are run.
    net: &'a Net,
    /// The use lists of the net.
    uses: &'a Uses,
    /// The words of the input cells, one after another.
    inputs: &'a [u64],
    /// The number of input cells, and so the cell of job 0.
    first_cell: u32,
    /// How many words a cell has.
    width: usize,
}

impl<'a, K: Kernel> Model for Board<'a, K> {
    ghost use Rattle.std.specs.Prelude.{◌≡◌, ◌+◌, ◌*◌, ◌<◌, ◌^◌};
    ghost use Rattle.rx_uses.specs.Uses.{IsUsesOf};
    ghost use Rattle.rx_board.specs.Rule.{BoardValue, plan_of, IsSized};

    ghost Value = { BoardValue };

    ghost view = { λ b. record {
      id = b.table.shared.table_id;
      basis = K.basis b.table.shared.key.kernel.value;
      plan = plan_of K.words_of (K.basis b.table.shared.key.kernel.value)
          b.table.shared.key.net.now b.table.shared.key.width b.table.shared.key.inputs.now;
    } };

    ghost invariant = { λ b. (b.table.shared.key.net.now ≡ b.net.now)
        × (b.table.shared.key.inputs.now ≡ b.inputs.now)
        × (b.table.shared.key.width ≡ b.width)
        × (b.table.shared.table_id.slots ≡ 0)
        × IsSized b.table.shared.table_id.words b.net.now b.width b.inputs.now b.first_cell
        × IsUsesOf b.net.now b.uses.now };
}

impl<'a, K: Kernel> Board<'a, K> {
    /// A board on which no job was claimed, and its first seat. `uses` are the use lists of the net as they were made,
    /// and `inputs` are the words of the input cells, one cell after another. The board has at most 2^25 words: one, and
    /// for each job two more than a cell has. The error is want of memory.
    pub fn new(
        alloc: Global,
        net: &'a Net,
        uses: &'a Uses,
        inputs: &'a [u64],
        kernel: &K,
    ) -> Result<(Board<'a, K>, Seat), AllocError>
        requires net { Legal net.now }
        requires uses { IsUsesOf net.now uses.now }
        requires space { net.now.space ≡ K.space kernel.now }
        requires width { 0 < K.width kernel.now }
        requires inputs { length inputs.now ≡ input_count net.now * K.width kernel.now }
        requires room { 1 + length net.now.jobs * (K.width kernel.now + 2) ≤ 33554432 }
        ensures plan { IfOk result (λ made. made.0.plan ≡ plan_of K.words_of
            (K.basis kernel.now) net.now (K.width kernel.now) inputs.now) }
        ensures basis { IfOk result (λ made. made.0.basis ≡ K.basis kernel.now) }
        ensures seat { IfOk result (λ made. (made.1.table_id ≡ made.0.id)
            × (made.1.view ≡ fresh made.0.plan)) }
    {
        let width = kernel.words();
        let first_cell = first_cell(net);
        let words = opening_words(alloc, net, uses, first_cell, width)?;
        let ground = Ground {
            net,
            inputs,
            width: width as u64,
            kernel: Snapshot::of(kernel),
        };
        let (table, seat) = Table::of_words(alloc, words.as_slice(), &ground)?;
        let board = Board {
            table,
            net,
            uses,
            inputs,
            first_cell,
            width,
        };
        Ok((
            board,
            Seat {
                inner: seat,
                below: 0,
            },
        ))
    }

    /// Takes the words back. They are lawful with views among which that of the seat stands.
    pub fn close(self, seat: Seat) -> Closed
        requires seat { IsOf self seat }
        ensures width { result.width ≡ self.entry.plan.width }
        ensures jobs { result.jobs ≡ job_count self.entry.plan }
        ensures lawful { IsClosedWith self.entry.plan seat.view result }
    {
        let Seat { inner, below: _ } = seat;
        let Board {
            table,
            net,
            uses: _,
            inputs: _,
            first_cell: _,
            width,
        } = self;
        let jobs = net.jobs.as_slice().len() as u32;
        Closed::of(table.close_with(inner), jobs, width)
    }
}
