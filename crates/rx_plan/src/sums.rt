//! Jobs over a sum of any number of cells.
ghost use Rattle.std.specs.Prelude.{◌≡◌, pos, ◌<◌, ◌≤◌, ◌+◌, ◌^◌, IfOk, OnErr, length, get_or, map};
ghost use Rattle.rx_net.specs.Limits.{most_terms};
ghost use Rattle.rx_net.specs.Cells.{cell_count, degree, noise};
ghost use Rattle.rx_net.specs.Growth.{Extends};
ghost use Rattle.rx_plan.specs.Tables.{entries, IsTable};
ghost use Rattle.rx_plan.specs.Values.{total};
ghost use Rattle.rx_plan.specs.Planned.{Each, HasRoom, Makes};

use rx_net::{NetPen, Term};
use std::alloc::{AllocError, Global};

fn unit_terms(alloc: Global, operands: &[u32]) -> Result<Vec<Term>, AllocError>
    ensures { IfOk result (λ terms. terms.items
        ≡ map (λ c. record { cell = c; weight = pos 1 }) operands.now) }
{
    operands
        .iter()
        .map(|cell| Term {
            cell: *cell,
            weight: 1,
        })
        .collect(alloc)
}

/// A job that looks up the sum of the cells, at most 16.
pub fn sum(pen: &mut NetPen, operands: &[u32], table: &[u8]) -> Result<u32, AllocError>
    requires few { length operands.now ≤ most_terms }
    requires there { Each operands.now (λ c. c < cell_count pen.old) }
    requires range { total (length operands.now) (λ i. degree pen.old (get_or operands.now i 0))
        < entries pen.old.space }
    requires noises { total (length operands.now) (λ i. noise pen.old (get_or operands.now i 0))
        ≤ 2 ^ pen.old.space + 1 }
    requires table { IsTable pen.old.space table.now }
    requires room { HasRoom pen.old 1 }
    ensures kept { Extends pen.old pen.new }
    ensures unchanged { OnErr result (pen.new ≡ pen.old) }
    ensures makes { IfOk result (λ cell. Makes pen.old pen.new cell (Each operands.now)
        (total (length operands.now) (λ i. degree pen.old (get_or operands.now i 0)))
        (λ v. total (length operands.now) (λ i. v (get_or operands.now i 0))) table.now) }
{
    let _space = pen.space();
    let terms = unit_terms(pen.allocator(), operands)?;
    pen.place(&terms, 0, table)
}
