//! Jobs over a difference of cells.
ghost use Rattle.std.specs.Prelude.{◌≡◌, ◌<◌, ◌≤◌, ◌+◌, ◌-◌, ◌^◌, IfOk, OnErr};
ghost use Rattle.rx_net.specs.Cells.{cell_count, degree, noise};
ghost use Rattle.rx_net.specs.Growth.{Extends};
ghost use Rattle.rx_plan.specs.Tables.{entries, IsTable};
ghost use Rattle.rx_plan.specs.Planned.{HasRoom, Makes};

use rx_net::{NetPen, Term};
use std::alloc::AllocError;

/// A job that looks up `base` and the cell `plus`, less the cell `minus`.
pub fn difference(
    pen: &mut NetPen,
    base: u8,
    plus: u32,
    minus: u32,
    table: &[u8],
) -> Result<u32, AllocError>
    requires plus { plus < cell_count pen.old }
    requires minus { minus < cell_count pen.old }
    requires low { degree pen.old minus ≤ base }
    requires range { base + degree pen.old plus < entries pen.old.space }
    requires noises { noise pen.old plus + noise pen.old minus ≤ 2 ^ pen.old.space + 1 }
    requires table { IsTable pen.old.space table.now }
    requires room { HasRoom pen.old 1 }
    ensures kept { Extends pen.old pen.new }
    ensures unchanged { OnErr result (pen.new ≡ pen.old) }
    ensures makes { IfOk result (λ cell. Makes pen.old pen.new cell (λ P. P plus × P minus)
        (base + degree pen.old plus) (λ v. base + v plus - v minus) table.now) }
{
    let _space = pen.space();
    let terms = [
        Term {
            cell: plus,
            weight: 1,
        },
        Term {
            cell: minus,
            weight: -1,
        },
    ];
    pen.place(&terms, base as i16, table)
}

/// A job that looks up `base` and the cell `plus`, less the cells `minus` and `borrow`.
pub fn difference_with_borrow(
    pen: &mut NetPen,
    base: u8,
    plus: u32,
    minus: u32,
    borrow: u32,
    table: &[u8],
) -> Result<u32, AllocError>
    requires plus { plus < cell_count pen.old }
    requires minus { minus < cell_count pen.old }
    requires borrow { borrow < cell_count pen.old }
    requires low { degree pen.old minus + degree pen.old borrow ≤ base }
    requires range { base + degree pen.old plus < entries pen.old.space }
    requires noises { noise pen.old plus + noise pen.old minus + noise pen.old borrow
        ≤ 2 ^ pen.old.space + 1 }
    requires table { IsTable pen.old.space table.now }
    requires room { HasRoom pen.old 1 }
    ensures kept { Extends pen.old pen.new }
    ensures unchanged { OnErr result (pen.new ≡ pen.old) }
    ensures makes { IfOk result (λ cell. Makes pen.old pen.new cell
        (λ P. P plus × P minus × P borrow)
        (base + degree pen.old plus) (λ v. base + v plus - (v minus + v borrow)) table.now) }
{
    let _space = pen.space();
    let terms = [
        Term {
            cell: plus,
            weight: 1,
        },
        Term {
            cell: minus,
            weight: -1,
        },
        Term {
            cell: borrow,
            weight: -1,
        },
    ];
    pen.place(&terms, base as i16, table)
}
