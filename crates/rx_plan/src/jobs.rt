//! Jobs over none, one, two and three cells.
ghost use Rattle.std.specs.Prelude.{◌≡◌, ◌<◌, ◌≤◌, ◌+◌, ◌*◌, ◌^◌, IfOk, OnErr};
ghost use Rattle.rx_net.specs.Cells.{cell_count, degree, noise};
ghost use Rattle.rx_net.specs.Growth.{Extends};
ghost use Rattle.rx_plan.specs.Tables.{entries, IsTable};
ghost use Rattle.rx_plan.specs.Planned.{HasRoom, Makes};

use rx_net::{NetPen, Term};
use std::alloc::AllocError;

/// A job without operands: the entry of the table at 0, whatever the inputs are.
pub fn fixed(pen: &mut NetPen, table: &[u8]) -> Result<u32, AllocError>
    requires table { IsTable pen.old.space table.now }
    requires room { HasRoom pen.old 1 }
    ensures kept { Extends pen.old pen.new }
    ensures unchanged { OnErr result (pen.new ≡ pen.old) }
    ensures makes { IfOk result (λ cell. Makes pen.old pen.new cell
        (λ _. Unit) 0 (λ _. 0) table.now) }
{
    let _space = pen.space();
    pen.place(&[], 0, table)
}

/// A job that looks up a cell.
pub fn single(pen: &mut NetPen, cell: u32, table: &[u8]) -> Result<u32, AllocError>
    requires there { cell < cell_count pen.old }
    requires range { degree pen.old cell < entries pen.old.space }
    requires noises { noise pen.old cell ≤ 2 ^ pen.old.space + 1 }
    requires table { IsTable pen.old.space table.now }
    requires room { HasRoom pen.old 1 }
    ensures kept { Extends pen.old pen.new }
    ensures unchanged { OnErr result (pen.new ≡ pen.old) }
    ensures makes { IfOk result (λ new. Makes pen.old pen.new new (λ P. P cell)
        (degree pen.old cell) (λ v. v cell) table.now) }
{
    let _space = pen.space();
    pen.place(&[Term { cell, weight: 1 }], 0, table)
}

/// A job that looks up `factor` times the cell `high` and the cell `low`.
pub fn pair(
    pen: &mut NetPen,
    factor: u8,
    high: u32,
    low: u32,
    table: &[u8],
) -> Result<u32, AllocError>
    requires factor { factor < 16 }
    requires high { high < cell_count pen.old }
    requires low { low < cell_count pen.old }
    requires range { factor * degree pen.old high + degree pen.old low < entries pen.old.space }
    requires noises { factor * noise pen.old high + noise pen.old low ≤ 2 ^ pen.old.space + 1 }
    requires table { IsTable pen.old.space table.now }
    requires room { HasRoom pen.old 1 }
    ensures kept { Extends pen.old pen.new }
    ensures unchanged { OnErr result (pen.new ≡ pen.old) }
    ensures makes { IfOk result (λ cell. Makes pen.old pen.new cell (λ P. P high × P low)
        (factor * degree pen.old high + degree pen.old low)
        (λ v. factor * v high + v low) table.now) }
{
    let _space = pen.space();
    let terms = [
        Term {
            cell: high,
            weight: factor as i8,
        },
        Term {
            cell: low,
            weight: 1,
        },
    ];
    pen.place(&terms, 0, table)
}

/// A job that looks up the sum of three cells.
pub fn triple(
    pen: &mut NetPen,
    first: u32,
    second: u32,
    third: u32,
    table: &[u8],
) -> Result<u32, AllocError>
    requires first { first < cell_count pen.old }
    requires second { second < cell_count pen.old }
    requires third { third < cell_count pen.old }
    requires range { degree pen.old first + degree pen.old second + degree pen.old third
        < entries pen.old.space }
    requires noises { noise pen.old first + noise pen.old second + noise pen.old third
        ≤ 2 ^ pen.old.space + 1 }
    requires table { IsTable pen.old.space table.now }
    requires room { HasRoom pen.old 1 }
    ensures kept { Extends pen.old pen.new }
    ensures unchanged { OnErr result (pen.new ≡ pen.old) }
    ensures makes { IfOk result (λ cell. Makes pen.old pen.new cell
        (λ P. P first × P second × P third)
        (degree pen.old first + degree pen.old second + degree pen.old third)
        (λ v. v first + v second + v third) table.now) }
{
    let _space = pen.space();
    let terms = [
        Term {
            cell: first,
            weight: 1,
        },
        Term {
            cell: second,
            weight: 1,
        },
        Term {
            cell: third,
            weight: 1,
        },
    ];
    pen.place(&terms, 0, table)
}
