//! The states of blocks, and the blocks that are left.
ghost use Rattle.std.specs.Prelude.{◌≡◌, ◌≤◌, ◌+◌, ◌-◌, ◌^◌, IfOk, length};
ghost use Rattle.rx_net.specs.Growth.{Extends};
ghost use Rattle.rx_plan.specs.Tables.{HasEntries};
ghost use Rattle.rx_plan.specs.Values.{cell_value};
ghost use Rattle.rx_plan.specs.Planned.{Each, EachOf, AreCells, AreBlocks, HasRoom, Planned};
ghost use Rattle.rx_carry.specs.Carries.{combine, carried_in, digit_left, joint, state_at, state_of, tops_at};

use crate::lookups::{look_up, look_up_with};
use crate::operation::Operation;
use crate::tables::{StateTables, state_tables, table_at};
use rx_net::NetPen;
use std::alloc::AllocError;

/// The states of the first `count` places.
pub(crate) fn states(
    pen: &mut NetPen,
    operation: Operation,
    a: &[u32],
    b: &[u32],
    count: usize,
    tables: &StateTables,
) -> Result<Vec<u32>, AllocError>
    requires within { count ≤ length a.now }
    requires same { length b.now ≡ length a.now }
    requires first { AreBlocks pen.old a.now }
    requires second { AreBlocks pen.old b.now }
    requires first_table { HasEntries pen.old.space
        (λ i. combine (state_of operation (2 ^ pen.old.space) i) 0) tables.now.first.items }
    requires rest_table { HasEntries pen.old.space
        (state_of operation (2 ^ pen.old.space)) tables.now.rest.items }
    requires room { HasRoom pen.old count }
    ensures kept { Extends pen.old pen.new }
    ensures planned { IfOk result (λ cells. Planned pen.old pen.new cells.items
        (tops_at 1) count count 1 (EachOf a.now b.now)
        (λ xs i. state_at operation (2 ^ pen.old.space) i
        (joint operation (2 ^ pen.old.space) (cell_value pen.old a.now xs i)
        (cell_value pen.old b.now xs i) 0))) }
{
    let _space = pen.space();
    let mut cells = Vec::new(pen.allocator());
    for i in 0..count {
        let cell = look_up(pen, operation, a[i], b[i], table_at(tables, i))?;
        cells.push(cell)?;
    }
    Ok(cells)
}

/// The blocks that are left, by what goes out of each block but the last.
pub(crate) fn blocks(
    pen: &mut NetPen,
    operation: Operation,
    a: &[u32],
    b: &[u32],
    carries: &[u32],
    table: &[u8],
) -> Result<Vec<u32>, AllocError>
    requires some { 1 ≤ length a.now }
    requires same { length b.now ≡ length a.now }
    requires carried { length a.now ≤ length carries.now + 1 }
    requires first { AreBlocks pen.old a.now }
    requires second { AreBlocks pen.old b.now }
    requires third { AreCells pen.old 1 carries.now }
    requires table { HasEntries pen.old.space
        (digit_left operation (2 ^ pen.old.space)) table.now }
    requires room { HasRoom pen.old (length a.now) }
    ensures kept { Extends pen.old pen.new }
    ensures planned { IfOk result (λ cells. Planned pen.old pen.new cells.items
        (λ _. 2 ^ pen.old.space - 1) (length a.now) (length a.now) 1
        (λ P. Each a.now P × Each b.now P × Each carries.now P)
        (λ xs i. digit_left operation (2 ^ pen.old.space)
        (joint operation (2 ^ pen.old.space) (cell_value pen.old a.now xs i)
        (cell_value pen.old b.now xs i)
        (carried_in (cell_value pen.old carries.now xs) i)))) }
{
    let _space = pen.space();
    let mut cells = Vec::new(pen.allocator());
    let least = look_up(pen, operation, a[0], b[0], table)?;
    cells.push(least)?;
    for i in 1..a.len() {
        let cell = look_up_with(pen, operation, a[i], b[i], carries[i - 1], table)?;
        cells.push(cell)?;
    }
    Ok(cells)
}

/// The states of the first `count` places, for a planner that goes on with states of its own.
pub fn first_states(
    pen: &mut NetPen,
    operation: Operation,
    a: &[u32],
    b: &[u32],
    count: usize,
) -> Result<Vec<u32>, AllocError>
    requires within { count ≤ length a.now }
    requires same { length b.now ≡ length a.now }
    requires first { AreBlocks pen.old a.now }
    requires second { AreBlocks pen.old b.now }
    requires room { HasRoom pen.old count }
    ensures kept { Extends pen.old pen.new }
    ensures planned { IfOk result (λ cells. Planned pen.old pen.new cells.items
        (tops_at 1) count count 1 (EachOf a.now b.now)
        (λ xs i. state_at operation (2 ^ pen.old.space) i
        (joint operation (2 ^ pen.old.space) (cell_value pen.old a.now xs i)
        (cell_value pen.old b.now xs i) 0))) }
{
    let space = pen.space();
    let tables = state_tables(pen.allocator(), space, operation)?;
    states(pen, operation, a, b, count, &tables)
}
