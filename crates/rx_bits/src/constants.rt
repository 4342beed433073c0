//! Numbers that are told.
ghost use Rattle.std.specs.Prelude.{◌≡◌, ◌⊎◌, ℕ, List, ◌<◌, ◌≤◌, ◌+◌, ◌-◌, ◌*◌, ◌^◌, IfOk, OnOk, OnErr, length, get_or};
ghost use Rattle.rx_params.specs.Kinds.{digit_at};
ghost use Rattle.rx_net.specs.Cells.{value, depth};
ghost use Rattle.rx_net.specs.Growth.{Extends};
ghost use Rattle.rx_plan.specs.Tables.{HasEntries};
ghost use Rattle.rx_plan.specs.Values.{AreInputs};
ghost use Rattle.rx_plan.specs.Planned.{Gives, HasRoom, Planned};
ghost use Rattle.rx_plan.specs.Results.{GivesNumber};
ghost use Rattle.rx_costs.specs.Table.{constant_jobs, constant_depth};
ghost use Rattle.rx_bits.specs.Constants.{AreMade};

use rx_net::NetPen;
use rx_plan::{fixed, table_of, unit_of};
use std::alloc::{AllocError, Global};

/// Appends `number` in `blocks` blocks, of which the bits above them are lost: a job for each digit that
/// occurs, so at most one for each block, depth 1. The only error is want of memory, after which `out` is
/// as before.
pub fn constant(
    pen: &mut NetPen,
    blocks: u32,
    number: u64,
    out: &mut Vec<u32>,
) -> Result<(), AllocError>
    requires some { 1 ≤ blocks }
    requires room { HasRoom pen.old (constant_jobs blocks) }
    ensures kept { Extends pen.old pen.new }
    ensures unchanged { OnErr result (out.new.items ≡ out.old.items) }
    ensures gives { OnOk result (GivesNumber pen.old pen.new out.old.items out.new.items
        blocks (constant_jobs blocks) constant_depth (λ _. Unit {0}) (λ _. number)) }
{
    let _space = pen.space();
    let cells = constant_cells(pen, blocks, number)?;
    out.extend_from_slice(&cells)?;
    Ok(())
}

/// A cell for each digit.
fn constant_cells(pen: &mut NetPen, blocks: u32, number: u64) -> Result<Vec<u32>, AllocError>
    requires room { HasRoom pen.old blocks }
    ensures kept { Extends pen.old pen.new }
    ensures planned { IfOk result (λ cells. Planned pen.old pen.new cells.items
        (λ _. 2 ^ pen.old.space - 1) blocks blocks 1 (λ _. Unit {0})
        (λ _ i. digit_at pen.old.space number i)) }
{
    let space = pen.space();
    let digits = digits_of(pen.allocator(), space, blocks, number)?;
    let mut cells = Vec::new(pen.allocator());
    for i in 0..digits.len() {
        let cell = digit_cell(pen, &cells, &digits, i)?;
        cells.push(cell)?;
    }
    Ok(cells)
}

/// A cell that holds digit `i`: that of an earlier place with the same digit, or a new one.
fn digit_cell(pen: &mut NetPen, cells: &[u32], digits: &[u8], i: usize) -> Result<u32, AllocError>
    requires place { i < length digits.now }
    requires digits { (j : ℕ) → j < length digits.now → get_or digits.now j 0 < 2 ^ pen.old.space }
    requires count { length cells.now ≡ i }
    requires made { AreMade pen.old cells.now digits.now }
    requires room { HasRoom pen.old 1 }
    ensures kept { Extends pen.old pen.new }
    ensures gives { IfOk result (λ cell. Gives pen.old pen.new cell (2 ^ pen.old.space - 1) 1) }
    ensures shallow { IfOk result (λ cell. depth pen.new cell ≤ 1) }
    ensures value { IfOk result (λ cell. (inputs : List ℕ) → AreInputs pen.old inputs →
        value pen.new inputs cell ≡ get_or digits.now i 0) }
{
    let _space = pen.space();
    let first = first_equal(digits, i);
    if first < i {
        Ok(cells[first])
    } else {
        new_cell(pen, digits[i])
    }
}

/// A new cell that holds a digit, whatever the inputs are.
fn new_cell(pen: &mut NetPen, digit: u8) -> Result<u32, AllocError>
    requires digit { digit < 2 ^ pen.old.space }
    requires room { HasRoom pen.old 1 }
    ensures kept { Extends pen.old pen.new }
    ensures gives { IfOk result (λ cell. Gives pen.old pen.new cell (2 ^ pen.old.space - 1) 1) }
    ensures shallow { IfOk result (λ cell. depth pen.new cell ≤ 1) }
    ensures value { IfOk result (λ cell. (inputs : List ℕ) → AreInputs pen.old inputs →
        value pen.new inputs cell ≡ digit) }
{
    let space = pen.space();
    let table = digit_table(pen.allocator(), space, digit)?;
    fixed(pen, &table)
}

/// The table that holds one digit everywhere.
fn digit_table(alloc: Global, space: u32, digit: u8) -> Result<Vec<u8>, AllocError>
    requires { (space ≡ 2) ⊎ (space ≡ 3) }
    ensures { IfOk result (λ table. HasEntries space (λ _. digit) table.items) }
{
    table_of(
        alloc,
        space,
        |_i: u8| -> u8
            ensures { result ≡ digit }
        { digit },
    )
}

/// The first place that has the digit of place `i`.
fn first_equal(digits: &[u8], i: usize) -> usize
    requires { i < length digits.now }
    ensures most { result ≤ i }
    ensures same { get_or digits.now result 0 ≡ get_or digits.now i 0 }
{
    for j in 0..i {
        if digits[j] == digits[i] {
            return j;
        }
    }
    i
}

/// The digits of a number, the least first.
fn digits_of(alloc: Global, space: u32, blocks: u32, number: u64) -> Result<Vec<u8>, AllocError>
    requires { (space ≡ 2) ⊎ (space ≡ 3) }
    ensures count { IfOk result (λ digits. length digits.items ≡ blocks) }
    ensures digits { IfOk result (λ digits. (i : ℕ) → i < blocks →
        get_or digits.items i 0 ≡ digit_at space number i) }
{
    let unit = u64::from(unit_of(space));
    let mut digits = Vec::new(alloc);
    let mut rest = number;
    for _ in 0..blocks {
        digits.push((rest % unit) as u8)?;
        rest /= unit;
    }
    Ok(digits)
}
