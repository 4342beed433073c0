//! A step of a division: the next bit is taken in, and the divisor is taken off where it is not
//! greater.
ghost use Rattle.std.specs.Prelude.{◌≡◌, ◌≤◌, ◌+◌, ◌-◌, ◌*◌, ◌^◌, [], ◌∷◌, IfOk, length};
ghost use Rattle.rx_params.specs.Kinds.{digit_at};
ghost use Rattle.rx_net.specs.Cells.{value};
ghost use Rattle.rx_net.specs.Growth.{Extends};
ghost use Rattle.rx_costs.specs.Table.{add_jobs, add_depth, compare_jobs, compare_depth, select_jobs, select_depth, div_step_jobs, div_step_depth};
ghost use Rattle.rx_plan.specs.Values.{number_held, cell_value};
ghost use Rattle.rx_plan.specs.Planned.{Each, EachOf, IsCell, AreBlocks, AreCells, HasRoom, Planned};
ghost use Rattle.rx_plan.specs.Rows.{IsNought};
ghost use Rattle.rx_residue.specs.Division.{remainder};
ghost use Rattle.rx_carry.specs.Carries.{is_less};
ghost use Rattle.rx_cmp.specs.Selection.{chosen};
ghost use Rattle.rx_div.specs.Steps.{leading, borrow_at, taken_in, reduced};

use crate::taking::{padded, taken};
use rx_carry::{Operation, passed_out, sub};
use rx_cmp::select;
use rx_net::NetPen;
use std::alloc::AllocError;

/// What is left after some steps: the blocks of the remainder, and the borrow of each step.
#[derive(Debug, Drop)]
pub(crate) struct Progress {
    pub rest: Vec<u32>,
    pub borrows: Vec<u32>,
}

/// What a step leaves: the blocks of the remainder, and a bit that is 1 where the divisor was not
/// taken off.
#[derive(Debug, Drop)]
struct Stepped {
    rest: Vec<u32>,
    borrow: u32,
}

/// A step for each bit of the numerator, from the top one on; `bits` has the lowest first. The
/// remainder has no more blocks than the bits so far need.
pub(crate) fn divided(
    pen: &mut NetPen,
    bits: &[u32],
    b: &[u32],
    nought: u32,
) -> Result<Progress, AllocError>
    requires some { 1 ≤ length b.now }
    requires same { length bits.now ≡ pen.old.space * length b.now }
    requires bits { AreCells pen.old 1 bits.now }
    requires divisor { AreBlocks pen.old b.now }
    requires nought { IsNought pen.old nought }
    requires room { HasRoom pen.old (length bits.now * div_step_jobs (length b.now)) }
    ensures kept { Extends pen.old pen.new }
    ensures rest { IfOk result (λ made. Planned pen.old pen.new made.rest.items
        (λ _. 2 ^ pen.old.space - 1) (length b.now)
        (length bits.now * div_step_jobs (length b.now))
        (length bits.now * div_step_depth (length b.now))
        (λ P. Each bits.now P × Each b.now P × P nought)
        (λ inputs i. digit_at pen.old.space (remainder
        (leading (cell_value pen.old bits.now inputs) (length bits.now) (length bits.now))
        (number_held pen.old b.now inputs)) i)) }
    ensures borrows { IfOk result (λ made. Planned pen.old pen.new made.borrows.items
        (λ _. 1) (length bits.now)
        (length bits.now * div_step_jobs (length b.now))
        (length bits.now * div_step_depth (length b.now))
        (λ P. Each bits.now P × Each b.now P × P nought)
        (λ inputs t. borrow_at (cell_value pen.old bits.now inputs) (length bits.now)
        (number_held pen.old b.now inputs) t)) }
{
    let space = pen.space();
    let alloc = pen.allocator();
    let mut rest = Vec::new(alloc);
    let mut borrows = Vec::new(alloc);
    for t in 0..bits.len() {
        let blocks = padded(alloc, &rest, t / space as usize + 1, nought)?;
        let made = step(pen, &blocks, bits[bits.len() - 1 - t], b, nought)?;
        borrows.push(made.borrow)?;
        rest = made.rest;
    }
    Ok(Progress { rest, borrows })
}

/// One step: `bit` is the next bit, and `rest` has as many blocks as the remainder needs with it.
fn step(
    pen: &mut NetPen,
    rest: &[u32],
    bit: u32,
    b: &[u32],
    nought: u32,
) -> Result<Stepped, AllocError>
    requires some { 1 ≤ length rest.now }
    requires few { length rest.now ≤ length b.now }
    requires blocks { AreBlocks pen.old rest.now }
    requires bit { IsCell pen.old 1 bit }
    requires divisor { AreBlocks pen.old b.now }
    requires nought { IsNought pen.old nought }
    requires room { HasRoom pen.old (div_step_jobs (length b.now)) }
    ensures kept { Extends pen.old pen.new }
    ensures rest { IfOk result (λ made. Planned pen.old pen.new made.rest.items
        (λ _. 2 ^ pen.old.space - 1) (length rest.now)
        (div_step_jobs (length b.now)) (div_step_depth (length b.now))
        (λ P. P bit × Each rest.now P × Each b.now P × P nought)
        (λ inputs i. digit_at pen.old.space (reduced (pen.old.space * length rest.now)
        (number_held pen.old b.now inputs) (taken_in (pen.old.space * length rest.now)
        (number_held pen.old rest.now inputs) (value pen.old inputs bit))) i)) }
    ensures borrow { IfOk result (λ made. Planned pen.old pen.new (made.borrow ∷ [])
        (λ _. 1) 1
        (div_step_jobs (length b.now)) (div_step_depth (length b.now))
        (λ P. P bit × Each rest.now P × Each b.now P × P nought)
        (λ inputs _. is_less (taken_in (pen.old.space * length rest.now)
        (number_held pen.old rest.now inputs) (value pen.old inputs bit))
        (number_held pen.old b.now inputs))) }
{
    let _space = pen.space();
    let number = taken(pen, rest, bit)?;
    let borrow = borrow(pen, &number, b, nought)?;
    let less = difference(pen, &number, &b[..rest.len()])?;
    let left = selected(pen, borrow, &number, &less)?;
    Ok(Stepped { rest: left, borrow })
}

/// A bit that is 1 where `b` is greater than the number, which has no more blocks.
fn borrow(pen: &mut NetPen, number: &[u32], b: &[u32], nought: u32) -> Result<u32, AllocError>
    requires some { 1 ≤ length b.now }
    requires few { length number.now ≤ length b.now }
    requires first { AreBlocks pen.old number.now }
    requires second { AreBlocks pen.old b.now }
    requires nought { IsNought pen.old nought }
    requires room { HasRoom pen.old (compare_jobs (length b.now)) }
    ensures kept { Extends pen.old pen.new }
    ensures planned { IfOk result (λ cell. Planned pen.old pen.new (cell ∷ []) (λ _. 1) 1
        (compare_jobs (length b.now)) (compare_depth (length b.now))
        (λ P. Each number.now P × Each b.now P × P nought)
        (λ inputs _. is_less (number_held pen.old number.now inputs)
        (number_held pen.old b.now inputs))) }
{
    let _space = pen.space();
    let whole = padded(pen.allocator(), number, b.len(), nought)?;
    passed_out(pen, Operation::Difference, &whole, b, false)
}

/// The blocks of a difference.
fn difference(pen: &mut NetPen, a: &[u32], b: &[u32]) -> Result<Vec<u32>, AllocError>
    requires some { 1 ≤ length a.now }
    requires same { length b.now ≡ length a.now }
    requires first { AreBlocks pen.old a.now }
    requires second { AreBlocks pen.old b.now }
    requires room { HasRoom pen.old (add_jobs (length a.now)) }
    ensures kept { Extends pen.old pen.new }
    ensures planned { IfOk result (λ cells. Planned pen.old pen.new cells.items
        (λ _. 2 ^ pen.old.space - 1) (length a.now)
        (add_jobs (length a.now)) (add_depth (length a.now)) (EachOf a.now b.now)
        (λ inputs i. digit_at pen.old.space (number_held pen.old a.now inputs
        + 2 ^ (pen.old.space * length a.now) - number_held pen.old b.now inputs) i)) }
{
    let _space = pen.space();
    let mut cells = Vec::new(pen.allocator());
    sub(pen, a, b, &mut cells)?;
    Ok(cells)
}

/// The blocks of the first number where the bit is 1, else of the second.
fn selected(pen: &mut NetPen, bit: u32, a: &[u32], b: &[u32]) -> Result<Vec<u32>, AllocError>
    requires some { 1 ≤ length a.now }
    requires same { length b.now ≡ length a.now }
    requires bit { IsCell pen.old 1 bit }
    requires first { AreBlocks pen.old a.now }
    requires second { AreBlocks pen.old b.now }
    requires room { HasRoom pen.old (select_jobs (length a.now)) }
    ensures kept { Extends pen.old pen.new }
    ensures planned { IfOk result (λ cells. Planned pen.old pen.new cells.items
        (λ _. 2 ^ pen.old.space - 1) (length a.now)
        (select_jobs (length a.now)) select_depth
        (λ P. P bit × Each a.now P × Each b.now P)
        (λ inputs i. digit_at pen.old.space (chosen (value pen.old inputs bit)
        (number_held pen.old a.now inputs) (number_held pen.old b.now inputs)) i)) }
{
    let _space = pen.space();
    let mut cells = Vec::new(pen.allocator());
    select(pen, bit, a, b, &mut cells)?;
    Ok(cells)
}
