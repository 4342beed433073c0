//! Which of two numbers is less, with a sign or without: what goes out of their difference.
ghost use Rattle.std.specs.Prelude.{◌≡◌, ◌⊎◌, true, false, pos, ◌<◌, ◌≤◌, ◌+◌, ◌-◌, ◌*◌, ◌/◌, ◌%◌, ◌^◌, [], ◌∷◌, IfOk, OnOk, OnErr, length};
ghost use Rattle.rx_net.specs.Growth.{Extends};
ghost use Rattle.rx_residue.specs.Residues.{signed};
ghost use Rattle.rx_plan.specs.Tables.{HasEntries};
ghost use Rattle.rx_plan.specs.Values.{number_held};
ghost use Rattle.rx_plan.specs.Planned.{EachOf, AreBlocks, HasRoom, Planned};
ghost use Rattle.rx_plan.specs.Results.{GivesBit};
ghost use Rattle.rx_costs.specs.Table.{compare_jobs, compare_depth};
ghost use Rattle.rx_carry.specs.Carries.{flipped, is_less};
ghost use Rattle.rx_cmp.specs.Order.{is_at_most, is_less_signed, is_at_most_signed, ranked, signed_state, turned};

use crate::any::flip;
use rx_carry::{Operation, first_states, passed_out, top};
use rx_net::NetPen;
use rx_plan::{pair, table_of, unit_of};
use std::alloc::{AllocError, Global};

/// Appends a bit that is 1 where `a` is less than `b`. The only error is want of memory, after which `out`
/// is as before.
pub fn lt(pen: &mut NetPen, a: &[u32], b: &[u32], out: &mut Vec<u32>) -> Result<(), AllocError>
    requires some { 1 ≤ length a.now }
    requires same { length b.now ≡ length a.now }
    requires first { AreBlocks pen.old a.now }
    requires second { AreBlocks pen.old b.now }
    requires room { HasRoom pen.old (compare_jobs (length a.now)) }
    ensures kept { Extends pen.old pen.new }
    ensures unchanged { OnErr result (out.new.items ≡ out.old.items) }
    ensures gives { OnOk result (GivesBit pen.old pen.new out.old.items out.new.items
        (compare_jobs (length a.now)) (compare_depth (length a.now)) (EachOf a.now b.now)
        (λ inputs. is_less (number_held pen.old a.now inputs)
        (number_held pen.old b.now inputs))) }
{
    let _space = pen.space();
    let cell = below(pen, a, b, false, false)?;
    out.push(cell)?;
    Ok(())
}

/// Appends a bit that is 1 where `a` is at most `b`. The only error is want of memory, after which `out`
/// is as before.
pub fn le(pen: &mut NetPen, a: &[u32], b: &[u32], out: &mut Vec<u32>) -> Result<(), AllocError>
    requires some { 1 ≤ length a.now }
    requires same { length b.now ≡ length a.now }
    requires first { AreBlocks pen.old a.now }
    requires second { AreBlocks pen.old b.now }
    requires room { HasRoom pen.old (compare_jobs (length a.now)) }
    ensures kept { Extends pen.old pen.new }
    ensures unchanged { OnErr result (out.new.items ≡ out.old.items) }
    ensures gives { OnOk result (GivesBit pen.old pen.new out.old.items out.new.items
        (compare_jobs (length a.now)) (compare_depth (length a.now)) (EachOf a.now b.now)
        (λ inputs. is_at_most (number_held pen.old a.now inputs)
        (number_held pen.old b.now inputs))) }
{
    let _space = pen.space();
    let cell = below(pen, b, a, false, true)?;
    out.push(cell)?;
    Ok(())
}

/// Appends a bit that is 1 where `a` is greater than `b`. The only error is want of memory, after which
/// `out` is as before.
pub fn gt(pen: &mut NetPen, a: &[u32], b: &[u32], out: &mut Vec<u32>) -> Result<(), AllocError>
    requires some { 1 ≤ length a.now }
    requires same { length b.now ≡ length a.now }
    requires first { AreBlocks pen.old a.now }
    requires second { AreBlocks pen.old b.now }
    requires room { HasRoom pen.old (compare_jobs (length a.now)) }
    ensures kept { Extends pen.old pen.new }
    ensures unchanged { OnErr result (out.new.items ≡ out.old.items) }
    ensures gives { OnOk result (GivesBit pen.old pen.new out.old.items out.new.items
        (compare_jobs (length a.now)) (compare_depth (length a.now)) (EachOf a.now b.now)
        (λ inputs. is_less (number_held pen.old b.now inputs)
        (number_held pen.old a.now inputs))) }
{
    let _space = pen.space();
    let cell = below(pen, b, a, false, false)?;
    out.push(cell)?;
    Ok(())
}

/// Appends a bit that is 1 where `a` is at least `b`. The only error is want of memory, after which `out`
/// is as before.
pub fn ge(pen: &mut NetPen, a: &[u32], b: &[u32], out: &mut Vec<u32>) -> Result<(), AllocError>
    requires some { 1 ≤ length a.now }
    requires same { length b.now ≡ length a.now }
    requires first { AreBlocks pen.old a.now }
    requires second { AreBlocks pen.old b.now }
    requires room { HasRoom pen.old (compare_jobs (length a.now)) }
    ensures kept { Extends pen.old pen.new }
    ensures unchanged { OnErr result (out.new.items ≡ out.old.items) }
    ensures gives { OnOk result (GivesBit pen.old pen.new out.old.items out.new.items
        (compare_jobs (length a.now)) (compare_depth (length a.now)) (EachOf a.now b.now)
        (λ inputs. is_at_most (number_held pen.old b.now inputs)
        (number_held pen.old a.now inputs))) }
{
    let _space = pen.space();
    let cell = below(pen, a, b, false, true)?;
    out.push(cell)?;
    Ok(())
}

/// Appends a bit that is 1 where the signed number `a` is less than `b`. The only error is want of memory,
/// after which `out` is as before.
pub fn slt(pen: &mut NetPen, a: &[u32], b: &[u32], out: &mut Vec<u32>) -> Result<(), AllocError>
    requires some { 1 ≤ length a.now }
    requires same { length b.now ≡ length a.now }
    requires first { AreBlocks pen.old a.now }
    requires second { AreBlocks pen.old b.now }
    requires room { HasRoom pen.old (compare_jobs (length a.now)) }
    ensures kept { Extends pen.old pen.new }
    ensures unchanged { OnErr result (out.new.items ≡ out.old.items) }
    ensures gives { OnOk result (GivesBit pen.old pen.new out.old.items out.new.items
        (compare_jobs (length a.now)) (compare_depth (length a.now)) (EachOf a.now b.now)
        (λ inputs. is_less_signed
        (signed (pen.old.space * length a.now) (number_held pen.old a.now inputs))
        (signed (pen.old.space * length a.now) (number_held pen.old b.now inputs)))) }
{
    let _space = pen.space();
    let cell = below(pen, a, b, true, false)?;
    out.push(cell)?;
    Ok(())
}

/// Appends a bit that is 1 where the signed number `a` is at most `b`. The only error is want of memory,
/// after which `out` is as before.
pub fn sle(pen: &mut NetPen, a: &[u32], b: &[u32], out: &mut Vec<u32>) -> Result<(), AllocError>
    requires some { 1 ≤ length a.now }
    requires same { length b.now ≡ length a.now }
    requires first { AreBlocks pen.old a.now }
    requires second { AreBlocks pen.old b.now }
    requires room { HasRoom pen.old (compare_jobs (length a.now)) }
    ensures kept { Extends pen.old pen.new }
    ensures unchanged { OnErr result (out.new.items ≡ out.old.items) }
    ensures gives { OnOk result (GivesBit pen.old pen.new out.old.items out.new.items
        (compare_jobs (length a.now)) (compare_depth (length a.now)) (EachOf a.now b.now)
        (λ inputs. is_at_most_signed
        (signed (pen.old.space * length a.now) (number_held pen.old a.now inputs))
        (signed (pen.old.space * length a.now) (number_held pen.old b.now inputs)))) }
{
    let _space = pen.space();
    let cell = below(pen, b, a, true, true)?;
    out.push(cell)?;
    Ok(())
}

/// Appends a bit that is 1 where the signed number `a` is greater than `b`. The only error is want of
/// memory, after which `out` is as before.
pub fn sgt(pen: &mut NetPen, a: &[u32], b: &[u32], out: &mut Vec<u32>) -> Result<(), AllocError>
    requires some { 1 ≤ length a.now }
    requires same { length b.now ≡ length a.now }
    requires first { AreBlocks pen.old a.now }
    requires second { AreBlocks pen.old b.now }
    requires room { HasRoom pen.old (compare_jobs (length a.now)) }
    ensures kept { Extends pen.old pen.new }
    ensures unchanged { OnErr result (out.new.items ≡ out.old.items) }
    ensures gives { OnOk result (GivesBit pen.old pen.new out.old.items out.new.items
        (compare_jobs (length a.now)) (compare_depth (length a.now)) (EachOf a.now b.now)
        (λ inputs. is_less_signed
        (signed (pen.old.space * length a.now) (number_held pen.old b.now inputs))
        (signed (pen.old.space * length a.now) (number_held pen.old a.now inputs)))) }
{
    let _space = pen.space();
    let cell = below(pen, b, a, true, false)?;
    out.push(cell)?;
    Ok(())
}

/// Appends a bit that is 1 where the signed number `a` is at least `b`. The only error is want of memory,
/// after which `out` is as before.
pub fn sge(pen: &mut NetPen, a: &[u32], b: &[u32], out: &mut Vec<u32>) -> Result<(), AllocError>
    requires some { 1 ≤ length a.now }
    requires same { length b.now ≡ length a.now }
    requires first { AreBlocks pen.old a.now }
    requires second { AreBlocks pen.old b.now }
    requires room { HasRoom pen.old (compare_jobs (length a.now)) }
    ensures kept { Extends pen.old pen.new }
    ensures unchanged { OnErr result (out.new.items ≡ out.old.items) }
    ensures gives { OnOk result (GivesBit pen.old pen.new out.old.items out.new.items
        (compare_jobs (length a.now)) (compare_depth (length a.now)) (EachOf a.now b.now)
        (λ inputs. is_at_most_signed
        (signed (pen.old.space * length a.now) (number_held pen.old b.now inputs))
        (signed (pen.old.space * length a.now) (number_held pen.old a.now inputs)))) }
{
    let _space = pen.space();
    let cell = below(pen, a, b, true, true)?;
    out.push(cell)?;
    Ok(())
}

/// One cell: whether `a` is less than `b`, or is not.
pub(crate) fn below(
    pen: &mut NetPen,
    a: &[u32],
    b: &[u32],
    signed: bool,
    invert: bool,
) -> Result<u32, AllocError>
    requires some { 1 ≤ length a.now }
    requires same { length b.now ≡ length a.now }
    requires first { AreBlocks pen.old a.now }
    requires second { AreBlocks pen.old b.now }
    requires room { HasRoom pen.old (compare_jobs (length a.now)) }
    ensures kept { Extends pen.old pen.new }
    ensures planned { IfOk result (λ cell. Planned pen.old pen.new (cell ∷ []) (λ _. 1) 1
        (compare_jobs (length a.now)) (compare_depth (length a.now)) (EachOf a.now b.now)
        (λ inputs _. flipped invert (is_less
        (ranked signed (pen.old.space * length a.now) (number_held pen.old a.now inputs))
        (ranked signed (pen.old.space * length a.now) (number_held pen.old b.now inputs))))) }
{
    let _space = pen.space();
    if !signed {
        passed_out(pen, Operation::Difference, a, b, invert)
    } else if a.len() == 1 {
        signed_one(pen, a, b, invert)
    } else {
        signed_many(pen, a, b, invert)
    }
}

/// The same of signed numbers of one block.
fn signed_one(pen: &mut NetPen, a: &[u32], b: &[u32], invert: bool) -> Result<u32, AllocError>
    requires one { length a.now ≡ 1 }
    requires same { length b.now ≡ length a.now }
    requires first { AreBlocks pen.old a.now }
    requires second { AreBlocks pen.old b.now }
    requires room { HasRoom pen.old 1 }
    ensures kept { Extends pen.old pen.new }
    ensures planned { IfOk result (λ cell. Planned pen.old pen.new (cell ∷ []) (λ _. 1) 1
        (compare_jobs (length a.now)) (compare_depth (length a.now)) (EachOf a.now b.now)
        (λ inputs _. flipped invert (is_less
        (turned (pen.old.space * length a.now) (number_held pen.old a.now inputs))
        (turned (pen.old.space * length a.now) (number_held pen.old b.now inputs))))) }
{
    let space = pen.space();
    let table = less_table(pen.allocator(), space, invert)?;
    pair(pen, unit_of(space), a[0], b[0], &table)
}

/// The same of signed numbers of several blocks: the top blocks go through one job by themselves.
fn signed_many(pen: &mut NetPen, a: &[u32], b: &[u32], invert: bool) -> Result<u32, AllocError>
    requires many { 2 ≤ length a.now }
    requires same { length b.now ≡ length a.now }
    requires first { AreBlocks pen.old a.now }
    requires second { AreBlocks pen.old b.now }
    requires room { HasRoom pen.old (compare_jobs (length a.now)) }
    ensures kept { Extends pen.old pen.new }
    ensures planned { IfOk result (λ cell. Planned pen.old pen.new (cell ∷ []) (λ _. 1) 1
        (compare_jobs (length a.now)) (compare_depth (length a.now)) (EachOf a.now b.now)
        (λ inputs _. flipped invert (is_less
        (turned (pen.old.space * length a.now) (number_held pen.old a.now inputs))
        (turned (pen.old.space * length a.now) (number_held pen.old b.now inputs))))) }
{
    let space = pen.space();
    let last = a.len() - 1;
    let mut states = first_states(pen, Operation::Difference, a, b, last)?;
    let table = state_table(pen.allocator(), space)?;
    let state = pair(pen, unit_of(space), a[last], b[last], &table)?;
    states.push(state)?;
    top(pen, states, invert)
}

/// The table of whether the high digit of each index is less than the low one, both with a sign, or is not.
fn less_table(alloc: Global, space: u32, invert: bool) -> Result<Vec<u8>, AllocError>
    requires { (space ≡ 2) ⊎ (space ≡ 3) }
    ensures { IfOk result (λ table. HasEntries space (λ i. flipped invert
        (is_less (turned space (i / 2 ^ space)) (turned space (i % 2 ^ space)))) table.items) }
{
    table_of(
        alloc,
        space,
        |i: u8| -> u8
            requires { (space ≡ 2) ⊎ (space ≡ 3) }
            ensures { result ≡ flipped invert
                (is_less (turned space (i / 2 ^ space)) (turned space (i % 2 ^ space))) }
        { flip(less_entry(i, space), invert) },
    )
}

fn less_entry(i: u8, space: u32) -> u8
    requires { (space ≡ 2) ⊎ (space ≡ 3) }
    ensures { result ≡ is_less (turned space (i / 2 ^ space)) (turned space (i % 2 ^ space)) }
{
    let unit = unit_of(space);
    if turn(i / unit, space) < turn(i % unit, space) {
        1
    } else {
        0
    }
}

/// The table of the borrow state of the two digits of each index, both with a sign.
fn state_table(alloc: Global, space: u32) -> Result<Vec<u8>, AllocError>
    requires { (space ≡ 2) ⊎ (space ≡ 3) }
    ensures { IfOk result (λ table. HasEntries space (signed_state space) table.items) }
{
    table_of(
        alloc,
        space,
        |i: u8| -> u8
            requires { (space ≡ 2) ⊎ (space ≡ 3) }
            ensures { result ≡ signed_state space i }
        { state_entry(i, space) },
    )
}

fn state_entry(i: u8, space: u32) -> u8
    requires { (space ≡ 2) ⊎ (space ≡ 3) }
    ensures { result ≡ signed_state space i }
{
    let unit = unit_of(space);
    let first = turn(i / unit, space);
    let second = turn(i % unit, space);
    if first < second {
        1
    } else if first == second {
        2
    } else {
        0
    }
}

/// A digit of which the top bit is turned.
fn turn(digit: u8, space: u32) -> u8
    requires space { (space ≡ 2) ⊎ (space ≡ 3) }
    requires digit { digit < 64 }
    ensures value { result ≡ turned space digit }
    ensures below { result < 2 ^ space }
{
    let unit = unit_of(space);
    (digit + unit / 2) % unit
}
