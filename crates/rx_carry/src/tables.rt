//! Tables of digits, of states and of states combined.
ghost use Rattle.std.specs.Prelude.{◌≡◌, ◌⊎◌, ◌<◌, ◌/◌, ◌%◌, ◌^◌, nat_lt, if◌then◌else◌, IfOk};
ghost use Rattle.rx_plan.specs.Tables.{HasEntries};
ghost use Rattle.rx_carry.specs.declared.operation.Operation.TheVariants.{Sum, Difference, Negation};
ghost use Rattle.rx_carry.specs.Carries.{combine, digit_left, flipped, state_of};

use crate::operation::Operation;
use rx_plan::{table_of, unit_of};
use std::alloc::{AllocError, Global};

/// What goes out of a block by its state and what comes in.
fn combined(high: u8, low: u8) -> u8
    ensures { result ≡ combine high low }
{
    match high {
        2 => low,
        _ => high,
    }
}

fn flip(bit: u8, invert: bool) -> u8
    ensures { result ≡ flipped invert bit }
{
    if invert {
        if bit == 0 { 1 } else { 0 }
    } else {
        bit
    }
}

fn state_entry(operation: Operation, i: u8, unit: u8) -> u8
    requires { 0 < unit }
    ensures { result ≡ state_of operation unit i }
{
    match operation {
        Operation::Sum => sum_state(i, unit),
        Operation::Difference => difference_state(i, unit),
        Operation::Negation => negation_state(i),
    }
}

fn sum_state(i: u8, unit: u8) -> u8
    requires { 0 < unit }
    ensures { result ≡ state_of Sum unit i }
{
    if i == unit - 1 { 2 } else { i / unit }
}

fn difference_state(i: u8, unit: u8) -> u8
    ensures { result ≡ state_of Difference unit i }
{
    if i < unit {
        1
    } else if i == unit {
        2
    } else {
        0
    }
}

fn negation_state(i: u8) -> u8
    ensures { result ≡ state_of Negation 0 i }
{
    if i == 0 { 2 } else { 1 }
}

/// The tables of states: of block 0, into which nothing comes, and of the others.
#[derive(Drop)]
pub(crate) struct StateTables {
    pub(crate) first: Vec<u8>,
    pub(crate) rest: Vec<u8>,
}

pub(crate) fn state_tables(
    alloc: Global,
    space: u32,
    operation: Operation,
) -> Result<StateTables, AllocError>
    requires { (space ≡ 2) ⊎ (space ≡ 3) }
    ensures first { IfOk result (λ tables. HasEntries space
        (λ i. combine (state_of operation (2 ^ space) i) 0) tables.first.items) }
    ensures rest { IfOk result (λ tables. HasEntries space
        (state_of operation (2 ^ space)) tables.rest.items) }
{
    Ok(StateTables {
        first: first_table(alloc, space, operation, false)?,
        rest: state_table(alloc, space, operation)?,
    })
}

/// The table of what goes out of a block into which nothing comes, or of the opposite.
pub(crate) fn first_table(
    alloc: Global,
    space: u32,
    operation: Operation,
    invert: bool,
) -> Result<Vec<u8>, AllocError>
    requires { (space ≡ 2) ⊎ (space ≡ 3) }
    ensures { IfOk result (λ table. HasEntries space
        (λ i. flipped invert (combine (state_of operation (2 ^ space) i) 0)) table.items) }
{
    let unit = unit_of(space);
    table_of(
        alloc,
        space,
        |i: u8| -> u8
            requires { 0 < unit }
            ensures { result ≡ flipped invert (combine (state_of operation unit i) 0) }
        { flip(combined(state_entry(operation, i, unit), 0), invert) },
    )
}

fn state_table(alloc: Global, space: u32, operation: Operation) -> Result<Vec<u8>, AllocError>
    requires { (space ≡ 2) ⊎ (space ≡ 3) }
    ensures { IfOk result (λ table. HasEntries space
        (state_of operation (2 ^ space)) table.items) }
{
    let unit = unit_of(space);
    table_of(
        alloc,
        space,
        |i: u8| -> u8
            requires { 0 < unit }
            ensures { result ≡ state_of operation unit i }
        { state_entry(operation, i, unit) },
    )
}

/// At three times a high state and a low one, the two combined, or the opposite.
pub(crate) fn combine_table(alloc: Global, space: u32, invert: bool) -> Result<Vec<u8>, AllocError>
    requires { (space ≡ 2) ⊎ (space ≡ 3) }
    ensures { IfOk result (λ table. HasEntries space
        (λ i. flipped invert (combine (i / 3) (i % 3))) table.items) }
{
    table_of(
        alloc,
        space,
        |i: u8| -> u8
            ensures { result ≡ flipped invert (combine (i / 3) (i % 3)) }
        { flip(combined(i / 3, i % 3), invert) },
    )
}

fn digit_entry(operation: Operation, i: u8, unit: u8) -> u8
    requires { 0 < unit }
    ensures { result ≡ digit_left operation unit i }
{
    match operation {
        Operation::Sum | Operation::Difference => i % unit,
        Operation::Negation => unit.saturating_sub(i) % unit,
    }
}

/// The table of the digits that are left in the blocks.
pub(crate) fn left_table(
    alloc: Global,
    space: u32,
    operation: Operation,
) -> Result<Vec<u8>, AllocError>
    requires { (space ≡ 2) ⊎ (space ≡ 3) }
    ensures { IfOk result (λ table. HasEntries space
        (digit_left operation (2 ^ space)) table.items) }
{
    let unit = unit_of(space);
    table_of(
        alloc,
        space,
        |i: u8| -> u8
            requires { 0 < unit }
            ensures { result ≡ digit_left operation unit i }
        { digit_entry(operation, i, unit) },
    )
}

/// The table of a place.
pub(crate) fn table_at(tables: &StateTables, place: usize) -> &[u8]
    ensures { result.now ≡ if nat_lt place 1
        then tables.now.first.items else tables.now.rest.items }
{
    if place < 1 {
        tables.first.as_slice()
    } else {
        tables.rest.as_slice()
    }
}
