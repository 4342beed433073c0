//! The planners of lines: cells that hold the value of a line, by its word. Each rule of the table of lines has a match with an
//! arm an operation.
ghost use Rattle.std.specs.Prelude.{◌≡◌, [], ◌∷◌, IsTrue, IfOk, OnOk};
ghost use Rattle.rx_net.specs.Growth.{Extends};
ghost use Rattle.rx_plan.specs.Planned.{HasRoom};
ghost use Rattle.rx_meaning.specs.Costs.{cost_by};
ghost use Rattle.rx_meaning.specs.Kinds.{is_kind};
ghost use Rattle.rx_compile.specs.Realized.{RealizesNone, RealizesOne, RealizesTwo, RealizesThree};
ghost use Rattle.rx_compile.specs.Arms.{Takes, IsArgument};

mod bitwise;
mod division;
mod numbers;
mod orders;
mod shifts;
mod single;

use crate::kinds::{blocks_of, file_kind, is_signed};
use bitwise::append_bits;
use division::append_division;
use numbers::append_number;
use orders::append_order;
use rx_bits::{cast, constant, not};
use rx_cmp::select;
use rx_language::{NameKind, Rule, Word};
use rx_net::NetPen;
use shifts::append_shifted;
use single::append_single;
use std::alloc::AllocError;

/// An argument of a line: its kind, and the cells that hold its value, the least block first.
#[derive(Clone, Copy)]
pub(crate) struct Argument<'a> {
    pub(crate) kind: NameKind,
    pub(crate) cells: &'a [u32],
}

/// The cells of a line without arguments, which is no input. The only error is want of memory.
pub(crate) fn plan_none(
    pen: &mut NetPen,
    word: Word,
    number: u64,
    kind: NameKind,
) -> Result<Vec<u32>, AllocError>
    requires takes { Takes word number [] kind }
    requires kind { IsTrue (is_kind pen.old.space kind) }
    requires room { HasRoom pen.old (cost_by word pen.old.space kind kind).jobs }
    ensures kept { Extends pen.old pen.new }
    ensures realized { IfOk result (λ cells.
        RealizesNone word number pen.old pen.new kind cells.items) }
{
    let blocks = blocks_of(pen.space(), kind);
    let mut cells = Vec::new(pen.allocator());
    match word {
        Word::Const | Word::Constw => constant(pen, blocks, number, &mut cells)?,
        _ => unreachable!(),
    }
    Ok(cells)
}

/// The cells of a line of one argument. The only error is want of memory.
pub(crate) fn plan_one(
    pen: &mut NetPen,
    word: Word,
    number: u64,
    kind: NameKind,
    a: &Argument,
) -> Result<Vec<u32>, AllocError>
    requires takes { Takes word number (a.now.kind ∷ []) kind }
    requires kind { IsTrue (is_kind pen.old.space kind) }
    requires argument { IsArgument pen.old a.now.kind a.now.cells.now }
    requires room { HasRoom pen.old (cost_by word pen.old.space kind a.now.kind).jobs }
    ensures kept { Extends pen.old pen.new }
    ensures realized { IfOk result (λ cells. RealizesOne word number pen.old pen.new
        kind cells.items a.now.kind a.now.cells.now) }
{
    let mut cells = Vec::new(pen.allocator());
    append_one(pen, word, number, kind, a, &mut cells)?;
    Ok(cells)
}

/// The same, appended to an empty list.
fn append_one(
    pen: &mut NetPen,
    word: Word,
    number: u64,
    kind: NameKind,
    a: &Argument,
    out: &mut Vec<u32>,
) -> Result<(), AllocError>
    requires takes { Takes word number (a.now.kind ∷ []) kind }
    requires kind { IsTrue (is_kind pen.old.space kind) }
    requires argument { IsArgument pen.old a.now.kind a.now.cells.now }
    requires empty { out.old.items ≡ [] }
    requires room { HasRoom pen.old (cost_by word pen.old.space kind a.now.kind).jobs }
    ensures kept { Extends pen.old pen.new }
    ensures realized { OnOk result (RealizesOne word number pen.old pen.new
        kind out.new.items a.now.kind a.now.cells.now) }
{
    let space = pen.space();
    let in_net = file_kind(kind);
    match word.form().rule {
        Rule::OneNumber => append_single(pen, word, number as u32, kind, a.cells, out),
        Rule::OneOfAny => not(pen, a.cells, in_net, out),
        Rule::CastInt | Rule::CastSint => {
            cast(pen, a.cells, blocks_of(space, kind), is_signed(a.kind), out)
        }
        _ => unreachable!(),
    }
}

/// The cells of a line of two arguments. The only error is want of memory.
pub(crate) fn plan_two(
    pen: &mut NetPen,
    word: Word,
    kind: NameKind,
    a: &Argument,
    b: &Argument,
) -> Result<Vec<u32>, AllocError>
    requires takes { Takes word 0 (a.now.kind ∷ b.now.kind ∷ []) kind }
    requires kind { IsTrue (is_kind pen.old.space kind) }
    requires first { IsArgument pen.old a.now.kind a.now.cells.now }
    requires second { IsArgument pen.old b.now.kind b.now.cells.now }
    requires room { HasRoom pen.old (cost_by word pen.old.space kind a.now.kind).jobs }
    ensures kept { Extends pen.old pen.new }
    ensures realized { IfOk result (λ cells. RealizesTwo word pen.old pen.new
        kind cells.items a.now.kind a.now.cells.now b.now.kind b.now.cells.now) }
{
    let mut cells = Vec::new(pen.allocator());
    append_two(pen, word, kind, a, b, &mut cells)?;
    Ok(cells)
}

/// The same, appended to an empty list.
fn append_two(
    pen: &mut NetPen,
    word: Word,
    kind: NameKind,
    a: &Argument,
    b: &Argument,
    out: &mut Vec<u32>,
) -> Result<(), AllocError>
    requires takes { Takes word 0 (a.now.kind ∷ b.now.kind ∷ []) kind }
    requires kind { IsTrue (is_kind pen.old.space kind) }
    requires first { IsArgument pen.old a.now.kind a.now.cells.now }
    requires second { IsArgument pen.old b.now.kind b.now.cells.now }
    requires empty { out.old.items ≡ [] }
    requires room { HasRoom pen.old (cost_by word pen.old.space kind a.now.kind).jobs }
    ensures kept { Extends pen.old pen.new }
    ensures realized { OnOk result (RealizesTwo word pen.old pen.new
        kind out.new.items a.now.kind a.now.cells.now b.now.kind b.now.cells.now) }
{
    let _space = pen.space();
    match word.form().rule {
        Rule::TwoNumbers => append_number(pen, word, kind, a.cells, b.cells, out),
        Rule::TwoInts => append_division(pen, word, a, b.cells, out),
        Rule::TwoAlike => append_bits(pen, word, kind, a.cells, b.cells, out),
        Rule::NumberAndAmount => append_shifted(pen, word, kind, a.cells, b.cells, out),
        Rule::Compared => append_order(pen, word, a.kind, a.cells, b.cells, out),
        _ => unreachable!(),
    }
}

/// The cells of a line of three arguments. The only error is want of memory.
pub(crate) fn plan_three(
    pen: &mut NetPen,
    word: Word,
    kind: NameKind,
    a: &Argument,
    b: &Argument,
    c: &Argument,
) -> Result<Vec<u32>, AllocError>
    requires takes { Takes word 0 (a.now.kind ∷ b.now.kind ∷ c.now.kind ∷ []) kind }
    requires kind { IsTrue (is_kind pen.old.space kind) }
    requires first { IsArgument pen.old a.now.kind a.now.cells.now }
    requires second { IsArgument pen.old b.now.kind b.now.cells.now }
    requires third { IsArgument pen.old c.now.kind c.now.cells.now }
    requires room { HasRoom pen.old (cost_by word pen.old.space kind a.now.kind).jobs }
    ensures kept { Extends pen.old pen.new }
    ensures realized { IfOk result (λ cells. RealizesThree word pen.old pen.new
        kind cells.items a.now.kind a.now.cells.now b.now.kind b.now.cells.now
        c.now.kind c.now.cells.now) }
{
    let _space = pen.space();
    let mut cells = Vec::new(pen.allocator());
    match word {
        Word::Select => select(pen, a.cells[0], b.cells, c.cells, &mut cells)?,
        _ => unreachable!(),
    }
    Ok(cells)
}
