//! The lines of a circuit are planned, one after the other, each over the cells of the lines before it.
ghost use Rattle.std.specs.Prelude.{◌≡◌, ◌+◌, ◌<◌, ◌≤◌, ◌^◌, false, true, [], IfOk, length, get_or};
ghost use Rattle.std.specs.List.{range_with_len};
ghost use Rattle.rx_net.specs.Limits.{most_jobs};
ghost use Rattle.rx_language.specs.Words.{is_input, is_output};
ghost use Rattle.rx_language.specs.Programs.{kind_at, steps_of};
ghost use Rattle.rx_meaning.specs.Bounds.{jobs_of};
ghost use Rattle.rx_compile.specs.States.{inputs_net, first_cell, AreFirsts, Holds, IsNext, Plans, line_at, step_at, source_at};

use crate::arms::{Argument, plan_none, plan_one, plan_three, plan_two};
use crate::kinds::file_kind;
use rx_language::Circuit;
use rx_net::{Cells, NetPen};
use std::alloc::{AllocError, Global};

/// Plans all lines, and answers the cells of each.
pub(crate) fn plan_lines(
    pen: &mut NetPen,
    circuit: &Circuit,
    firsts: &[u32],
) -> Result<Vec<Cells>, AllocError>
    requires few { jobs_of circuit.now ≤ most_jobs }
    requires declared { pen.old ≡ inputs_net circuit.now (length circuit.now.lines) }
    requires firsts { AreFirsts circuit.now firsts.now }
    ensures count { IfOk result (λ v. length v.items ≡ length circuit.now.lines) }
    ensures holds { IfOk result (λ v. Holds circuit.now pen.new v.items) }
    ensures blank { IfOk result (λ _. pen.new.outputs ≡ []) }
{
    let count = circuit.lines().len();
    let mut cells = Vec::with_capacity(pen.allocator(), count)?;
    for place in 0..count {
        let made = plan_line(pen, circuit, &cells, place, firsts[place])?;
        cells.push(made)?;
    }
    Ok(cells)
}

/// Plans the line at a place, whose input has this first cell if it is one.
fn plan_line(
    pen: &mut NetPen,
    circuit: &Circuit,
    cells: &[Cells],
    place: usize,
    first: u32,
) -> Result<Cells, AllocError>
    requires next { IsNext circuit.now pen.old cells.now place }
    requires first { first ≡ first_cell circuit.now place }
    ensures { IfOk result (λ made. Plans circuit.now place pen.old pen.new made) }
{
    let word = circuit.lines()[place].word;
    if word.is_input() {
        return input_cells(pen, circuit, cells, place, first);
    }
    if word.is_output() {
        return given_cells(pen, circuit, cells, place);
    }
    match circuit.steps()[place].sources.as_slice().len() {
        0 => plan_with_none(pen, circuit, cells, place),
        1 => plan_with_one(pen, circuit, cells, place),
        2 => plan_with_two(pen, circuit, cells, place),
        3 => plan_with_three(pen, circuit, cells, place),
        _ => unreachable!(),
    }
}

/// The cells of an input.
fn input_cells(
    pen: &NetPen,
    circuit: &Circuit,
    cells: &[Cells],
    place: usize,
    first: u32,
) -> Result<Cells, AllocError>
    requires next { IsNext circuit.now pen.now cells.now place }
    requires input { is_input (line_at circuit.now place).word ≡ true }
    requires first { first ≡ first_cell circuit.now place }
    ensures { IfOk result (λ made. Plans circuit.now place pen.now pen.now made) }
{
    let _cells = cells;
    let kind = circuit.steps()[place].kind;
    let count = file_kind(kind).block_count(pen.space(), kind.bits());
    count_from(pen.allocator(), first, count)
}

/// So many cells, one after the other.
fn count_from(alloc: Global, first: u32, count: u32) -> Result<Cells, AllocError>
    requires { first + count < 2 ^ 32 }
    ensures { IfOk result (λ cells. cells ≡ range_with_len first count) }
{
    let mut cells = Vec::with_capacity(alloc, count as usize)?;
    for cell in first..first + count {
        cells.push(cell)?;
    }
    Ok(Cells::from_vec(cells))
}

/// The cells that an output gives out, those of the line that defines it.
fn given_cells(
    pen: &NetPen,
    circuit: &Circuit,
    cells: &[Cells],
    place: usize,
) -> Result<Cells, AllocError>
    requires next { IsNext circuit.now pen.now cells.now place }
    requires output { is_output (line_at circuit.now place).word ≡ true }
    ensures { IfOk result (λ made. Plans circuit.now place pen.now pen.now made) }
{
    let _lawful = circuit.space();
    let given = argument(circuit, cells, place, 0);
    Ok(Cells::from_vec(Vec::from_slice(pen.allocator(), given.cells)?))
}

/// An argument of the line at a place.
fn argument<'a>(circuit: &Circuit, cells: &'a [Cells], place: usize, number: usize) -> Argument<'a>
    requires there { place < length circuit.now.lines }
    requires count { length cells.now ≡ place }
    requires number { number < length (step_at circuit.now place).sources }
    ensures kind { result.kind ≡ kind_at (steps_of circuit.now) (source_at circuit.now place number) }
    ensures cells { result.cells.now ≡ get_or cells.now (source_at circuit.now place number) [] }
{
    let steps = circuit.steps();
    let source = steps[place].sources.as_slice()[number];
    Argument {
        kind: steps[source].kind,
        cells: cells[source].as_slice(),
    }
}

/// Plans a line without arguments.
fn plan_with_none(
    pen: &mut NetPen,
    circuit: &Circuit,
    cells: &[Cells],
    place: usize,
) -> Result<Cells, AllocError>
    requires next { IsNext circuit.now pen.old cells.now place }
    requires plain { is_input (line_at circuit.now place).word ≡ false }
    requires inner { is_output (line_at circuit.now place).word ≡ false }
    requires sources { length (step_at circuit.now place).sources ≡ 0 }
    ensures { IfOk result (λ made. Plans circuit.now place pen.old pen.new made) }
{
    let _space = pen.space();
    let _cells = cells;
    let line = &circuit.lines()[place];
    let kind = circuit.steps()[place].kind;
    let made = plan_none(pen, line.word, line.number, kind)?;
    Ok(Cells::from_vec(made))
}

/// Plans a line of one argument.
fn plan_with_one(
    pen: &mut NetPen,
    circuit: &Circuit,
    cells: &[Cells],
    place: usize,
) -> Result<Cells, AllocError>
    requires next { IsNext circuit.now pen.old cells.now place }
    requires plain { is_input (line_at circuit.now place).word ≡ false }
    requires inner { is_output (line_at circuit.now place).word ≡ false }
    requires sources { length (step_at circuit.now place).sources ≡ 1 }
    ensures { IfOk result (λ made. Plans circuit.now place pen.old pen.new made) }
{
    let _space = pen.space();
    let line = &circuit.lines()[place];
    let kind = circuit.steps()[place].kind;
    let a = argument(circuit, cells, place, 0);
    let made = plan_one(pen, line.word, line.number, kind, &a)?;
    Ok(Cells::from_vec(made))
}

/// Plans a line of two arguments.
fn plan_with_two(
    pen: &mut NetPen,
    circuit: &Circuit,
    cells: &[Cells],
    place: usize,
) -> Result<Cells, AllocError>
    requires next { IsNext circuit.now pen.old cells.now place }
    requires plain { is_input (line_at circuit.now place).word ≡ false }
    requires inner { is_output (line_at circuit.now place).word ≡ false }
    requires sources { length (step_at circuit.now place).sources ≡ 2 }
    ensures { IfOk result (λ made. Plans circuit.now place pen.old pen.new made) }
{
    let _space = pen.space();
    let line = &circuit.lines()[place];
    let kind = circuit.steps()[place].kind;
    let a = argument(circuit, cells, place, 0);
    let b = argument(circuit, cells, place, 1);
    let made = plan_two(pen, line.word, kind, &a, &b)?;
    Ok(Cells::from_vec(made))
}

/// Plans a line of three arguments.
fn plan_with_three(
    pen: &mut NetPen,
    circuit: &Circuit,
    cells: &[Cells],
    place: usize,
) -> Result<Cells, AllocError>
    requires next { IsNext circuit.now pen.old cells.now place }
    requires plain { is_input (line_at circuit.now place).word ≡ false }
    requires inner { is_output (line_at circuit.now place).word ≡ false }
    requires sources { length (step_at circuit.now place).sources ≡ 3 }
    ensures { IfOk result (λ made. Plans circuit.now place pen.old pen.new made) }
{
    let _space = pen.space();
    let line = &circuit.lines()[place];
    let kind = circuit.steps()[place].kind;
    let a = argument(circuit, cells, place, 0);
    let b = argument(circuit, cells, place, 1);
    let c = argument(circuit, cells, place, 2);
    let made = plan_three(pen, line.word, kind, &a, &b, &c)?;
    Ok(Cells::from_vec(made))
}
