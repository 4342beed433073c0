//! The values of a circuit, line by line.
ghost use Rattle.std.specs.Prelude.{◌≡◌, ℕ, ◌<◌, ◌^◌, [], ◌++◌, IfOk, OnOk, length, get_or, slice_index};
ghost use Rattle.rx_language.specs.Programs.{inputs_of, outputs_of, kind_at};
ghost use Rattle.rx_meaning.specs.Operations.{HasBits, IsHeld};
ghost use Rattle.rx_meaning.specs.Values.{AreHeld, AreWithin, absent, argument, value_after, given_to, next_after, values_from, output_of, given_out, outputs_for};

use crate::operand::Operand;
use crate::operations::operate;
use rx_language::{Circuit, Line, NameKind, Step};
use std::alloc::{AllocError, Global};

/// What stands for an argument that a line has not.
const ABSENT: Operand = Operand {
    kind: NameKind::Bit,
    value: 0,
};

/// The outputs of a circuit for its inputs, both in the order of their lines. There is a number for each input, below
/// two to the bits of its kind, and so is each output. A number with a sign is its residue.
pub fn value(alloc: Global, circuit: &Circuit, inputs: &[u64]) -> Result<Vec<u64>, AllocError>
    requires { AreWithin (inputs_of circuit.now) inputs.now }
    ensures value { IfOk result (λ v. v.items ≡ outputs_for circuit.now inputs.now) }
    ensures within { IfOk result (λ v. AreWithin (outputs_of circuit.now) v.items) }
{
    let values = line_values(alloc, circuit.lines(), circuit.steps(), inputs)?;
    outputs(alloc, circuit.lines(), &values)
}

/// The values of all lines.
fn line_values(
    alloc: Global,
    lines: &[Line],
    steps: &[Step],
    inputs: &[u64],
) -> Result<Vec<Operand>, AllocError>
    requires same { length steps.now ≡ length lines.now }
    requires kinds { (i : ℕ) → HasBits (kind_at steps.now i) }
    ensures { IfOk result (λ v. v.items ≡ values_from inputs.now [] 0 lines.now steps.now) }
{
    let mut values = Vec::with_capacity(alloc, lines.len())?;
    let mut next = 0;
    for (place, line) in lines.iter().enumerate() {
        let given = given_to(inputs, next, line);
        let line_value = value_after(&values, given, line, &steps[place]);
        values.push(line_value)?;
        next = next_after(next, line);
    }
    Ok(values)
}

/// The value of a line, by those of the lines before it.
fn value_after(before: &[Operand], given: u64, line: &Line, step: &Step) -> Operand
    requires bits { HasBits step.now.kind }
    requires held { AreHeld before.now }
    ensures value { result ≡ value_after before.now given line.now step.now }
    ensures held { IsHeld result }
{
    let sources = step.sources.as_slice();
    let a = argument(before, sources, 0);
    let b = argument(before, sources, 1);
    let c = argument(before, sources, 2);
    Operand {
        kind: step.kind,
        value: operate(line.word, given, step.kind.bits(), a, b, c),
    }
}

/// An argument of a line whose arguments have these places.
fn argument(before: &[Operand], sources: &[usize], number: usize) -> Operand
    requires { AreHeld before.now }
    ensures value { result ≡ argument before.now sources.now number }
    ensures held { IsHeld result }
{
    match sources.get(number) {
        Some(place) => operand_at(before, *place),
        None => ABSENT,
    }
}

fn operand_at(before: &[Operand], place: usize) -> Operand
    requires { AreHeld before.now }
    ensures value { result ≡ get_or before.now place absent }
    ensures held { IsHeld result }
{
    match before.get(place) {
        Some(operand) => *operand,
        None => ABSENT,
    }
}

/// What is given to a line: input number `next` to an input, else its numeral.
fn given_to(inputs: &[u64], next: usize, line: &Line) -> u64
    ensures { result ≡ given_to inputs.now next line.now }
{
    if line.word.is_input() {
        input_at(inputs, next)
    } else {
        line.number
    }
}

fn input_at(inputs: &[u64], place: usize) -> u64
    ensures { result ≡ slice_index inputs.now place }
{
    match inputs.get(place) {
        Some(input) => *input,
        None => 0,
    }
}

/// The number of the next input after a line.
fn next_after(next: usize, line: &Line) -> usize
    requires { next < 2 ^ 63 }
    ensures { result ≡ next_after next line.now }
{
    if line.word.is_input() { next + 1 } else { next }
}

/// The values of the outputs among the lines.
fn outputs(alloc: Global, lines: &[Line], values: &[Operand]) -> Result<Vec<u64>, AllocError>
    requires { length values.now ≡ length lines.now }
    ensures { IfOk result (λ v. v.items ≡ given_out lines.now values.now) }
{
    let mut outputs = Vec::new(alloc);
    for (place, line) in lines.iter().enumerate() {
        give_out(&mut outputs, line, values[place].value)?;
    }
    Ok(outputs)
}

/// Adds the value of a line where it is an output.
fn give_out(outputs: &mut Vec<u64>, line: &Line, value: u64) -> Result<(), AllocError>
    ensures { OnOk result (outputs.new.items ≡ outputs.old.items ++ output_of line.now value) }
{
    if line.word.is_output() {
        outputs.push(value)?;
    }
    Ok(())
}
