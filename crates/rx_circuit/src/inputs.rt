//! The inputs of a circuit among the lines of a value file.
ghost use Rattle.std.specs.Prelude.{◌≡◌, [], IfOk, option_map, find, length};
ghost use Rattle.std.specs.Option.{option_copied};
ghost use Rattle.std.specs.Str.{bytes_eq};
ghost use Rattle.rx_language.specs.Words.{is_input as is_input_word};
ghost use Rattle.rx_language.specs.Programs.{inputs_of, ports_in};
ghost use Rattle.rx_meaning.specs.Values.{AreWithin};
ghost use Rattle.rx_circuit.specs.Inputs.{Finds, FindsItems, added, fits, input_from, input_line, line_named, found_after, found_inputs};

use crate::values::{ValueLine, Values};
use rx_language::{Circuit, Line, NameKind, Step};
use rx_params::{Kind, Name};
use std::alloc::{AllocError, AllocFailed, Global};
use thiserror::Error;

/// Why the inputs of a circuit are not found.
#[derive(Clone, Copy, Debug, Error)]
pub enum InputError {
    /// No line has the name of the first input that is not found.
    #[error("an input is missing")]
    Missing(Name),
    /// Its line is of another kind, or has other bits.
    #[error("an input has another form")]
    Form(Name),
    /// Memory ran out.
    #[error("out of memory")]
    Memory,
}

impl From<AllocError> for InputError {
    ghost use Rattle.rx_circuit.specs.declared.inputs.InputError.TheVariants.{Memory};

    ghost from_gives = { λ _ e. e ≡ Memory };

    fn from(_: AllocError) -> InputError {
        InputError::Memory
    }
}

impl<T: Drop> From<AllocFailed<T>> for InputError {
    ghost use Rattle.rx_circuit.specs.declared.inputs.InputError.TheVariants.{Memory};

    ghost from_gives = { λ _ e. e ≡ Memory };

    fn from(_: AllocFailed<T>) -> InputError {
        InputError::Memory
    }
}

/// The number of each input of a circuit, in their order, from the line of its name: an int of the input's width, or a
/// bit. The error is the first input for which there is none. Other lines are passed over.
pub fn find_inputs(
    alloc: Global,
    circuit: &Circuit,
    values: &Values,
) -> Result<Vec<u64>, InputError>
    ensures exact { FindsItems result (found_inputs (inputs_of circuit.now) values.now) }
    ensures within { IfOk result (λ numbers. AreWithin (inputs_of circuit.now) numbers.items) }
{
    let inputs = find_each(alloc, circuit.lines(), circuit.steps(), values.lines())?;
    Ok(inputs)
}

fn find_each(
    alloc: Global,
    lines: &[Line],
    steps: &[Step],
    values: &[ValueLine],
) -> Result<Vec<u64>, InputError>
    requires { length steps.now ≡ length lines.now }
    ensures { FindsItems result
        (found_inputs (ports_in is_input_word lines.now steps.now) values.now) }
{
    let mut inputs = Vec::new(alloc);
    for (place, line) in lines.iter().enumerate() {
        add_input(&mut inputs, line, steps[place].kind, values)?;
    }
    Ok(inputs)
}

/// Adds the number of a line of this kind, where it is an input.
fn add_input(
    inputs: &mut Vec<u64>,
    line: &Line,
    kind: NameKind,
    values: &[ValueLine],
) -> Result<(), InputError>
    ensures { Finds (λ _. inputs.new.items) result
        (added inputs.old.items (input_line line.now kind values.now)) }
{
    if line.word.is_input() {
        let number = input_number(&line.name, kind, values)?;
        inputs.push(number)?;
    }
    Ok(())
}

/// The number of an input of this name and kind.
fn input_number(name: &Name, kind: NameKind, values: &[ValueLine]) -> Result<u64, InputError>
    ensures { result ≡ input_from name.now kind (line_named name.now values.now) }
{
    let Some(value) = value_named(name, values) else {
        return Err(InputError::Missing(*name));
    };
    if is_fit(kind, value) {
        Ok(value.value)
    } else {
        Err(InputError::Form(*name))
    }
}

fn value_named<'a>(name: &Name, values: &'a [ValueLine]) -> Option<&'a ValueLine>
    ensures { option_copied result ≡ line_named name.now values.now }
{
    values.iter().find(|value| value.name == *name)
}

/// Whether a line holds a number of the kind: an int of its width, or a bit.
fn is_fit(kind: NameKind, value: &ValueLine) -> bool
    ensures { result ≡ fits kind value.now }
{
    let is_kind = match kind {
        NameKind::Int(_) | NameKind::Sint(_) => value.kind == Kind::Int,
        NameKind::Bit => value.kind == Kind::Bit,
    };
    is_kind && value.bits == kind.bits()
}
