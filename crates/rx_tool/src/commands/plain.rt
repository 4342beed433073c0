//! plain CIRCUIT VALUES: evaluates a circuit in the clear, and prints its outputs.
ghost use Rattle.std.specs.Prelude.{◌≡◌, length};
ghost use Rattle.rx_tool.specs.Answers.{Answers, StopsFor};
ghost use Rattle.rx_tool.specs.Plain.{input_refusal};
ghost use Rattle.rx_tool.specs.declared.command.Command.TheVariants.{Plain};

use crate::bytes::Bytes;
use crate::commands::shared::stop_for;
use crate::outcome::{Done, Stop};
use crate::words::Word;
use rx_circuit::{InputError, ParseError, find_inputs, output_lines, parse, read_values, value};
use rx_report::{malformed_text, wrong_input};
use rx_server::InputFault;
use std::alloc::Global;

/// Evaluates a circuit. It refuses, in this order, a malformed circuit, a malformed value file, and the first input for
/// which the value file has no number.
pub fn evaluate_plain(
    alloc: Global,
    circuit: &Word<'_>,
    values: &Word<'_>,
    files: &[Bytes],
) -> Result<Done, Stop>
    requires { length files.now ≡ 2 }
    ensures { Answers (Plain circuit.now values.now) files.now result }
{
    let program = match parse(alloc, files[0].as_slice()) {
        Ok(program) => program,
        Err(ParseError::Line(fault)) => {
            return Err(stop_for(malformed_text(alloc, circuit.as_str(), fault)));
        }
        Err(ParseError::Memory) => return Err(Stop::Memory),
    };
    let lines = match read_values(alloc, files[1].as_slice()) {
        Ok(lines) => lines,
        Err(ParseError::Line(fault)) => {
            return Err(stop_for(malformed_text(alloc, values.as_str(), fault)));
        }
        Err(ParseError::Memory) => return Err(Stop::Memory),
    };
    let inputs = match find_inputs(alloc, &program, &lines) {
        Ok(inputs) => inputs,
        Err(error) => return Err(stop_for_input(alloc, error)),
    };
    let outputs = value(alloc, &program, &inputs)?;
    let lines = output_lines(alloc, &program, &outputs)?;
    Ok(Done {
        writes: Vec::new(alloc),
        lines,
    })
}

/// Stops for an input for which there is no number, or for want of memory.
pub fn stop_for_input(alloc: Global, error: InputError) -> Stop
    ensures { StopsFor (input_refusal error) result }
{
    match error {
        InputError::Missing(name) => stop_for(wrong_input(alloc, InputFault::Missing(name))),
        InputError::Form(name) => stop_for(wrong_input(alloc, InputFault::Form(name))),
        InputError::Memory => Stop::Memory,
    }
}
