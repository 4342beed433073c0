//! The lines that print the outputs of a circuit.
ghost use Rattle.std.specs.Prelude.{◌≡◌, IfOk, OnOk, ◌++◌, ◌∷◌, [], length, string_bytes};
ghost use Rattle.rx_language.specs.Words.{is_output as is_output_word};
ghost use Rattle.rx_language.specs.Programs.{outputs_of};
ghost use Rattle.rx_meaning.specs.Values.{AreWithin};
ghost use Rattle.rx_circuit.specs.Outputs.{number_line, number_lines, output_names, port_names};

use rx_language::{Circuit, Line};
use rx_params::Name;
use std::alloc::{AllocError, Global};
use std::fmt::Write;

/// A line for each output of a circuit, in their order: its name, a space, its number and a line feed.
pub fn output_lines(alloc: Global, circuit: &Circuit, numbers: &[u64]) -> Result<String, AllocError>
    requires { AreWithin (outputs_of circuit.now) numbers.now }
    ensures { IfOk result (λ text. string_bytes text
        ≡ number_lines (port_names (outputs_of circuit.now)) numbers.now) }
{
    let names = names_of_outputs(alloc, circuit.lines())?;
    lines_of(alloc, &names, numbers)
}

fn names_of_outputs(alloc: Global, lines: &[Line]) -> Result<Vec<Name>, AllocError>
    ensures { IfOk result (λ names. names.items ≡ output_names lines.now) }
{
    let mut names = Vec::new(alloc);
    for line in lines {
        add_output(&mut names, line)?;
    }
    Ok(names)
}

/// Adds the name of a line where it is an output.
fn add_output(names: &mut Vec<Name>, line: &Line) -> Result<(), AllocError>
    ensures { OnOk result (names.new.items ≡ names.old.items ++ output_names (line.now ∷ [])) }
{
    if line.word.is_output() {
        names.push(line.name)?;
    }
    Ok(())
}

fn lines_of(alloc: Global, names: &[Name], numbers: &[u64]) -> Result<String, AllocError>
    requires { length numbers.now ≡ length names.now }
    ensures { IfOk result (λ text. string_bytes text ≡ number_lines names.now numbers.now) }
{
    let mut text = String::new(alloc);
    for (place, name) in names.iter().enumerate() {
        put_line(&mut text, name, numbers[place])?;
    }
    Ok(text)
}

fn put_line(text: &mut String, name: &Name, number: u64) -> Result<(), AllocError>
    ensures { OnOk result (string_bytes text.new
        ≡ string_bytes text.old ++ number_line name.now number) }
{
    let name = name.as_str();
    write!(text, "{name} {number}\n")
}
