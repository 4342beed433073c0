//! The two texts of a sample.
ghost use Rattle.std.specs.Prelude.{ℕ, ◌≡◌, ◌<◌, ◌++◌, IfOk, OnOk, get_or, [], string_bytes};
ghost use Rattle.rx_sample.specs.Draws.{state_after, drawn};
ghost use Rattle.rx_sample.specs.Samples.{name_at, operations, texts_below, input_line, drawn_line, output_line, operation_line, value_line, circuit_text, values_text};

use crate::draws::Draws;
use std::alloc::{AllocError, Global};
use std::fmt::Write;

/// The text of a circuit, and that of a value file with its inputs.
#[derive(Debug, Drop)]
pub struct Sample {
    /// 33 lines.
    pub circuit: String,
    /// Eight lines.
    pub values: String,
}

/// The sample of a number.
pub fn make_sample(alloc: Global, number: u64) -> Result<Sample, AllocError>
    ensures circuit { IfOk result (λ s. string_bytes s.circuit ≡ circuit_text number) }
    ensures values { IfOk result (λ s. string_bytes s.values ≡ values_text number) }
{
    let mut draws = Draws::from(number);
    let mut values = String::new(alloc);
    put_values(&mut values, &mut draws)?;
    let mut circuit = String::from_str(alloc, "bits 2 16\n")?;
    put_inputs(&mut circuit)?;
    put_operations(&mut circuit, &mut draws)?;
    put_outputs(&mut circuit)?;
    Ok(Sample { circuit, values })
}

fn put_values(text: &mut String, draws: &mut Draws) -> Result<(), AllocError>
    ensures text { OnOk result (string_bytes text.new
        ≡ string_bytes text.old ++ texts_below (value_line draws.old) 8) }
    ensures draws { OnOk result (draws.new ≡ state_after draws.old 8) }
{
    for place in 0..8 {
        let value = draws.draw(65536);
        put_value(text, place, value)?;
    }
    Ok(())
}

fn put_value(text: &mut String, place: u64, value: u64) -> Result<(), AllocError>
    ensures { (state : ℕ) → value ≡ drawn state place 65536 → OnOk result (string_bytes text.new
        ≡ string_bytes text.old ++ value_line state place) }
{
    write!(text, "int i{place} 16 {value}\n")
}

fn put_inputs(text: &mut String) -> Result<(), AllocError>
    ensures { OnOk result (string_bytes text.new
        ≡ string_bytes text.old ++ texts_below input_line 8) }
{
    for place in 0..8 {
        put_input(text, place)?;
    }
    Ok(())
}

fn put_input(text: &mut String, place: u64) -> Result<(), AllocError>
    ensures { OnOk result (string_bytes text.new ≡ string_bytes text.old ++ input_line place) }
{
    write!(text, "in i{place}\n")
}

fn put_operations(text: &mut String, draws: &mut Draws) -> Result<(), AllocError>
    ensures { OnOk result (string_bytes text.new
        ≡ string_bytes text.old ++ texts_below (drawn_line draws.old) 16) }
{
    for place in 0..16 {
        let word = operation(draws.draw(8));
        let first = draws.draw(8 + place);
        let second = draws.draw(8 + place);
        put_operation(text, word, place, first, second)?;
    }
    Ok(())
}

fn operation(place: u64) -> &'static str
    ensures { result.now ≡ get_or operations place [] }
{
    match place {
        0 => "add",
        1 => "sub",
        2 => "mul",
        3 => "and",
        4 => "or",
        5 => "xor",
        6 => "min",
        7 => "max",
        _ => "",
    }
}

fn put_operation(
    text: &mut String,
    word: &str,
    place: u64,
    first: u64,
    second: u64,
) -> Result<(), AllocError>
    ensures { OnOk result (string_bytes text.new
        ≡ string_bytes text.old ++ operation_line word.now place first second) }
{
    write!(text, "{word} v{place} ")?;
    put_name(text, first)?;
    text.push_str(" ")?;
    put_name(text, second)?;
    text.push_str("\n")?;
    Ok(())
}

fn put_name(text: &mut String, place: u64) -> Result<(), AllocError>
    ensures { OnOk result (string_bytes text.new ≡ string_bytes text.old ++ name_at place) }
{
    if place < 8 {
        write!(text, "i{place}")
    } else {
        let place = place - 8;
        write!(text, "v{place}")
    }
}

fn put_outputs(text: &mut String) -> Result<(), AllocError>
    ensures { OnOk result (string_bytes text.new
        ≡ string_bytes text.old ++ texts_below output_line 8) }
{
    for place in 0..8 {
        put_output(text, place)?;
    }
    Ok(())
}

/// The line of the output at a place from 0 to 7.
fn put_output(text: &mut String, place: u64) -> Result<(), AllocError>
    requires { place < 8 }
    ensures { OnOk result (string_bytes text.new ≡ string_bytes text.old ++ output_line place) }
{
    let place = 8 + place;
    write!(text, "out v{place}\n")
}
