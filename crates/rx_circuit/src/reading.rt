//! Reading a value file line by line, up to the first line that is wrong.
ghost use Rattle.std.specs.Prelude.{◌≡◌, ◌+◌, ◌^◌, ◌<◌, ◌≤◌, ◌&&◌, List, length, IfOk, MatchOption, Ok, Err, if◌then◌else◌, nat_lt, option_map};
ghost use Rattle.rx_text.specs.Faults.{fault_at};
ghost use Rattle.rx_text.specs.Lines.{words_of};
ghost use Rattle.rx_circuit.specs.declared.values.ValueLine.{ValueLine as Line};
ghost use Rattle.rx_circuit.specs.Values.{ValuesText, kind_of, is_width, has_name, spelled_line, line_after, values_from};
ghost use Rattle.rx_language.specs.Answers.{Gives, GivesItems};
ghost use Rattle.rx_circuit.specs.Reading.{held_line, ranged_line};

use crate::{ValueLine, Values};
use rx_language::ParseError;
use rx_params::{Kind, LineCause, LineFault, Name};
use rx_text::{Lines, Numeral, four_words, line_laws, numeral_laws, word_laws};
use std::alloc::Global;

/// The most lines that a value file may have.
const MOST_LINES: usize = 64;

/// The values that a value file spells, or the first line that is wrong, with its cause: `Form`, `Number`, `Again` or
/// `Limit`; or want of memory.
pub fn read_values(alloc: Global, bytes: &[u8]) -> Result<Values, ParseError>
    // Which fault it is, unless memory ran out.
    ensures exact { Gives result (values_from bytes.now) }
    // What is read is spelled so.
    ensures found { IfOk result (λ v. ValuesText bytes.now v) }
    // What is spelled so is read, unless memory runs out.
    ensures only { (lines : List Line) → ValuesText bytes.now lines → Gives result (Ok lines) }
{
    numeral_laws();
    word_laws();
    line_laws();
    let lines = read_lines(alloc, bytes)?;
    Ok(Values { lines })
}

fn read_lines(alloc: Global, bytes: &[u8]) -> Result<Vec<ValueLine>, ParseError>
    ensures { GivesItems result (values_from bytes.now) }
{
    let mut lines = Lines::of(bytes);
    let mut values = Vec::new(alloc);
    while let Some(line) = lines.next_line() {
        match value_line(line, &values) {
            Ok(value) => values.push(value)?,
            Err(cause) => return Err(fault_behind(&values, cause)),
        }
    }
    if lines.is_done() {
        Ok(values)
    } else {
        Err(fault_behind(&values, LineCause::Form))
    }
}

/// The fault of the line after these lines.
fn fault_behind(before: &[ValueLine], cause: LineCause) -> ParseError
    requires { length before.now ≤ MOST_LINES }
    ensures { result ≡ ParseError.Line (fault_at (length before.now + 1) cause) }
{
    ParseError::Line(LineFault {
        line: before.len() as u32 + 1,
        cause,
    })
}

/// The value of a line, after the lines before it.
fn value_line(line: &[u8], before: &[ValueLine]) -> Result<ValueLine, LineCause>
    ensures value { result ≡ line_after before.now (spelled_line (words_of line.now)) }
    ensures room { IfOk result (λ _. length before.now < MOST_LINES) }
{
    let spelled = Spelled::of(line).ok_or(LineCause::Form)?;
    let value = spelled.within_range()?;
    if is_taken(&value.name, before) {
        return Err(LineCause::Again);
    }
    if before.len() >= MOST_LINES {
        return Err(LineCause::Limit);
    }
    Ok(value)
}

/// Whether one of these lines has the name.
fn is_taken(name: &Name, before: &[ValueLine]) -> bool
    ensures { result ≡ has_name name.now before.now }
{
    before.iter().any(|earlier| earlier.name == *name)
}

/// The words of a line, read each by itself.
#[derive(Clone, Copy)]
struct Spelled {
    kind: Kind,
    name: Name,
    bits: Numeral,
    value: Numeral,
}

impl Spelled {
    /// None where the line has no spelling of its format.
    fn of(line: &[u8]) -> Option<Spelled>
        ensures { result ≡ option_map held_line (spelled_line (words_of line.now)) }
    {
        let (kind, name, bits, value) = four_words(line)?;
        Some(Spelled {
            kind: kind_of_word(kind)?,
            name: Name::of(name)?,
            bits: Numeral::of(bits)?,
            value: Numeral::of(value)?,
        })
    }

    /// The line, where its numerals are within their ranges, else `Number`.
    fn within_range(self) -> Result<ValueLine, LineCause>
        ensures { (line : Line) → self ≡ held_line line → result ≡ ranged_line line }
    {
        match (self.bits, self.value) {
            (Numeral::Word(bits), Numeral::Word(value)) if in_range(self.kind, bits, value) => {
                Ok(ValueLine {
                    kind: self.kind,
                    name: self.name,
                    bits: bits as u32,
                    value,
                })
            }
            _ => Err(LineCause::Number),
        }
    }
}

fn kind_of_word(word: &[u8]) -> Option<Kind>
    ensures { result ≡ kind_of word.now }
{
    match word {
        b"int" => Some(Kind::Int),
        b"bit" => Some(Kind::Bit),
        _ => None,
    }
}

/// Whether a number of this kind may have so many bits, and holds the value.
fn in_range(kind: Kind, bits: u64, value: u64) -> bool
    ensures { result ≡ (is_width kind bits && nat_lt value (2 ^ bits)) }
{
    let is_width = match kind {
        Kind::Int => 1 <= bits && bits <= 64,
        Kind::Bit => bits == 1,
    };
    is_width && (bits == 64 || value < 1 << bits)
}
