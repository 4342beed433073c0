//! Reading the text of a circuit line by line, up to the first line that is wrong.
ghost use Rattle.std.specs.Prelude.{◌≡◌, ◌⊎◌, ◌==◌, ◌<◌, ◌≤◌, [], List, ℕ, IsTrue, IfOk, IfErr, MatchResult, Ok, Err, length};
ghost use Rattle.rx_text.specs.Faults.{fault_at};
ghost use Rattle.rx_text.specs.Lines.{parts_of, words_of};
ghost use Rattle.rx_params.specs.Kinds.{is_form as width_form};
ghost use Rattle.rx_params.specs.declared.kind.Kind.TheVariants.{Int as WholeNumber};
ghost use Rattle.rx_language.specs.Programs.{Program, is_space as is_space_of};
ghost use Rattle.rx_language.specs.Texts.{IsCircuit};
ghost use Rattle.rx_language.specs.Reading.{number_in, header_from, header_by, header_of, after_header, lines_from, program_by, circuit_from};
ghost use Rattle.rx_language.specs.Answers.{Gives, Fails};

use crate::circuit::Circuit;
use crate::draft::Draft;
use crate::error::ParseError;
use crate::line_error::LineError;
use crate::spelled::{Words, is_width};
use rx_params::{LineCause, LineFault};
use rx_text::{Lines, Numeral, line_laws, numeral_laws, word_laws};
use std::alloc::Global;

/// The circuit that a text is, or its first wrong line with its cause; or want of memory. The causes of a line are tried
/// in the order of `LineCause`.
pub fn parse(alloc: Global, bytes: &[u8]) -> Result<Circuit, ParseError>
    // Which fault it is, unless memory ran out.
    ensures exact { Gives result (circuit_from bytes.now) }
    // What is read is spelled so.
    ensures found { IfOk result (λ circuit. IsCircuit bytes.now circuit) }
    // What is spelled so is read, unless memory runs out.
    ensures only { (p : Program) → IsCircuit bytes.now p → Gives result (Ok p) }
{
    numeral_laws();
    word_laws();
    line_laws();
    let draft = read_circuit(alloc, bytes)?;
    Ok(draft.finish())
}

#[tactic(auto, unfolding(crate::specs::Reading::circuit_from))]
fn read_circuit(alloc: Global, bytes: &[u8]) -> Result<Draft, ParseError>
    ensures { Gives result (circuit_from bytes.now) }
{
    let mut lines = Lines::of(bytes);
    let header = read_header(&mut lines)?;
    let draft = Draft::new(alloc, header.space, header.width);
    read_lines(alloc, lines, draft)
}

/// Line 1.
#[derive(Clone, Copy)]
struct Header {
    space: u32,
    width: u32,
}

/// What line 1 says.
fn read_header(lines: &mut Lines) -> Result<Header, ParseError>
    ensures value { IfOk result (λ h. header_of lines.old ≡ Ok (h.space, h.width)) }
    ensures fault { IfErr result (λ e. Fails e (header_of lines.old)) }
    ensures left { IfOk result (λ _. lines.new ≡ after_header lines.old) }
    ensures space { IfOk result (λ h. (h.space ≡ 2) ⊎ (h.space ≡ 3)) }
    ensures width { IfOk result (λ h. IsTrue (width_form h.space WholeNumber h.width)) }
    ensures some { IfOk result (λ _. 0 < length lines.new) }
{
    let Some(line) = lines.next_line() else {
        return Err(fault_of(1, LineCause::Form));
    };
    match header_of_line(line) {
        Ok(header) => Ok(header),
        Err(cause) => Err(fault_of(1, cause)),
    }
}

fn fault_of(line: u32, cause: LineCause) -> ParseError
    ensures { result ≡ ParseError.Line (fault_at line cause) }
{
    ParseError::Line(LineFault { line, cause })
}

#[tactic(auto, unfolding(crate::specs::Reading::ranged_header))]
fn header_of_line(line: &[u8]) -> Result<Header, LineCause>
    ensures value { MatchResult result
        (λ h. header_by (words_of line.now) ≡ Ok (h.space, h.width))
        (λ cause. header_by (words_of line.now) ≡ Err cause) }
    ensures space { IfOk result (λ h. (h.space ≡ 2) ⊎ (h.space ≡ 3)) }
    ensures width { IfOk result (λ h. IsTrue (width_form h.space WholeNumber h.width)) }
{
    let (space, width) = header_words(line)?;
    let space = space_of(space)?;
    let width = width_of(space, width)?;
    Ok(Header { space, width })
}

#[tactic(auto, unfolding(crate::specs::Reading::header_from))]
fn header_words(line: &[u8]) -> Result<(Numeral, Numeral), LineCause>
    ensures { result ≡ header_from (words_of line.now) }
{
    let mut words = Words::of(line);
    if words.word()? != b"bits".as_slice() {
        return Err(LineCause::Form);
    }
    let space = words.numeral()?;
    let width = words.numeral()?;
    if !words.is_done() {
        return Err(LineCause::Form);
    }
    Ok((space, width))
}

fn space_of(space: Numeral) -> Result<u32, LineCause>
    ensures value { result ≡ number_in is_space_of space }
    ensures space { IfOk result (λ space. (space ≡ 2) ⊎ (space ≡ 3)) }
{
    match space {
        Numeral::Word(2) => Ok(2),
        Numeral::Word(3) => Ok(3),
        _ => Err(LineCause::Number),
    }
}

fn width_of(space: u32, width: Numeral) -> Result<u32, LineCause>
    requires { (space ≡ 2) ⊎ (space ≡ 3) }
    ensures value { result ≡ number_in (λ n. width_form space WholeNumber n) width }
    ensures width { IfOk result (λ width. IsTrue (width_form space WholeNumber width)) }
{
    match width {
        Numeral::Word(bits) if is_width(space, bits) => Ok(bits as u32),
        _ => Err(LineCause::Number),
    }
}

/// The circuit of these lines, after the lines of the draft.
fn read_lines(alloc: Global, mut lines: Lines, draft: Draft) -> Result<Draft, ParseError>
    requires { 0 < length lines }
    ensures { Gives result
        (program_by draft.space draft.width (lines_from draft.space draft.width draft.lines lines.entry)) }
{
    let mut draft = draft;
    while let Some(line) = lines.next_line() {
        let number = draft.next_number();
        draft = match draft.read_line(alloc, line) {
            Ok(next) => next,
            Err(LineError::Cause(cause)) => return Err(fault_of(number, cause)),
            Err(LineError::Memory) => return Err(ParseError::Memory),
        };
    }
    if lines.is_done() {
        Ok(draft)
    } else {
        Err(fault_of(draft.next_number(), LineCause::Form))
    }
}
