//! Writing the text of a circuit.
ghost use Rattle.std.specs.Prelude.{◌≡◌, ◌∷◌, ◌++◌, [], IfOk, OnOk, string_bytes};
ghost use Rattle.rx_text.specs.Lines.{line_of};
ghost use Rattle.rx_language.specs.Texts.{header_words, stated_words, tail_words, line_words, lines_text, program_text};
ghost use Rattle.rx_language.specs.Writing.{spaced};

use crate::circuit::Circuit;
use crate::form::Tail;
use crate::line::Line;
use rx_params::Name;
use std::alloc::{AllocError, Global};
use std::fmt::Write;

impl Circuit {
    /// The one text of the circuit, which `parse` reads again.
    pub fn text(&self, alloc: Global) -> Result<Vec<u8>, AllocError>
        ensures { IfOk result (λ text. text.items ≡ program_text self.now) }
    {
        let mut text = String::new(alloc);
        put_header(&mut text, self.space(), self.width())?;
        put_lines(&mut text, self.lines())?;
        Ok(text.into_bytes())
    }
}

fn put_header(text: &mut String, space: u32, width: u32) -> Result<(), AllocError>
    ensures { OnOk result (string_bytes text.new
        ≡ string_bytes text.old ++ line_of (header_words space width)) }
{
    write!(text, "bits {space} {width}\n")
}

fn put_lines(text: &mut String, lines: &[Line]) -> Result<(), AllocError>
    ensures { OnOk result (string_bytes text.new ≡ string_bytes text.old ++ lines_text lines.now) }
{
    for line in lines {
        put_line(text, line)?;
    }
    Ok(())
}

fn put_line(text: &mut String, line: &Line) -> Result<(), AllocError>
    ensures { OnOk result (string_bytes text.new
        ≡ string_bytes text.old ++ line_of (line_words line.now)) }
{
    let form = line.word.form();
    text.push_str(line.word.as_str())?;
    put_word(text, line.name.as_str())?;
    put_stated(text, form.stated, line.width)?;
    put_names(text, line.args.as_slice())?;
    put_tail(text, form.tail, line.number)?;
    text.push('\n')?;
    Ok(())
}

/// A space and a word.
fn put_word(text: &mut String, word: &str) -> Result<(), AllocError>
    ensures { OnOk result (string_bytes text.new ≡ string_bytes text.old ++ 32 ∷ word.now) }
{
    write!(text, " {word}")
}

fn put_stated(text: &mut String, stated: bool, width: u32) -> Result<(), AllocError>
    ensures { OnOk result (string_bytes text.new
        ≡ string_bytes text.old ++ spaced (stated_words stated width)) }
{
    if stated {
        write!(text, " {width}")
    } else {
        Ok(())
    }
}

fn put_names(text: &mut String, names: &[Name]) -> Result<(), AllocError>
    ensures { OnOk result (string_bytes text.new ≡ string_bytes text.old ++ spaced names.now) }
{
    for name in names {
        put_word(text, name.as_str())?;
    }
    Ok(())
}

fn put_tail(text: &mut String, tail: Tail, number: u64) -> Result<(), AllocError>
    ensures { OnOk result (string_bytes text.new
        ≡ string_bytes text.old ++ spaced (tail_words tail number)) }
{
    match tail {
        Tail::Nothing => Ok(()),
        Tail::Constant | Tail::Amount => write!(text, " {number}"),
    }
}
