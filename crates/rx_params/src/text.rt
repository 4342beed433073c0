//! Parameter text (docs/FORMATS.md, Texts): ten lines, each the name of a field and its numeral.
ghost use Rattle.std.specs.Prelude.{◌≡◌, ◌+◌, ◌∷◌, ℕ, List, IfOk, IfErr, Ok, Err};
ghost use Rattle.rx_text.specs.Lines.{words_of};
ghost use Rattle.rx_params.specs.Text.{ParamsText, field_value, before_values, field_values_from, params_from};

use crate::{LineCause, LineFault, Params};
use rx_text::{Lines, line_laws, number_below, numeral_laws, two_words, word_laws};

/// The set that a parameter text spells, or the first line that is wrong, 1 to 11, with the cause `Form` or `Number`.
/// Whether the set is accepted is not asked.
pub fn read_params(bytes: &[u8]) -> Result<Params, LineFault>
    // Which fault it is.
    ensures exact { result ≡ params_from bytes.now }
    // What is read is spelled so.
    ensures found { IfOk result (λ p. ParamsText bytes.now p) }
    // What is spelled so is read.
    ensures only { (p : Params) → ParamsText bytes.now p → result ≡ Ok p }
{
    numeral_laws();
    word_laws();
    line_laws();
    fields_of_text(bytes)
}

fn fields_of_text(bytes: &[u8]) -> Result<Params, LineFault>
    ensures { result ≡ params_from bytes.now }
{
    let mut lines = Lines::of(bytes);
    let set = Params {
        message_bits: field(&mut lines, 1, "message_bits")?,
        glwe_dim: field(&mut lines, 2, "glwe_dim")?,
        poly_size: field(&mut lines, 3, "poly_size")?,
        lwe_dim: field(&mut lines, 4, "lwe_dim")?,
        pbs_base_log: field(&mut lines, 5, "pbs_base_log")?,
        pbs_level: field(&mut lines, 6, "pbs_level")?,
        ks_base_log: field(&mut lines, 7, "ks_base_log")?,
        ks_level: field(&mut lines, 8, "ks_level")?,
        glwe_bound: field(&mut lines, 9, "glwe_bound")?,
        lwe_bound: field(&mut lines, 10, "lwe_bound")?,
    };
    if lines.is_done() {
        Ok(set)
    } else {
        Err(LineFault {
            line: 11,
            cause: LineCause::Form,
        })
    }
}

/// The value of the next line, which has this number and is to be that of the field of this name.
fn field(lines: &mut Lines<'_>, line: u32, name: &str) -> Result<u32, LineFault>
    ensures value { IfOk result (λ value. (names : List (List ℕ)) →
        field_values_from line (name.now ∷ names) lines.old
        ≡ before_values (Ok value) line (field_values_from (line + 1) names lines.new)) }
    ensures fault { IfErr result (λ fault.
        (names : List (List ℕ)) → field_values_from line (name.now ∷ names) lines.old ≡ Err fault) }
{
    let value = match lines.next_line() {
        Some(text) => value_of(text, name),
        None => Err(LineCause::Form),
    };
    match value {
        Ok(value) => Ok(value),
        Err(cause) => Err(LineFault { line, cause }),
    }
}

/// The value of the line of a field.
fn value_of(text: &[u8], name: &str) -> Result<u32, LineCause>
    ensures { result ≡ field_value name.now (words_of text.now) }
{
    match two_words(text) {
        Some((word, number)) if word == name.as_bytes() => {
            Ok(number_below(number, 1 << 32)? as u32)
        }
        _ => Err(LineCause::Form),
    }
}
