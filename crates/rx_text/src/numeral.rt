//! Numerals: decimal digits without a leading zero.
ghost use Rattle.std.specs.Prelude.{◌≡◌, ℕ, ◌^◌, Some, option_map};
ghost use Rattle.std.specs.Char.{is_ascii_digit};
ghost use Rattle.std.specs.List.{list_all};
ghost use Rattle.rx_text.specs.Numerals.{is_numeral, numeral_of, held, numeral_cases, numeral_below};

use crate::LineCause;

/// The number that a numeral spells.
#[derive(Clone, Copy, Debug, PartialEq, Eq)]
pub enum Numeral {
    /// A number below 2^64.
    Word(u64),
    /// A number of 2^64 or more.
    Beyond,
}

impl Numeral {
    /// The number of a numeral: `0`, or decimal digits of which the first is not `0`. None exactly where the text is no
    /// numeral.
    pub fn of(text: &[u8]) -> Option<Numeral>
        ensures { result ≡ option_map held (numeral_of text.now) }
    {
        if !is_numeral_text(text) {
            return None;
        }
        let Ok(digits) = str::from_utf8(text) else {
            unreachable!()
        };
        Some(match digits.parse() {
            Ok(number) => Numeral::Word(number),
            Err(_) => Numeral::Beyond,
        })
    }

    /// The number, where it is below the end, else the error `Number`.
    pub fn below(self, end: u64) -> Result<u64, LineCause>
        ensures { (n : ℕ) → self ≡ held n → result ≡ numeral_cases end (Some n) }
    {
        match self {
            Numeral::Word(number) if number < end => Ok(number),
            _ => Err(LineCause::Number),
        }
    }
}

/// The number of a numeral that is below the end. The error is `Form` where the text is no numeral, and `Number` where
/// the number is the end or more.
pub fn number_below(text: &[u8], end: u64) -> Result<u64, LineCause>
    ensures { result ≡ numeral_below end text.now }
{
    let numeral = Numeral::of(text).ok_or(LineCause::Form)?;
    numeral.below(end)
}

#[tactic(auto, using(crate::proofs::NumeralLemmas::digits_all))]
fn is_numeral_text(text: &[u8]) -> bool
    ensures { result ≡ is_numeral text.now }
{
    match text.split_first() {
        Some((first, others)) => are_digits(text) && (*first != b'0' || others.is_empty()),
        None => false,
    }
}

fn are_digits(bytes: &[u8]) -> bool
    ensures { result ≡ list_all is_ascii_digit bytes.now }
{
    bytes.iter().all(|c| c.is_ascii_digit())
}
