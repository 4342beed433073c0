//! Laws of the definitions of texts. Each function has an empty body, and its contract is the law.
ghost use Rattle.rx_text.specs.Laws.{NumeralLaws, WordLaws, LineLaws};

/// A number below 2^64 has exactly one numeral, its decimal digits.
pub fn numeral_laws()
    ensures { NumeralLaws }
{}

/// Names, and the numerals of numbers below 2^64, can stand as words: no space and no line feed is in them.
pub fn word_laws()
    ensures { WordLaws }
{}

/// Words, of which there is at least one, make one line, and lines one text, and they fall apart into the same words and
/// lines. A word has no space and no line feed in it, and a line no line feed.
pub fn line_laws()
    ensures { LineLaws }
{}
