//! Laws of the definitions of the language.
ghost use Rattle.rx_language.specs.Laws.{CircuitLaws};

use rx_text::{line_laws, numeral_laws, word_laws};

/// A circuit has exactly one text, and a text is that of one circuit at most.
pub fn circuit_laws()
    ensures { CircuitLaws }
{
    numeral_laws();
    word_laws();
    line_laws();
}
