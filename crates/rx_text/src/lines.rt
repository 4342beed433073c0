//! The lines of a text and the words of a line.
ghost use Rattle.std.specs.Prelude.{◌≡◌, ◌==◌, ◌<◌, ◌↔◌, [], ◌∷◌, IsTrue, IsSome, IfSome, IfNone, length, option_map, position};
ghost use Rattle.std.specs.List.{slice_split};
ghost use Rattle.std.specs.Option.{option_map_or};
ghost use Rattle.rx_text.specs.Lines.{parts_of, words_of, two_of, four_of};

use std::marker::Model;

/// The lines of a text, one after the other. In clauses it is the list of what stands between the line feeds that are
/// left: each line, and last what follows the last line feed.
#[derive(Debug, Drop)]
pub struct Lines<'a> {
    rest: &'a [u8],
}

impl<'a> Model for Lines<'a> {
    ghost use Rattle.std.specs.Prelude.{ℕ, List};
    ghost use Rattle.rx_text.specs.Lines.{parts_of};

    ghost Value = { List (List ℕ) };

    ghost view = { λ l. parts_of l.rest.now };
}

impl<'a> Lines<'a> {
    /// All lines of a text.
    pub fn of(text: &'a [u8]) -> Lines<'a>
        ensures { result ≡ parts_of text.now }
    {
        Lines { rest: text }
    }

    /// The bytes up to the next line feed, which is passed over. None where there is no line feed any more, and then
    /// nothing changes.
    pub fn next_line(&mut self) -> Option<&'a [u8]>
        ensures line { IfSome result (λ line. self.old ≡ line.now ∷ self.new) }
        ensures left { IfSome result (λ _. 0 < length self.new) }
        ensures last { IfNone result ((length self.old ≡ 1) × (self.new ≡ self.old)) }
    {
        let (line, rest) = cut(self.rest, b'\n');
        self.rest = rest?;
        Some(line)
    }

    /// Whether no byte is left.
    pub fn is_done(&self) -> bool
        ensures { IsTrue result ↔ (self.now ≡ [] ∷ []) }
    {
        self.rest.is_empty()
    }
}

/// The first word of a line, which may be empty, and what follows the space after it, None where there is no space.
pub fn first_word(line: &[u8]) -> (&[u8], Option<&[u8]>)
    ensures { words_of line.now ≡ result.0.now
        ∷ option_map_or (λ rest. words_of rest.now) result.1 [] }
{
    cut(line, b' ')
}

/// The words of a line of two words, None where it has fewer or more.
pub fn two_words(line: &[u8]) -> Option<(&[u8], &[u8])>
    ensures { option_map (λ w. (w.0.now, w.1.now)) result ≡ two_of (words_of line.now) }
{
    let (first, rest) = first_word(line);
    let (second, rest) = first_word(rest?);
    match rest {
        None => Some((first, second)),
        Some(_) => None,
    }
}

/// The words of a line of four words, None where it has fewer or more.
pub fn four_words(line: &[u8]) -> Option<(&[u8], &[u8], &[u8], &[u8])>
    ensures { option_map (λ w. (w.0.now, w.1.now, w.2.now, w.3.now)) result
        ≡ four_of (words_of line.now) }
{
    let (first, rest) = first_word(line);
    let (second, rest) = first_word(rest?);
    let (third, rest) = first_word(rest?);
    let (fourth, rest) = first_word(rest?);
    match rest {
        None => Some((first, second, third, fourth)),
        Some(_) => None,
    }
}

/// What stands before the first such byte, and what follows it, if there is one.
fn cut(text: &[u8], at: u8) -> (&[u8], Option<&[u8]>)
    ensures { slice_split (λ b. b == at) text.now ≡ result.0.now
        ∷ option_map_or (λ rest. slice_split (λ b. b == at) rest.now) result.1 [] }
{
    match place_of(text, at) {
        Some(place) => (&text[..place], Some(&text[place + 1..])),
        None => (text, None),
    }
}

fn place_of(text: &[u8], byte: u8) -> Option<usize>
    ensures { result ≡ position (λ b. b == byte) text.now }
{
    text.iter().position(|b| *b == byte)
}
