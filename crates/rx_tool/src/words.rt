//! Words of the command line, which contracts see as lists of bytes.
ghost use Rattle.std.specs.Prelude.{◌≡◌};
ghost use Rattle.rx_tool.specs.Words.{texts};

use std::marker::Model;

/// A word, as the name of a file.
#[derive(Drop)]
pub struct Word<'a> {
    text: &'a str,
}

impl<'a> Model for Word<'a> {
    ghost use Rattle.std.specs.Prelude.{List, ℕ};

    ghost Value = { List ℕ };

    ghost view = { λ w. w.text.now };
}

impl<'a> Word<'a> {
    /// The word of this text.
    pub fn new(text: &'a str) -> Word<'a>
        ensures { result ≡ text.now }
    {
        Word { text }
    }

    /// Its text.
    pub fn as_str(&self) -> &'a str
        ensures { result.now ≡ self.now }
    {
        self.text
    }
}

/// Words, as the names of files.
#[derive(Drop)]
pub struct Names<'a> {
    words: &'a [String],
}

impl<'a> Model for Names<'a> {
    ghost use Rattle.std.specs.Prelude.{List, ℕ};
    ghost use Rattle.rx_tool.specs.Words.{texts};

    ghost Value = { List (List ℕ) };

    ghost view = { λ n. texts n.words.now };
}

impl<'a> Names<'a> {
    /// The names that these words are, without a copy.
    pub fn new(words: &'a [String]) -> Names<'a>
        ensures { result ≡ texts words.now }
    {
        Names { words }
    }

    /// The words, lent.
    pub fn words(&self) -> &'a [String]
        ensures { texts result.now ≡ self.now }
    {
        self.words
    }
}
