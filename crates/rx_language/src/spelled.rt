//! The words of a line, read each by itself.
ghost use Rattle.std.specs.Prelude.{◌≡◌, ◌⊎◌, ◌≤◌, ◌↔◌, IsTrue, [], nat_lt, IfOk};
ghost use Rattle.rx_text.specs.Lines.{words_of};
ghost use Rattle.rx_params.specs.Kinds.{is_form as width_form};
ghost use Rattle.rx_params.specs.declared.kind.Kind.TheVariants.{Int as WholeNumber};
ghost use Rattle.rx_language.specs.Words.{form};
ghost use Rattle.rx_language.specs.Programs.{is_stated, tail_end, width_or};
ghost use Rattle.rx_language.specs.Reading.{word_from, first_from, name_from, numeral_from, names_from, width_from, tail_from, spelled_from, number_in, ranged};
ghost use Rattle.rx_language.specs.Answers.{LineGives, LineGivesLeft, ExactlyLeft};

use crate::form::Tail;
use crate::line::{Line, Names};
use crate::line_error::LineError;
use crate::word::Word;
use rx_params::{Kind, LineCause, Name};
use rx_text::{Numeral, first_word};
use std::alloc::Global;
use std::marker::Model;

/// The words of a line that are left. In clauses it is their list.
#[derive(Drop)]
pub struct Words<'a> {
    rest: Option<&'a [u8]>,
}

impl<'a> Model for Words<'a> {
    ghost use Rattle.std.specs.Prelude.{ℕ, List, []};
    ghost use Rattle.std.specs.Option.{option_map_or};
    ghost use Rattle.rx_text.specs.Lines.{words_of};

    ghost Value = { List (List ℕ) };

    ghost view = { λ w. option_map_or (λ rest. words_of rest.now) w.rest [] };
}

impl<'a> Words<'a> {
    /// All words of a line.
    pub fn of(line: &'a [u8]) -> Words<'a>
        ensures { result ≡ words_of line.now }
    {
        Words { rest: Some(line) }
    }

    /// The next word.
    pub fn word(&mut self) -> Result<&'a [u8], LineCause>
        ensures { ExactlyLeft (λ word. word.now) self.new result (word_from self.old) }
    {
        let line = self.rest.ok_or(LineCause::Form)?;
        let (word, rest) = first_word(line);
        self.rest = rest;
        Ok(word)
    }

    /// The next word, a name.
    #[tactic(auto, unfolding(crate::specs::Reading::name_from))]
    pub fn name(&mut self) -> Result<Name, LineCause>
        ensures { ExactlyLeft (λ name. name) self.new result (name_from self.old) }
    {
        let text = self.word()?;
        Name::of(text).ok_or(LineCause::Form)
    }

    /// The next word, a numeral.
    #[tactic(auto, unfolding(crate::specs::Reading::numeral_from))]
    pub fn numeral(&mut self) -> Result<Numeral, LineCause>
        ensures { ExactlyLeft (λ number. number) self.new result (numeral_from self.old) }
    {
        let text = self.word()?;
        Numeral::of(text).ok_or(LineCause::Form)
    }

    /// Whether no word is left.
    pub fn is_done(&self) -> bool
        ensures { IsTrue result ↔ (self.now ≡ []) }
    {
        self.rest.is_none()
    }
}

/// The parts of a line after line 1, read each by itself.
#[derive(Drop)]
pub struct Spelled {
    word: Word,
    name: Name,
    width: Numeral,
    args: Names,
    number: Numeral,
}

impl Spelled {
    /// The parts of a line, or `Form` where it has no spelling.
    #[tactic(auto, unfolding(crate::specs::Reading::spelled_from))]
    pub fn of(alloc: Global, line: &[u8]) -> Result<Spelled, LineError>
        ensures { LineGives (λ spelled. spelled) result (spelled_from (words_of line.now)) }
    {
        let mut words = Words::of(line);
        let word = read_first(&mut words)?;
        let name = words.name()?;
        let form = word.form();
        let width = read_width(&mut words, form.stated)?;
        let args = read_names(alloc, &mut words, form.args)?;
        let number = read_tail(&mut words, form.tail)?;
        if !words.is_done() {
            return Err(LineError::Cause(LineCause::Form));
        }
        Ok(Spelled {
            word,
            name,
            width,
            args,
            number,
        })
    }

    /// The line, where its numerals are within their ranges, else `Number`. The space is 2 or 3, and the width that of
    /// line 1.
    #[tactic(auto, unfolding(crate::specs::Reading::ranged))]
    pub fn within_range(self, space: u32, width: u32) -> Result<Line, LineCause>
        requires space { (space ≡ 2) ⊎ (space ≡ 3) }
        requires width { width ≤ 64 }
        ensures { result ≡ ranged space width self }
    {
        let form = self.word.form();
        let stated = stated_width(form.stated, space, self.width)?;
        let bits = if form.stated { stated } else { width };
        let number = tail_number(form.tail, bits, self.number)?;
        Ok(Line {
            word: self.word,
            name: self.name,
            args: self.args,
            number,
            width: stated,
        })
    }
}

#[tactic(auto, unfolding(crate::specs::Reading::first_from))]
fn read_first(words: &mut Words) -> Result<Word, LineCause>
    ensures { ExactlyLeft (λ word. word) words.new result (first_from words.old) }
{
    let text = words.word()?;
    Word::of(text).ok_or(LineCause::Form)
}

fn read_width(words: &mut Words, stated: bool) -> Result<Numeral, LineCause>
    ensures { ExactlyLeft (λ number. number) words.new result (width_from stated words.old) }
{
    if stated {
        words.numeral()
    } else {
        Ok(Numeral::Word(0))
    }
}

fn read_tail(words: &mut Words, tail: Tail) -> Result<Numeral, LineCause>
    ensures { ExactlyLeft (λ number. number) words.new result (tail_from tail words.old) }
{
    match tail {
        Tail::Nothing => Ok(Numeral::Word(0)),
        Tail::Constant | Tail::Amount => words.numeral(),
    }
}

fn read_names(alloc: Global, words: &mut Words, count: usize) -> Result<Names, LineError>
    ensures { LineGivesLeft (λ names. names) words.new result (names_from count [] words.old) }
{
    let mut names = Vec::new(alloc);
    for _ in 0..count {
        let name = words.name()?;
        names.push(name)?;
    }
    Ok(Names::from_vec(names))
}

/// The stated width, which is a multiple of the space from one block to 64 bits, or 0 where none is stated; else `Number`.
fn stated_width(stated: bool, space: u32, width: Numeral) -> Result<u32, LineCause>
    requires { (space ≡ 2) ⊎ (space ≡ 3) }
    ensures value { result ≡ number_in (λ n. is_stated stated space n) width }
    ensures small { IfOk result (λ n. n ≤ 64) }
{
    match width {
        Numeral::Word(bits) if is_stated_width(stated, space, bits) => Ok(bits as u32),
        _ => Err(LineCause::Number),
    }
}

fn is_stated_width(stated: bool, space: u32, bits: u64) -> bool
    requires { (space ≡ 2) ⊎ (space ≡ 3) }
    ensures { result ≡ is_stated stated space bits }
{
    if stated {
        is_width(space, bits)
    } else {
        bits == 0
    }
}

/// Whether a number may have so many bits: a multiple of the space, 2 or 3, from one block to 64 bits.
pub fn is_width(space: u32, bits: u64) -> bool
    requires { (space ≡ 2) ⊎ (space ≡ 3) }
    ensures { result ≡ width_form space WholeNumber bits }
{
    bits <= 64 && Kind::Int.is_form(space, bits as u32)
}

/// The numeral at the end of a line, where it is within its range, else `Number`.
fn tail_number(tail: Tail, width: u32, number: Numeral) -> Result<u64, LineCause>
    requires { width ≤ 64 }
    ensures { result ≡ number_in (λ n. nat_lt n (tail_end tail width)) number }
{
    match number {
        Numeral::Word(value) if is_tail_number(tail, width, value) => Ok(value),
        _ => Err(LineCause::Number),
    }
}

fn is_tail_number(tail: Tail, width: u32, value: u64) -> bool
    requires { width ≤ 64 }
    ensures { result ≡ nat_lt value (tail_end tail width) }
{
    match tail {
        Tail::Nothing => value < 1,
        Tail::Constant => width == 64 || value < 1 << width,
        Tail::Amount => value < 256,
    }
}
