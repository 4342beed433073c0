//! A circuit while its text is read.
ghost use Rattle.std.specs.Prelude.{ℕ, ◌≡◌, ◌⊎◌, ◌+◌, ◌<◌, ◌≤◌, [], List, length, count_by, nat_lt, not, IsTrue, IfOk, MatchResult, Some, None, Ok, Err, if◌then◌else◌, map};
ghost use Rattle.std.specs.BTreeMap.{get_by_text};
ghost use Rattle.rx_text.specs.Lines.{words_of};
ghost use Rattle.rx_params.specs.Kinds.{is_form as width_form};
ghost use Rattle.rx_params.specs.declared.kind.Kind.TheVariants.{Int as WholeNumber};
ghost use Rattle.rx_language.specs.Words.{is_input as is_input_word, is_output as is_output_word};
ghost use Rattle.rx_language.specs.Programs.{IsLawful, program_of_fields, defines, is_defined as is_defined_in, is_given_out, is_taken, asked as asked_by, has_room as has_room_after, inputs_in, outputs_in, line_width, step_after, steps_by};
ghost use Rattle.rx_language.specs.Reading.{line_after, step_from, new_from};
ghost use Rattle.rx_language.specs.Answers.{LineGives};
ghost use Rattle.rx_language.specs.Drafts.{with_line, extended, found_in, all_found};

use crate::circuit::Circuit;
use crate::kind::NameKind;
use crate::line::{Line, Places, Step};
use crate::line_error::LineError;
use crate::spelled::Spelled;
use crate::word::Word;
use rx_params::{LineCause, Name};
use rx_text::numeral_laws;
use std::alloc::{AllocError, Global};
use std::collections::BTreeMap;
use std::marker::Model;
use std::slice;

/// The most lines of a circuit, line 1 with them.
const MOST_LINES: usize = 4096;

/// The most inputs of a circuit.
const MOST_INPUTS: usize = 64;

/// The most outputs of a circuit.
const MOST_OUTPUTS: usize = 64;

/// The lines that were read so far. In clauses it is their program.
#[derive(Drop)]
pub struct Draft {
    space: u32,
    width: u32,
    lines: Vec<Line>,
    steps: Vec<Step>,
    /// The place of the line that defines a name.
    places: BTreeMap<String, usize>,
}

impl Model for Draft {
    ghost use Rattle.rx_language.specs.Programs.{Program, program_of_fields};
    ghost use Rattle.rx_language.specs.Drafts.{IsDraft};

    ghost Value = { Program };

    ghost view = { λ d. program_of_fields d.space d.width d.lines.items };

    ghost invariant = { λ d. IsDraft (program_of_fields d.space d.width d.lines.items) d.steps.items d.places };
}

/// What the arguments of a line are.
#[derive(Drop)]
struct Found {
    sources: Vec<usize>,
    kinds: Vec<NameKind>,
}

impl Draft {
    /// No line yet, after this line 1.
    pub fn new(alloc: Global, space: u32, width: u32) -> Draft
        requires space { (space ≡ 2) ⊎ (space ≡ 3) }
        requires width { IsTrue (width_form space WholeNumber width) }
        ensures { result ≡ program_of_fields space width [] }
    {
        Draft {
            space,
            width,
            lines: Vec::new(alloc),
            steps: Vec::new(alloc),
            places: BTreeMap::new(alloc),
        }
    }

    /// The number of the next line.
    pub fn next_number(&self) -> u32
        ensures { result ≡ length self.now.lines + 2 }
    {
        self.lines.len() as u32 + 2
    }

    /// The circuit of the lines.
    pub fn finish(self) -> Circuit
        ensures { result ≡ self }
    {
        let Draft {
            space,
            width,
            lines,
            steps,
            places: _,
        } = self;
        Circuit {
            space,
            width,
            lines,
            steps,
        }
    }

    /// The lines and this one after them, or why it is not taken.
    #[tactic(auto, unfolding(crate::specs::Reading::line_after))]
    pub fn read_line(self, alloc: Global, text: &[u8]) -> Result<Draft, LineError>
        ensures { LineGives (λ next. next) result
            (extended self (line_after self.space self.width self.lines (words_of text.now))) }
    {
        numeral_laws();
        let spelled = Spelled::of(alloc, text)?;
        let line = spelled.within_range(self.space, self.width)?;
        let step = self.step(alloc, &line)?;
        self.check_new(&line)?;
        self.with_line(alloc, line, step)
    }

    /// What is known of a line, or `Unknown` or `Kind`.
    fn step(&self, alloc: Global, line: &Line) -> Result<Step, LineError>
        ensures { LineGives (λ step. step) result (step_from self.now.width self.now.lines line.now) }
    {
        let Found { sources, kinds } = self.find_all(alloc, asked(line))?;
        let width = width_of(line, self.width);
        let rule = line.word.form().rule;
        let kind = rule.kind_of(width, &kinds).ok_or(LineCause::Kind)?;
        Ok(Step {
            kind,
            sources: Places::from_vec(sources),
        })
    }

    /// The places of the lines that define these names, and their kinds, or `Unknown`.
    fn find_all(&self, alloc: Global, names: &[Name]) -> Result<Found, LineError>
        ensures { LineGives (λ found. (found.sources.items, found.kinds.items)) result
            (all_found self.now.width self.now.lines names.now) }
    {
        let mut sources = Vec::new(alloc);
        let mut kinds = Vec::new(alloc);
        for name in names {
            let (place, kind) = self.find(name).ok_or(LineCause::Unknown)?;
            sources.push(place)?;
            kinds.push(kind)?;
        }
        Ok(Found { sources, kinds })
    }

    /// The place of the line that defines a name, and its kind. None where none does.
    fn find(&self, name: &Name) -> Option<(usize, NameKind)>
        ensures { result ≡ found_in self.now.width self.now.lines name.now }
    {
        let place = *self.places.get(name.as_str())?;
        Some((place, self.steps[place].kind))
    }

    /// Whether a line defines the name.
    fn is_defined(&self, name: &Name) -> bool
        ensures { result ≡ is_defined_in self.now.lines name.now }
    {
        self.find(name).is_some()
    }

    /// `Again` where the name of a line is taken, `Limit` where the line is one too many.
    fn check_new(&self, line: &Line) -> Result<(), LineCause>
        ensures { MatchResult result (λ _. new_from self.now.lines line.now ≡ Ok line.now)
            (λ cause. new_from self.now.lines line.now ≡ Err cause) }
    {
        let is_taken = if line.word.is_output() {
            is_output_of(&self.lines, &line.name)
        } else {
            self.is_defined(&line.name)
        };
        if is_taken {
            return Err(LineCause::Again);
        }
        if !has_room(&self.lines, line.word) {
            return Err(LineCause::Limit);
        }
        Ok(())
    }

    /// The lines and this one after them.
    fn with_line(self, alloc: Global, line: Line, step: Step) -> Result<Draft, LineError>
        requires lawful { IsLawful self.space self.width self.lines line }
        requires step { step ≡ step_after self.width self.lines (steps_by self.width self.lines) line }
        ensures { LineGives (λ next. next) result (Ok (with_line self line)) }
    {
        let Draft {
            space,
            width,
            mut lines,
            mut steps,
            places,
        } = self;
        let places = define(alloc, places, &line, lines.len())?;
        lines.push(line)?;
        steps.push(step)?;
        Ok(Draft {
            space,
            width,
            lines,
            steps,
            places,
        })
    }
}

/// The width of a line: the stated one, else that of line 1.
fn width_of(line: &Line, width: u32) -> u32
    ensures { result ≡ line_width width line.now }
{
    if line.word.form().stated {
        line.width
    } else {
        width
    }
}

/// The names that a line asks for: its arguments, of `out` its name.
fn asked(line: &Line) -> &[Name]
    ensures { result.now ≡ asked_by line.now }
{
    if line.word.is_output() {
        slice::from_ref(&line.name)
    } else {
        line.args.as_slice()
    }
}

/// The index with the name of a line at this place, unless the line defines none.
fn define(
    alloc: Global,
    mut places: BTreeMap<String, usize>,
    line: &Line,
    place: usize,
) -> Result<BTreeMap<String, usize>, AllocError>
    ensures { IfOk result (λ new. (name : List ℕ) → get_by_text new name
        ≡ (if defines name line.now then Some place else get_by_text places name)) }
{
    let defines_none = line.word.is_output();
    if defines_none {
        return Ok(places);
    }
    let name = String::from_str(alloc, line.name.as_str())?;
    places.insert(name, place)?;
    Ok(places)
}

/// Whether one of these lines gives the name out.
fn is_output_of(lines: &[Line], name: &Name) -> bool
    ensures { result ≡ is_given_out lines.now name.now }
{
    lines
        .iter()
        .any(|line| line.word.is_output() && line.name == *name)
}

/// Whether one more line of the word is not one too many.
fn has_room(lines: &[Line], word: Word) -> bool
    ensures { result ≡ has_room_after lines.now word }
{
    lines.len() + 1 < MOST_LINES
        && (!word.is_input() || count_inputs(lines) < MOST_INPUTS)
        && (!word.is_output() || count_outputs(lines) < MOST_OUTPUTS)
}

fn count_inputs(lines: &[Line]) -> usize
    ensures { result ≡ inputs_in lines.now }
{
    lines.iter().filter(|line| line.word.is_input()).count()
}

fn count_outputs(lines: &[Line]) -> usize
    ensures { result ≡ outputs_in lines.now }
{
    lines.iter().filter(|line| line.word.is_output()).count()
}
