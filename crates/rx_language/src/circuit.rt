//! Circuits.
ghost use Rattle.std.specs.Prelude.{◌≡◌};
ghost use Rattle.rx_language.specs.Programs.{IsProgram, steps_of};

use crate::line::{Line, Step};
use std::marker::Model;

/// A circuit, which `parse` alone makes. In clauses it is its program: the space, the width and the lines.
#[derive(Debug, Drop)]
pub struct Circuit {
    pub(crate) space: u32,
    pub(crate) width: u32,
    pub(crate) lines: Vec<Line>,
    pub(crate) steps: Vec<Step>,
}

impl Model for Circuit {
    ghost use Rattle.rx_language.specs.Programs.{Program, program_of_fields, IsHeldProgram};

    ghost Value = { Program };

    ghost view = { λ c. program_of_fields c.space c.width c.lines.items };

    ghost invariant = { λ c. IsHeldProgram (program_of_fields c.space c.width c.lines.items) c.steps.items };
}

impl Circuit {
    /// The message bits of line 1, 2 or 3.
    pub fn space(&self) -> u32
        ensures value { result ≡ self.now.space }
        ensures lawful { IsProgram self.now }
    {
        self.space
    }

    /// The width of line 1, which `in` and `const` have.
    pub fn width(&self) -> u32
        ensures value { result ≡ self.now.width }
        ensures lawful { IsProgram self.now }
    {
        self.width
    }

    /// The lines after line 1, in their order.
    pub fn lines(&self) -> &[Line]
        ensures value { result.now ≡ self.now.lines }
        ensures lawful { IsProgram self.now }
    {
        &self.lines
    }

    /// What is known of each line, in their order.
    pub fn steps(&self) -> &[Step]
        ensures value { result.now ≡ steps_of self.now }
        ensures lawful { IsProgram self.now }
    {
        &self.steps
    }
}
