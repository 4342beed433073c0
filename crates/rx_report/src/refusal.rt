//! Why a command was refused: a kind, which gives the status, and the line that reports it.
ghost use Rattle.std.specs.Prelude.{◌≡◌, string_bytes};
ghost use Rattle.rx_report.specs.Reports.{status_of};

use std::marker::Model;

/// The kinds of refusals of a command.
#[derive(Clone, Copy, Debug, PartialEq, Eq)]
pub enum Kind {
    /// A file has not its format.
    Malformed,
    /// Well-formed parameters are not accepted.
    NotAccepted,
    /// The parameters of two files differ.
    Mismatch,
    /// An input does not fit.
    Inputs,
    /// A block decodes to a number above its degree.
    Damaged,
    /// A counted quantity passes its limit.
    Limit,
    /// A mask word is not the one that a seed draws.
    Seed,
}

impl Kind {
    ghost use Rattle.rx_report.specs.Reports.{status_of};

    /// The status of the program, 5 to 10 or 12.
    pub fn status(self) -> u8
        ensures { result ≡ status_of self }
    {
        match self {
            Kind::Malformed => 5,
            Kind::NotAccepted => 6,
            Kind::Mismatch => 7,
            Kind::Inputs => 8,
            Kind::Damaged => 9,
            Kind::Limit => 10,
            Kind::Seed => 12,
        }
    }
}

/// A refusal, seen as its kind and the bytes of its line.
#[derive(Debug, Drop)]
pub struct Refusal {
    kind: Kind,
    line: String,
}

impl Model for Refusal {
    ghost use Rattle.std.specs.Prelude.{List, ℕ, string_bytes};
    ghost use Rattle.rx_report.specs.declared.refusal.Kind.{Kind};

    ghost Value = { Kind × List ℕ };

    ghost view = { λ r. (r.kind, string_bytes r.line) };
}

impl Refusal {
    /// A refusal of this kind, with a line that ends with a line feed.
    pub fn new(kind: Kind, line: String) -> Refusal
        ensures { result ≡ (kind, string_bytes line) }
    {
        Refusal { kind, line }
    }

    /// The kind, which gives the status.
    pub fn kind(&self) -> Kind
        ensures { result ≡ self.now.0 }
    {
        self.kind
    }

    /// The bytes of the line, with its line feed.
    pub fn line(&self) -> &[u8]
        ensures { result.now ≡ self.now.1 }
    {
        self.line.as_bytes()
    }
}
