//! What a command made: the files to write, in order, and the lines to print; or why it stopped before.
ghost use Rattle.std.specs.Prelude.{◌≡◌, ◌∷◌, ◌++◌, [], OnOk, string_bytes};

use rx_report::Refusal;
use std::alloc::{AllocError, AllocFailed, Global};
use std::marker::Model;

/// A file to be written.
#[derive(Drop)]
pub struct Output {
    name: String,
    bytes: Vec<u8>,
}

impl Model for Output {
    ghost use Rattle.std.specs.Prelude.{List, ℕ, string_bytes};

    ghost Value = { List ℕ × List ℕ };

    ghost view = { λ o. (string_bytes o.name, o.bytes.items) };
}

impl Output {
    /// A file of this name that is to have these bytes.
    pub fn new(name: String, bytes: Vec<u8>) -> Output
        ensures { result ≡ (string_bytes name, bytes.items) }
    {
        Output { name, bytes }
    }

    /// Its name.
    pub fn name(&self) -> &str
        ensures { result.now ≡ self.now.0 }
    {
        self.name.as_str()
    }

    /// Its whole bytes.
    pub fn bytes(&self) -> &[u8]
        ensures { result.now ≡ self.now.1 }
    {
        self.bytes.as_slice()
    }
}

/// What a command made.
#[derive(Drop)]
pub struct Done {
    /// The files, in the order of writing.
    pub writes: Vec<Output>,
    /// What is printed after the writes, each line with its line feed.
    pub lines: String,
}

impl Done {
    /// Nothing to write and nothing to print.
    pub fn new(alloc: Global) -> Done
        ensures writes { result.writes.items ≡ [] }
        ensures lines { string_bytes result.lines ≡ [] }
    {
        Done {
            writes: Vec::new(alloc),
            lines: String::new(alloc),
        }
    }

    /// Adds a file to be written after those that are there.
    pub fn add_file(&mut self, alloc: Global, name: &str, bytes: Vec<u8>) -> Result<(), AllocError>
        ensures added { OnOk result
            (self.new.writes.items ≡ self.old.writes.items ++ (name.now, bytes.items) ∷ []) }
        ensures lines { self.new.lines ≡ self.old.lines }
    {
        let name = String::from_str(alloc, name)?;
        self.writes.push(Output::new(name, bytes))?;
        Ok(())
    }
}

/// Why a command did not come to its writes.
#[derive(Drop)]
pub enum Stop {
    /// It is refused, and this is reported.
    Refused(Refusal),
    /// A file is missing or was not read.
    Read,
    /// Memory ran out.
    Memory,
}

impl From<AllocError> for Stop {
    ghost use Rattle.std.specs.Prelude.{◌≡◌};
    ghost use Rattle.rx_tool.specs.declared.outcome.Stop.TheVariants.{Memory};

    ghost from_gives = { λ _ stop. stop ≡ Memory };

    fn from(_: AllocError) -> Self {
        Stop::Memory
    }
}

impl<T: Drop> From<AllocFailed<T>> for Stop {
    ghost use Rattle.std.specs.Prelude.{◌≡◌};
    ghost use Rattle.rx_tool.specs.declared.outcome.Stop.TheVariants.{Memory};

    ghost from_gives = { λ _ stop. stop ≡ Memory };

    fn from(_: AllocFailed<T>) -> Self {
        Stop::Memory
    }
}
