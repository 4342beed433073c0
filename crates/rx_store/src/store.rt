//! A store of named files.
ghost use Rattle.std.specs.Prelude.{◌≡◌, ◌≤◌, ℕ, Option};
ghost use Rattle.rx_store.specs.Files.{Files};
ghost use Rattle.rx_store.specs.StoreCalls.{ReadGives, ReadCounts, WriteLeaves, WriteCounts};

use crate::{ReadError, WriteError};
use std::alloc::Global;

/// Named files. A call moves the count of failures of its own kind alone, and no count falls.
pub trait Store {
    /// The files, where the store tells them.
    ghost files: { Self → Option Files };

    /// How many reads failed. The count never falls, and stays at the last value of a u64.
    ghost read_faults: { Self → ℕ };

    /// How many writes failed. The count never falls, and stays at the last value of a u64.
    ghost write_faults: { Self → ℕ };

    /// The whole bytes of a file that is no longer than the limit, in bytes. It changes no file.
    /// `TooLong` comes only for a longer file, `Missing` only where files are told and none has
    /// the name, `Failed` only where the count of failed reads rose or stands at its last value,
    /// `Memory` for want of memory.
    fn read(&mut self, alloc: Global, name: &str, limit: u64) -> Result<Vec<u8>, ReadError>
        ensures gives { ReadGives (files self.old) name.now limit result }
        ensures same { files self.new ≡ files self.old }
        ensures reads { ReadCounts (read_faults self.old) (read_faults self.new) result }
        ensures writes { write_faults self.new ≡ write_faults self.old };

    /// Makes the named file exactly these bytes, and leaves all others. `Failed` comes only where
    /// the count of failed writes rose or stands at its last value; that file may then hold
    /// anything or be missing. After `Memory` every file is as before.
    fn write(&mut self, name: &str, bytes: &[u8]) -> Result<(), WriteError>
        ensures leaves { WriteLeaves (files self.old) (files self.new) name.now bytes.now result }
        ensures reads { read_faults self.new ≡ read_faults self.old }
        ensures writes { WriteCounts (write_faults self.old) (write_faults self.new) result };
}
