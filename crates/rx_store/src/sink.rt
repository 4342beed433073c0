//! A sink of output.
ghost use Rattle.std.specs.Prelude.{◌≡◌, ◌≤◌, ℕ, List, Option};
ghost use Rattle.rx_store.specs.StoreCalls.{WriteCounts};
ghost use Rattle.rx_store.specs.SinkCalls.{PutLeaves};

use crate::WriteError;

/// An output that grows at its end.
pub trait Sink {
    /// What was written, where the sink tells it.
    ghost written: { Self → Option (List ℕ) };

    /// How many calls failed. The count never falls, and stays at the last value of a u64.
    ghost faults: { Self → ℕ };

    /// Appends the whole piece. After `Failed`, which comes only where the count rose or stands at
    /// its last value, some first bytes of it were appended; after `Memory` nothing was.
    fn put(&mut self, piece: &[u8]) -> Result<(), WriteError>
        ensures leaves { PutLeaves (written self.old) (written self.new) piece.now result }
        ensures counts { WriteCounts (faults self.old) (faults self.new) result };
}
