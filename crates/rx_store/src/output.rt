//! A sink over a writer of the system. It tells nothing of what was written.
ghost use Rattle.std.specs.Prelude.{◌≡◌, IsOk, [], OnErr, OnOk, None};
ghost use Rattle.std.specs.Io.KnownBytes.{Appends};
ghost use Rattle.rx_store.specs.Counts.{counted};
ghost use Rattle.rx_store.specs.Failed.{write_failed};
ghost use Rattle.rx_store.specs.Real.{TakesPart};
ghost use Rattle.rx_store.specs.StoreCalls.{WriteCounts};

use crate::whole_writes::write_whole;
use crate::{Sink, WriteError};
use std::io::Write;
use std::marker::Model;

/// A writer, as the runtime's standard output. It counts each failure; to put nothing is always done.
#[derive(Drop)]
pub struct OutSink<W: Write> {
    writer: W,
    faults: u64,
}

impl<W: Write> Model for OutSink<W> {
    ghost use Rattle.rx_store.specs.Real.{SinkOverWriter};

    ghost Value = { SinkOverWriter };

    ghost view = { λ s. record { taken = W.contents s.writer; faults = s.faults } };
}

impl<W: Write> OutSink<W> {
    /// Takes the writer that all is put to. Nothing has failed yet.
    pub fn new(out: W) -> OutSink<W>
        ensures { result ≡ record { taken = W.contents out; faults = 0 } }
    {
        OutSink {
            writer: out,
            faults: 0,
        }
    }
}

impl<W: Write> Sink for OutSink<W> {
    ghost written = { λ _. None };

    ghost faults = { λ s. s.faults };

    fn put(&mut self, piece: &[u8]) -> Result<(), WriteError>
        ensures counts { WriteCounts self.old.faults self.new.faults result }
        ensures counted { self.new.faults ≡ counted (write_failed result) self.old.faults }
        ensures whole { OnOk result (Appends self.old.taken self.new.taken piece.now) }
        ensures part { OnErr result (TakesPart self.old.taken self.new.taken piece.now) }
        ensures empty { piece.now ≡ [] → IsOk result × (self.new.faults ≡ self.old.faults) }
    {
        let result = write_whole(&mut self.writer, piece);
        if let Err(WriteError::Failed) = &result {
            self.faults = self.faults.saturating_add(1);
        }
        result
    }
}
