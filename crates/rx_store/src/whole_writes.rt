//! Writing all of some bytes to a writer of the system, which may take a part of them at a time.
ghost use Rattle.std.specs.Prelude.{◌≡◌, IsOk, [], OnErr, OnOk};
ghost use Rattle.std.specs.Io.KnownBytes.{Appends};
ghost use Rattle.rx_store.specs.Real.{TakesPart};

use crate::WriteError;
use std::io::Write;

/// Writes all the bytes; of no bytes that is always done. A write that takes none of those that are left is a
/// failure. After a failure some first bytes of them were written, and nothing else.
pub(crate) fn write_whole<W: Write>(writer: &mut W, bytes: &[u8]) -> Result<(), WriteError>
    ensures whole { OnOk result (Appends (W.contents writer.old)
        (W.contents writer.new) bytes.now) }
    ensures part { OnErr result (TakesPart (W.contents writer.old)
        (W.contents writer.new) bytes.now) }
    ensures empty { bytes.now ≡ [] → IsOk result }
{
    let mut rest = bytes;
    while !rest.is_empty() {
        let Ok(taken) = writer.write(rest) else {
            return Err(WriteError::Failed);
        };
        if taken == 0 {
            return Err(WriteError::Failed);
        }
        rest = &rest[taken..];
    }
    Ok(())
}
