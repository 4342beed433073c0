//! The parts of a run that know no command: the reads, the writes, the printing.
ghost use Rattle.std.specs.Prelude.{◌≡◌, ◌≤◌, IfOk, length};
ghost use Rattle.rx_tool.specs.Got.{ReadsAll};
ghost use Rattle.rx_tool.specs.Left.{WritesAll};

use crate::FILE_LIMIT;
use crate::bytes::Bytes;
use crate::outcome::{Output, Stop};
use crate::words::Word;
use rx_report::too_long;
use rx_store::{ReadError, Store, WriteError};
use std::alloc::Global;

/// Reads the files of these names, in order, and stops at the first that is longer than `FILE_LIMIT`, which is refused,
/// or that is missing or not read.
pub fn read_all<S: Store>(
    alloc: Global,
    names: &[Word<'_>],
    store: &mut S,
) -> Result<Vec<Bytes>, Stop>
    ensures gives { ReadsAll (S.files store.old) names.now (S.read_faults store.old)
        (S.read_faults store.new) result }
    ensures count { IfOk result (λ all. length all.items ≡ length names.now) }
    ensures same { S.files store.new ≡ S.files store.old }
    ensures reads { S.read_faults store.old ≤ S.read_faults store.new }
    ensures writes { S.write_faults store.new ≡ S.write_faults store.old }
{
    let mut all = Vec::new(alloc);
    for name in names {
        match store.read(alloc, name.as_str(), FILE_LIMIT) {
            Ok(bytes) => all.push(Bytes::new(bytes))?,
            Err(ReadError::TooLong(size)) => {
                return Err(Stop::Refused(too_long(alloc, name.as_str(), size)?));
            }
            Err(ReadError::Missing) => return Err(Stop::Read),
            Err(ReadError::Failed) => return Err(Stop::Read),
            Err(ReadError::Memory(_)) => return Err(Stop::Memory),
        }
    }
    Ok(all)
}

/// Writes these files, in order, and stops at the first that fails.
pub fn write_all<S: Store>(writes: &[Output], store: &mut S) -> Result<(), WriteError>
    ensures leaves { WritesAll writes.now (S.files store.old) (S.files store.new)
        (S.write_faults store.old) (S.write_faults store.new) result }
    ensures reads { S.read_faults store.new ≡ S.read_faults store.old }
    ensures writes { S.write_faults store.old ≤ S.write_faults store.new }
{
    for file in writes {
        match store.write(file.name(), file.bytes()) {
            Ok(()) => {}
            Err(WriteError::Failed) => return Err(WriteError::Failed),
            Err(WriteError::Memory(error)) => return Err(WriteError::Memory(error)),
        }
    }
    Ok(())
}
