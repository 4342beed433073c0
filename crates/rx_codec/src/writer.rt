//! Writing lists of numbers behind what a file has, each with its least byte first.
ghost use Rattle.std.specs.Prelude.{◌≡◌, ◌++◌, OnOk};
ghost use Rattle.std.specs.Int.{w32, w64, to_le_bytes};
ghost use Rattle.std.specs.List.{flat_map};

use byteorder::{ByteOrder, LittleEndian};
use std::alloc::AllocError;

/// Adds numbers, four bytes each.
pub fn write_numbers(out: &mut Vec<u8>, numbers: &[u32]) -> Result<(), AllocError>
    ensures { OnOk result (out.new.items ≡ out.old.items
        ++ flat_map (to_le_bytes w32) numbers.now) }
{
    for number in numbers {
        out.extend_from_slice(&number.to_le_bytes())?;
    }
    Ok(())
}

/// Adds words, eight bytes each.
pub fn write_words(out: &mut Vec<u8>, words: &[u64]) -> Result<(), AllocError>
    ensures { OnOk result (out.new.items ≡ out.old.items ++ flat_map (to_le_bytes w64) words.now) }
{
    let start = out.len();
    out.resize(start + 8 * words.len(), 0)?;
    LittleEndian::write_u64_into(words, &mut out[start..]);
    Ok(())
}
