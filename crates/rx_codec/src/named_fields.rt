//! The fields that name a number and give its form, in the items of ciphertext files and in nets.
ghost use Rattle.std.specs.Prelude.{◌≡◌, ◌≤◌, ◌⊎◌, ◌++◌, ◌&&◌, not, IsTrue, IfOk, OnOk};
ghost use Rattle.rx_text.specs.Names.{is_name};
ghost use Rattle.rx_codec.specs.Reading.{GivesExactly, GivesExactlyAt, in_range as field_in_range};
ghost use Rattle.rx_codec.specs.NamedFields.{named_bytes, name_size_at, form_at};

use crate::CodecFault;
use crate::reader::{Reader, in_range};
use rx_params::{Kind, Name};
use std::alloc::AllocError;

/// The length of a name in bytes, 1 to 32, which follow.
#[tactic(auto, unfolding(crate::specs::NamedFields::name_size_at))]
pub fn read_name_size(reader: &mut Reader) -> Result<usize, CodecFault>
    ensures value { GivesExactlyAt (λ size. size) reader.new.at result
        (name_size_at reader.old.file reader.old.at) }
    ensures few { IfOk result (λ size. size ≤ 32) }
    ensures file { reader.new.file ≡ reader.old.file }
{
    let at = reader.at();
    let size = reader.u8()?;
    in_range((1..=32).contains(&size), at)?;
    Ok(usize::from(size))
}

/// The name that the text at a place is. The text is refused where it is none, or where it is taken.
pub fn new_name(text: &[u8], is_taken: bool, at: u64) -> Result<Name, CodecFault>
    ensures { GivesExactly (λ name. name) result
        (field_in_range (is_name text.now && not is_taken) at text.now) }
{
    match Name::of(text) {
        Some(name) if !is_taken => Ok(name),
        _ => Err(CodecFault::Field { at }),
    }
}

/// A kind and its bits. The message bits are 2 or 3.
#[tactic(auto, unfolding(crate::specs::NamedFields::form_at))]
pub fn read_form(reader: &mut Reader, message_bits: u32) -> Result<(Kind, u32), CodecFault>
    requires { (message_bits ≡ 2) ⊎ (message_bits ≡ 3) }
    ensures value { GivesExactlyAt (λ form. (form.0, form.1)) reader.new.at result
        (form_at message_bits reader.old.file reader.old.at) }
    ensures file { reader.new.file ≡ reader.old.file }
{
    let at = reader.at();
    let kind = match reader.u8()? {
        0 => Kind::Int,
        1 => Kind::Bit,
        _ => return Err(CodecFault::Field { at }),
    };
    let at = reader.at();
    let bits = u32::from(reader.u8()?);
    in_range(kind.is_form(message_bits, bits), at)?;
    Ok((kind, bits))
}

/// Adds a name and a form. The bits are at most 64. The name is one, as each `Name` is.
pub fn write_name_and_form(
    out: &mut Vec<u8>,
    name: &Name,
    kind: Kind,
    bits: u32,
) -> Result<(), AllocError>
    requires bits { bits ≤ 64 }
    ensures value { OnOk result (out.new.items ≡ out.old.items ++ named_bytes name.now kind bits) }
    ensures named { OnOk result (IsTrue (is_name name.now)) }
{
    let name = name.as_bytes();
    out.push(name.len() as u8)?;
    out.extend_from_slice(name)?;
    out.push(match kind {
        Kind::Int => 0,
        Kind::Bit => 1,
    })?;
    out.push(bits as u8)?;
    Ok(())
}
