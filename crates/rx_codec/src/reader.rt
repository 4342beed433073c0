//! Reading a file field after field. Each format is read by one `Reader`, which keeps the place and answers the faults.
ghost use Rattle.std.specs.Prelude.{◌≡◌, ◌*◌, ◌<◌, ◌^◌, length, IfOk};
ghost use Rattle.std.specs.Int.{w8, w16, w32};
ghost use Rattle.rx_codec.specs.Reading.{GivesExactly, GivesExactlyAt, GivesAt, bytes_at, number_at, signed_at, count_at, in_range as field_in_range, magic_at, ends_at};
ghost use Rattle.rx_codec.specs.WordFields.{words_at, words_in};

use crate::CodecFault;
use std::alloc::{AllocError, Global};
use std::marker::Model;

/// A file, and the place in it where the next field begins, in bytes from 0. A field that the file does not hold to its
/// end is `Short`, and one with a value outside its range `Field`. After a fault the place is not told.
#[derive(Drop)]
pub struct Reader<'a> {
    file: &'a [u8],
    at: usize,
}

impl<'a> Model for Reader<'a> {
    ghost use Rattle.std.specs.Prelude.{length, ◌≤◌};
    ghost use Rattle.rx_codec.specs.Reading.{Cursor};

    ghost Value = { Cursor };

    ghost view = { λ r. record { file = r.file.now; at = r.at } };

    ghost invariant = { λ r. r.at ≤ length r.file.now };
}

impl<'a> Reader<'a> {
    /// A reader of a file, past the four bytes that tell its format, or `Magic`.
    pub fn after_magic(file: &'a [u8], magic: &[u8]) -> Result<Reader<'a>, CodecFault>
        ensures value { GivesExactly (λ reader. reader.at) result (magic_at magic.now file.now) }
        ensures file { IfOk result (λ reader. reader.file ≡ file.now) }
    {
        let mut reader = Reader { file, at: 0 };
        if reader.bytes(4)? != magic {
            return Err(CodecFault::Magic);
        }
        Ok(reader)
    }

    /// The place of the next field.
    pub fn at(&self) -> u64
        ensures { result ≡ self.now.at }
    {
        self.at as u64
    }

    /// A field of so many bytes.
    pub fn bytes(&mut self, count: usize) -> Result<&'a [u8], CodecFault>
        requires { count < 2 ^ 32 }
        ensures value { GivesExactlyAt (λ bytes. bytes.now) self.new.at result
            (bytes_at self.old.file count self.old.at) }
        ensures file { self.new.file ≡ self.old.file }
    {
        let end = self.at + count;
        if end > self.file.len() {
            return Err(CodecFault::Short {
                need: end as u64,
                have: self.file.len() as u64,
            });
        }
        let bytes = &self.file[self.at..end];
        self.at = end;
        Ok(bytes)
    }

    /// A number of one byte.
    pub fn u8(&mut self) -> Result<u8, CodecFault>
        ensures value { GivesExactlyAt (λ n. n) self.new.at result
            (number_at w8 self.old.file self.old.at) }
        ensures file { self.new.file ≡ self.old.file }
    {
        let bytes = self.bytes(1)?;
        Ok(bytes[0])
    }

    /// A number of two bytes.
    pub fn u16(&mut self) -> Result<u16, CodecFault>
        ensures value { GivesExactlyAt (λ n. n) self.new.at result
            (number_at w16 self.old.file self.old.at) }
        ensures file { self.new.file ≡ self.old.file }
    {
        let bytes = self.bytes(2)?;
        Ok(u16::from_le_bytes([bytes[0], bytes[1]]))
    }

    /// A number of one byte and of either sign.
    pub fn i8(&mut self) -> Result<i8, CodecFault>
        ensures value { GivesExactlyAt (λ n. n) self.new.at result
            (signed_at w8 self.old.file self.old.at) }
        ensures file { self.new.file ≡ self.old.file }
    {
        Ok(self.u8()?.cast_signed())
    }

    /// A number of two bytes and of either sign.
    pub fn i16(&mut self) -> Result<i16, CodecFault>
        ensures value { GivesExactlyAt (λ n. n) self.new.at result
            (signed_at w16 self.old.file self.old.at) }
        ensures file { self.new.file ≡ self.old.file }
    {
        Ok(self.u16()?.cast_signed())
    }

    /// A number of four bytes.
    pub fn u32(&mut self) -> Result<u32, CodecFault>
        ensures value { GivesExactlyAt (λ n. n) self.new.at result
            (number_at w32 self.old.file self.old.at) }
        ensures file { self.new.file ≡ self.old.file }
    {
        let bytes = self.bytes(4)?;
        Ok(u32::from_le_bytes([bytes[0], bytes[1], bytes[2], bytes[3]]))
    }

    /// A number of one byte that is at most `most`.
    #[tactic(auto, unfolding(crate::specs::Reading::count_at))]
    pub fn u8_at_most(&mut self, most: u8) -> Result<u8, CodecFault>
        ensures value { GivesExactlyAt (λ n. n) self.new.at result
            (count_at w8 most self.old.file self.old.at) }
        ensures file { self.new.file ≡ self.old.file }
    {
        let at = self.at();
        let count = self.u8()?;
        in_range(count <= most, at)?;
        Ok(count)
    }

    /// A number of two bytes that is at most `most`.
    #[tactic(auto, unfolding(crate::specs::Reading::count_at))]
    pub fn u16_at_most(&mut self, most: u16) -> Result<u16, CodecFault>
        ensures value { GivesExactlyAt (λ n. n) self.new.at result
            (count_at w16 most self.old.file self.old.at) }
        ensures file { self.new.file ≡ self.old.file }
    {
        let at = self.at();
        let count = self.u16()?;
        in_range(count <= most, at)?;
        Ok(count)
    }

    /// A number of four bytes that is at most `most`.
    #[tactic(auto, unfolding(crate::specs::Reading::count_at))]
    pub fn u32_at_most(&mut self, most: u32) -> Result<u32, CodecFault>
        ensures value { GivesExactlyAt (λ n. n) self.new.at result
            (count_at w32 most self.old.file self.old.at) }
        ensures file { self.new.file ≡ self.old.file }
    {
        let at = self.at();
        let count = self.u32()?;
        in_range(count <= most, at)?;
        Ok(count)
    }

    /// A field of so many words of eight bytes.
    #[tactic(auto, unfolding(crate::specs::WordFields::words_at))]
    pub fn words(&mut self, alloc: Global, count: usize) -> Result<Vec<u64>, CodecFault>
        requires { count < 2 ^ 24 }
        ensures value { GivesAt (λ words. words.items) self.new.at result
            (words_at count self.old.file self.old.at) }
        ensures file { self.new.file ≡ self.old.file }
    {
        let bytes = self.bytes(8 * count)?;
        Ok(words_of(alloc, count, bytes)?)
    }

    /// The file ends where the reader stands, or is `Long`.
    pub fn end(&self) -> Result<(), CodecFault>
        ensures { result ≡ ends_at self.now.file self.now.at tt }
    {
        if self.at < self.file.len() {
            return Err(CodecFault::Long {
                extra: (self.file.len() - self.at) as u64,
            });
        }
        Ok(())
    }
}

/// Whether the field that begins at this place has a value in its range.
pub fn in_range(passes: bool, at: u64) -> Result<(), CodecFault>
    ensures { result ≡ field_in_range passes at tt }
{
    if passes {
        Ok(())
    } else {
        Err(CodecFault::Field { at })
    }
}

/// The words that the bytes are, eight bytes each, the least first.
pub fn words_of(alloc: Global, count: usize, bytes: &[u8]) -> Result<Vec<u64>, AllocError>
    requires { length bytes.now ≡ 8 * count }
    ensures { IfOk result (λ words. words.items ≡ words_in count bytes.now) }
{
    let mut words = Vec::with_capacity(alloc, count)?;
    for i in 0..count {
        let word = &bytes[8 * i..8 * i + 8];
        words.push(u64::from_le_bytes([
            word[0], word[1], word[2], word[3], word[4], word[5], word[6], word[7],
        ]))?;
    }
    Ok(words)
}
