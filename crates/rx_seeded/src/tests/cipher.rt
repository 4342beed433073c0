//! Ciphertext files of the small set by their bodies, byte by byte.
use crate::{
    FileKind, SeedFault, decode_cipher, decode_seeded_cipher, encode_seeded_cipher, file_kind,
};
use rx_codec::{CodecFault, decode_cipher as decode_whole_cipher, encode_cipher};
use rx_params::Refused;
use std::alloc::{AllocError, Global};
use std::test::Fail;

pub(crate) static FIELDS: [u8; 40] = [
    2, 0, 0, 0, 1, 0, 0, 0, 0, 1, 0, 0, 8, 0, 0, 0, 12, 0, 0, 0, 2, 0, 0, 0, 4, 0, 0, 0, 6, 0, 0,
    0, 17, 0, 0, 0, 20, 0, 0, 0,
];

pub(crate) const MASK_SEED: [u8; 32] = [0x11; 32];

/// The ends of the fields of the file of one int.
static ENDS: [usize; 29] = [
    4, 8, 12, 16, 20, 24, 28, 32, 36, 40, 44, 76, 80, 81, 82, 83, 84, 85, 86, 94, 95, 96, 104, 105,
    106, 114, 115, 116, 124,
];

/// The head of a file of so many items.
fn head(alloc: Global, items: u8) -> Result<Vec<u8>, AllocError> {
    let mut file = Vec::from_slice(alloc, b"RXE2")?;
    file.extend_from_slice(&FIELDS)?;
    file.extend_from_slice(&MASK_SEED)?;
    file.extend_from_slice(&[items, 0, 0, 0])?;
    Ok(file)
}

/// A file of one int of 8 bits, whose bodies are 1 to 4.
fn int_file(alloc: Global) -> Result<Vec<u8>, AllocError> {
    let mut file = head(alloc, 1)?;
    file.extend_from_slice(&[1, b'a', 0, 8])?;
    for body in 1..5 {
        file.extend_from_slice(&[3, 1, body, 0, 0, 0, 0, 0, 0, 0])?;
    }
    Ok(file)
}

/// A file with another value at a place. One past its end is passed over.
pub(crate) fn changed(
    alloc: Global,
    file: &[u8],
    at: usize,
    value: u8,
) -> Result<Vec<u8>, AllocError> {
    let mut file = Vec::from_slice(alloc, file)?;
    if let Some(byte) = file.get_mut(at) {
        *byte = value;
    }
    Ok(file)
}

#[test]
fn an_int_by_its_bodies(rt: HostRuntime) -> Result<(), Fail> {
    let file = int_file(rt.alloc())?;
    assert_eq!(rt; file.len(), 124);
    assert_eq!(rt; file_kind(&file), Some(FileKind::SeededCipher));
    let cipher = decode_seeded_cipher(rt.alloc(), &file)?;
    let whole = encode_cipher(rt.alloc(), &cipher)?;
    assert_eq!(rt; whole.len(), 8_284);
    assert_eq!(rt; file_kind(&whole), Some(FileKind::Cipher));
    let read = decode_whole_cipher(rt.alloc(), &whole)?;
    let again = encode_seeded_cipher(rt.alloc(), &read, &MASK_SEED)?;
    assert_eq!(rt; again.as_slice(), file.as_slice());
    let other = encode_seeded_cipher(rt.alloc(), &read, &[0x12; 32]);
    assert_eq!(rt; other.err(), Some(SeedFault::Mask { at: 54 }));
    let last = changed(rt.alloc(), &whole, 8_275, 1)?;
    let read = decode_whole_cipher(rt.alloc(), &last)?;
    let other = encode_seeded_cipher(rt.alloc(), &read, &MASK_SEED);
    assert_eq!(rt; other.err(), Some(SeedFault::Mask { at: 8_268 }));
    let seeded = decode_cipher(rt.alloc(), &file)?;
    assert_eq!(rt; seeded.items.as_slice().len(), 1);
    let read = decode_cipher(rt.alloc(), &whole)?;
    assert_eq!(rt; read.items.as_slice().len(), 1);
    Ok(())
}

#[test]
fn no_items(rt: HostRuntime) -> Result<(), Fail> {
    let file = head(rt.alloc(), 0)?;
    assert_eq!(rt; file.len(), 80);
    let cipher = decode_seeded_cipher(rt.alloc(), &file)?;
    let again = encode_seeded_cipher(rt.alloc(), &cipher, &MASK_SEED)?;
    assert_eq!(rt; again.as_slice(), file.as_slice());
    Ok(())
}

/// The end of the first field that a file of so many bytes does not hold.
fn end_after(len: usize) -> Option<usize> {
    ENDS.iter().copied().find(|end| *end > len)
}

/// The first length at which the file, cut there, is not refused for want of its next field.
fn first_cut(alloc: Global, file: &[u8]) -> Result<Option<usize>, AllocError> {
    for len in 0..file.len() {
        let found = decode_seeded_cipher(alloc, &file[..len]).err();
        let fault = end_after(len).map(|end| CodecFault::Short {
            need: end as u64,
            have: len as u64,
        });
        if found != fault {
            return Ok(Some(len));
        }
    }
    Ok(None)
}

#[test]
fn cut_at_every_byte(rt: HostRuntime) -> Result<(), Fail> {
    let file = int_file(rt.alloc())?;
    assert_eq!(rt; first_cut(rt.alloc(), &file)?, None);
    Ok(())
}

/// The first change after which the file is not refused for the fault beside it.
fn first_change(
    alloc: Global,
    file: &[u8],
    cases: &[(usize, u8, CodecFault)],
) -> Result<Option<usize>, AllocError> {
    for (at, value, fault) in cases {
        let other = changed(alloc, file, *at, *value)?;
        if decode_cipher(alloc, &other).err() != Some(*fault) {
            return Ok(Some(*at));
        }
    }
    Ok(None)
}

#[test]
fn fields_out_of_range(rt: HostRuntime) -> Result<(), Fail> {
    let file = int_file(rt.alloc())?;
    let refused = Refused::Limit { field: 1, value: 4 };
    let cases = [
        (0, 0, CodecFault::Magic),
        (3, b'1', CodecFault::Field { at: 44 }),
        (4, 4, CodecFault::Params(refused)),
        (76, 65, CodecFault::Field { at: 76 }),
        (76, 0, CodecFault::Long { extra: 44 }),
        (80, 0, CodecFault::Field { at: 80 }),
        (81, 65, CodecFault::Field { at: 81 }),
        (82, 2, CodecFault::Field { at: 82 }),
        (82, 1, CodecFault::Field { at: 83 }),
        (83, 7, CodecFault::Field { at: 83 }),
        (84, 4, CodecFault::Field { at: 84 }),
        (85, 0, CodecFault::Field { at: 85 }),
        (85, 6, CodecFault::Field { at: 85 }),
    ];
    assert_eq!(rt; first_change(rt.alloc(), &file, &cases)?, None);
    let mut longer = Vec::from_slice(rt.alloc(), &file)?;
    longer.push(0)?;
    let found = decode_cipher(rt.alloc(), &longer).err();
    assert_eq!(rt; found, Some(CodecFault::Long { extra: 1 }));
    Ok(())
}

#[test]
fn a_body_of_the_other_version(rt: HostRuntime) -> Result<(), Fail> {
    let cipher = decode_seeded_cipher(rt.alloc(), &head(rt.alloc(), 0)?)?;
    let whole = encode_cipher(rt.alloc(), &cipher)?;
    let other = changed(rt.alloc(), &whole, 3, b'2')?;
    let found = decode_cipher(rt.alloc(), &other).err();
    assert_eq!(rt; found, Some(CodecFault::Short { need: 76, have: 48 }));
    let found = decode_seeded_cipher(rt.alloc(), &whole).err();
    assert_eq!(rt; found, Some(CodecFault::Magic));
    Ok(())
}

#[test]
fn kinds_of_files(rt: HostRuntime) {
    assert_eq!(rt; file_kind(b"RXC1"), Some(FileKind::Client));
    assert_eq!(rt; file_kind(b"RXS1 and more"), Some(FileKind::Server));
    assert_eq!(rt; file_kind(b"RXS2"), Some(FileKind::SeededServer));
    assert_eq!(rt; file_kind(b"RXN1"), Some(FileKind::Net));
    assert_eq!(rt; file_kind(b"RXN"), None);
    assert_eq!(rt; file_kind(b"rxn1"), None);
}
