//! migrate MASKSEED IN OUT: writes the seeded file of a version 1 server or ciphertext file.
ghost use Rattle.std.specs.Prelude.{◌≡◌, length};
ghost use Rattle.rx_boot.specs.ServerKeys.{ServerWords};
ghost use Rattle.rx_codec.specs.declared.cipher.Cipher.{Cipher};
ghost use Rattle.rx_codec.specs.ServerFile.{ServerFile, server_from};
ghost use Rattle.rx_codec.specs.CipherFile.{CipherFile, cipher_from};
ghost use Rattle.rx_seeded.specs.SeededServer.{SeededServer};
ghost use Rattle.rx_seeded.specs.SeededCipher.{SeededCipher};
ghost use Rattle.rx_tool.specs.Answers.{Answers, Yields};
ghost use Rattle.rx_tool.specs.Migrate.{migrate_server_refused, migrate_cipher_refused};
ghost use Rattle.rx_tool.specs.declared.command.Command.TheVariants.{Migrate};

use crate::bytes::Bytes;
use crate::commands::shared::{one_file, stop_for};
use crate::outcome::{Done, Stop};
use crate::words::Word;
use rx_codec::{CodecFault, decode_cipher, decode_server};
use rx_report::{malformed_binary, wrong_mask};
use rx_seeded::{SeedFault, begins, encode_seeded_cipher, encode_seeded_server};
use std::alloc::Global;

/// Makes the seeded file of a version 1 file. It refuses, in this order, a file that is no server or ciphertext file of
/// version 1, and the first mask word that the seed does not draw.
pub fn migrate_file(
    alloc: Global,
    mask_seed: &[u8; 32],
    input: &Word<'_>,
    out: &Word<'_>,
    files: &[Bytes],
) -> Result<Done, Stop>
    requires { length files.now ≡ 1 }
    ensures { Answers (Migrate mask_seed.now input.now out.now) files.now result }
{
    let file = files[0].as_slice();
    let migrated = if begins(file, b"RXS1") {
        migrated_server(alloc, mask_seed, input.as_str(), file)
    } else {
        migrated_cipher(alloc, mask_seed, input.as_str(), file)
    };
    match migrated {
        Ok(bytes) => Ok(one_file(alloc, out, bytes)?),
        Err(stop) => Err(stop),
    }
}

/// The seeded file of a version 1 server file.
fn migrated_server(
    alloc: Global,
    mask_seed: &[u8; 32],
    input: &str,
    file: &[u8],
) -> Result<Vec<u8>, Stop>
    ensures { Yields (migrate_server_refused mask_seed.now input.now (server_from file.now))
        (λ bytes. (k : ServerWords) × ServerFile file.now k
        × SeededServer bytes.items mask_seed.now k) result }
{
    let key = match decode_server(alloc, file) {
        Ok(key) => key,
        Err(CodecFault::Memory) => return Err(Stop::Memory),
        Err(fault) => return Err(stop_for(malformed_binary(alloc, input, fault))),
    };
    match encode_seeded_server(alloc, &key, mask_seed) {
        Ok(bytes) => Ok(bytes),
        Err(SeedFault::Mask { at }) => Err(stop_for(wrong_mask(alloc, input, at))),
        Err(SeedFault::Memory) => Err(Stop::Memory),
    }
}

/// The seeded file of a version 1 ciphertext file.
fn migrated_cipher(
    alloc: Global,
    mask_seed: &[u8; 32],
    input: &str,
    file: &[u8],
) -> Result<Vec<u8>, Stop>
    ensures { Yields (migrate_cipher_refused mask_seed.now input.now (cipher_from file.now))
        (λ bytes. (c : Cipher) × CipherFile file.now c
        × SeededCipher bytes.items mask_seed.now c) result }
{
    let cipher = match decode_cipher(alloc, file) {
        Ok(cipher) => cipher,
        Err(CodecFault::Memory) => return Err(Stop::Memory),
        Err(fault) => return Err(stop_for(malformed_binary(alloc, input, fault))),
    };
    match encode_seeded_cipher(alloc, &cipher, mask_seed) {
        Ok(bytes) => Ok(bytes),
        Err(SeedFault::Mask { at }) => Err(stop_for(wrong_mask(alloc, input, at))),
        Err(SeedFault::Memory) => Err(Stop::Memory),
    }
}
