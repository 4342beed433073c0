//! expand IN OUT: writes the version 1 file of a seeded server or ciphertext file.
ghost use Rattle.std.specs.Prelude.{◌≡◌, ◌∷◌, [], length, List, ℕ};
ghost use Rattle.rx_boot.specs.ServerKeys.{ServerWords};
ghost use Rattle.rx_codec.specs.declared.cipher.Cipher.{Cipher};
ghost use Rattle.rx_codec.specs.ServerFile.{ServerFile};
ghost use Rattle.rx_codec.specs.CipherFile.{CipherFile};
ghost use Rattle.rx_seeded.specs.SeededServer.{SeededServer, seeded_server_from};
ghost use Rattle.rx_seeded.specs.SeededCipher.{SeededCipher, seeded_cipher_from};
ghost use Rattle.rx_tool.specs.Answers.{Answers, Yields};
ghost use Rattle.rx_tool.specs.Expand.{IsExpanded, expand_refusal, expand_server_refused, expand_cipher_refused};
ghost use Rattle.rx_tool.specs.declared.command.Command.TheVariants.{Expand};

use crate::bytes::Bytes;
use crate::commands::shared::{one_file, stop_for};
use crate::outcome::{Done, Stop};
use crate::words::Word;
use rx_codec::{CodecFault, encode_cipher, encode_server};
use rx_report::malformed_binary;
use rx_seeded::{begins, decode_seeded_cipher, decode_seeded_server};
use std::alloc::Global;

/// Makes the version 1 file of a seeded file. It refuses a file that is no seeded server or ciphertext file.
pub fn expand_file(
    alloc: Global,
    input: &Word<'_>,
    out: &Word<'_>,
    files: &[Bytes],
) -> Result<Done, Stop>
    requires { length files.now ≡ 1 }
    ensures { Answers (Expand input.now out.now) files.now result }
{
    match expanded(alloc, input.as_str(), files[0].as_slice()) {
        Ok(bytes) => Ok(one_file(alloc, out, bytes)?),
        Err(stop) => Err(stop),
    }
}

/// The version 1 file of a seeded file, by its magic.
fn expanded(alloc: Global, input: &str, file: &[u8]) -> Result<Vec<u8>, Stop>
    ensures { Yields (expand_refusal input.now (file.now ∷ []))
        (λ bytes. IsExpanded file.now bytes.items) result }
{
    if begins(file, b"RXS2") {
        expanded_server(alloc, input, file)
    } else {
        expanded_cipher(alloc, input, file)
    }
}

/// The version 1 file of a seeded server file.
fn expanded_server(alloc: Global, input: &str, file: &[u8]) -> Result<Vec<u8>, Stop>
    ensures { Yields (expand_server_refused input.now (seeded_server_from file.now))
        (λ bytes. (mask_seed : List ℕ) × (k : ServerWords)
        × SeededServer file.now mask_seed k × ServerFile bytes.items k) result }
{
    match decode_seeded_server(alloc, file) {
        Ok(key) => Ok(encode_server(alloc, &key)?),
        Err(CodecFault::Memory) => Err(Stop::Memory),
        Err(fault) => Err(stop_for(malformed_binary(alloc, input, fault))),
    }
}

/// The version 1 file of a seeded ciphertext file.
fn expanded_cipher(alloc: Global, input: &str, file: &[u8]) -> Result<Vec<u8>, Stop>
    ensures { Yields (expand_cipher_refused input.now (seeded_cipher_from file.now))
        (λ bytes. (mask_seed : List ℕ) × (c : Cipher)
        × SeededCipher file.now mask_seed c × CipherFile bytes.items c) result }
{
    match decode_seeded_cipher(alloc, file) {
        Ok(cipher) => Ok(encode_cipher(alloc, &cipher)?),
        Err(CodecFault::Memory) => Err(Stop::Memory),
        Err(fault) => Err(stop_for(malformed_binary(alloc, input, fault))),
    }
}
