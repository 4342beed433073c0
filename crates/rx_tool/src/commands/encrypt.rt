//! encrypt CLIENT MASKSEED NOISESEED VALUES OUT: writes the seeded ciphertext file of the fresh blocks
//! of all numbers.
ghost use Rattle.std.specs.Prelude.{◌≡◌, IfOk, None, length, map};
ghost use Rattle.rx_params.specs.Acceptance.{Accepts};
ghost use Rattle.rx_lwe.specs.Secret.{large_key};
ghost use Rattle.rx_circuit.specs.Values.{AreValues};
ghost use Rattle.rx_seeded.specs.SeededCipher.{SeededCipher};
ghost use Rattle.rx_codec.specs.Kept.{AreItemsKept};
ghost use Rattle.rx_client.specs.Encrypt.{line_digits, first_width, KeepsValues};
ghost use Rattle.rx_tool.specs.Answers.{Answers};
ghost use Rattle.rx_tool.specs.Encrypt.{encryption};
ghost use Rattle.rx_tool.specs.declared.command.Command.TheVariants.{Encrypt};

use crate::bytes::Bytes;
use crate::commands::shared::{one_file, stop_for};
use crate::outcome::{Done, Stop};
use crate::words::Word;
use rx_circuit::{ParseError, Values, read_values};
use rx_client::{encrypt_values, wrong_width_in};
use rx_codec::{Client, decode_client};
use rx_lwe::SecretKey;
use rx_report::{malformed_binary, malformed_text, wrong_width};
use std::alloc::{AllocError, Global};

/// Encrypts all lines of a value file. It refuses, in this order, a malformed client file, a malformed value file, and
/// the first line whose bits are no multiple of the message bits.
pub fn encrypt_numbers(
    alloc: Global,
    client: &Word<'_>,
    mask_seed: &[u8; 32],
    noise_seed: &[u8; 32],
    values: &Word<'_>,
    out: &Word<'_>,
    files: &[Bytes],
) -> Result<Done, Stop>
    requires { length files.now ≡ 2 }
    ensures { Answers (Encrypt client.now mask_seed.now noise_seed.now values.now out.now)
        files.now result }
{
    let keys = match decode_client(files[0].as_slice()) {
        Ok(keys) => keys,
        Err(fault) => return Err(stop_for(malformed_binary(alloc, client.as_str(), fault))),
    };
    let lines = match read_values(alloc, files[1].as_slice()) {
        Ok(lines) => lines,
        Err(ParseError::Line(fault)) => {
            return Err(stop_for(malformed_text(alloc, values.as_str(), fault)));
        }
        Err(ParseError::Memory) => return Err(Stop::Memory),
    };
    if let Some(line) = wrong_width_in(keys.params.message_bits, lines.lines()) {
        return Err(stop_for(wrong_width(alloc, line.name.as_str(), line.bits)));
    }
    let bytes = encrypted(alloc, &keys, mask_seed, noise_seed, &lines)?;
    Ok(one_file(alloc, out, bytes)?)
}

/// The seeded ciphertext file of the lines under a client's key.
pub fn encrypted(
    alloc: Global,
    keys: &Client,
    mask_seed: &[u8; 32],
    noise_seed: &[u8; 32],
    lines: &Values,
) -> Result<Vec<u8>, AllocError>
    requires accepted { Accepts keys.now.params }
    requires values { AreValues lines.now }
    requires widths { first_width keys.now.params.message_bits lines.now ≡ None }
    ensures file { IfOk result (λ bytes. SeededCipher bytes.items mask_seed.now
        (encryption keys.now mask_seed.now noise_seed.now lines.now)) }
    ensures keeps { IfOk result (λ _.
        KeepsValues keys.now.params (large_key keys.now.params keys.now.seed)
        (encryption keys.now mask_seed.now noise_seed.now lines.now).items lines.now) }
    ensures kept { IfOk result (λ _.
        AreItemsKept keys.now.params (large_key keys.now.params keys.now.seed)
        (encryption keys.now mask_seed.now noise_seed.now lines.now).items
        (map (line_digits keys.now.params.message_bits) lines.now)) }
{
    let key = SecretKey::large(alloc, &keys.params, &keys.seed)?;
    encrypt_values(
        alloc,
        &keys.params,
        &key,
        mask_seed,
        noise_seed,
        lines.lines(),
    )
}
