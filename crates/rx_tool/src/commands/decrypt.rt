//! decrypt CLIENT IN: prints the number of each item.
ghost use Rattle.std.specs.Prelude.{◌≡◌, length};
ghost use Rattle.rx_tool.specs.Answers.{Answers};
ghost use Rattle.rx_tool.specs.declared.command.Command.TheVariants.{Decrypt};

use crate::bytes::Bytes;
use crate::commands::shared::stop_for;
use crate::outcome::{Done, Stop};
use crate::words::Word;
use rx_client::{DecryptError, decrypt_items};
use rx_codec::{CodecFault, decode_client};
use rx_lwe::SecretKey;
use rx_report::{damaged, first_difference, malformed_binary, mismatch};
use rx_seeded::decode_cipher;
use std::alloc::Global;

/// Decrypts the items of a file of the client's set. It refuses, in this order, a malformed client file, a malformed
/// ciphertext file, one of another set, and the first damaged block.
pub fn decrypt_numbers(
    alloc: Global,
    client: &Word<'_>,
    input: &Word<'_>,
    files: &[Bytes],
) -> Result<Done, Stop>
    requires { length files.now ≡ 2 }
    ensures { Answers (Decrypt client.now input.now) files.now result }
{
    let keys = match decode_client(files[0].as_slice()) {
        Ok(keys) => keys,
        Err(fault) => return Err(stop_for(malformed_binary(alloc, client.as_str(), fault))),
    };
    let cipher = match decode_cipher(alloc, files[1].as_slice()) {
        Ok(cipher) => cipher,
        Err(CodecFault::Memory) => return Err(Stop::Memory),
        Err(fault) => return Err(stop_for(malformed_binary(alloc, input.as_str(), fault))),
    };
    if let Some(difference) = first_difference(&keys.params, &cipher.params) {
        return Err(stop_for(mismatch(alloc, input.as_str(), difference)));
    }
    let key = SecretKey::large(alloc, &keys.params, &keys.seed)?;
    match decrypt_items(alloc, &keys.params, &key, cipher.items.as_slice()) {
        Ok(lines) => Ok(Done {
            writes: Vec::new(alloc),
            lines,
        }),
        Err(DecryptError::Damaged(damage)) => Err(stop_for(damaged(alloc, &damage))),
        Err(DecryptError::Memory) => Err(Stop::Memory),
    }
}
