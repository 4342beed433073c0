//! The ciphertext files of a run.
ghost use Rattle.std.specs.Prelude.{◌≡◌, Ok, None, length};
ghost use Rattle.rx_seeded.specs.Versions.{CipherRead, any_cipher_from};
ghost use Rattle.rx_tool.specs.Answers.{Yields};
ghost use Rattle.rx_tool.specs.Run.{AreCiphers, ciphers_of, malformed_input, one_malformed};
ghost use Rattle.rx_tool.specs.Words.{texts};

use crate::bytes::Bytes;
use crate::commands::shared::stop_for;
use crate::outcome::Stop;
use rx_codec::{Cipher, CodecFault};
use rx_report::malformed_binary;
use rx_seeded::decode_cipher;
use std::alloc::Global;

/// The ciphers of some files, each of the name at its place, in order. It refuses the first malformed file.
pub fn read_ciphers(alloc: Global, names: &[String], files: &[Bytes]) -> Result<Vec<Cipher>, Stop>
    requires { length files.now ≡ length names.now }
    ensures { Yields (malformed_input (texts names.now) files.now)
        (λ ciphers. (ciphers.items ≡ ciphers_of files.now)
        × AreCiphers files.now ciphers.items) result }
{
    let mut ciphers = Vec::new(alloc);
    for (place, file) in files.iter().enumerate() {
        match read_one(alloc, names[place].as_str(), file) {
            Ok(cipher) => ciphers.push(cipher)?,
            Err(stop) => return Err(stop),
        }
    }
    Ok(ciphers)
}

/// The cipher of a file of this name.
fn read_one(alloc: Global, name: &str, file: &Bytes) -> Result<Cipher, Stop>
    ensures { Yields (one_malformed name.now (any_cipher_from file.now) None)
        (λ cipher. (any_cipher_from file.now ≡ Ok cipher) × CipherRead file.now cipher) result }
{
    match decode_cipher(alloc, file.as_slice()) {
        Ok(cipher) => Ok(cipher),
        Err(CodecFault::Memory) => Err(Stop::Memory),
        Err(fault) => Err(stop_for(malformed_binary(alloc, name, fault))),
    }
}
