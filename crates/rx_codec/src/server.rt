//! The server file: a set and the words of its server key.
ghost use Rattle.std.specs.Prelude.{◌≡◌, ◌*◌, length, IfOk, IfErr, Ok};
ghost use Rattle.rx_params.specs.Acceptance.{Accepts};
ghost use Rattle.rx_params.specs.Derived.{key_words as key_words_of};
ghost use Rattle.rx_boot.specs.ServerKeys.{ServerWords};
ghost use Rattle.rx_codec.specs.Reading.{Gives, GivesExactly, IsFaultOf};
ghost use Rattle.rx_codec.specs.WordFields.{words_in};
ghost use Rattle.rx_codec.specs.ServerFile.{ServerFile, server_from, key_of};

use crate::CodecFault;
use crate::params_fields::{read_params, write_params};
use crate::reader::{Reader, words_of};
use crate::shapes::key_words;
use crate::writer::write_words;
use rx_boot::{BootKey, ServerKey, boot_words, switch_words};
use rx_lwe::SwitchKey;
use rx_params::Params;
use rx_torus::Words;
use std::alloc::{AllocError, Global};

/// The magic and the fields of the set.
const HEAD_SIZE: usize = 44;

/// The server key that a file spells, or its first fault. No memory is taken before the file was read to its end.
pub fn decode_server(alloc: Global, bytes: &[u8]) -> Result<ServerKey, CodecFault>
    ensures exact { Gives (λ k. k) result (server_from bytes.now) }
    ensures fault { IfErr result (IsFaultOf (server_from bytes.now)) }
    ensures found { IfOk result (λ k. ServerFile bytes.now k) }
    ensures only { (k : ServerWords) → ServerFile bytes.now k → Gives (λ k. k) result (Ok k) }
{
    read_server(alloc, bytes)
}

fn read_server(alloc: Global, bytes: &[u8]) -> Result<ServerKey, CodecFault>
    ensures exact { Gives (λ k. k) result (server_from bytes.now) }
    ensures fault { IfErr result (IsFaultOf (server_from bytes.now)) }
{
    let (params, words) = read_fields(bytes)?;
    Ok(key_in(alloc, &params, words)?)
}

/// The set of a file and the bytes of its words, or its first fault. The file is read to its end, and no memory is
/// taken.
#[tactic(auto, unfolding(crate::specs::ServerFile::server_from, crate::specs::WordFields::words_at))]
fn read_fields(bytes: &[u8]) -> Result<(Params, &[u8]), CodecFault>
    ensures value { GivesExactly (λ f. key_of f.0 (words_in (key_words_of f.0) f.1.now))
        result (server_from bytes.now) }
    ensures accepted { IfOk result (λ f. Accepts f.0) }
    ensures size { IfOk result (λ f. length f.1.now ≡ 8 * key_words_of f.0) }
{
    let mut reader = Reader::after_magic(bytes, b"RXS1")?;
    let params = read_params(&mut reader)?;
    let words = reader.bytes(8 * key_words(&params))?;
    reader.end()?;
    Ok((params, words))
}

/// The key of a set whose words these bytes are: each list is made from its own part of them.
fn key_in(alloc: Global, p: &Params, bytes: &[u8]) -> Result<ServerKey, AllocError>
    requires accepted { Accepts p.now }
    requires size { length bytes.now ≡ 8 * key_words_of p.now }
    ensures { IfOk result (λ k. k ≡ key_of p.now (words_in (key_words_of p.now) bytes.now)) }
{
    let count = boot_words(p);
    let (boot, switch) = bytes.split_at(8 * count);
    let boot = Words::from_vec(words_of(alloc, count, boot)?);
    let switch = Words::from_vec(words_of(alloc, switch_words(p), switch)?);
    Ok(ServerKey {
        params: *p,
        boot: BootKey::from_words(boot),
        switch: SwitchKey::of_words(p, switch),
    })
}

/// The one file of a server key: 44 bytes, and eight more for each word of the key.
pub fn encode_server(alloc: Global, value: &ServerKey) -> Result<Vec<u8>, AllocError>
    ensures file { IfOk result (λ bytes. ServerFile bytes.items value.now) }
{
    let boot = value.boot.words();
    let switch = value.switch.words();
    let size = HEAD_SIZE + 8 * (boot.len() + switch.len());
    let mut out = Vec::with_capacity(alloc, size)?;
    out.extend_from_slice(b"RXS1")?;
    write_params(&mut out, &value.params)?;
    write_words(&mut out, boot)?;
    write_words(&mut out, switch)?;
    Ok(out)
}
