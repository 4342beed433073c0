//! The pair file: a set that is accepted for pairs, and the words of its pair key.
ghost use Rattle.std.specs.Prelude.{◌≡◌, ◌*◌, ◌^◌, ◌≤◌, length, IfOk, IfErr, Ok};
ghost use Rattle.rx_params.specs.Acceptance.{PairAccepts};
ghost use Rattle.rx_params.specs.Derived.{pair_words as pair_words_of};
ghost use Rattle.rx_multi.specs.PairKeys.{PairWords};
ghost use Rattle.rx_codec.specs.Reading.{Gives, GivesExactly, GivesExactlyAt, IsFaultOf};
ghost use Rattle.rx_codec.specs.WordFields.{words_in};
ghost use Rattle.rx_pairs.specs.PairFile.{PairFile, pair_params_at, pairs_from, pair_key_of};

use rx_codec::{CodecFault, Reader, read_fields, words_of, write_params, write_words};
use rx_multi::{PairKey, pair_row_words, pair_switch_words};
use rx_params::{Params, check_pairs};
use std::alloc::{AllocError, Global};

/// The bytes of the magic and of the fields of the set.
const HEAD_SIZE: usize = 44;

/// The pair key that a file spells, or its first fault. No memory is taken before the file was read to its end.
pub fn decode_pairs(alloc: Global, bytes: &[u8]) -> Result<PairKey, CodecFault>
    ensures exact { Gives (λ k. k) result (pairs_from bytes.now) }
    ensures fault { IfErr result (IsFaultOf (pairs_from bytes.now)) }
    ensures found { IfOk result (λ k. PairFile bytes.now k) }
    ensures only { (k : PairWords) → PairFile bytes.now k → Gives (λ k. k) result (Ok k) }
{
    read_pairs(alloc, bytes)
}

fn read_pairs(alloc: Global, bytes: &[u8]) -> Result<PairKey, CodecFault>
    ensures exact { Gives (λ k. k) result (pairs_from bytes.now) }
    ensures fault { IfErr result (IsFaultOf (pairs_from bytes.now)) }
{
    let (params, words) = read_parts(bytes)?;
    Ok(key_in(alloc, &params, words)?)
}

/// The set of a file and the bytes of its words, or its first fault. The file is read to its end, and no memory is taken.
#[tactic(auto, unfolding(crate::specs::PairFile::pairs_from, rx_codec::specs::WordFields::words_at))]
fn read_parts(bytes: &[u8]) -> Result<(Params, &[u8]), CodecFault>
    ensures value { GivesExactly (λ f. pair_key_of f.0 (words_in (pair_words_of f.0) f.1.now))
        result (pairs_from bytes.now) }
    ensures accepted { IfOk result (λ f. PairAccepts f.0) }
    ensures size { IfOk result (λ f. length f.1.now ≡ 8 * pair_words_of f.0) }
{
    let mut reader = Reader::after_magic(bytes, b"RXM1")?;
    let params = read_params(&mut reader)?;
    let words = reader.bytes(8 * pair_words(&params))?;
    reader.end()?;
    Ok((params, words))
}

/// The set that stands where the reader is, once all ten fields were read.
#[tactic(auto, unfolding(crate::specs::PairFile::pair_params_at))]
fn read_params(reader: &mut Reader) -> Result<Params, CodecFault>
    ensures value { GivesExactlyAt (λ p. p) reader.new.at result
        (pair_params_at reader.old.file reader.old.at) }
    ensures file { reader.new.file ≡ reader.old.file }
    ensures accepted { IfOk result PairAccepts }
{
    let params = read_fields(reader)?;
    match check_pairs(&params) {
        Ok(_) => Ok(params),
        Err(refused) => Err(CodecFault::Params(refused)),
    }
}

/// The words of a pair key of a set.
fn pair_words(p: &Params) -> usize
    requires { PairAccepts p.now }
    ensures value { result ≡ pair_words_of p.now }
    ensures few { result ≤ 2 ^ 24 }
{
    pair_row_words(p) + pair_switch_words(p)
}

/// The key of a set whose words these bytes are.
fn key_in(alloc: Global, p: &Params, bytes: &[u8]) -> Result<PairKey, AllocError>
    requires accepted { PairAccepts p.now }
    requires size { length bytes.now ≡ 8 * pair_words_of p.now }
    ensures { IfOk result (λ k. k ≡ pair_key_of p.now (words_in (pair_words_of p.now) bytes.now)) }
{
    let words = words_of(alloc, pair_words(p), bytes)?;
    PairKey::of_words(alloc, p, &words)
}

/// The one file of a pair key: 44 bytes, and eight more for each word of the key.
pub fn encode_pairs(alloc: Global, value: &PairKey) -> Result<Vec<u8>, AllocError>
    ensures file { IfOk result (λ bytes. PairFile bytes.items value.now) }
{
    let rows = value.rows();
    let switch = value.switch().words();
    let size = HEAD_SIZE + 8 * (rows.len() + switch.len());
    let mut out = Vec::with_capacity(alloc, size)?;
    out.extend_from_slice(b"RXM1")?;
    write_params(&mut out, &value.params)?;
    write_words(&mut out, rows)?;
    write_words(&mut out, switch)?;
    Ok(out)
}
