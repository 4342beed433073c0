//! Numbers of a value file under encryption.
ghost use Rattle.std.specs.Prelude.{◌≡◌, IfOk, None, length, map};
ghost use Rattle.rx_params.specs.Acceptance.{Accepts, FieldsInRange};
ghost use Rattle.rx_params.specs.Derived.{large_dim};
ghost use Rattle.rx_circuit.specs.Values.{AreValues};
ghost use Rattle.rx_codec.specs.CipherFile.{IsCipher, IsWritable};
ghost use Rattle.rx_seeded.specs.SeededCipher.{SeededCipher};
ghost use Rattle.rx_codec.specs.Kept.{AreItemsKept};
ghost use Rattle.rx_client.specs.Encrypt.{line_digits, encrypted_values, first_width, KeepsValues};

use crate::fresh_items::Encryption;
use rx_circuit::ValueLine;
use rx_codec::{Cipher, Items, item_size};
use rx_lwe::SecretKey;
use rx_params::Params;
use rx_seeded::{SEEDED_HEAD_SIZE, seeded_writer};
use std::alloc::{AllocError, Global};

/// The seeded ciphertext file of the lines of a value file under the large key of an accepted set; no line is of a wrong
/// width. Each line becomes an item of its fresh blocks, which are numbered through the whole file from 0. The two
/// seeds serve one file. Each block stands in the file before the next is made.
pub fn encrypt_values(
    alloc: Global,
    p: &Params,
    key: &SecretKey,
    mask_seed: &[u8; 32],
    noise_seed: &[u8; 32],
    lines: &[ValueLine],
) -> Result<Vec<u8>, AllocError>
    requires accepted { Accepts p.now }
    requires key { length key.now ≡ large_dim p.now }
    requires values { AreValues lines.now }
    requires widths { first_width p.now.message_bits lines.now ≡ None }
    ensures file { IfOk result (λ bytes. SeededCipher bytes.items mask_seed.now
        (encrypted_values p.now key.now mask_seed.now noise_seed.now lines.now)) }
    ensures keeps { IfOk result (λ _. KeepsValues p.now key.now
        (encrypted_values p.now key.now mask_seed.now noise_seed.now lines.now).items lines.now) }
    ensures kept { IfOk result (λ _. AreItemsKept p.now key.now
        (encrypted_values p.now key.now mask_seed.now noise_seed.now lines.now).items
        (map (line_digits p.now.message_bits) lines.now)) }
{
    let encryption = Encryption {
        p,
        key,
        mask_seed,
        noise_seed,
    };
    let mut words = vec![in alloc; 0; key.bits().len() + 1]?;
    let count = lines.len() as u32;
    let mut file = seeded_writer(alloc, p, mask_seed, count, file_size(p, lines))?;
    encryption.write_items(&mut file, &mut words, lines)?;
    Ok(file.finish())
}

/// The same as a value: what the file of `encrypt_values` spells.
pub fn encrypt_cipher(
    alloc: Global,
    p: &Params,
    key: &SecretKey,
    mask_seed: &[u8; 32],
    noise_seed: &[u8; 32],
    lines: &[ValueLine],
) -> Result<Cipher, AllocError>
    requires accepted { Accepts p.now }
    requires key { length key.now ≡ large_dim p.now }
    requires values { AreValues lines.now }
    requires widths { first_width p.now.message_bits lines.now ≡ None }
    ensures exact { IfOk result (λ cipher. cipher
        ≡ encrypted_values p.now key.now mask_seed.now noise_seed.now lines.now) }
    ensures fits { IfOk result IsCipher }
    ensures writable { IfOk result IsWritable }
    ensures keeps { IfOk result (λ cipher. KeepsValues p.now key.now cipher.items lines.now) }
    ensures kept { IfOk result (λ cipher. AreItemsKept p.now key.now cipher.items
        (map (line_digits p.now.message_bits) lines.now)) }
{
    let encryption = Encryption {
        p,
        key,
        mask_seed,
        noise_seed,
    };
    let items = encryption.items(alloc, lines)?;
    Ok(Cipher {
        params: *p,
        items: Items::from_vec(items),
    })
}

/// The bytes of the file of some lines, as far as a size can be counted.
fn file_size(p: &Params, lines: &[ValueLine]) -> usize
    requires { FieldsInRange p.now }
{
    let mut size = SEEDED_HEAD_SIZE;
    for line in lines {
        let blocks = line.kind.block_count(p.message_bits, line.bits) as usize;
        size = size.saturating_add(item_size(&line.name, blocks, 1));
    }
    size
}
