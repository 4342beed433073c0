//! The parts of a trip, over values: what each of its commands makes, and hands on to the next.
ghost use Rattle.std.specs.Prelude.{◌≡◌, ◌≤◌, ◌∷◌, [], IfOk, None, length, string_bytes};
ghost use Rattle.std.specs.List.{AllByRecursion};
ghost use Rattle.rx_params.specs.Acceptance.{Accepts};
ghost use Rattle.rx_lwe.specs.Secret.{small_key, large_key};
ghost use Rattle.rx_net.specs.Cells.{input_cells};
ghost use Rattle.rx_net.specs.Limits.{most_jobs};
ghost use Rattle.rx_boot.specs.ServerKeys.{IsServerKey, server_key};
ghost use Rattle.rx_meaning.specs.Bounds.{jobs_of};
ghost use Rattle.rx_circuit.specs.Values.{AreValues};
ghost use Rattle.rx_codec.specs.CipherFile.{IsItem};
ghost use Rattle.rx_client.specs.Decrypt.{first_damage, item_lines};
ghost use Rattle.rx_client.specs.Encrypt.{first_width};
ghost use Rattle.rx_seeded.specs.SeededServer.{SeededServer};
ghost use Rattle.rx_server.specs.Inputs.{first_fault, items_of};
ghost use Rattle.rx_server.specs.Laws.{AreCellBlocks};
ghost use Rattle.rx_compile.specs.Compiled.{Compiled};
ghost use Rattle.rx_tool.specs.Answers.{Yields};
ghost use Rattle.rx_tool.specs.Decrypt.{PrintsKept};
ghost use Rattle.rx_tool.specs.Encrypt.{encryption};
ghost use Rattle.rx_tool.specs.Run.{input_blocks};

use crate::outcome::Stop;
use rx_block::Block;
use rx_boot::{ServerKey, seeded_key_laws};
use rx_circuit::{Circuit, Values};
use rx_client::{DecryptError, decrypt_items, encrypt_cipher};
use rx_codec::{Cipher, Client};
use rx_compile::{CompileFault, compile};
use rx_lwe::SecretKey;
use rx_net::Net;
use rx_seeded::encode_made_server;
use rx_server::{GatherError, gather_inputs, server_laws};
use std::alloc::{AllocError, Global};

/// The server key that a client's seed and a mask seed make.
pub fn made_key(alloc: Global, keys: &Client, mask_seed: &[u8; 32]) -> Result<ServerKey, AllocError>
    requires { Accepts keys.now.params }
    ensures key { IfOk result (λ key.
        key ≡ server_key keys.now.params keys.now.seed mask_seed.now) }
    ensures near { IfOk result (λ key. IsServerKey (small_key keys.now.params keys.now.seed)
        (large_key keys.now.params keys.now.seed) key) }
{
    ServerKey::make(alloc, &keys.params, &keys.seed, mask_seed)
}

/// The seeded server file of the key that a client's seed and the mask seed make.
pub fn server_file(
    alloc: Global,
    keys: &Client,
    key: &ServerKey,
    mask_seed: &[u8; 32],
) -> Result<Vec<u8>, AllocError>
    requires accepted { Accepts keys.now.params }
    requires key { key.now ≡ server_key keys.now.params keys.now.seed mask_seed.now }
    ensures { IfOk result (λ bytes. SeededServer bytes.items mask_seed.now
        (server_key keys.now.params keys.now.seed mask_seed.now)) }
{
    seeded_key_laws();
    encode_made_server(alloc, key, mask_seed)
}

/// A net of a circuit whose lines take no more than 65,536 jobs.
pub fn compiled_net(alloc: Global, circuit: &Circuit) -> Result<Net, Stop>
    requires { jobs_of circuit.now ≤ most_jobs }
    ensures { Yields None (λ net. Compiled circuit.now net) result }
{
    match compile(alloc, circuit) {
        Ok(net) => Ok(net),
        Err(CompileFault::Jobs(_)) => unreachable!(),
        Err(CompileFault::Memory) => Err(Stop::Memory),
    }
}

/// The blocks of a net's inputs among the fresh ciphertexts of the values, which give each input as the net wants it.
pub fn input_blocks(
    alloc: Global,
    keys: &Client,
    mask_seed: &[u8; 32],
    noise_seed: &[u8; 32],
    values: &Values,
    net: &Net,
) -> Result<Vec<Block>, Stop>
    requires accepted { Accepts keys.now.params }
    requires values { AreValues values.now }
    requires widths { first_width keys.now.params.message_bits values.now ≡ None }
    requires space { net.now.space ≡ keys.now.params.message_bits }
    requires found { first_fault net.now.inputs
        (items_of (encryption keys.now mask_seed.now noise_seed.now values.now ∷ [])) ≡ None }
    ensures { Yields None (λ blocks. (blocks.items ≡ input_blocks net.now
        (encryption keys.now mask_seed.now noise_seed.now values.now ∷ []))
        × AreCellBlocks keys.now.params net.now (input_cells net.now.space net.now.inputs)
        blocks.items) result }
{
    let secret = SecretKey::large(alloc, &keys.params, &keys.seed)?;
    let cipher = encrypt_cipher(
        alloc,
        &keys.params,
        &secret,
        mask_seed,
        noise_seed,
        values.lines(),
    )?;
    server_laws();
    let ciphers = [cipher];
    match gather_inputs(alloc, net.inputs.as_slice(), &ciphers) {
        Ok(blocks) => Ok(blocks),
        Err(GatherError::Input(_)) => unreachable!(),
        Err(GatherError::Memory) => Err(Stop::Memory),
    }
}

/// The lines that a client reads of a ciphertext of its set of which no block is damaged.
pub fn decrypted_lines(alloc: Global, keys: &Client, cipher: &Cipher) -> Result<String, Stop>
    requires accepted { Accepts keys.now.params }
    requires items { AllByRecursion (IsItem keys.now.params) cipher.now.items }
    requires undamaged { first_damage keys.now.params
        (large_key keys.now.params keys.now.seed) cipher.now.items ≡ None }
    ensures { Yields None (λ lines. (string_bytes lines
        ≡ item_lines keys.now.params (large_key keys.now.params keys.now.seed) cipher.now.items)
        × PrintsKept keys.now cipher.now (string_bytes lines)) result }
{
    let secret = SecretKey::large(alloc, &keys.params, &keys.seed)?;
    match decrypt_items(alloc, &keys.params, &secret, cipher.items.as_slice()) {
        Ok(lines) => Ok(lines),
        Err(DecryptError::Damaged(_)) => unreachable!(),
        Err(DecryptError::Memory) => Err(Stop::Memory),
    }
}
