//! Phases of ciphertexts over words (CJP, LWE), and what they decode to, as in the TFHE-rs handbook, shortint,
//! which calls the unit delta.
ghost use Rattle.std.specs.Prelude.{◌≡◌, ◌⊎◌, ◌+◌, ◌*◌, ◌<◌, length};
ghost use Rattle.rx_laws.specs.Decode.{plaintexts, unit as unit_of, decoded};
ghost use Rattle.rx_lwe.specs.Lwe.{phase_of};

use crate::SecretKey;

/// The phase of the words of a ciphertext, a mask word for each bit of the key and then the body: the body
/// less the mask times the key, modulo 2^64.
pub fn phase(key: &SecretKey, words: &[u64]) -> u64
    requires { length words.now ≡ length key.now + 1 }
    ensures { result ≡ phase_of key.now words.now }
{
    let bits = key.bits();
    let mut phase = words[bits.len()];
    for (i, bit) in bits.iter().enumerate() {
        phase = phase.wrapping_sub(bit * words[i]);
    }
    phase
}

/// The phase of 1: half of the torus is cut into `4^message_bits` of them. There are 2 or 3 message bits.
pub fn unit(message_bits: u32) -> u64
    requires { (message_bits ≡ 2) ⊎ (message_bits ≡ 3) }
    ensures { result ≡ unit_of message_bits }
{
    1 << (63 - 2 * message_bits)
}

/// The number whose phase is nearest, a tie going up, from 0 to twice `4^message_bits`, exclusive. There
/// are 2 or 3 message bits.
pub fn decode(phase: u64, message_bits: u32) -> u32
    requires { (message_bits ≡ 2) ⊎ (message_bits ≡ 3) }
    ensures value { result ≡ decoded message_bits phase }
    ensures bound { result < 2 * plaintexts message_bits }
{
    let unit = unit(message_bits);
    (phase.wrapping_add(unit / 2) / unit) as u32
}
