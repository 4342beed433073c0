//! Fresh ciphertexts over words (CJP, LWE), drawn as docs/FORMATS.md says, Random streams.
ghost use Rattle.std.specs.Prelude.{◌≡◌, ◌+◌, ◌≤◌, length};
ghost use Rattle.rx_torus.specs.Streams.{drawn_by};
ghost use Rattle.rx_lwe.specs.Lwe.{encrypted};

use crate::SecretKey;
use rx_torus::Stream;

/// Writes the words that hide a message, any word, under a key into `out`: one mask word for each bit of the
/// key, the next ones of `mask`, and then the body. The noise is the next number of `noise`; it lies from
/// `-2^bound` to `2^bound`, with a bound of at most 40.
pub fn encrypt_into(
    key: &SecretKey,
    mask: &mut Stream,
    noise: &mut Stream,
    bound: u32,
    message: u64,
    out: &mut [u64],
)
    requires bound { bound ≤ 40 }
    requires room { length out.old ≡ length key.now + 1 }
    ensures words { out.new ≡ encrypted key.now mask.old noise.old bound message }
    ensures mask_after { mask.new ≡ drawn_by (length key.now) mask.old }
    ensures noise_after { noise.new ≡ drawn_by 1 noise.old }
{
    let bits = key.bits();
    let mut body = message.wrapping_add_signed(noise.tuniform(bound));
    for (i, bit) in bits.iter().enumerate() {
        let word = mask.next_torus();
        out[i] = word;
        body = body.wrapping_add(bit * word);
    }
    out[bits.len()] = body;
}
