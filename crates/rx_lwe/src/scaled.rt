//! Sums of words with a weight.
ghost use Rattle.std.specs.Prelude.{◌≡◌, ◌+ℤ◌, ◌*ℤ◌, length};
ghost use Rattle.rx_laws.specs.Words.{of_words, AreWords};

/// Adds a weight times each of some words to the word of `acc` at its place, modulo 2^64. `acc` has as many
/// words.
pub fn add_scaled(acc: &mut [u64], weight: i64, words: &[u64])
    requires { length words.now ≡ length acc.old }
    ensures { AreWords (length acc.old) (λ i. of_words acc.old i +ℤ weight *ℤ of_words words.now i)
        acc.new }
{
    let factor = weight.cast_unsigned();
    for i in 0..acc.len() {
        acc[i] = acc[i].wrapping_add(factor.wrapping_mul(words[i]));
    }
}
