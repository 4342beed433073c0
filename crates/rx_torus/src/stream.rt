//! A stream of random torus words (docs/FORMATS.md, Random streams).
ghost use Rattle.std.specs.Prelude.{◌≡◌, ◌+◌, ◌*◌, ◌%◌, ◌^◌, ◌<◌, ◌≤◌};
ghost use Rattle.rx_torus.specs.Streams.{stream_of, draw, drawn_by, uniform};

use rand_chacha::ChaCha20Rng;
use rand_core::SeedableRng;
use rand_core::utils::NextWord;
use std::marker::Model;

const HALF: u64 = 0x1_0000_0000;

/// The torus words of a seed and a stream number, in order. Contracts see the words of the key, the number
/// and the place of the next torus word; after 2^67 of them the stream begins again.
#[derive(Drop)]
pub struct Stream {
    words: ChaCha20Rng,
}

impl Model for Stream {
    ghost use Rattle.std.specs.Prelude.{◌≡◌, ◌<◌, ◌/◌, ◌%◌, ◌^◌};
    ghost use Rattle.rx_torus.specs.Streams.{Draws};

    ghost Value = { Draws };

    ghost view = { λ s. record {
      key = s.words.key;
      number = s.words.stream;
      next = s.words.word_pos / 2;
    } };

    ghost invariant = { λ s. (s.words.word_pos % 2 ≡ 0) × (s.words.word_pos < 2 ^ 68) };
}

impl Stream {
    /// The stream of this number under a seed of 32 bytes, from its first word.
    pub fn new(seed: &[u8; 32], number: u64) -> Stream
        ensures { result ≡ stream_of seed.now number }
    {
        let mut words = ChaCha20Rng::from_seed(*seed);
        words.set_stream(number);
        Stream { words }
    }

    /// The next torus word: the next two 32-bit words of ChaCha20, the low half first.
    #[tactic(auto, unfolding(crate::specs::Streams::torus_at))]
    pub fn next_torus(&mut self) -> u64
        ensures word { result ≡ draw self.old 0 }
        ensures after { self.new ≡ drawn_by 1 self.old }
    {
        let low = self.words.next_word();
        let high = self.words.next_word();
        u64::from(low) + HALF * u64::from(high)
    }

    /// The lowest bit of the next torus word, 0 or 1.
    pub fn next_bit(&mut self) -> u64
        ensures bit { result ≡ draw self.old 0 % 2 }
        ensures after { self.new ≡ drawn_by 1 self.old }
    {
        self.next_torus() % 2
    }

    /// A number from `-2^b` to `2^b` by the next torus word, the two ends with half the weight of the
    /// others (TFHE-rs handbook, TUniform), for b of at most 40.
    #[tactic(auto, unfolding(crate::specs::Streams::uniform))]
    pub fn tuniform(&mut self, b: u32) -> i64
        requires { b ≤ 40 }
        ensures number { result ≡ uniform b (draw self.old 0) }
        ensures after { self.new ≡ drawn_by 1 self.old }
    {
        let word = self.next_torus();
        let half = (word % two_to(b + 2)).div_ceil(2);
        half as i64 - two_to(b) as i64
    }
}

fn two_to(b: u32) -> u64
    requires { b ≤ 42 }
    ensures value { result ≡ 2 ^ b }
    ensures bound { result ≤ 2 ^ 42 }
    ensures positive { 0 < result }
{
    1 << b
}
