//! What the blind rotation of a bootstrap goes by.
ghost use Rattle.std.specs.Prelude.{◌≡◌, ◌≤◌};
ghost use Rattle.rx_params.specs.Derived.{turn_count, encrypted_count, noise_count};
ghost use Rattle.rx_params.specs.Acceptance.{whole_turns};

use crate::Params;

/// What the blind rotation of a bootstrap goes by (docs/NOISE.md, The proof).
#[derive(Clone, Copy, Debug, PartialEq, Eq)]
pub enum Rotation {
    /// One bit of the small key in each turn.
    Bits,
    /// Two bits of the small key in each turn.
    Pairs,
}

impl Rotation {
    ghost use Rattle.std.specs.Prelude.{◌≡◌, ◌≤◌};
    ghost use Rattle.rx_params.specs.Derived.{turn_count, encrypted_count, noise_count};
    ghost use Rattle.rx_params.specs.Acceptance.{whole_turns};

    /// Whether so many bits of a small key are whole turns.
    pub fn whole_turns(self, bits: u32) -> bool
        ensures { result ≡ whole_turns self bits }
    {
        match self {
            Rotation::Bits => true,
            Rotation::Pairs => bits.is_multiple_of(2),
        }
    }

    /// How many turns a bootstrap of the set takes.
    pub fn turn_count(self, p: &Params) -> u32
        ensures value { result ≡ turn_count self p.now }
        ensures few { result ≤ p.now.lwe_dim }
    {
        match self {
            Rotation::Bits => p.lwe_dim,
            Rotation::Pairs => p.lwe_dim / 2,
        }
    }

    /// How many bits a key of the set encrypts for its turns: each bit of the small key, or three products of
    /// the two bits of each pair.
    pub fn encrypted_count(self, p: &Params) -> u32
        requires { p.now.lwe_dim ≤ 1024 }
        ensures value { result ≡ encrypted_count self p.now }
        ensures few { result ≤ 1536 }
    {
        match self {
            Rotation::Bits => p.lwe_dim,
            Rotation::Pairs => 3 * (p.lwe_dim / 2),
        }
    }

    /// How often the noise of a row counts in what a turn multiplies by.
    pub fn noise_count(self) -> u32
        ensures value { result ≡ noise_count self }
        ensures few { result ≤ 6 }
    {
        match self {
            Rotation::Bits => 1,
            Rotation::Pairs => 6,
        }
    }
}
