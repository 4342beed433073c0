//! The draws of a sample.
ghost use Rattle.std.specs.Prelude.{◌≡◌, ◌<◌, ◌%◌};
ghost use Rattle.rx_sample.specs.Draws.{next, drawn_of};

use std::marker::Model;

/// The state of the recurrence. In clauses it is its number.
#[derive(Drop)]
pub struct Draws {
    state: u64,
}

impl Model for Draws {
    ghost use Rattle.std.specs.Prelude.{ℕ};

    ghost Value = { ℕ };

    ghost view = { λ d. d.state };
}

impl Draws {
    /// The state before the first draw.
    pub fn from(number: u64) -> Draws
        ensures { result ≡ number }
    {
        Draws { state: number }
    }

    /// The next draw, below the modulus.
    pub fn draw(&mut self, modulus: u64) -> u64
        requires { 0 < modulus }
        ensures state { self.new ≡ next self.old }
        ensures value { result ≡ drawn_of (next self.old) modulus }
        ensures below { result < modulus }
    {
        self.state = self
            .state
            .wrapping_mul(6364136223846793005)
            .wrapping_add(1442695040888963407);
        (self.state >> 33) % modulus
    }
}
