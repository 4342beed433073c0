//! What the tags of cells say of their weighted sum (TFHE-rs handbook, shortint: degree, noise level).
ghost use Rattle.std.specs.Prelude.{◌≡◌, pos, ◌+ℤ◌, ◌*ℤ◌, ◌+◌, ◌*◌, ◌^◌, ◌≤◌};
ghost use Rattle.std.specs.Int.RustNames.{unsigned_abs};
ghost use Rattle.rx_net.specs.Tags.{negative_part, positive_part};

use crate::term::scaled;

/// The least and the greatest number that a weighted sum of cells may give, and its noise.
#[derive(Clone, Copy, Debug, PartialEq, Eq)]
pub struct TagSums {
    /// The constant plus the sum of weight times degree over the negative weights.
    pub low: i32,
    /// The constant plus the sum of weight times degree over the positive weights.
    pub high: i32,
    /// The sum of the noise tags, each times the size of its weight.
    pub noise: u32,
}

impl TagSums {
    /// The sums of a constant alone.
    pub fn of_constant(constant: i16) -> TagSums
        ensures low { result.low ≡ constant }
        ensures high { result.high ≡ constant }
        ensures noise { result.noise ≡ 0 }
        ensures low_size { unsigned_abs result.low ≤ 2 ^ 15 }
        ensures high_size { unsigned_abs result.high ≤ 2 ^ 15 }
    {
        TagSums {
            low: i32::from(constant),
            high: i32::from(constant),
            noise: 0,
        }
    }

    /// The sums with one cell more, of this weight, degree and noise. The sums so far are at most 2^20 in size.
    pub fn with(self, weight: i8, degree: u8, noise: u8) -> TagSums
        requires low { unsigned_abs self.low ≤ 2 ^ 20 }
        requires high { unsigned_abs self.high ≤ 2 ^ 20 }
        requires noise { self.noise ≤ 2 ^ 20 }
        ensures low { result.low ≡ self.low +ℤ negative_part weight *ℤ pos degree }
        ensures high { result.high ≡ self.high +ℤ positive_part weight *ℤ pos degree }
        ensures noise { result.noise ≡ self.noise + unsigned_abs weight * noise }
        ensures low_size { unsigned_abs result.low ≤ unsigned_abs self.low + 2 ^ 15 }
        ensures high_size { unsigned_abs result.high ≤ unsigned_abs self.high + 2 ^ 15 }
        ensures noise_size { result.noise ≤ self.noise + 2 ^ 15 }
    {
        let reach = scaled(weight, degree);
        let noise = self.noise + scaled(weight, noise).unsigned_abs();
        if weight < 0 {
            TagSums {
                low: self.low + reach,
                noise,
                ..self
            }
        } else {
            TagSums {
                high: self.high + reach,
                noise,
                ..self
            }
        }
    }
}
