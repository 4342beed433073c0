//! Numbers modulo two to a width, the numbers with a sign that they stand for in two's complement, and their
//! quotients.
#![tactic(auto)]

ghost use Rattle.std.specs.Prelude.{◌≡◌, ◌≤◌, ◌<◌, ◌^◌, ◌-◌, pos, negsuc, ◌≤ℤ◌, ◌<ℤ◌};
ghost use Rattle.rx_residue.specs.Residues.{residue, signed};
ghost use Rattle.rx_residue.specs.Laws.{DivisionLaws, ResidueLaws, SignedLaws};

#[cfg(test)]
mod tests;

/// A residue is below two to the width, and stays the same where the number changes by two to the width.
pub fn residue_laws()
    ensures { ResidueLaws }
{}

/// A residue stands for one number with a sign, from minus half of two to the width to below half.
pub fn signed_laws()
    ensures { SignedLaws }
{}

/// A number is its quotient by another number times this one, and the remainder, which is less than
/// it.
pub fn division_laws()
    ensures { DivisionLaws }
{}

/// The residue of a number modulo two to the width, which is at most 64.
pub fn residue(width: u32, number: i128) -> u64
    requires { width ≤ 64 }
    ensures value { result ≡ residue width number }
    ensures below { result < 2 ^ width }
{
    number.rem_euclid(1 << width) as u64
}

/// The number with a sign that a residue of 1 to 64 bits stands for.
pub fn signed(width: u32, number: u64) -> i128
    requires some { 1 ≤ width }
    requires few { width ≤ 64 }
    requires below { number < 2 ^ width }
    ensures value { result ≡ signed width number }
    ensures low { negsuc (2 ^ 63 - 1) ≤ℤ result }
    ensures high { result <ℤ pos (2 ^ 63) }
{
    if number < 1 << (width - 1) {
        i128::from(number)
    } else {
        i128::from(number) - (1 << width)
    }
}
