//! The operations on whole numbers, word by word.
ghost use Rattle.std.specs.Prelude.{◌≡◌, ◌≤◌, ◌^◌, ◌-◌, ◌*◌, ◌==◌, if◌then◌else◌, ◌*ℤ◌, pos, negsuc, ◌≤ℤ◌, ◌<ℤ◌};
ghost use Rattle.std.specs.Int.{int_div_euclid};
ghost use Rattle.rx_residue.specs.Residues.{residue};
ghost use Rattle.rx_residue.specs.Division.{quotient, remainder};
ghost use Rattle.rx_language.specs.Kinds.{bits_of};
ghost use Rattle.rx_meaning.specs.Operations.{number_of, truth, given_by, HasBits, IsHeld};

use crate::operand::Operand;
use rx_language::{NameKind, Word};
use rx_residue::{residue, signed};

/// What a line of the word gives, modulo two to a width of at most 64. An input and a constant are given; a shift
/// is by the given amount or by an argument.
#[tactic(auto, unfolding(crate::specs::Operations::given_by))]
pub(crate) fn operate(word: Word, given: u64, width: u32, a: Operand, b: Operand, c: Operand) -> u64
    requires few { width ≤ 64 }
    requires first { IsHeld a }
    requires second { IsHeld b }
    ensures { result ≡ residue width (given_by word given a b c) }
{
    match word {
        Word::In | Word::Inw | Word::Ins | Word::Inbit | Word::Const | Word::Constw => reduced(
            width,
            u128::from(given),
        ),
        Word::Add => residue(width, i128::from(a.value) + i128::from(b.value)),
        Word::Sub => residue(width, i128::from(a.value) - i128::from(b.value)),
        Word::Mul => product(width, a.value, b.value),
        Word::Div => reduced(width, u128::from(quotient(a, b))),
        Word::Rem => reduced(width, u128::from(remainder(a.value, b.value))),
        Word::Neg => residue(width, -i128::from(a.value)),
        Word::And => reduced(width, u128::from(a.value & b.value)),
        Word::Or => reduced(width, u128::from(a.value | b.value)),
        Word::Xor => reduced(width, u128::from(a.value ^ b.value)),
        Word::Not => reduced(width, u128::from(complement(a))),
        Word::Shl => shifted_left(width, a.value, given),
        Word::Shr => residue(width, floored(number(a), given)),
        Word::Shlv => shifted_left(width, a.value, b.value),
        Word::Shrv => residue(width, floored(number(a), b.value)),
        Word::Eq => truth(width, number(a) == number(b)),
        Word::Ne => truth(width, number(a) != number(b)),
        Word::Lt => truth(width, number(a) < number(b)),
        Word::Le => truth(width, number(a) <= number(b)),
        Word::Gt => truth(width, number(b) < number(a)),
        Word::Ge => truth(width, number(b) <= number(a)),
        Word::Select => reduced(width, u128::from(chosen(a.value, b.value, c.value))),
        Word::Min => residue(width, number(a).min(number(b))),
        Word::Max => residue(width, number(a).max(number(b))),
        Word::Cast | Word::Casts => residue(width, number(a)),
        Word::Out => reduced(width, u128::from(a.value)),
    }
}

/// The number that a value stands for.
fn number(a: Operand) -> i128
    requires { IsHeld a }
    ensures value { result ≡ number_of a }
    ensures low { negsuc (2 ^ 63 - 1) ≤ℤ result }
    ensures high { result <ℤ pos (2 ^ 64) }
{
    match a.kind {
        NameKind::Sint(width) => signed(width, a.value),
        NameKind::Int(_) | NameKind::Bit => i128::from(a.value),
    }
}

/// The second where the first is 1, else the third.
fn chosen(bit: u64, a: u64, b: u64) -> u64
    ensures { result ≡ (if bit == 1 then a else b) }
{
    if bit == 1 { a } else { b }
}

/// A number modulo two to the width.
fn reduced(width: u32, number: u128) -> u64
    requires { width ≤ 64 }
    ensures { result ≡ residue width (pos number) }
{
    (number % (1 << width)) as u64
}

/// The product modulo two to the width.
fn product(width: u32, a: u64, b: u64) -> u64
    requires { width ≤ 64 }
    ensures { result ≡ residue width (pos a *ℤ pos b) }
{
    reduced(width, u128::from(a) * u128::from(b))
}

/// How often the second goes into the first; where it is 0, all bits of the kind of the first are 1.
#[tactic(auto, unfolding(rx_residue::specs::Division::quotient))]
fn quotient(a: Operand, b: Operand) -> u64
    requires { IsHeld a }
    ensures { result ≡ quotient (bits_of a.kind) a.value b.value }
{
    if b.value == 0 {
        all_ones(a.kind)
    } else {
        a.value / b.value
    }
}

/// What the first leaves by the second; the first where that is 0.
#[tactic(auto, unfolding(rx_residue::specs::Division::remainder))]
fn remainder(a: u64, b: u64) -> u64
    ensures { result ≡ remainder a b }
{
    if b == 0 { a } else { a % b }
}

/// All bits turned, as many as the kind has.
fn complement(a: Operand) -> u64
    requires { IsHeld a }
    ensures { result ≡ 2 ^ bits_of a.kind - 1 - a.value }
{
    all_ones(a.kind) - a.value
}

/// The value of which each bit is 1, as many as the kind has.
fn all_ones(kind: NameKind) -> u64
    requires { HasBits kind }
    ensures { result ≡ 2 ^ bits_of kind - 1 }
{
    u64::MAX >> (64 - kind.bits())
}

/// The number times two to the amount, modulo two to the width.
fn shifted_left(width: u32, number: u64, amount: u64) -> u64
    requires { width ≤ 64 }
    ensures { result ≡ residue width (pos (number * 2 ^ amount)) }
{
    if amount >= 64 {
        return 0;
    }
    reduced(width, u128::from(number) << amount)
}

/// The number by two to the amount, rounded down.
fn floored(number: i128, amount: u64) -> i128
    requires low { negsuc (2 ^ 64 - 1) ≤ℤ number }
    requires high { number <ℤ pos (2 ^ 64) }
    ensures { result ≡ int_div_euclid number (pos (2 ^ amount)) }
{
    number >> amount.min(64)
}

/// 1 where it holds, else 0.
fn truth(width: u32, holds: bool) -> u64
    requires { width ≤ 64 }
    ensures { result ≡ residue width (truth holds) }
{
    reduced(width, u128::from(holds))
}
