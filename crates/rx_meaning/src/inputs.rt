//! Whether numbers may be the inputs of a circuit.
ghost use Rattle.std.specs.Prelude.{◌≡◌, ◌↔◌, ℕ, ◌^◌, IsTrue, length, nat_lt, Some};
ghost use Rattle.rx_language.specs.Kinds.{bits_of};
ghost use Rattle.rx_language.specs.Programs.{inputs_of, kind_at};
ghost use Rattle.rx_meaning.specs.Operations.{HasBits};
ghost use Rattle.rx_meaning.specs.Inputs.{taken_after, is_taken_from};
ghost use Rattle.rx_meaning.specs.Values.{AreWithin};

use rx_language::{Circuit, Line, NameKind, Step};

/// Whether there is a number for each input of a circuit, in order, below two to the bits of its kind.
pub fn takes(circuit: &Circuit, inputs: &[u64]) -> bool
    ensures { IsTrue result ↔ AreWithin (inputs_of circuit.now) inputs.now }
{
    are_taken(circuit.lines(), circuit.steps(), inputs)
}

fn are_taken(lines: &[Line], steps: &[Step], inputs: &[u64]) -> bool
    requires same { length steps.now ≡ length lines.now }
    requires kinds { (i : ℕ) → HasBits (kind_at steps.now i) }
    ensures { result ≡ is_taken_from inputs.now (Some 0) lines.now steps.now }
{
    let mut next = Some(0);
    for (place, line) in lines.iter().enumerate() {
        next = taken_after(inputs, next, line, steps[place].kind);
    }
    next == Some(inputs.len())
}

/// The number of the next input after a line; none where this line, or one before it, has no input within its kind.
fn taken_after(inputs: &[u64], next: Option<usize>, line: &Line, kind: NameKind) -> Option<usize>
    requires { HasBits kind }
    ensures { result ≡ taken_after inputs.now next line.now kind }
{
    let next = next?;
    if !line.word.is_input() {
        return Some(next);
    }
    let input = inputs.get(next)?;
    if is_below(*input, kind) {
        Some(next + 1)
    } else {
        None
    }
}

/// Whether a number is below two to the bits of a kind.
fn is_below(number: u64, kind: NameKind) -> bool
    requires { HasBits kind }
    ensures { result ≡ nat_lt number (2 ^ bits_of kind) }
{
    number <= u64::MAX >> (64 - kind.bits())
}
