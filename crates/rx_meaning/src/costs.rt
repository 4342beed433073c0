//! The cost table, word by word.
ghost use Rattle.std.specs.Prelude.{◌≡◌, ◌≤◌, ◌^◌, ◌⊎◌, IsTrue};
ghost use Rattle.rx_meaning.specs.Kinds.{is_kind};
ghost use Rattle.rx_meaning.specs.Costs.{amount_bits, amount_shift_right, blocks_of, cost_by};

use rx_costs::{Cost, log_up};
use rx_language::{NameKind, Word};

/// The cost of a line of the word that gives this kind, where its first argument has the kind `first`.
#[tactic(auto, unfolding(crate::specs::Costs::cost_by))]
pub(crate) fn cost_by(word: Word, space: u32, kind: NameKind, first: NameKind) -> Cost
    requires space { (space ≡ 2) ⊎ (space ≡ 3) }
    requires kind { IsTrue (is_kind space kind) }
    requires first { IsTrue (is_kind space first) }
    ensures value { result ≡ cost_by word space kind first }
    ensures few { result.jobs ≤ 2 ^ 34 }
    ensures shallow { result.depth ≤ 2 ^ 13 }
{
    let blocks = blocks_of(space, kind);
    let compared = blocks_of(space, first);
    match word {
        Word::In | Word::Inw | Word::Ins | Word::Inbit | Word::Out => Cost::none(),
        Word::Const | Word::Constw => Cost::constant(blocks),
        Word::Add | Word::Sub | Word::Neg => Cost::add(blocks),
        Word::Mul => Cost::mul(space, blocks),
        Word::Div | Word::Rem => Cost::div(space, blocks),
        Word::And | Word::Or | Word::Xor | Word::Not => Cost::bitwise(blocks),
        Word::Shl | Word::Shr => Cost::shift(blocks),
        Word::Shlv => Cost::amount_shift(amount_bits(kind), blocks),
        Word::Shrv => amount_shift_right(space, kind),
        Word::Eq | Word::Ne => Cost::equal(space, compared),
        Word::Lt | Word::Le | Word::Gt | Word::Ge => Cost::compare(compared),
        Word::Select => Cost::select(blocks),
        Word::Min | Word::Max => Cost::extreme(blocks),
        Word::Cast | Word::Casts => Cost::cast(compared, blocks),
    }
}

/// How many blocks a value of the kind has.
fn blocks_of(space: u32, kind: NameKind) -> u32
    requires space { (space ≡ 2) ⊎ (space ≡ 3) }
    requires kind { IsTrue (is_kind space kind) }
    ensures value { result ≡ blocks_of space kind }
    ensures some { 1 ≤ result }
    ensures few { result ≤ 64 }
{
    match kind {
        NameKind::Int(width) | NameKind::Sint(width) => width / space,
        NameKind::Bit => 1,
    }
}

/// How many low bits of an amount to shift by are looked at one by one.
fn amount_bits(kind: NameKind) -> u32
    ensures value { result ≡ amount_bits kind }
    ensures few { result ≤ 32 }
{
    log_up(2, kind.bits())
}

/// A shift to the right by an encrypted amount; a signed number shifts in copies of its sign.
fn amount_shift_right(space: u32, kind: NameKind) -> Cost
    requires space { (space ≡ 2) ⊎ (space ≡ 3) }
    requires kind { IsTrue (is_kind space kind) }
    ensures value { result ≡ amount_shift_right space kind }
    ensures few { result.jobs ≤ 2 ^ 14 }
    ensures shallow { result.depth ≤ 2 ^ 7 }
{
    let blocks = blocks_of(space, kind);
    let low_bits = amount_bits(kind);
    match kind {
        NameKind::Sint(_) => Cost::signed_shift(low_bits, blocks),
        NameKind::Int(_) | NameKind::Bit => Cost::amount_shift(low_bits, blocks),
    }
}
