//! Lines of two arguments of one kind, bit by bit.
ghost use Rattle.std.specs.Prelude.{◌≡◌, [], OnOk};
ghost use Rattle.rx_net.specs.Growth.{Extends};
ghost use Rattle.rx_plan.specs.Planned.{HasRoom};
ghost use Rattle.rx_language.specs.Words.{form};
ghost use Rattle.rx_language.specs.declared.form.Rule.TheVariants.{TwoAlike};
ghost use Rattle.rx_meaning.specs.Costs.{cost_by};
ghost use Rattle.rx_compile.specs.Realized.{RealizesTwo};
ghost use Rattle.rx_compile.specs.Arms.{IsArgument};

use crate::kinds::file_kind;
use rx_bits::{and, or, xor};
use rx_language::{NameKind, Word};
use rx_net::NetPen;
use std::alloc::AllocError;

/// Appends the cells of a value that is made bit by bit of two of its kind.
pub(crate) fn append_bits(
    pen: &mut NetPen,
    word: Word,
    kind: NameKind,
    a: &[u32],
    b: &[u32],
    out: &mut Vec<u32>,
) -> Result<(), AllocError>
    requires word { (form word).rule ≡ TwoAlike }
    requires first { IsArgument pen.old kind a.now }
    requires second { IsArgument pen.old kind b.now }
    requires empty { out.old.items ≡ [] }
    requires room { HasRoom pen.old (cost_by word pen.old.space kind kind).jobs }
    ensures kept { Extends pen.old pen.new }
    ensures realized { OnOk result (RealizesTwo word pen.old pen.new kind out.new.items
        kind a.now kind b.now) }
{
    let _space = pen.space();
    let in_net = file_kind(kind);
    match word {
        Word::And => and(pen, a, b, in_net, out),
        Word::Or => or(pen, a, b, in_net, out),
        Word::Xor => xor(pen, a, b, in_net, out),
        _ => unreachable!(),
    }
}
