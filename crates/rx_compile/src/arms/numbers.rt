//! Lines of two numbers of one kind that give a number of the kind.
ghost use Rattle.std.specs.Prelude.{◌≡◌, [], OnOk};
ghost use Rattle.rx_net.specs.Growth.{Extends};
ghost use Rattle.rx_plan.specs.Planned.{HasRoom};
ghost use Rattle.rx_language.specs.Words.{form};
ghost use Rattle.rx_language.specs.declared.form.Rule.TheVariants.{TwoNumbers};
ghost use Rattle.rx_meaning.specs.Costs.{cost_by};
ghost use Rattle.rx_compile.specs.Realized.{RealizesTwo};
ghost use Rattle.rx_compile.specs.Arms.{IsNumber};

use crate::kinds::is_signed;
use rx_carry::{add, sub};
use rx_cmp::{max, min, smax, smin};
use rx_language::{NameKind, Word};
use rx_mul::mul;
use rx_net::NetPen;
use std::alloc::AllocError;

/// Appends the blocks of a number that is made of two numbers of its kind.
pub(crate) fn append_number(
    pen: &mut NetPen,
    word: Word,
    kind: NameKind,
    a: &[u32],
    b: &[u32],
    out: &mut Vec<u32>,
) -> Result<(), AllocError>
    requires word { (form word).rule ≡ TwoNumbers }
    requires first { IsNumber pen.old kind a.now }
    requires second { IsNumber pen.old kind b.now }
    requires empty { out.old.items ≡ [] }
    requires room { HasRoom pen.old (cost_by word pen.old.space kind kind).jobs }
    ensures kept { Extends pen.old pen.new }
    ensures realized { OnOk result (RealizesTwo word pen.old pen.new kind out.new.items
        kind a.now kind b.now) }
{
    let _space = pen.space();
    let signed = is_signed(kind);
    match word {
        Word::Add => add(pen, a, b, out),
        Word::Sub => sub(pen, a, b, out),
        Word::Mul => mul(pen, a, b, out),
        Word::Min => if signed {
            smin(pen, a, b, out)
        } else {
            min(pen, a, b, out)
        },
        Word::Max => if signed {
            smax(pen, a, b, out)
        } else {
            max(pen, a, b, out)
        },
        _ => unreachable!(),
    }
}
