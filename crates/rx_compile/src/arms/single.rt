//! Lines of one number that give a number of its kind.
ghost use Rattle.std.specs.Prelude.{◌≡◌, [], OnOk};
ghost use Rattle.rx_net.specs.Growth.{Extends};
ghost use Rattle.rx_plan.specs.Planned.{HasRoom};
ghost use Rattle.rx_language.specs.Words.{form};
ghost use Rattle.rx_language.specs.declared.form.Rule.TheVariants.{OneNumber};
ghost use Rattle.rx_meaning.specs.Costs.{cost_by};
ghost use Rattle.rx_compile.specs.Realized.{RealizesOne};
ghost use Rattle.rx_compile.specs.Arms.{IsNumber};

use crate::kinds::is_signed;
use rx_bits::{sar, shl, shr};
use rx_carry::neg;
use rx_language::{NameKind, Word};
use rx_net::NetPen;
use std::alloc::AllocError;

/// Appends the blocks of a number that is made of one of its kind, and of an amount to shift it by.
pub(crate) fn append_single(
    pen: &mut NetPen,
    word: Word,
    amount: u32,
    kind: NameKind,
    a: &[u32],
    out: &mut Vec<u32>,
) -> Result<(), AllocError>
    requires word { (form word).rule ≡ OneNumber }
    requires first { IsNumber pen.old kind a.now }
    requires empty { out.old.items ≡ [] }
    requires room { HasRoom pen.old (cost_by word pen.old.space kind kind).jobs }
    ensures kept { Extends pen.old pen.new }
    ensures realized { OnOk result (RealizesOne word amount pen.old pen.new kind out.new.items
        kind a.now) }
{
    let _space = pen.space();
    let signed = is_signed(kind);
    match word {
        Word::Neg => neg(pen, a, out),
        Word::Shl => shl(pen, a, amount, out),
        Word::Shr => if signed {
            sar(pen, a, amount, out)
        } else {
            shr(pen, a, amount, out)
        },
        _ => unreachable!(),
    }
}
