//! Lines of a number and an amount to shift it by.
ghost use Rattle.std.specs.Prelude.{◌≡◌, [], OnOk};
ghost use Rattle.rx_net.specs.Growth.{Extends};
ghost use Rattle.rx_plan.specs.Planned.{HasRoom};
ghost use Rattle.rx_language.specs.Words.{form};
ghost use Rattle.rx_language.specs.Kinds.{bits_of};
ghost use Rattle.rx_language.specs.declared.form.Rule.TheVariants.{NumberAndAmount};
ghost use Rattle.rx_language.specs.declared.kind.NameKind.TheVariants.{Int};
ghost use Rattle.rx_meaning.specs.Costs.{cost_by};
ghost use Rattle.rx_compile.specs.Realized.{RealizesTwo};
ghost use Rattle.rx_compile.specs.Arms.{IsNumber};

use crate::kinds::is_signed;
use rx_language::{NameKind, Word};
use rx_net::NetPen;
use rx_shift::{sarv, shlv, shrv};
use std::alloc::AllocError;

/// Appends the blocks of a number that is shifted by the value of another.
pub(crate) fn append_shifted(
    pen: &mut NetPen,
    word: Word,
    kind: NameKind,
    a: &[u32],
    b: &[u32],
    out: &mut Vec<u32>,
) -> Result<(), AllocError>
    requires word { (form word).rule ≡ NumberAndAmount }
    requires first { IsNumber pen.old kind a.now }
    requires second { IsNumber pen.old (Int (bits_of kind)) b.now }
    requires empty { out.old.items ≡ [] }
    requires room { HasRoom pen.old (cost_by word pen.old.space kind kind).jobs }
    ensures kept { Extends pen.old pen.new }
    ensures realized { OnOk result (RealizesTwo word pen.old pen.new kind out.new.items
        kind a.now (Int (bits_of kind)) b.now) }
{
    let _space = pen.space();
    let signed = is_signed(kind);
    match word {
        Word::Shlv => shlv(pen, a, b, out),
        Word::Shrv => if signed {
            sarv(pen, a, b, out)
        } else {
            shrv(pen, a, b, out)
        },
        _ => unreachable!(),
    }
}
