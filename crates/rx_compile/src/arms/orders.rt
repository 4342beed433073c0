//! Lines that compare two numbers of one kind.
ghost use Rattle.std.specs.Prelude.{◌≡◌, [], OnOk};
ghost use Rattle.rx_net.specs.Growth.{Extends};
ghost use Rattle.rx_plan.specs.Planned.{HasRoom};
ghost use Rattle.rx_language.specs.Words.{form};
ghost use Rattle.rx_language.specs.declared.form.Rule.TheVariants.{Compared};
ghost use Rattle.rx_language.specs.declared.kind.NameKind.TheVariants.{Bit};
ghost use Rattle.rx_meaning.specs.Costs.{cost_by};
ghost use Rattle.rx_compile.specs.Realized.{RealizesTwo};
ghost use Rattle.rx_compile.specs.Arms.{IsNumber};

use crate::kinds::is_signed;
use rx_cmp::{eq, ge, gt, le, lt, ne, sge, sgt, sle, slt};
use rx_language::{NameKind, Word};
use rx_net::NetPen;
use std::alloc::AllocError;

/// Appends a bit that says how two numbers of this kind compare.
pub(crate) fn append_order(
    pen: &mut NetPen,
    word: Word,
    kind: NameKind,
    a: &[u32],
    b: &[u32],
    out: &mut Vec<u32>,
) -> Result<(), AllocError>
    requires word { (form word).rule ≡ Compared }
    requires first { IsNumber pen.old kind a.now }
    requires second { IsNumber pen.old kind b.now }
    requires empty { out.old.items ≡ [] }
    requires room { HasRoom pen.old (cost_by word pen.old.space Bit kind).jobs }
    ensures kept { Extends pen.old pen.new }
    ensures realized { OnOk result (RealizesTwo word pen.old pen.new Bit out.new.items
        kind a.now kind b.now) }
{
    let _space = pen.space();
    let signed = is_signed(kind);
    match word {
        Word::Eq => eq(pen, a, b, out),
        Word::Ne => ne(pen, a, b, out),
        Word::Lt => if signed {
            slt(pen, a, b, out)
        } else {
            lt(pen, a, b, out)
        },
        Word::Le => if signed {
            sle(pen, a, b, out)
        } else {
            le(pen, a, b, out)
        },
        Word::Gt => if signed {
            sgt(pen, a, b, out)
        } else {
            gt(pen, a, b, out)
        },
        Word::Ge => if signed {
            sge(pen, a, b, out)
        } else {
            ge(pen, a, b, out)
        },
        _ => unreachable!(),
    }
}
