//! Lines of two numbers without a sign, of which the second divides the first.
ghost use Rattle.std.specs.Prelude.{◌≡◌, ◌≤◌, ◌*◌, [], OnOk, length};
ghost use Rattle.rx_residue.specs.Division.{quotient, remainder};
ghost use Rattle.rx_costs.specs.Table.{div_jobs, div_depth};
ghost use Rattle.rx_net.specs.Growth.{Extends};
ghost use Rattle.rx_plan.specs.Values.{number_held};
ghost use Rattle.rx_plan.specs.Planned.{AreBlocks, EachOf, HasRoom};
ghost use Rattle.rx_plan.specs.Results.{GivesNumber};
ghost use Rattle.rx_language.specs.Words.{form};
ghost use Rattle.rx_language.specs.declared.form.Rule.TheVariants.{TwoInts};
ghost use Rattle.rx_meaning.specs.Costs.{cost_by};
ghost use Rattle.rx_compile.specs.Realized.{RealizesTwo};
ghost use Rattle.rx_compile.specs.Arms.{IsNumber};

use super::Argument;
use rx_div::div_rem;
use rx_language::Word;
use rx_net::NetPen;
use std::alloc::AllocError;

/// Appends the blocks of a number that is made by dividing a number by another of its kind.
pub(crate) fn append_division(
    pen: &mut NetPen,
    word: Word,
    a: &Argument,
    b: &[u32],
    out: &mut Vec<u32>,
) -> Result<(), AllocError>
    requires word { (form word).rule ≡ TwoInts }
    requires first { IsNumber pen.old a.now.kind a.now.cells.now }
    requires second { IsNumber pen.old a.now.kind b.now }
    requires empty { out.old.items ≡ [] }
    requires room { HasRoom pen.old (cost_by word pen.old.space a.now.kind a.now.kind).jobs }
    ensures kept { Extends pen.old pen.new }
    ensures realized { OnOk result (RealizesTwo word pen.old pen.new a.now.kind out.new.items
        a.now.kind a.now.cells.now a.now.kind b.now) }
{
    let _space = pen.space();
    match word {
        Word::Div => append_quotient(pen, a.cells, b, out),
        Word::Rem => append_remainder(pen, a.cells, b, out),
        _ => unreachable!(),
    }
}

/// Appends how often the second goes into the first.
fn append_quotient(
    pen: &mut NetPen,
    a: &[u32],
    b: &[u32],
    out: &mut Vec<u32>,
) -> Result<(), AllocError>
    requires some { 1 ≤ length a.now }
    requires same { length b.now ≡ length a.now }
    requires first { AreBlocks pen.old a.now }
    requires second { AreBlocks pen.old b.now }
    requires room { HasRoom pen.old (div_jobs pen.old.space (length a.now)) }
    ensures kept { Extends pen.old pen.new }
    ensures gives { OnOk result (GivesNumber pen.old pen.new out.old.items out.new.items
        (length a.now) (div_jobs pen.old.space (length a.now))
        (div_depth pen.old.space (length a.now)) (EachOf a.now b.now)
        (λ inputs. quotient (pen.old.space * length a.now)
        (number_held pen.old a.now inputs) (number_held pen.old b.now inputs))) }
{
    let mut rest = Vec::new(pen.allocator());
    div_rem(pen, a, b, out, &mut rest)
}

/// Appends what the first leaves by the second.
fn append_remainder(
    pen: &mut NetPen,
    a: &[u32],
    b: &[u32],
    out: &mut Vec<u32>,
) -> Result<(), AllocError>
    requires some { 1 ≤ length a.now }
    requires same { length b.now ≡ length a.now }
    requires first { AreBlocks pen.old a.now }
    requires second { AreBlocks pen.old b.now }
    requires room { HasRoom pen.old (div_jobs pen.old.space (length a.now)) }
    ensures kept { Extends pen.old pen.new }
    ensures gives { OnOk result (GivesNumber pen.old pen.new out.old.items out.new.items
        (length a.now) (div_jobs pen.old.space (length a.now))
        (div_depth pen.old.space (length a.now)) (EachOf a.now b.now)
        (λ inputs. remainder
        (number_held pen.old a.now inputs) (number_held pen.old b.now inputs))) }
{
    let mut quot = Vec::new(pen.allocator());
    div_rem(pen, a, b, &mut quot, out)
}
