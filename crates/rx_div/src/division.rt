//! A quotient and a remainder, bit by bit from the top of the numerator.
ghost use Rattle.std.specs.Prelude.{◌≡◌, ◌≤◌, ◌+◌, ◌-◌, ◌*◌, ◌^◌, ◌++◌, IfOk, OnOk, OnErr, length};
ghost use Rattle.rx_params.specs.Kinds.{digit_at};
ghost use Rattle.rx_net.specs.Growth.{Extends};
ghost use Rattle.rx_costs.specs.Table.{div_jobs, div_depth};
ghost use Rattle.rx_plan.specs.Values.{number_held};
ghost use Rattle.rx_plan.specs.Planned.{EachOf, AreBlocks, HasRoom, Planned};
ghost use Rattle.rx_plan.specs.Results.{GivesNumber};
ghost use Rattle.rx_residue.specs.Division.{quotient, remainder};

use crate::digits::digits;
use crate::steps::divided;
use rx_net::NetPen;
use rx_plan::nought;
use rx_shift::low_bits;
use std::alloc::AllocError;

/// The blocks of a quotient and of its remainder.
#[derive(Debug, Drop)]
struct Divided {
    quot: Vec<u32>,
    rest: Vec<u32>,
}

/// Appends `a / b` to `quot` and `a % b` to `rest`, for numbers without a sign; where `b` is 0 the
/// quotient is the greatest number of so many blocks, and the remainder is `a`. A step a bit. The
/// only error is want of memory, after which both lists are as before.
pub fn div_rem(
    pen: &mut NetPen,
    a: &[u32],
    b: &[u32],
    quot: &mut Vec<u32>,
    rest: &mut Vec<u32>,
) -> Result<(), AllocError>
    requires some { 1 ≤ length a.now }
    requires same { length b.now ≡ length a.now }
    requires first { AreBlocks pen.old a.now }
    requires second { AreBlocks pen.old b.now }
    requires room { HasRoom pen.old (div_jobs pen.old.space (length a.now)) }
    ensures kept { Extends pen.old pen.new }
    ensures unchanged { OnErr result ((quot.new.items ≡ quot.old.items)
        × (rest.new.items ≡ rest.old.items)) }
    ensures quotient { OnOk result (GivesNumber pen.old pen.new quot.old.items quot.new.items
        (length a.now) (div_jobs pen.old.space (length a.now))
        (div_depth pen.old.space (length a.now)) (EachOf a.now b.now)
        (λ inputs. quotient (pen.old.space * length a.now)
        (number_held pen.old a.now inputs) (number_held pen.old b.now inputs))) }
    ensures remainder { OnOk result (GivesNumber pen.old pen.new rest.old.items rest.new.items
        (length a.now) (div_jobs pen.old.space (length a.now))
        (div_depth pen.old.space (length a.now)) (EachOf a.now b.now)
        (λ inputs. remainder
        (number_held pen.old a.now inputs) (number_held pen.old b.now inputs))) }
{
    let _space = pen.space();
    let made = both(pen, a, b)?;
    append(quot, &made.quot, rest, &made.rest)?;
    Ok(())
}

/// Appends to both lists, or to none.
fn append(
    quot: &mut Vec<u32>,
    more_quot: &[u32],
    rest: &mut Vec<u32>,
    more_rest: &[u32],
) -> Result<(), AllocError>
    ensures unchanged { OnErr result ((quot.new.items ≡ quot.old.items)
        × (rest.new.items ≡ rest.old.items)) }
    ensures quotient { OnOk result (quot.new.items ≡ quot.old.items ++ more_quot.now) }
    ensures remainder { OnOk result (rest.new.items ≡ rest.old.items ++ more_rest.now) }
{
    let before = quot.len();
    quot.extend_from_slice(more_quot)?;
    match rest.extend_from_slice(more_rest) {
        Ok(()) => Ok(()),
        Err(error) => {
            quot.truncate(before);
            Err(error)
        }
    }
}

/// The blocks of both.
fn both(pen: &mut NetPen, a: &[u32], b: &[u32]) -> Result<Divided, AllocError>
    requires some { 1 ≤ length a.now }
    requires same { length b.now ≡ length a.now }
    requires first { AreBlocks pen.old a.now }
    requires second { AreBlocks pen.old b.now }
    requires room { HasRoom pen.old (div_jobs pen.old.space (length a.now)) }
    ensures kept { Extends pen.old pen.new }
    ensures quotient { IfOk result (λ made. Planned pen.old pen.new made.quot.items
        (λ _. 2 ^ pen.old.space - 1) (length a.now)
        (div_jobs pen.old.space (length a.now)) (div_depth pen.old.space (length a.now))
        (EachOf a.now b.now)
        (λ inputs i. digit_at pen.old.space (quotient (pen.old.space * length a.now)
        (number_held pen.old a.now inputs) (number_held pen.old b.now inputs)) i)) }
    ensures remainder { IfOk result (λ made. Planned pen.old pen.new made.rest.items
        (λ _. 2 ^ pen.old.space - 1) (length a.now)
        (div_jobs pen.old.space (length a.now)) (div_depth pen.old.space (length a.now))
        (EachOf a.now b.now)
        (λ inputs i. digit_at pen.old.space (remainder
        (number_held pen.old a.now inputs) (number_held pen.old b.now inputs)) i)) }
{
    let space = pen.space();
    let nought = nought(pen)?;
    let bits = low_bits(pen, a, space * a.len() as u32)?;
    let made = divided(pen, &bits, b, nought)?;
    let quot = digits(pen, &made.borrows, a.len())?;
    Ok(Divided {
        quot,
        rest: made.rest,
    })
}
