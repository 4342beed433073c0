//! Nets of two inputs, for planners to add jobs to.
ghost use Rattle.std.specs.Prelude.{◌≡◌, ◌⊎◌, ◌≤◌, ◌+◌, ◌-◌, ◌*◌, ◌^◌, ◌<◌, ℕ, IfOk, length, get_or};
ghost use Rattle.rx_params.specs.declared.kind.Kind.TheVariants.{Int as Number};
ghost use Rattle.rx_tests_plans.specs.Operands.{AreOperands};

use rx_net::{NetInput, NetPen, PenError};
use rx_params::{Kind, Name};
use std::alloc::{AllocError, Global};

/// A pen with two numbers as its inputs, and their cells.
#[derive(Drop)]
pub struct Operands {
    pub pen: NetPen,
    pub a: Vec<u32>,
    pub b: Vec<u32>,
}

/// A pen of a space with two numbers of so many blocks as its inputs. It is refused where they have more than 64 bits.
pub fn two_numbers(
    alloc: Global,
    space: u32,
    blocks: u32,
    first: Name,
    second: Name,
) -> Result<Operands, PenError>
    requires space { (space ≡ 2) ⊎ (space ≡ 3) }
    requires few { blocks ≤ 32 }
    ensures { IfOk result (λ made.
        AreOperands made.pen space blocks made.a.items made.b.items) }
{
    let mut pen = NetPen::new(alloc, space);
    pen.input(number(space, blocks, first))?;
    pen.input(number(space, blocks, second))?;
    let a = cells_from(alloc, 0, blocks)?;
    let b = cells_from(alloc, blocks, blocks)?;
    Ok(Operands { pen, a, b })
}

/// A number whose blocks hold any digit.
fn number(space: u32, blocks: u32, name: Name) -> NetInput
    requires space { (space ≡ 2) ⊎ (space ≡ 3) }
    requires few { blocks ≤ 32 }
    ensures { result ≡ record {
      name = name;
      kind = Number;
      bits = space * blocks;
      degree = 2 ^ space - 1;
      noise = 1;
    } }
{
    NetInput {
        name,
        kind: Kind::Int,
        bits: space * blocks,
        degree: if space == 2 { 3 } else { 7 },
        noise: 1,
    }
}

/// So many cells from one on.
fn cells_from(alloc: Global, first: u32, count: u32) -> Result<Vec<u32>, AllocError>
    requires { first + count ≤ 64 }
    ensures count { IfOk result (λ cells. length cells.items ≡ count) }
    ensures each { IfOk result (λ cells. (i : ℕ) → i < count
        → get_or cells.items i 0 ≡ first + i) }
{
    let mut cells = Vec::new(alloc);
    for i in 0..count {
        cells.push(first + i)?;
    }
    Ok(cells)
}
