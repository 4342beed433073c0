//! Whether one of many cells is not 0, by groups as great as the noise allows.
ghost use Rattle.std.specs.Prelude.{◌≡◌, ◌⊎◌, ℕ, List, ◌<◌, ◌≤◌, ◌+◌, ◌-◌, ◌*◌, ◌^◌, max, IfOk, length, [], ◌∷◌};
ghost use Rattle.rx_net.specs.Cells.{value, depth};
ghost use Rattle.rx_net.specs.Growth.{Extends};
ghost use Rattle.rx_params.specs.Derived.{noise_limit};
ghost use Rattle.rx_plan.specs.Tables.{HasEntries};
ghost use Rattle.rx_plan.specs.Values.{AreInputs, cell_value, total};
ghost use Rattle.rx_plan.specs.Planned.{Each, AreBlocks, Gives, HasRoom, Planned};
ghost use Rattle.rx_costs.specs.Rounds.{groups};
ghost use Rattle.rx_carry.specs.Carries.{flipped};
ghost use Rattle.rx_cmp.specs.Groups.{is_some, joined, group_size, grouped, any_jobs};

use rx_net::NetPen;
use rx_plan::{sum, table_of, unit_of};
use std::alloc::{AllocError, Global};

/// A bit that is 1 where one of the blocks is not 0, or where none is: groups of as many blocks as the
/// noise allows are brought to one bit each, level by level.
pub fn any_set(pen: &mut NetPen, nodes: Vec<u32>, invert: bool) -> Result<u32, AllocError>
    requires some { 1 ≤ length nodes.items }
    requires blocks { AreBlocks pen.old nodes.items }
    requires room { HasRoom pen.old (any_jobs (length nodes.items)) }
    ensures kept { Extends pen.old pen.new }
    ensures planned { IfOk result (λ cell. (t : ℕ) →
        length nodes.items ≤ noise_limit pen.old.space ^ t → Planned pen.old pen.new (cell ∷ [])
        (λ _. 1) 1 (any_jobs (length nodes.items)) (max 1 t) (Each nodes.items)
        (λ inputs _. flipped invert
        (is_some (total (length nodes.items) (cell_value pen.old nodes.items inputs))))) }
{
    let space = pen.space();
    let most = usize::from(unit_of(space)) + 1;
    let table = some_table(pen.allocator(), space, false)?;
    let last = some_table(pen.allocator(), space, invert)?;
    any_by(pen, nodes, most, invert, &table, &last)
}

/// The same by groups of `most`, with a table for all levels and one for the last.
fn any_by(
    pen: &mut NetPen,
    nodes: Vec<u32>,
    most: usize,
    invert: bool,
    table: &[u8],
    last: &[u8],
) -> Result<u32, AllocError>
    requires some { 1 ≤ length nodes.items }
    requires most { most ≡ noise_limit pen.old.space }
    requires blocks { AreBlocks pen.old nodes.items }
    requires table { HasEntries pen.old.space is_some table.now }
    requires last { HasEntries pen.old.space (λ i. flipped invert (is_some i)) last.now }
    requires room { HasRoom pen.old (any_jobs (length nodes.items)) }
    ensures kept { Extends pen.old pen.new }
    ensures planned { IfOk result (λ cell. (t : ℕ) →
        length nodes.items ≤ most ^ t → Planned pen.old pen.new (cell ∷ [])
        (λ _. 1) 1 (any_jobs (length nodes.items)) (max 1 t) (Each nodes.items)
        (λ inputs _. flipped invert
        (is_some (total (length nodes.items) (cell_value pen.old nodes.items inputs))))) }
{
    let _space = pen.space();
    let mut nodes = nodes;
    while nodes.len() > most {
        nodes = gather(pen, &nodes, most, table)?;
    }
    sum(pen, &nodes, last)
}

/// One level: what stands for each group.
fn gather(
    pen: &mut NetPen,
    nodes: &[u32],
    most: usize,
    table: &[u8],
) -> Result<Vec<u32>, AllocError>
    requires most { most ≡ noise_limit pen.old.space }
    requires blocks { AreBlocks pen.old nodes.now }
    requires table { HasEntries pen.old.space is_some table.now }
    requires room { HasRoom pen.old (length nodes.now - groups most (length nodes.now)) }
    ensures kept { Extends pen.old pen.new }
    ensures planned { IfOk result (λ cells. Planned pen.old pen.new cells.items
        (λ _. 2 ^ pen.old.space - 1) (groups most (length nodes.now))
        (length nodes.now - groups most (length nodes.now)) 1 (Each nodes.now)
        (λ inputs i. grouped most (length nodes.now) (cell_value pen.old nodes.now inputs) i)) }
{
    let _space = pen.space();
    let mut cells = Vec::new(pen.allocator());
    for i in 0..nodes.len().div_ceil(most) {
        let size = size_of(most, nodes.len(), i);
        let cell = join(pen, nodes, i * most, size, table)?;
        cells.push(cell)?;
    }
    Ok(cells)
}

/// The size of group `i`.
fn size_of(most: usize, count: usize, i: usize) -> usize
    requires within { i * most < count }
    ensures size { result ≡ group_size most count i }
    ensures ends { i * most + result ≤ count }
    ensures most { result ≤ most }
    ensures some { 1 ≤ most → 1 ≤ result }
{
    (count - i * most).min(most)
}

/// What stands for one group.
fn join(
    pen: &mut NetPen,
    nodes: &[u32],
    first: usize,
    size: usize,
    table: &[u8],
) -> Result<u32, AllocError>
    requires some { 1 ≤ size }
    requires few { size ≤ noise_limit pen.old.space }
    requires place { first + size ≤ length nodes.now }
    requires blocks { AreBlocks pen.old nodes.now }
    requires table { HasEntries pen.old.space is_some table.now }
    requires room { HasRoom pen.old (size - 1) }
    ensures kept { Extends pen.old pen.new }
    ensures gives { IfOk result (λ cell. Gives pen.old pen.new cell
        (2 ^ pen.old.space - 1) (size - 1)) }
    ensures deep { IfOk result (λ cell. (d : ℕ) → Each nodes.now (λ o. depth pen.old o ≤ d) →
        depth pen.new cell ≤ d + 1) }
    ensures value { IfOk result (λ cell. (inputs : List ℕ) → AreInputs pen.old inputs →
        value pen.new inputs cell
        ≡ joined size (λ j. cell_value pen.old nodes.now inputs (first + j))) }
{
    let _space = pen.space();
    if size == 1 {
        Ok(nodes[first])
    } else {
        sum(pen, &nodes[first..first + size], table)
    }
}

/// The table of whether an index is not 0, or is.
fn some_table(alloc: Global, space: u32, invert: bool) -> Result<Vec<u8>, AllocError>
    requires { (space ≡ 2) ⊎ (space ≡ 3) }
    ensures { IfOk result (λ table. HasEntries space
        (λ i. flipped invert (is_some i)) table.items) }
{
    table_of(
        alloc,
        space,
        |i: u8| -> u8
            ensures { result ≡ flipped invert (is_some i) }
        { flip(some_of(i), invert) },
    )
}

fn some_of(i: u8) -> u8
    ensures { result ≡ is_some i }
{
    if i == 0 { 0 } else { 1 }
}

/// A bit, or its opposite.
pub(crate) fn flip(bit: u8, invert: bool) -> u8
    ensures { result ≡ flipped invert bit }
{
    if invert {
        if bit == 0 { 1 } else { 0 }
    } else {
        bit
    }
}
