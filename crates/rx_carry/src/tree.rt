//! What goes out of the last block, by a balanced tree of the states.
ghost use Rattle.std.specs.Prelude.{◌≡◌, ◌<◌, ◌≤◌, ◌+◌, ◌-◌, ◌*◌, ◌/◌, ◌%◌, ◌^◌, ℕ, List, [], ◌∷◌, IfOk, length};
ghost use Rattle.rx_net.specs.Cells.{value, depth};
ghost use Rattle.rx_net.specs.Growth.{Extends};
ghost use Rattle.rx_costs.specs.Logs.{log_up};
ghost use Rattle.rx_plan.specs.Tables.{HasEntries};
ghost use Rattle.rx_plan.specs.Values.{AreInputs, cell_value};
ghost use Rattle.rx_plan.specs.Planned.{Each, AreCellsBy, HasRoom, Gives, Planned};
ghost use Rattle.rx_carry.specs.Carries.{combine, carry_of, flipped, tops_at};
ghost use Rattle.rx_carry.specs.Tree.{halved, join_jobs};

use crate::tables::combine_table;
use rx_net::NetPen;
use rx_plan::pair;
use std::alloc::AllocError;

/// What goes out of the last of at least two states, or the opposite, which costs no job more.
pub fn top(pen: &mut NetPen, states: Vec<u32>, invert: bool) -> Result<u32, AllocError>
    requires two { 2 ≤ length states.items }
    requires states { AreCellsBy pen.old (tops_at 1) states.items }
    requires room { HasRoom pen.old (length states.items - 1) }
    ensures kept { Extends pen.old pen.new }
    ensures planned { IfOk result (λ cell. Planned pen.old pen.new (cell ∷ []) (λ _. 1) 1
        (length states.items - 1) (log_up 2 (length states.items)) (Each states.items)
        (λ xs _. flipped invert
        (carry_of (cell_value pen.old states.items xs) (length states.items)))) }
{
    let space = pen.space();
    let table = combine_table(pen.allocator(), space, false)?;
    let last = combine_table(pen.allocator(), space, invert)?;
    let nodes = two_nodes(pen, states, &table)?;
    pair(pen, 3, nodes[1], nodes[0], &last)
}

/// The last two nodes of the tree of at least two states.
fn two_nodes(pen: &mut NetPen, states: Vec<u32>, table: &[u8]) -> Result<Vec<u32>, AllocError>
    requires two { 2 ≤ length states.items }
    requires few { length states.items ≤ 2 ^ 20 }
    requires states { AreCellsBy pen.old (tops_at 1) states.items }
    requires table { HasEntries pen.old.space (λ i. combine (i / 3) (i % 3)) table.now }
    requires room { HasRoom pen.old (length states.items - 2) }
    ensures kept { Extends pen.old pen.new }
    ensures planned { IfOk result (λ nodes. Planned pen.old pen.new nodes.items (tops_at 1) 2
        (length states.items - 2) (log_up 2 (length states.items) - 1) (Each states.items)
        (λ xs i. cell_value pen.new nodes.items xs i)) }
    ensures value { IfOk result (λ nodes. (xs : List ℕ) → AreInputs pen.old xs
        → carry_of (cell_value pen.new nodes.items xs) 2
        ≡ carry_of (cell_value pen.old states.items xs) (length states.items)) }
{
    let _space = pen.space();
    let mut nodes = states;
    while nodes.len() > 2 {
        nodes = halve(pen, &nodes, table)?;
    }
    Ok(nodes)
}

/// One level of the tree.
fn halve(pen: &mut NetPen, nodes: &[u32], table: &[u8]) -> Result<Vec<u32>, AllocError>
    requires few { length nodes.now ≤ 2 ^ 20 }
    requires nodes { AreCellsBy pen.old (tops_at 1) nodes.now }
    requires table { HasEntries pen.old.space (λ i. combine (i / 3) (i % 3)) table.now }
    requires room { HasRoom pen.old (length nodes.now / 2) }
    ensures kept { Extends pen.old pen.new }
    ensures planned { IfOk result (λ cells. Planned pen.old pen.new cells.items (tops_at 1)
        ((length nodes.now + 1) / 2) (length nodes.now / 2) 1 (Each nodes.now)
        (λ xs i. halved (length nodes.now) (cell_value pen.old nodes.now xs) i)) }
{
    let _space = pen.space();
    let mut cells = Vec::new(pen.allocator());
    for i in 0..nodes.len().div_ceil(2) {
        let cell = join(pen, nodes, i, table)?;
        cells.push(cell)?;
    }
    Ok(cells)
}

/// Node `i` of the next level.
fn join(pen: &mut NetPen, nodes: &[u32], i: usize, table: &[u8]) -> Result<u32, AllocError>
    requires place { 2 * i < length nodes.now }
    requires few { length nodes.now ≤ 2 ^ 20 }
    requires nodes { AreCellsBy pen.old (tops_at 1) nodes.now }
    requires table { HasEntries pen.old.space (λ i. combine (i / 3) (i % 3)) table.now }
    requires room { HasRoom pen.old (join_jobs (length nodes.now) i) }
    ensures kept { Extends pen.old pen.new }
    ensures gives { IfOk result (λ cell. Gives pen.old pen.new cell
        (tops_at 1 i) (join_jobs (length nodes.now) i)) }
    ensures deep { IfOk result (λ cell. (d : ℕ) → Each nodes.now (λ o. depth pen.old o ≤ d)
        → depth pen.new cell ≤ d + 1) }
    ensures value { IfOk result (λ cell. (xs : List ℕ) → AreInputs pen.old xs
        → value pen.new xs cell
        ≡ halved (length nodes.now) (cell_value pen.old nodes.now xs) i) }
{
    let _space = pen.space();
    if 2 * i + 1 < nodes.len() {
        pair(pen, 3, nodes[2 * i + 1], nodes[2 * i], table)
    } else {
        Ok(nodes[2 * i])
    }
}
