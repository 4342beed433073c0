//! What goes out of each block, by a prefix of the states (Sklansky, Conditional-sum addition logic, 1960):
//! level `t` combines only the places whose bit `t` is set, each with the last place of the span before its
//! own.
ghost use Rattle.std.specs.Prelude.{◌≡◌, ◌<◌, ◌≤◌, ◌+◌, ◌*◌, ◌/◌, ◌%◌, ℕ, List, IfOk, length};
ghost use Rattle.rx_net.specs.Cells.{value, depth};
ghost use Rattle.rx_net.specs.Growth.{Extends};
ghost use Rattle.rx_costs.specs.Logs.{log_up};
ghost use Rattle.rx_plan.specs.Tables.{HasEntries};
ghost use Rattle.rx_plan.specs.Values.{AreInputs, cell_value};
ghost use Rattle.rx_plan.specs.Planned.{Each, AreCellsBy, HasRoom, Gives, Planned};
ghost use Rattle.rx_carry.specs.Carries.{combine, carry_of, tops_at};
ghost use Rattle.rx_carry.specs.Prefix.{combined_at, ones_below, stepped};

use rx_net::NetPen;
use rx_plan::pair;
use std::alloc::AllocError;

/// What goes out of each place, by their states.
pub(crate) fn prefix(
    pen: &mut NetPen,
    states: Vec<u32>,
    table: &[u8],
) -> Result<Vec<u32>, AllocError>
    requires few { length states.items ≤ 65536 }
    requires states { AreCellsBy pen.old (tops_at 1) states.items }
    requires table { HasEntries pen.old.space (λ i. combine (i / 3) (i % 3)) table.now }
    requires room { HasRoom pen.old (ones_below (length states.items)) }
    ensures kept { Extends pen.old pen.new }
    ensures planned { IfOk result (λ cells. Planned pen.old pen.new cells.items (λ _. 1)
        (length states.items) (ones_below (length states.items))
        (log_up 2 (length states.items)) (Each states.items)
        (λ xs i. carry_of (cell_value pen.old states.items xs) (i + 1))) }
{
    let _space = pen.space();
    let mut cells = states;
    let mut span = 1;
    while span < cells.len() {
        cells = level(pen, &cells, span, table)?;
        span *= 2;
    }
    Ok(cells)
}

/// One level, of spans of so many places.
fn level(
    pen: &mut NetPen,
    states: &[u32],
    span: usize,
    table: &[u8],
) -> Result<Vec<u32>, AllocError>
    requires span { 1 ≤ span }
    requires states { AreCellsBy pen.old (tops_at span) states.now }
    requires table { HasEntries pen.old.space (λ i. combine (i / 3) (i % 3)) table.now }
    requires room { HasRoom pen.old (combined_at span (length states.now)) }
    ensures kept { Extends pen.old pen.new }
    ensures planned { IfOk result (λ cells. Planned pen.old pen.new cells.items
        (tops_at (2 * span)) (length states.now) (combined_at span (length states.now)) 1
        (Each states.now) (λ xs i. stepped span (cell_value pen.old states.now xs) i)) }
{
    let _space = pen.space();
    let mut cells = Vec::new(pen.allocator());
    for i in 0..states.len() {
        let cell = advance(pen, states, i, span, table)?;
        cells.push(cell)?;
    }
    Ok(cells)
}

/// Place `i` after a level.
fn advance(
    pen: &mut NetPen,
    states: &[u32],
    i: usize,
    span: usize,
    table: &[u8],
) -> Result<u32, AllocError>
    requires place { i < length states.now }
    requires span { 1 ≤ span }
    requires states { AreCellsBy pen.old (tops_at span) states.now }
    requires table { HasEntries pen.old.space (λ i. combine (i / 3) (i % 3)) table.now }
    requires room { HasRoom pen.old (i / span % 2) }
    ensures kept { Extends pen.old pen.new }
    ensures gives { IfOk result (λ cell. Gives pen.old pen.new cell
        (tops_at (2 * span) i) (i / span % 2)) }
    ensures deep { IfOk result (λ cell. (d : ℕ) → Each states.now (λ o. depth pen.old o ≤ d)
        → depth pen.new cell ≤ d + 1) }
    ensures value { IfOk result (λ cell. (xs : List ℕ) → AreInputs pen.old xs
        → value pen.new xs cell ≡ stepped span (cell_value pen.old states.now xs) i) }
{
    let _space = pen.space();
    if i / span % 2 == 0 {
        Ok(states[i])
    } else {
        pair(pen, 3, states[i], states[i / span * span - 1], table)
    }
}
