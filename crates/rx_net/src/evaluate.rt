//! What the cells of a net hold, and how deep they are.
ghost use Rattle.std.specs.Prelude.{◌≡◌, ◌↔◌, ◌⊎◌, pos, ◌≤ℤ◌, ◌<◌, ◌≤◌, length, map, get_or, IfOk, IsTrue};
ghost use Rattle.std.specs.List.{AllByRecursion};
ghost use Rattle.rx_net.specs.Limits.{most_terms};
ghost use Rattle.rx_net.specs.Tags.{value_of, greatest_of, natural};
ghost use Rattle.rx_net.specs.Cells.{Within, input_cells, values_after, net_depth};
ghost use Rattle.rx_net.specs.Legal.{Legal};

use crate::net::{Net, NetInput};
use crate::tags::{input_cells, tags_at};
use crate::term::{Term, scaled};
use std::alloc::{AllocError, Global};

/// Whether there is one value for each input cell of a legal net, and none is past the degree of its cell:
/// what `plain` asks of its inputs.
pub fn are_within(net: &Net, inputs: &[u8]) -> bool
    requires { Legal net.now }
    ensures { IsTrue result ↔ Within net.now.space net.now.inputs inputs.now }
{
    inputs.len() == input_cells(net.space, net.inputs.as_slice()) as usize
        && are_bounded(net.space, net.inputs.as_slice(), inputs)
}

/// Whether no value is past the degree of its input cell.
fn are_bounded(space: u32, inputs: &[NetInput], values: &[u8]) -> bool
    requires space { (space ≡ 2) ⊎ (space ≡ 3) }
    requires few { length values.now ≤ 2048 }
    requires count { length values.now ≡ input_cells space inputs.now }
    ensures { IsTrue result ↔ Within space inputs.now values.now }
{
    for (cell, value) in values.iter().enumerate() {
        if *value > tags_at(space, inputs, &[], cell as u32).degree {
            return false;
        }
    }
    true
}

/// The value of each cell of a legal net, those of the inputs first, for one value of each input cell, within its
/// degree (`are_within`). The error is want of memory.
pub fn plain(alloc: Global, net: &Net, inputs: &[u8]) -> Result<Vec<u8>, AllocError>
    requires legal { Legal net.now }
    requires within { Within net.now.space net.now.inputs inputs.now }
    ensures { IfOk result (λ values. values.items ≡ values_after inputs.now net.now.jobs) }
{
    let mut values = Vec::from_slice(alloc, inputs)?;
    for job in net.jobs.as_slice() {
        let index = weighted_sum(&values, job.terms.as_slice(), job.constant);
        values.push(entry_at(job.table.as_slice(), index))?;
    }
    Ok(values)
}

fn entry_at(table: &[u8], index: i32) -> u8
    requires low { pos 0 ≤ℤ index }
    requires high { natural index < length table.now }
    ensures { result ≡ get_or table.now (natural index) 0 }
{
    table[index as usize]
}

/// The sum of a constant and of weight times value over the terms.
fn weighted_sum(values: &[u8], terms: &[Term], constant: i16) -> i32
    requires few { length terms.now ≤ most_terms }
    requires forward { AllByRecursion (λ t. t.cell < length values.now) terms.now }
    ensures { result ≡ value_of (λ c. get_or values.now c 0) constant terms.now }
{
    let mut sum = i32::from(constant);
    for term in terms {
        sum += scaled(term.weight, values[term.cell as usize]);
    }
    sum
}

/// The depth of a legal net: the greatest depth of a job, 0 where it has none. A job is one deeper than the deepest of
/// its cells, and an input's cell has the depth 0. The error is want of memory.
pub fn depth(alloc: Global, net: &Net) -> Result<u32, AllocError>
    requires { Legal net.now }
    ensures { IfOk result (λ depth. depth ≡ net_depth net.now) }
{
    let count = input_cells(net.space, net.inputs.as_slice()) as usize;
    let mut depths = vec![in alloc; 0; count]?;
    let mut most = 0;
    for job in net.jobs.as_slice() {
        let deeper = deepest(&depths, job.terms.as_slice()) + 1;
        depths.push(deeper)?;
        if deeper > most {
            most = deeper;
        }
    }
    Ok(most)
}

/// The greatest depth of the cells of terms, 0 where there are none.
fn deepest(depths: &[u32], terms: &[Term]) -> u32
    requires { AllByRecursion (λ t. t.cell < length depths.now) terms.now }
    ensures value { result ≡ greatest_of (map (λ t. get_or depths.now t.cell 0) terms.now) }
    ensures most { result ≤ greatest_of depths.now }
{
    let mut most = 0;
    for term in terms {
        let depth = depths[term.cell as usize];
        if depth > most {
            most = depth;
        }
    }
    most
}
