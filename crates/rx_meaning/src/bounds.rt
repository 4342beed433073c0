//! The bounds of a circuit: its jobs and its depth, by the cost table.
ghost use Rattle.std.specs.Prelude.{◌≡◌, ℕ, ◌≤◌, ◌^◌, ◌⊎◌, IfOk, IsTrue, slice_index};
ghost use Rattle.rx_language.specs.Programs.{kind_at};
ghost use Rattle.rx_meaning.specs.Kinds.{AreKinds, AreKnown, is_kind};
ghost use Rattle.rx_meaning.specs.Bounds.{cost_of, jobs_by, jobs_of, greatest, greatest_at, depth_after, depths_by, depth_of};

use crate::costs::cost_by;
use rx_costs::Cost;
use rx_language::{Circuit, Line, NameKind, Step};
use std::alloc::{AllocError, Global};

/// The most jobs that a net of the circuit has: the sum over its lines, used or not.
pub fn job_bound(circuit: &Circuit) -> u64
    ensures { result ≡ jobs_of circuit.now }
{
    total_jobs(circuit.space(), circuit.lines(), circuit.steps())
}

/// The greatest depth that a net of the circuit has: the greatest of its lines.
pub fn depth_bound(alloc: Global, circuit: &Circuit) -> Result<u32, AllocError>
    ensures { IfOk result (λ depth. depth ≡ depth_of circuit.now) }
{
    let depths = line_depths(alloc, circuit.space(), circuit.lines(), circuit.steps())?;
    Ok(greatest(&depths))
}

/// The jobs of all lines.
fn total_jobs(space: u32, lines: &[Line], steps: &[Step]) -> u64
    requires { AreKnown space lines.now steps.now }
    ensures { result ≡ jobs_by space lines.now steps.now }
{
    let mut jobs = 0;
    for (place, line) in lines.iter().enumerate() {
        let cost = cost_of(space, steps, line, &steps[place]);
        jobs += cost.jobs;
    }
    jobs
}

/// The depths of all lines.
fn line_depths(
    alloc: Global,
    space: u32,
    lines: &[Line],
    steps: &[Step],
) -> Result<Vec<u32>, AllocError>
    requires { AreKnown space lines.now steps.now }
    ensures { IfOk result (λ v. v.items ≡ depths_by space lines.now steps.now) }
{
    let mut depths = Vec::with_capacity(alloc, lines.len())?;
    for (place, line) in lines.iter().enumerate() {
        let step = &steps[place];
        let cost = cost_of(space, steps, line, step);
        let depth = depth_after(&depths, cost, step);
        depths.push(depth)?;
    }
    Ok(depths)
}

/// The cost of a line, where all steps tell the kind of its first argument.
fn cost_of(space: u32, steps: &[Step], line: &Line, step: &Step) -> Cost
    requires space { (space ≡ 2) ⊎ (space ≡ 3) }
    requires kinds { AreKinds space steps.now }
    requires kind { IsTrue (is_kind space step.now.kind) }
    ensures value { result ≡ cost_of space steps.now line.now step.now }
    ensures few { result.jobs ≤ 2 ^ 34 }
    ensures shallow { result.depth ≤ 2 ^ 13 }
{
    let first = match step.sources.as_slice().first() {
        Some(place) => kind_at(steps, *place),
        None => NameKind::Bit,
    };
    cost_by(line.word, space, step.kind, first)
}

/// The kind that the line at a place gives; a Bit past the end.
fn kind_at(steps: &[Step], place: usize) -> NameKind
    ensures { result ≡ kind_at steps.now place }
{
    match steps.get(place) {
        Some(step) => step.kind,
        None => NameKind::Bit,
    }
}

/// The depth of a line: its own, and the greatest of its arguments.
fn depth_after(before: &[u32], cost: Cost, step: &Step) -> u32
    requires below { (k : ℕ) → slice_index before.now k ≤ 2 ^ 30 }
    requires shallow { cost.depth ≤ 2 ^ 13 }
    ensures { result ≡ depth_after before.now cost step.now }
{
    cost.depth + greatest_at(before, step.sources.as_slice())
}

/// The greatest of the numbers at these places, 0 where there are none.
fn greatest_at(numbers: &[u32], places: &[usize]) -> u32
    ensures { result ≡ greatest_at numbers.now places.now }
{
    let mut most = 0;
    for place in places {
        most = number_at(numbers, *place).max(most);
    }
    most
}

fn number_at(numbers: &[u32], place: usize) -> u32
    ensures { result ≡ slice_index numbers.now place }
{
    match numbers.get(place) {
        Some(number) => *number,
        None => 0,
    }
}

/// The greatest number, 0 where there are none.
fn greatest(numbers: &[u32]) -> u32
    ensures { result ≡ greatest numbers.now }
{
    let mut most = 0;
    for number in numbers {
        most = (*number).max(most);
    }
    most
}
